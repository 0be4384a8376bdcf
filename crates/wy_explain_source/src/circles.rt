//! Types and properties that lead back to themselves.
use crate::{Class, NoMemory, Page, Seen};
use std::alloc::Global;

/// The way by which the use of a name in this declaration leads back to that declaration, by names of this class: of types with no record
/// and no array on it, or of calls of properties. The declarations, the first one last too; nothing where there is no such way.
pub fn circle_of(
    alloc: Global,
    seen: &Seen,
    decl: usize,
    name: &[u8],
    class: Class,
) -> Result<Vec<usize>, NoMemory> {
    let mut reached: Vec<(usize, usize)> = Vec::new(alloc);
    let start = match seen.decl_named(name) {
        Some(start) => start,
        None => return Ok(Vec::new(alloc)),
    };
    reached.push((start, usize::MAX))?;
    let mut next = 0usize;
    for _ in 0..4096 {
        let here = match reached.get(next) {
            Some(here) => here.0,
            None => break,
        };
        if here == decl {
            return way(alloc, decl, reached.as_slice(), next);
        }
        put_uses(seen, &mut reached, here, next, class)?;
        next = next.saturating_add(1);
    }
    Ok(Vec::new(alloc))
}

// The way to what was reached with this number, from the declaration on.
fn way(
    alloc: Global,
    decl: usize,
    reached: &[(usize, usize)],
    last: usize,
) -> Result<Vec<usize>, NoMemory> {
    let mut back: Vec<usize> = Vec::new(alloc);
    let mut here = last;
    for _ in 0..4096 {
        match reached.get(here) {
            Some(step) => {
                back.push(step.0)?;
                here = step.1;
            }
            None => break,
        }
    }
    back.push(decl)?;
    back.reverse();
    Ok(back)
}

// Puts those declarations behind the others that this one mentions by names of this class, types outside of records and arrays.
fn put_uses(
    seen: &Seen,
    reached: &mut Vec<(usize, usize)>,
    decl: usize,
    from: usize,
    class: Class,
) -> Result<(), NoMemory> {
    let mut number = 0usize;
    for node in seen.nodes.all() {
        if node.decl == decl && node.class == class && is_bare(seen, number) {
            match seen.decl_named(seen.text(node.name)) {
                Some(other) => {
                    if !reached.iter().any(|step| step.0 == other) {
                        reached.push((other, from))?;
                    }
                }
                None => {}
            }
        }
        number = number.saturating_add(1);
    }
    Ok(())
}

// Whether a mention stands in no record and no array, and in no clause.
fn is_bare(seen: &Seen, node: usize) -> bool {
    let mut here = node;
    for _ in 0..4096 {
        let now = match seen.nodes.get(here) {
            Some(now) => now,
            None => return true,
        };
        match now.class {
            Class::FieldType | Class::RecordType | Class::ArrayType | Class::Is => return false,
            _ => {}
        }
        here = now.parent;
    }
    true
}

/// Writes a way, as `A -> B -> A`.
pub fn put_circle(seen: &Seen, page: &mut Page, circle: &[usize]) -> Result<(), NoMemory> {
    let mut is_first = true;
    for decl in circle {
        if !is_first {
            page.text(" -> ")?;
        }
        is_first = false;
        match seen.nodes.get(*decl) {
            Some(node) => page.code(seen.text(node.name))?,
            None => {}
        }
    }
    Ok(())
}
