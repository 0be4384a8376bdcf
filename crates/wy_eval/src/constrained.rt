//! Which types reach one with clauses.
ghost use Rattle.std.specs.Prelude.{◌≡◌, IfOk, IsTrue, length, map, suc};
ghost use Rattle.wy_core.specs.CoreSeen.{field_tys_of, seen_alias, seen_ty};
ghost use Rattle.wy_sem.specs.TypeTests.{mentions as spec_mentions, mentions_fields};
ghost use Rattle.wy_eval.specs.Marks.{marked, marks_after, reached, rounds};

use std::alloc::{AllocError, Global};
use wy_core::{Alias, Ty, TyKind};
use wy_data::Name;

/// For each declared type, by its number, whether one with clauses is reached from it. It takes a walk
/// over the declared types for each step of the longest chain of names to a clause.
pub fn constrained_names(alloc: Global, types: &[Alias]) -> Result<Vec<bool>, AllocError>
    ensures value { IfOk result (λ marks. marks.items ≡ rounds (map seen_alias types.now) (suc (length types.now))) }
{
    let mut marks = Vec::new(alloc);
    for alias in types {
        let _each = alias;
        marks.push(false)?;
    }
    for round in 0..types.len() {
        let _each = round;
        let held = marks.as_slice();
        let next = next_marks(alloc, types, held)?;
        let fresh = next.as_slice();
        if same_marks(held, fresh) {
            return Ok(marks);
        }
        marks = next;
    }
    let held = marks.as_slice();
    let last = next_marks(alloc, types, held)?;
    Ok(last)
}

// The names that have clauses or mention a marked name.
fn next_marks(alloc: Global, types: &[Alias], marks: &[bool]) -> Result<Vec<bool>, AllocError>
    ensures value { IfOk result (λ next. next.items ≡ marks_after (map seen_alias types.now) marks.now) }
{
    let mut next = Vec::new(alloc);
    for alias in types {
        let mark = is_reached(alias, marks);
        next.push(mark)?;
    }
    Ok(next)
}

// Whether the type has clauses, or mentions a marked name.
fn is_reached(alias: &Alias, marks: &[bool]) -> bool
    ensures value { result ≡ reached marks.now (seen_alias alias.now) }
{
    if !alias.clauses.is_empty() {
        return true;
    }
    mentions(marks, &alias.ty)
}

// Whether both lists are the same.
fn same_marks(a: &[bool], b: &[bool]) -> bool
    ensures value { IsTrue result → a.now ≡ b.now }
{
    a == b
}

/// Whether one of the marked names stands in the type as it is written. It takes time linear in the
/// type.
#[cycle(mentions)]
pub fn mentions(marks: &[bool], ty: &Ty) -> bool
    ensures value { result ≡ spec_mentions (marked marks.now) (seen_ty ty.now) }
{
    match &ty.kind {
        TyKind::Null => false,
        TyKind::Bool => false,
        TyKind::Int => false,
        TyKind::Any => false,
        TyKind::Void => false,
        TyKind::Record(fields) => mentioned_in(marks, fields.as_slice()),
        TyKind::Array(item) => mentions(marks, item.get()),
        TyKind::Union(left, right) => {
            if mentions(marks, left.get()) {
                return true;
            }
            mentions(marks, right.get())
        }
        TyKind::Inter(left, right) => {
            if mentions(marks, left.get()) {
                return true;
            }
            mentions(marks, right.get())
        }
        TyKind::Not(operand) => mentions(marks, operand.get()),
        TyKind::Named(number) => mark_of(marks, *number),
        TyKind::Normal(_) => false,
    }
}

fn mark_of(marks: &[bool], number: u32) -> bool
    ensures value { result ≡ marked marks.now number }
{
    let number = number as usize;
    if number < marks.len() {
        return marks[number];
    }
    false
}

#[cycle(mentions)]
fn mentioned_in(marks: &[bool], fields: &[(Name, Ty)]) -> bool
    ensures value { result ≡ mentions_fields (marked marks.now) (field_tys_of (map (λ f. (f.0, seen_ty f.1)) fields.now)) }
{
    for field in fields {
        if mentions(marks, &field.1) {
            return true;
        }
    }
    false
}
