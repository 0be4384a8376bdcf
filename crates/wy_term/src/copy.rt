//! Copying a term from one list to another.
ghost use Rattle.std.specs.Prelude.{nat_eq, ◌≡◌, ◌==◌, if◌then◌else◌, ◌<◌, ℕ, All, None, Some, length, IfOk, IfSome, OnOk};
ghost use Rattle.std.specs.HashMap.{get};
ghost use Rattle.wy_term.specs.Nodes.{tree_at, node_at as plain_at};
ghost use Rattle.wy_term.specs.Numbers.{IsAt, Keeps};
ghost use Rattle.wy_term.specs.Copying.{AreCopied, Looked};

use crate::parts::{parts_of, with_parts};
use crate::terms::Terms;
use std::alloc::Global;
use std::collections::HashMap;
use wy_value::NoMemory;

/// Nothing is made yet.
pub fn nothing_made(alloc: Global) -> HashMap<u32, u32>
    ensures { (q : ℕ) → get nat_eq result q ≡ None }
{
    HashMap::new(alloc)
}

/// What a term became, if it was made already.
pub fn image_of(made: &HashMap<u32, u32>, t: u32) -> Option<u32>
    ensures { result ≡ get nat_eq made.now t }
{
    made.get(&t).copied()
}

/// Notes what a term became.
pub fn note(made: &mut HashMap<u32, u32>, t: u32, image: u32) -> Result<(), NoMemory>
    ensures { OnOk result ((q : ℕ) → get nat_eq made.new q ≡ (if t == q then Some image else get nat_eq made.old q)) }
{
    made.insert(t, image)?;
    Ok(())
}

/// What the parts of a term became, where all of them were made already; else the term, and above it the parts from the
/// first one on that wasn't, are put on the list of what is to be made.
pub fn looked_up(
    made: &HashMap<u32, u32>,
    parts: &[u32],
    todo: &mut Vec<u32>,
    t: u32,
) -> Result<Option<Vec<u32>>, NoMemory>
    ensures value { IfOk result (λ o. IfSome o (λ images. Looked (get nat_eq made.now) parts.now images.items)) }
    ensures todo { (n : ℕ) → t < n → All (λ k. k < n) todo.old.items → All (λ k. k < n) parts.now → All (λ k. k < n) todo.new.items }
{
    let mut images = Vec::new(*todo.allocator());
    for (k, part) in parts.iter().enumerate() {
        match image_of(made, *part) {
            Some(image) => images.push(image)?,
            None => {
                todo.push(t)?;
                todo.extend_from_slice(&parts[k..])?;
                return Ok(None);
            }
        }
    }
    Ok(Some(images))
}

// A term of another list, made of what its parts became.
fn with_images(
    terms: &mut Terms,
    from: &Terms,
    _made: &HashMap<u32, u32>,
    t: u32,
    images: &[u32],
) -> Result<u32, NoMemory>
    requires within { t < length from.now }
    requires made { AreCopied from.now terms.old (get nat_eq _made.now) }
    requires looked { Looked (get nat_eq _made.now) (plain_at from.now t).parts images.now }
    ensures value { IfOk result (λ r. IsAt terms.new r (tree_at from.now t)) }
    ensures keeps { Keeps terms.old terms.new }
    ensures made { AreCopied from.now terms.new (get nat_eq _made.now) }
{
    let node = with_parts(terms.allocator(), from.node(t), images)?;
    terms.put(node)
}

// A term of another list, made from its parts where all of them are there already.
fn copied_from_parts(
    terms: &mut Terms,
    from: &Terms,
    made: &HashMap<u32, u32>,
    todo: &mut Vec<u32>,
    t: u32,
) -> Result<Option<u32>, NoMemory>
    requires within { t < length from.now }
    requires todo { All (λ k. k < length from.now) todo.old.items }
    requires made { AreCopied from.now terms.old (get nat_eq made.now) }
    ensures value { IfOk result (λ o. IfSome o (λ r. IsAt terms.new r (tree_at from.now t))) }
    ensures keeps { Keeps terms.old terms.new }
    ensures within { t < length from.now }
    ensures made { AreCopied from.now terms.new (get nat_eq made.now) }
    ensures todo { All (λ k. k < length from.now) todo.new.items }
{
    let parts = parts_of(terms.allocator(), from.node(t))?;
    match looked_up(made, &parts, todo, t)? {
        None => Ok(None),
        Some(images) => match with_images(terms, from, made, t, &images) {
            Ok(r) => Ok(Some(r)),
            Err(e) => Err(e),
        },
    }
}

// Notes what a term of another list became.
fn note_copy(
    _terms: &Terms,
    _from: &Terms,
    made: &mut HashMap<u32, u32>,
    t: u32,
    r: u32,
) -> Result<(), NoMemory>
    requires within { t < length _from.now }
    requires image { IsAt _terms.now r (tree_at _from.now t) }
    requires made { AreCopied _from.now _terms.now (get nat_eq made.old) }
    ensures made { OnOk result (AreCopied _from.now _terms.now (get nat_eq made.new)) }
{
    note(made, t, r)
}

/// A term of another list, here. It works on a list of what is to be made, and makes each term of the other list once, so
/// it takes time linear in their number and that of their parts.
pub fn copied(terms: &mut Terms, from: &Terms, root: u32) -> Result<u32, NoMemory>
    requires { root < length from.now }
    ensures value { IfOk result (λ r. IsAt terms.new r (tree_at from.now root)) }
    ensures keeps { Keeps terms.old terms.new }
{
    let alloc = terms.allocator();
    let mut made = nothing_made(alloc);
    let mut todo = Vec::new(alloc);
    for _turn in 0..u64::MAX {
        let t = todo.pop().unwrap_or(root);
        if made.contains_key(&t) {
            continue;
        }
        if let Some(r) = copied_from_parts(terms, from, &made, &mut todo, t)? {
            if t == root {
                return Ok(r);
            }
            note_copy(terms, from, &mut made, t, r)?;
        }
    }
    Err(NoMemory)
}
