//! A term put for a name in a term or formula.
ghost use Rattle.std.specs.Prelude.{◌≡◌, ◌<◌, ◌≤◌, ℕ, length, IfOk, OnErr};
ghost use Rattle.wy_term.specs.Nodes.{tree_at};
ghost use Rattle.wy_term_subst.specs.Substitution.{substituted};
ghost use Rattle.wy_term_subst.specs.View.{Kept};

use crate::names::{int_names, none_taken, take_numbers};
use crate::scope::with_pair;
use crate::walk::put;
use crate::within::made_of;
use wy_term::{NoMemory, Terms};

// The same, where older numbers may be followed by others at want of memory.
fn substituted(terms: &mut Terms, f: u32, name: u32, t: u32) -> Result<u32, NoMemory>
    requires formula { f < length terms.old }
    requires name { name < length terms.old }
    requires term { t < length terms.old }
    ensures kept { Kept terms.old terms.new }
    ensures within { IfOk result (λ r. r < length terms.new) }
    ensures value { IfOk result (λ r. tree_at terms.new r ≡ substituted (tree_at terms.old f) (tree_at terms.old name) (tree_at terms.old t)) }
{
    let alloc = terms.allocator();
    let in_formula = made_of(terms, f)?;
    let in_term = made_of(terms, t)?;
    let mut taken = none_taken(alloc);
    take_numbers(terms, &in_term, &mut taken)?;
    take_numbers(terms, &in_formula, &mut taken)?;
    let avoided = int_names(terms, &in_term)?;
    let scope = with_pair(alloc, (name, t), &[])?;
    put(terms, &avoided, scope, taken, f)
}

/// The number of the term or formula that comes of one where a term is put for a name, made anew from its leaves up and
/// folded as it is made. Before that each of its quantifiers that binds a name which stands in the term, free or bound,
/// binds a new name, outer ones first, in the order in which they are written: of the same word, with the number one above
/// all numbers of names there then are.
///
/// Older numbers name what they named, and at want of memory no other is left. It takes time linear in how many terms both
/// are made of and their parts, each counted once, and once more for each name that is bound anew or hidden; a term in which
/// a quantifier is renamed is made as often as it stands in the whole, since each time the name is another one. A name takes
/// time linear in how many of the quantifiers around it are renamed.
pub fn subst(terms: &mut Terms, f: u32, name: u32, t: u32) -> Result<u32, NoMemory>
    requires formula { f < length terms.old }
    requires name { name < length terms.old }
    requires term { t < length terms.old }
    ensures tree { IfOk result (λ r. tree_at terms.new r ≡ substituted (tree_at terms.old f) (tree_at terms.old name) (tree_at terms.old t)) }
    ensures within { IfOk result (λ r. r < length terms.new) }
    ensures kept { (k : ℕ) → k < length terms.old → tree_at terms.new k ≡ tree_at terms.old k }
    ensures grows { length terms.old ≤ length terms.new }
    ensures no_memory { OnErr result (length terms.new ≡ length terms.old) }
{
    let mark = terms.mark();
    match substituted(terms, f, name, t) {
        Ok(term) => Ok(term),
        Err(e) => {
            terms.back_to(mark);
            Err(e)
        }
    }
}
