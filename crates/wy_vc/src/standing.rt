//! The named types that hypotheses test, kept from one goal to the next.
//!
//! Hypotheses of a goal are those of the one before up to where they part. They stand one on the other here, with the types that they test
//! and how many of these there were before each of them; so where they part the types of the shared front are at hand, and only what comes
//! behind it is looked at.
ghost use Rattle.std.specs.Prelude.{◌≡◌, ◌<◌, ◌++◌, ◌∷◌, [], ℕ, List, length as count_of, get_or, map, take, IfOk, OnOk};
ghost use Rattle.wy_vc_spec.specs.Limits.{is_among, tests_in_all};
ghost use Rattle.wy_term.specs.Nodes.{Plain, tree_at};
ghost use Rattle.wy_vc_body.specs.wy_vc_operations.Growing.{AreBelow};
ghost use Rattle.wy_vc.specs.Standing as spec;
ghost use Rattle.wy_vc.specs.Tested.{AreQuiet};

use crate::limits::shared_front;
use crate::testing::types_of_root;
use std::alloc::{AllocError, Global};
use wy_term::{NoMemory, Terms};

/// Hypotheses, one on the other, the named types that they test, each once, and how many of these the hypotheses before each one test.
#[derive(Drop)]
pub struct Standing {
    hyps: Vec<u32>,
    types: Vec<u32>,
    counts: Vec<usize>,
}

/// No hypotheses.
pub fn nothing_stands(alloc: Global) -> Standing
    ensures stands { (nodes : List Plain) → spec.Stands nodes result }
{
    Standing {
        hyps: Vec::new(alloc),
        types: Vec::new(alloc),
        counts: Vec::new(alloc),
    }
}

// Whether this is one of the numbers.
fn is_one_of(numbers: &[u32], number: u32) -> bool
    ensures value { result ≡ is_among numbers.now number }
{
    for one in numbers {
        if *one == number {
            return true;
        }
    }
    false
}

// Puts a type behind the others, where it isn't among them.
fn put_new(types: &mut Vec<u32>, number: u32) -> Result<(), AllocError>
    ensures value { OnOk result (spec.AreJoined types.old.items (number ∷ []) types.new.items) }
{
    let known = is_one_of(types.as_slice(), number);
    if known {
        return Ok(());
    }
    types.push(number)?;
    Ok(())
}

// Puts those that aren't among them yet behind the others.
fn put_all_new(types: &mut Vec<u32>, more: &[u32]) -> Result<(), AllocError>
    ensures value { OnOk result (spec.AreJoined types.old.items more.now types.new.items) }
{
    for number in more {
        put_new(types, *number)?;
    }
    Ok(())
}

// How many types the hypotheses before this one test; where there is none, all do.
fn count_before(standing: &Standing, index: usize) -> usize
    ensures value { result ≡ get_or standing.now.counts.items index (count_of standing.now.types.items) }
{
    match standing.counts.get(index) {
        None => standing.types.len(),
        Some(count) => *count,
    }
}

// So many hypotheses stay.
fn cut_to(_terms: &Terms, standing: &mut Standing, front: usize)
    requires stands { spec.Stands _terms.now standing.old }
    ensures stands { spec.Stands _terms.now standing.new }
    ensures hyps { standing.new.hyps.items ≡ take front standing.old.hyps.items }
{
    let count = count_before(standing, front);
    standing.types.truncate(count);
    standing.hyps.truncate(front);
    standing.counts.truncate(front);
}

// A hypothesis more.
fn stand(terms: &Terms, testing: &[bool], standing: &mut Standing, hyp: u32) -> Result<(), NoMemory>
    requires within { hyp < count_of terms.now }
    requires quiet { AreQuiet terms.now testing.now }
    requires stands { spec.Stands terms.now standing.old }
    ensures stands { OnOk result (spec.Stands terms.now standing.new) }
    ensures hyps { OnOk result (standing.new.hyps.items ≡ standing.old.hyps.items ++ hyp ∷ []) }
{
    let own = types_of_root(terms, testing, hyp)?;
    standing.counts.push(standing.types.len())?;
    standing.hyps.push(hyp)?;
    put_all_new(&mut standing.types, own.as_slice())?;
    Ok(())
}

// These hypotheses stand in place of others.
fn turn_to(
    terms: &Terms,
    testing: &[bool],
    standing: &mut Standing,
    hyps: &[u32],
) -> Result<(), NoMemory>
    requires within { AreBelow (count_of terms.now) hyps.now }
    requires quiet { AreQuiet terms.now testing.now }
    requires stands { spec.Stands terms.now standing.old }
    ensures stands { OnOk result (spec.Stands terms.now standing.new) }
    ensures hyps { OnOk result (standing.new.hyps.items ≡ hyps.now) }
{
    let front = shared_front(standing.hyps.as_slice(), hyps);
    cut_to(terms, standing, front);
    for index in front..hyps.len() {
        stand(terms, testing, standing, hyps[index])?;
    }
    Ok(())
}

// The types that stand, and then these.
fn types_and(alloc: Global, standing: &Standing, more: &[u32]) -> Result<Vec<u32>, AllocError>
    ensures value { IfOk result (λ ns. ns.items ≡ standing.now.types.items ++ more.now) }
{
    let mut types = Vec::from_slice(alloc, standing.types.as_slice())?;
    types.extend_from_slice(more)?;
    Ok(types)
}

/// The numbers of the named types that these hypotheses and the goal test. The hypotheses stand from then on in place of others. Where they
/// have a front of those that stood, only hypotheses behind it are looked at: linear in how many terms those of these and the goal that test
/// a type are made of, in the types that are tested, each once, and, by a comparison of two numbers, in the hypotheses.
pub fn types_behind(
    terms: &Terms,
    testing: &[bool],
    standing: &mut Standing,
    hyps: &[u32],
    goal: u32,
) -> Result<Vec<u32>, NoMemory>
    requires within { AreBelow (count_of terms.now) hyps.now }
    requires goal { goal < count_of terms.now }
    requires quiet { AreQuiet terms.now testing.now }
    requires stands { spec.Stands terms.now standing.old }
    ensures stands { OnOk result (spec.Stands terms.now standing.new) }
    ensures value { IfOk result (λ ns. (n : ℕ) → is_among ns.items n ≡ is_among (tests_in_all (map (tree_at terms.now) (hyps.now ++ goal ∷ []))) n) }
{
    turn_to(terms, testing, standing, hyps)?;
    let own = types_of_root(terms, testing, goal)?;
    let types = types_and(terms.allocator(), standing, own.as_slice())?;
    Ok(types)
}
