//! Paths that come together, and the terms that a variable has on them.
ghost use Rattle.std.specs.Prelude.{◌≡◌, ◌<◌, ◌≤◌, ℕ, List, length as count_of, drop, IfOk, Some, option_map};
ghost use Rattle.wy_vc_exprs.specs.wy_vc_spec.Joins as spec;
ghost use Rattle.wy_vc_exprs.specs.wy_vc_spec.Variables.{slot_at as slot_of};
ghost use Rattle.wy_term.specs.Nodes.{Plain, tree_at};
ghost use Rattle.wy_vc_body.specs.Paths.{ArePaths, seen_paths};
ghost use Rattle.wy_vc_exprs.specs.wy_vc_operations.Growing.{IsSlotBelow};
ghost use Rattle.wy_vc_exprs.specs.Slots.{AreSlots, slots_of};

use crate::here::{Here, is_set};
use std::alloc::{AllocError, Global};
use wy_term::Terms;
use wy_vc_exprs::{Walk, slot_at};

/// A path that comes to a join: what it assumed since the paths parted, by the numbers of the formulas, and what is known of variables at
/// its end.
#[derive(Drop)]
pub struct Path {
    pub since: Vec<u32>,
    pub here: Here,
}

/// The path to where a walk stands, of which the first so many hypotheses were there before. Linear in what is known.
pub fn path_here(alloc: Global, walk: &Walk, here: &Here, base: usize) -> Result<Path, AllocError>
    requires { base ≤ count_of walk.now.hyps.items }
    ensures since { IfOk result (λ p. p.since.items ≡ drop base walk.now.hyps.items) }
    ensures vars { IfOk result (λ p. p.here.vars.items ≡ here.now.vars.items) }
    ensures set { IfOk result (λ p. p.here.set.items ≡ here.now.set.items) }
{
    let hyps = walk.hyps.as_slice();
    let since = Vec::from_slice(alloc, &hyps[base..])?;
    let here = here.copy(alloc)?;
    Ok(Path { since, here })
}

// The greater of two counts.
fn larger(a: usize, b: usize) -> usize
    ensures value { result ≡ spec.max a b }
{
    if a < b { b } else { a }
}

/// How many variables there are on some path.
pub fn most_vars(paths: &[Path]) -> usize
    ensures value { (nodes : List Plain) → result ≡ spec.most_vars (seen_paths nodes paths.now) }
{
    let mut most = 0;
    for path in paths {
        most = larger(most, path.here.vars.as_slice().len());
    }
    most
}

// Whether the variable has a term.
fn is_known(vars: &[Option<u32>], x: u32) -> bool
    ensures value { (nodes : List Plain) → result ≡ spec.is_known (slot_of (slots_of nodes vars.now) x) }
{
    match slot_at(vars, x) {
        None => false,
        Some(_) => true,
    }
}

// Whether the variable has this term.
fn is_term(terms: &Terms, vars: &[Option<u32>], x: u32, term: u32) -> bool
    requires slots { AreSlots terms.now vars.now }
    requires term { term < count_of terms.now }
    ensures value { result ≡ spec.is_term (slot_of (slots_of terms.now vars.now) x) (tree_at terms.now term) }
{
    match slot_at(vars, x) {
        None => false,
        Some(other) => {
            if (other as usize) < terms.len() {
                terms.same(other, term)
            } else {
                false
            }
        }
    }
}

// Whether the variable has a term on each path.
fn known_on_all(paths: &[Path], x: u32) -> bool
    ensures value { (nodes : List Plain) → result ≡ spec.known_on_all (seen_paths nodes paths.now) x }
{
    for path in paths {
        if !is_known(path.here.vars.as_slice(), x) {
            return false;
        }
    }
    true
}

// Whether the variable has this term on each path.
fn same_on_all(terms: &Terms, paths: &[Path], x: u32, term: u32) -> bool
    requires paths { ArePaths terms.now paths.now }
    requires term { term < count_of terms.now }
    ensures value { result ≡ spec.same_on_all (seen_paths terms.now paths.now) x (tree_at terms.now term) }
{
    for path in paths {
        if !is_term(terms, path.here.vars.as_slice(), x, term) {
            return false;
        }
    }
    true
}

// Whether the variable has a term on each path, and not this one on all.
fn differ_from(terms: &Terms, paths: &[Path], x: u32, term: u32) -> bool
    requires paths { ArePaths terms.now paths.now }
    requires term { term < count_of terms.now }
    ensures value { result ≡ spec.differ_from (seen_paths terms.now paths.now) x (Some (tree_at terms.now term)) }
{
    let known = known_on_all(paths, x);
    let same = same_on_all(terms, paths, x, term);
    known && !same
}

/// Whether each path has a term for the variable, and they are not all the same. Linear in the paths.
pub fn differ(terms: &Terms, paths: &[Path], x: u32) -> bool
    requires paths { ArePaths terms.now paths.now }
    ensures value { result ≡ spec.differ (seen_paths terms.now paths.now) x }
{
    match paths.split_first() {
        None => false,
        Some((first, rest)) => match slot_at(first.here.vars.as_slice(), x) {
            None => false,
            Some(term) => {
                if (term as usize) < terms.len() {
                    differ_from(terms, rest, x, term)
                } else {
                    false
                }
            }
        },
    }
}

/// The variable's term on the first path that has one. Linear in the paths.
pub fn first_term(paths: &[Path], x: u32) -> Option<u32>
    ensures value { (nodes : List Plain) → option_map (tree_at nodes) result ≡ spec.first_term (seen_paths nodes paths.now) x }
    ensures within { (nodes : List Plain) → ArePaths nodes paths.now → IsSlotBelow (count_of nodes) result }
{
    for path in paths {
        match slot_at(path.here.vars.as_slice(), x) {
            None => {}
            Some(term) => return Some(term),
        }
    }
    None
}

/// Whether the variable has a value on each path. Linear in the paths.
pub fn set_on_all(paths: &[Path], x: u32) -> bool
    ensures value { (nodes : List Plain) → result ≡ spec.set_on_all (seen_paths nodes paths.now) x }
{
    for path in paths {
        if !is_set(path.here.set.as_slice(), x) {
            return false;
        }
    }
    true
}
