//! Denied equations inside a class, and different constants in one.
ghost use Rattle.std.specs.Prelude.{◌≡◌, ◌<◌, true, false, nat_eq, length, IfOk, OnOk};
ghost use Rattle.std.specs.HashMap.{get};
ghost use Rattle.wy_cong.specs.Seen.{terms_of, IsPresent};
ghost use Rattle.wy_cong.specs.Pairs.{apart_in_class};
ghost use Rattle.wy_cong.specs.Signatures.{IsNoted, IsTold, Keeps};
ghost use Rattle.wy_check_splits.specs.wy_check_nodes.Seen.{IsBranch, seen_branch};
ghost use Rattle.wy_search_spec.specs.Classes as classes;
ghost use Rattle.wy_term.specs.Nodes.{tree_at};

use crate::groups::{Groups, note};
use crate::places::{class_number, in_one_class};
use crate::present::Present;
use std::collections::HashMap;
use wy_check_splits::{Branch, are_apart, constant_at, nth_literal};
use wy_term::{NoMemory, Node, Terms};

// Whether this is a denied equation inside a class.
fn denies_equal(terms: &Terms, present: &Present, labels: &[u32], atom: u32, holds: bool) -> bool
    requires atom { atom < length terms.now }
    requires present { IsPresent terms.now present.now }
    ensures { result ≡ classes.denies_equal (terms_of (tree_at terms.now) present.now) labels.now holds (tree_at terms.now atom) }
{
    if holds {
        return false;
    }
    match terms.node(atom) {
        Node::Equal(v, w) => in_one_class(terms, present, labels, *v, *w),
        _ => false,
    }
}

/// Whether a literal is a denied equation inside a class, in time linear in the number of literals.
pub fn any_denies(terms: &Terms, branch: &Branch, present: &Present, labels: &[u32]) -> bool
    requires branch { IsBranch terms.now branch.now }
    requires present { IsPresent terms.now present.now }
    ensures { result ≡ classes.any_denies (terms_of (tree_at terms.now) present.now) labels.now (seen_branch (tree_at terms.now) branch.now).literals }
{
    for i in 0..branch.literals.len() {
        let (atom, holds) = nth_literal(terms, branch, i);
        if denies_equal(terms, present, labels, atom, holds) {
            return true;
        }
    }
    false
}

// Whether two terms are different constants in one class.
fn are_clashing(terms: &Terms, present: &Present, labels: &[u32], s: u32, t: u32) -> bool
    requires first { s < length terms.now }
    requires second { t < length terms.now }
    requires present { IsPresent terms.now present.now }
    ensures { result ≡ apart_in_class (terms_of (tree_at terms.now) present.now) labels.now (tree_at terms.now s) (tree_at terms.now t) }
{
    let c = constant_at(terms, s);
    let d = constant_at(terms, t);
    if !are_apart(c, d) {
        return false;
    }
    in_one_class(terms, present, labels, s, t)
}

// Whether one of the terms is another constant than this one, in its class.
fn constants_apart(terms: &Terms, present: &Present, labels: &[u32], s: u32) -> bool
    requires term { s < length terms.now }
    requires present { IsPresent terms.now present.now }
    ensures { result ≡ classes.constants_apart (terms_of (tree_at terms.now) present.now) labels.now (tree_at terms.now s) (terms_of (tree_at terms.now) present.now) }
{
    if constant_at(terms, s).is_none() {
        return false;
    }
    for i in 0..present.numbers.len() {
        if are_clashing(terms, present, labels, s, present.numbers[i]) {
            return true;
        }
    }
    false
}

// Notes a constant with its class.
fn note_constant(
    terms: &Terms,
    present: &Present,
    labels: &[u32],
    groups: &mut Groups,
    s: u32,
) -> Result<(), NoMemory>
    requires term { s < length terms.now }
    requires present { IsPresent terms.now present.now }
    ensures here { OnOk result (IsNoted terms.now (terms_of (tree_at terms.now) present.now) labels.now (get nat_eq groups.new.found) s) }
    ensures kept { OnOk result (Keeps (get nat_eq groups.old.found) (get nat_eq groups.new.found)) }
    ensures told { OnOk result (IsTold groups.old → IsTold groups.new) }
{
    let constant = constant_at(terms, s);
    if constant.is_none() {
        return Ok(());
    }
    let class = class_number(terms, present, labels, s);
    note(groups, class, u64::from(s))
}

// Whether it is seen that no class has two constants, in linear time on average.
fn are_single(terms: &Terms, present: &Present, labels: &[u32]) -> Result<bool, NoMemory>
    requires { IsPresent terms.now present.now }
    ensures { IfOk result (λ yes. yes ≡ true → classes.any_apart (terms_of (tree_at terms.now) present.now) labels.now (terms_of (tree_at terms.now) present.now) ≡ false) }
{
    let mut groups = Groups {
        found: HashMap::new(terms.allocator()),
        parted: false,
    };
    terms.one_number_for_each_term();
    for i in 0..present.numbers.len() {
        note_constant(terms, present, labels, &mut groups, present.numbers[i])?;
    }
    Ok(!groups.parted)
}

/// Whether two different constants are in one class. It takes time linear in the number of terms on average where none are;
/// else it compares constants with terms, until it comes to two.
pub fn any_apart(terms: &Terms, present: &Present, labels: &[u32]) -> Result<bool, NoMemory>
    requires { IsPresent terms.now present.now }
    ensures { IfOk result (λ yes. yes ≡ classes.any_apart (terms_of (tree_at terms.now) present.now) labels.now (terms_of (tree_at terms.now) present.now)) }
{
    if are_single(terms, present, labels)? {
        return Ok(false);
    }
    for i in 0..present.numbers.len() {
        if constants_apart(terms, present, labels, present.numbers[i]) {
            return Ok(true);
        }
    }
    Ok(false)
}
