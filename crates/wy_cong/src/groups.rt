//! Terms by their signatures, and which classes those of one signature are in.
ghost use Rattle.std.specs.Prelude.{◌≡◌, ◌<◌, ◌||◌, true, false, Some, nat_eq, length, slice_index, IfOk, OnOk};
ghost use Rattle.std.specs.HashMap.{get};
ghost use Rattle.wy_cong.specs.Seen.{terms_of, IsPresent};
ghost use Rattle.wy_cong.specs.Signatures.{are_several, covers, with_class as with_class_of, AreGrouped, IsGrouped, IsTold, Keeps, PutsGroup};
ghost use Rattle.wy_search_spec.specs.Classes as classes;
ghost use Rattle.wy_term.specs.Nodes.{tree_at};

use crate::congruent::is_bare;
use crate::places::class_number;
use crate::present::Present;
use crate::signature::signature;
use std::collections::HashMap;
use wy_term::{NoMemory, Terms};

/// The classes of the terms of one signature.
#[derive(Clone, Copy)]
pub enum Group {
    One(u64),
    Several,
}

/// The classes of the terms of each signature, and whether one has several.
#[derive(Drop)]
pub struct Groups {
    pub found: HashMap<u64, Group>,
    pub parted: bool,
}

// The classes that are noted with a signature.
fn group_of(found: &HashMap<u64, Group>, key: u64) -> Option<Group>
    ensures { result ≡ get nat_eq found.now key }
{
    found.get(&key).copied()
}

fn put(found: &mut HashMap<u64, Group>, key: u64, group: Group) -> Result<(), NoMemory>
    ensures { OnOk result (PutsGroup (get nat_eq found.old) (get nat_eq found.new) key group) }
{
    found.insert(key, group)?;
    Ok(())
}

// The classes that are noted, and one more.
fn with_class(known: Option<Group>, class: u64) -> Group
    ensures { result ≡ with_class_of known class }
{
    match known {
        None => Group::One(class),
        Some(Group::Several) => Group::Several,
        Some(Group::One(other)) => {
            if other == class {
                Group::One(other)
            } else {
                Group::Several
            }
        }
    }
}

// Whether there were several classes with a signature, or are with this one.
fn parted_by(parted: bool, group: Group) -> bool
    ensures { result ≡ (are_several (Some group) || parted) }
{
    match group {
        Group::One(_) => parted,
        Group::Several => true,
    }
}

/// Notes a class with a signature, in constant time on average.
pub fn note(groups: &mut Groups, key: u64, class: u64) -> Result<(), NoMemory>
    ensures here { OnOk result (covers (get nat_eq groups.new.found key) class ≡ true) }
    ensures kept { OnOk result (Keeps (get nat_eq groups.old.found) (get nat_eq groups.new.found)) }
    ensures told { OnOk result (IsTold groups.old → IsTold groups.new) }
{
    let group = with_class(group_of(&groups.found, key), class);
    put(&mut groups.found, key, group)?;
    groups.parted = parted_by(groups.parted, group);
    Ok(())
}

// Notes the class of a term with its signature, unless it has no parts.
fn note_term(
    terms: &Terms,
    present: &Present,
    labels: &[u32],
    groups: &mut Groups,
    s: u32,
) -> Result<(), NoMemory>
    requires term { s < length terms.now }
    requires present { IsPresent terms.now present.now }
    ensures here { OnOk result (IsGrouped terms.now (terms_of (tree_at terms.now) present.now) labels.now (get nat_eq groups.new.found) s) }
    ensures kept { OnOk result (Keeps (get nat_eq groups.old.found) (get nat_eq groups.new.found)) }
    ensures told { OnOk result (IsTold groups.old → IsTold groups.new) }
{
    if is_bare(terms.node(s)) {
        return Ok(());
    }
    let key = signature(terms, present, labels, s)?;
    let class = class_number(terms, present, labels, s);
    note(groups, key, class)
}

// Whether the terms of a signature aren't in several classes.
fn is_one(groups: &Groups, key: u64) -> bool
    ensures { result ≡ true → are_several (get nat_eq groups.now.found key) ≡ false }
{
    match group_of(&groups.found, key) {
        None => true,
        Some(Group::One(_)) => true,
        Some(Group::Several) => false,
    }
}

/// The terms present that have parts, by their signatures, in time linear in their number and that of their parts on
/// average.
pub fn grouped(terms: &Terms, present: &Present, labels: &[u32]) -> Result<Groups, NoMemory>
    requires { IsPresent terms.now present.now }
    ensures { IfOk result (AreGrouped terms.now (terms_of (tree_at terms.now) present.now) labels.now present.now.numbers.items) }
{
    let mut groups = Groups {
        found: HashMap::with_capacity(terms.allocator(), present.numbers.len())?,
        parted: false,
    };
    terms.one_number_for_each_term();
    for i in 0..present.numbers.len() {
        note_term(terms, present, labels, &mut groups, present.numbers[i])?;
    }
    Ok(groups)
}

/// Whether the term at a place is seen to be congruent to terms of its class alone, in time linear in the number of its
/// parts on average.
pub fn is_settled(
    terms: &Terms,
    present: &Present,
    labels: &[u32],
    groups: &Groups,
    i: usize,
) -> Result<bool, NoMemory>
    requires place { i < length present.now.numbers.items }
    requires present { IsPresent terms.now present.now }
    requires groups { AreGrouped terms.now (terms_of (tree_at terms.now) present.now) labels.now present.now.numbers.items groups.now }
    ensures { IfOk result (λ yes. yes ≡ true → classes.with_congruent (terms_of (tree_at terms.now) present.now) labels.now (tree_at terms.now (slice_index present.now.numbers.items i)) (terms_of (tree_at terms.now) present.now) ≡ labels.now) }
{
    let s = present.numbers[i];
    if is_bare(terms.node(s)) {
        return Ok(true);
    }
    let key = signature(terms, present, labels, s)?;
    Ok(is_one(groups, key))
}
