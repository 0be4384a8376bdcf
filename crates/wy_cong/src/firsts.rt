//! A kind for each class, by the place of a term that has it.
ghost use Rattle.std.specs.Prelude.{◌≡◌, ◌<◌, ℕ, if◌then◌else◌, ◌==◌, true, false, Some, nat_eq, length, IfOk, IfSome, OnOk};
ghost use Rattle.std.specs.HashMap.{get};
ghost use Rattle.wy_cong.specs.Firsts.{kind_at, HaveKinds, IsFirst, IsOther, KeepsKinds};
ghost use Rattle.wy_cong.specs.Kinded.{kinded, AreKinded};
ghost use Rattle.wy_cong.specs.Seen.{terms_of, IsPresent};
ghost use Rattle.wy_search_spec.specs.Classes as classes;
ghost use Rattle.wy_term.specs.Nodes.{plain_kind, tree_at};
ghost use Rattle.wy_term.specs.Same.{same_kind as same_kind_of};
ghost use Rattle.wy_term.specs.Term.{DataKind};
ghost use Rattle.wy_search_spec.specs.wy_check_spec.valid.Kinds.{in_one_kind, in_two_kinds};

use crate::kinds::Kinded;
use crate::places::class_number;
use crate::present::Present;
use std::collections::HashMap;
use wy_check_splits::same_kind;
use wy_items::at;
use wy_term::{Kind, NoMemory, Terms};

// Whether the kind at a place is another than this one.
fn is_other(kinds: &[Kinded], first: usize, kind: &Kind) -> bool
    ensures { result ≡ false → kind_at kinds.now (Some first) ≡ Some (plain_kind kind.now) }
{
    match at(kinds, first) {
        Some(p) => !same_kind(&p.kind, kind),
        None => true,
    }
}

fn put(firsts: &mut HashMap<u64, usize>, class: u64, place: usize) -> Result<(), NoMemory>
    ensures { OnOk result ((k : ℕ) → get nat_eq firsts.new k ≡ (if class == k then Some place else get nat_eq firsts.old k)) }
{
    firsts.insert(class, place)?;
    Ok(())
}

fn first_of(firsts: &HashMap<u64, usize>, class: u64) -> Option<usize>
    ensures { result ≡ get nat_eq firsts.now class }
{
    firsts.get(&class).copied()
}

// Notes the place of a kind with its class, where it is the first. Whether the class has another kind.
fn note_kind(
    firsts: &mut HashMap<u64, usize>,
    kinds: &[Kinded],
    class: u64,
    place: usize,
    kind: &Kind,
) -> Result<bool, NoMemory>
    requires { kind_at kinds.now (Some place) ≡ Some (plain_kind kind.now) }
    ensures here { IfOk result (λ other. other ≡ false → kind_at kinds.now (get nat_eq firsts.new class) ≡ Some (plain_kind kind.now)) }
    ensures kept { OnOk result (KeepsKinds kinds.now (get nat_eq firsts.old) (get nat_eq firsts.new)) }
{
    match first_of(firsts, class) {
        Some(first) => Ok(is_other(kinds, first, kind)),
        None => {
            put(firsts, class, place)?;
            Ok(false)
        }
    }
}

// So for the term at a place, if there is one.
fn note_place(
    terms: &Terms,
    present: &Present,
    labels: &[u32],
    firsts: &mut HashMap<u64, usize>,
    kinds: &[Kinded],
    place: usize,
) -> Result<bool, NoMemory>
    requires kinds { AreKinded (length terms.now) kinds.now }
    requires present { IsPresent terms.now present.now }
    ensures here { IfOk result (λ other. other ≡ false → IsFirst (terms_of (tree_at terms.now) present.now) labels.now (tree_at terms.now) kinds.now (get nat_eq firsts.new) place) }
    ensures kept { OnOk result (KeepsKinds kinds.now (get nat_eq firsts.old) (get nat_eq firsts.new)) }
{
    match at(kinds, place) {
        Some(p) => {
            let class = class_number(terms, present, labels, p.term);
            note_kind(firsts, kinds, class, place, &p.kind)
        }
        None => Ok(false),
    }
}

// The place of a kind for each class, unless one is seen to have two kinds.
fn first_kinds(
    terms: &Terms,
    present: &Present,
    labels: &[u32],
    kinds: &[Kinded],
) -> Result<Option<HashMap<u64, usize>>, NoMemory>
    requires kinds { AreKinded (length terms.now) kinds.now }
    requires present { IsPresent terms.now present.now }
    ensures { IfOk result (λ o. IfSome o (λ firsts. HaveKinds (terms_of (tree_at terms.now) present.now) labels.now (tree_at terms.now) kinds.now (get nat_eq firsts) (length kinds.now))) }
{
    let mut firsts = HashMap::with_capacity(terms.allocator(), kinds.len())?;
    for i in 0..kinds.len() {
        if note_place(terms, present, labels, &mut firsts, kinds, i)? {
            return Ok(None);
        }
    }
    Ok(Some(firsts))
}

// Whether the kind at a place is this one.
fn is_kind(kinds: &[Kinded], first: usize, kind: &Kind) -> bool
    ensures { result ≡ false → (k : DataKind) → kind_at kinds.now (Some first) ≡ Some k → same_kind_of k (plain_kind kind.now) ≡ false }
{
    match at(kinds, first) {
        Some(p) => same_kind(&p.kind, kind),
        None => false,
    }
}

// Whether a term's class is seen to have a kind.
fn has_kind(firsts: &HashMap<u64, usize>, kinds: &[Kinded], class: u64, kind: &Kind) -> bool
    ensures { result ≡ false → (k : DataKind) → kind_at kinds.now (get nat_eq firsts.now class) ≡ Some k → same_kind_of k (plain_kind kind.now) ≡ false }
{
    match first_of(firsts, class) {
        Some(first) => is_kind(kinds, first, kind),
        None => false,
    }
}

// So for the term at a place, if there is one.
fn holds_kind(
    terms: &Terms,
    present: &Present,
    labels: &[u32],
    firsts: &HashMap<u64, usize>,
    kinds: &[Kinded],
    denied: &[Kinded],
    place: usize,
) -> bool
    requires denied { AreKinded (length terms.now) denied.now }
    requires present { IsPresent terms.now present.now }
    ensures { result ≡ false → IsOther (terms_of (tree_at terms.now) present.now) labels.now (tree_at terms.now) kinds.now (get nat_eq firsts.now) denied.now place }
{
    match at(denied, place) {
        Some(q) => {
            let class = class_number(terms, present, labels, q.term);
            has_kind(firsts, kinds, class, &q.kind)
        }
        None => false,
    }
}

// So for one of these.
fn any_holds_kind(
    terms: &Terms,
    present: &Present,
    labels: &[u32],
    firsts: &HashMap<u64, usize>,
    kinds: &[Kinded],
    denied: &[Kinded],
) -> bool
    requires denied { AreKinded (length terms.now) denied.now }
    requires present { IsPresent terms.now present.now }
    ensures { result ≡ false → (j : ℕ) → j < length denied.now → IsOther (terms_of (tree_at terms.now) present.now) labels.now (tree_at terms.now) kinds.now (get nat_eq firsts.now) denied.now j }
{
    for i in 0..denied.len() {
        if holds_kind(terms, present, labels, firsts, kinds, denied, i) {
            return true;
        }
    }
    false
}

/// Whether it is seen that no class has two of the given kinds, or one of them that is denied, in linear time on average.
pub fn kinds_agree(
    terms: &Terms,
    present: &Present,
    labels: &[u32],
    given: &[Kinded],
    denied: &[Kinded],
) -> Result<bool, NoMemory>
    requires given { AreKinded (length terms.now) given.now }
    requires denied { AreKinded (length terms.now) denied.now }
    requires present { IsPresent terms.now present.now }
    ensures two { IfOk result (λ yes. yes ≡ true → classes.any_kinds in_two_kinds (terms_of (tree_at terms.now) present.now) labels.now (kinded (tree_at terms.now) given.now) (kinded (tree_at terms.now) given.now) ≡ false) }
    ensures one { IfOk result (λ yes. yes ≡ true → classes.any_kinds in_one_kind (terms_of (tree_at terms.now) present.now) labels.now (kinded (tree_at terms.now) given.now) (kinded (tree_at terms.now) denied.now) ≡ false) }
{
    terms.one_number_for_each_term();
    match first_kinds(terms, present, labels, given)? {
        Some(firsts) => Ok(!any_holds_kind(terms, present, labels, &firsts, given, denied)),
        None => Ok(false),
    }
}
