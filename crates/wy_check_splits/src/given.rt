//! Which kinds a literal gives and denies to which terms.
ghost use Rattle.std.specs.Prelude.{◌≡◌, ◌<◌, ◌++◌, ◌∷◌, [], ℕ, if◌then◌else◌, length, option_map, IfOk, OnOk};
ghost use Rattle.wy_check_nodes.specs.wy_term.Term.{Term};
ghost use Rattle.wy_check_nodes.specs.wy_term.Nodes.{plain_kind, tree_at};
ghost use Rattle.wy_check_nodes.specs.wy_term.Rewriting.{kind_given};
ghost use Rattle.wy_check_nodes.specs.wy_facts.Seen.{terms_at, AreBelow};
ghost use Rattle.wy_check_nodes.specs.Seen.{seen_branch, IsBranch};
ghost use Rattle.wy_check_nodes.specs.wy_check_spec.valid.Kinds.{sides_of, equated_to, each_of_kind, of_kind_given, given_by, denied_by};
ghost use Rattle.wy_check_splits.specs.Groups.{of_group, kinded, AreGroups};

use crate::kinds::{copied_kind, kind_given};
use std::alloc::Global;
use wy_check_nodes::{Branch, Kind, NoMemory, Node, Terms, nth_literal};

/// Terms of one kind.
#[derive(Drop)]
pub struct Group {
    pub terms: Vec<u32>,
    pub kind: Kind,
}

/// Two groups of terms, each of one kind; a group that isn't there has no terms.
#[derive(Drop)]
pub struct Groups {
    pub first: Group,
    pub second: Group,
}

// ---- what is equated with a term

// One term more, if it is wanted.
fn push_if(all: &mut Vec<u32>, wanted: bool, t: u32) -> Result<(), NoMemory>
    ensures { OnOk result (all.new.items ≡ all.old.items ++ (if wanted then t ∷ [] else [])) }
{
    if wanted {
        all.push(t)?;
    }
    Ok(())
}

// The other side of an equation of which a term is a side.
fn push_sides(
    terms: &Terms,
    all: &mut Vec<u32>,
    atom: u32,
    holds: bool,
    s: u32,
) -> Result<(), NoMemory>
    requires atom { atom < length terms.now }
    requires term { s < length terms.now }
    requires all { AreBelow (length terms.now) all.old.items }
    ensures value { OnOk result (terms_at terms.now all.new.items ≡ terms_at terms.now all.old.items ++ sides_of holds (tree_at terms.now atom) (tree_at terms.now s)) }
    ensures all { OnOk result (AreBelow (length terms.now) all.new.items) }
{
    if !holds {
        return Ok(());
    }
    match terms.node(atom) {
        Node::Equal(v, w) => {
            push_if(all, terms.same(*v, s), *w)?;
            push_if(all, terms.same(*w, s), *v)?;
            Ok(())
        }
        _ => Ok(()),
    }
}

// A term, and the terms that an equation among the literals joins to it, in time linear in the number of literals.
fn with_equated(terms: &Terms, branch: &Branch, s: u32) -> Result<Vec<u32>, NoMemory>
    requires branch { IsBranch terms.now branch.now }
    requires term { s < length terms.now }
    ensures value { IfOk result (λ ts. terms_at terms.now ts.items ≡ tree_at terms.now s ∷ equated_to (seen_branch (tree_at terms.now) branch.now).literals (tree_at terms.now s)) }
    ensures below { IfOk result (λ ts. AreBelow (length terms.now) ts.items) }
{
    let mut all = Vec::from_slice(terms.allocator(), &[s])?;
    for i in 0..branch.literals.len() {
        let (atom, holds) = nth_literal(terms, branch, i);
        push_sides(terms, &mut all, atom, holds, s)?;
    }
    Ok(all)
}

// ---- groups

// No terms.
fn no_group(alloc: Global) -> Group
    ensures { result.terms.items ≡ [] }
{
    Group {
        terms: Vec::new(alloc),
        kind: Kind::Null,
    }
}

// A term of this kind, or none where there is no kind.
fn one_group(alloc: Global, t: u32, kind: Option<Kind>) -> Result<Group, NoMemory>
    ensures value { (at : ℕ → Term) → IfOk result (λ g. of_group at g ≡ of_kind_given (at t) (option_map plain_kind kind)) }
    ensures below { (n : ℕ) → t < n → IfOk result (λ g. AreBelow n g.terms.items) }
{
    match kind {
        Some(kind) => {
            let terms = Vec::from_slice(alloc, &[t])?;
            Ok(Group { terms, kind })
        }
        None => Ok(no_group(alloc)),
    }
}

// A term, and what is joined to it, of this kind.
fn equated_group(terms: &Terms, branch: &Branch, s: u32, kind: &Kind) -> Result<Groups, NoMemory>
    requires branch { IsBranch terms.now branch.now }
    requires term { s < length terms.now }
    ensures value { IfOk result (λ gs. kinded (tree_at terms.now) gs ≡ each_of_kind (plain_kind kind.now) (tree_at terms.now s ∷ equated_to (seen_branch (tree_at terms.now) branch.now).literals (tree_at terms.now s))) }
    ensures below { IfOk result (AreGroups (length terms.now)) }
{
    let alloc = terms.allocator();
    let equated = with_equated(terms, branch, s)?;
    let copy = copied_kind(alloc, kind)?;
    Ok(Groups {
        first: Group {
            terms: equated,
            kind: copy,
        },
        second: no_group(alloc),
    })
}

// The sides of an equation, each of the kind that the other one has.
fn sides_groups(terms: &Terms, v: u32, w: u32) -> Result<Groups, NoMemory>
    requires first { v < length terms.now }
    requires second { w < length terms.now }
    ensures value { IfOk result (λ gs. kinded (tree_at terms.now) gs ≡ of_kind_given (tree_at terms.now v) (kind_given (tree_at terms.now w)) ++ of_kind_given (tree_at terms.now w) (kind_given (tree_at terms.now v))) }
    ensures below { IfOk result (AreGroups (length terms.now)) }
{
    let alloc = terms.allocator();
    let of_second = kind_given(terms, w)?;
    let of_first = kind_given(terms, v)?;
    let first = one_group(alloc, v, of_second)?;
    let second = one_group(alloc, w, of_first)?;
    Ok(Groups { first, second })
}

// No groups.
fn no_groups(alloc: Global) -> Groups
    ensures value { (at : ℕ → Term) → kinded at result ≡ [] }
    ensures below { (n : ℕ) → AreGroups n result }
{
    Groups {
        first: no_group(alloc),
        second: no_group(alloc),
    }
}

/// The terms to which an atom with this sign gives a kind: one of which it says its kind, and those that are joined to it by
/// equations among the literals; a side of an equation, where the other one is a constant or written out. It takes time linear
/// in the number of literals and in the size of a record's names.
pub fn kinds_given(
    terms: &Terms,
    branch: &Branch,
    atom: u32,
    holds: bool,
) -> Result<Groups, NoMemory>
    requires branch { IsBranch terms.now branch.now }
    requires atom { atom < length terms.now }
    ensures value { IfOk result (λ gs. kinded (tree_at terms.now) gs ≡ given_by holds (tree_at terms.now atom) (seen_branch (tree_at terms.now) branch.now).literals) }
    ensures below { IfOk result (AreGroups (length terms.now)) }
{
    if !holds {
        return Ok(no_groups(terms.allocator()));
    }
    match terms.node(atom) {
        Node::Kind(s, kind) => equated_group(terms, branch, *s, kind),
        Node::Equal(v, w) => sides_groups(terms, *v, *w),
        _ => Ok(no_groups(terms.allocator())),
    }
}

/// The terms to which an atom with this sign denies a kind: one of which it denies its kind, and those that are joined to it
/// by equations among the literals. It takes time linear in the number of literals.
pub fn kinds_denied(
    terms: &Terms,
    branch: &Branch,
    atom: u32,
    holds: bool,
) -> Result<Groups, NoMemory>
    requires branch { IsBranch terms.now branch.now }
    requires atom { atom < length terms.now }
    ensures value { IfOk result (λ gs. kinded (tree_at terms.now) gs ≡ denied_by holds (tree_at terms.now atom) (seen_branch (tree_at terms.now) branch.now).literals) }
    ensures below { IfOk result (AreGroups (length terms.now)) }
{
    if holds {
        return Ok(no_groups(terms.allocator()));
    }
    match terms.node(atom) {
        Node::Kind(s, kind) => equated_group(terms, branch, *s, kind),
        _ => Ok(no_groups(terms.allocator())),
    }
}
