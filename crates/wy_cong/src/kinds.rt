//! The kinds that literals give or deny, and those of constants and of data that are written out.
ghost use Rattle.std.specs.Prelude.{◌≡◌, ◌<◌, ◌++◌, ◌∷◌, [], length, IfOk, OnOk};
ghost use Rattle.wy_cong.specs.Seen.{terms_of, IsPresent};
ghost use Rattle.wy_cong.specs.Kinded.{kinded, AreKinded};
ghost use Rattle.wy_check_splits.specs.wy_check_nodes.Seen.{IsBranch, seen_branch};
ghost use Rattle.wy_search_spec.specs.Classes as classes;
ghost use Rattle.wy_term.specs.Nodes.{tree_at};

use crate::present::Present;
use wy_check_splits::{Branch, copied_kind, kind_given, nth_literal};
use wy_term::{Kind, NoMemory, Node, Terms};

/// A term of a kind.
#[derive(Drop)]
pub struct Kinded {
    pub term: u32,
    pub kind: Kind,
}

// The kind that an atom gives or denies, by its sign.
fn push_kind(
    terms: &Terms,
    kinds: &mut Vec<Kinded>,
    sign: bool,
    atom: u32,
    holds: bool,
) -> Result<(), NoMemory>
    requires atom { atom < length terms.now }
    requires kinds { AreKinded (length terms.now) kinds.old.items }
    ensures value { OnOk result (kinded (tree_at terms.now) kinds.new.items ≡ kinded (tree_at terms.now) kinds.old.items ++ classes.kind_by sign holds (tree_at terms.now atom)) }
    ensures kinds { OnOk result (AreKinded (length terms.now) kinds.new.items) }
{
    if sign != holds {
        return Ok(());
    }
    match terms.node(atom) {
        Node::Kind(v, kind) => {
            let kind = copied_kind(terms.allocator(), kind)?;
            kinds.push(Kinded { term: *v, kind })?;
            Ok(())
        }
        _ => Ok(()),
    }
}

/// The kinds that the literals give, or those that they deny, in time linear in the number of literals.
pub fn kinds_by(terms: &Terms, branch: &Branch, sign: bool) -> Result<Vec<Kinded>, NoMemory>
    requires { IsBranch terms.now branch.now }
    ensures value { IfOk result (λ ks. kinded (tree_at terms.now) ks.items ≡ classes.kinds_by sign (seen_branch (tree_at terms.now) branch.now).literals) }
    ensures kinds { IfOk result (λ ks. AreKinded (length terms.now) ks.items) }
{
    let mut kinds = Vec::new(terms.allocator());
    for i in 0..branch.literals.len() {
        let (atom, holds) = nth_literal(terms, branch, i);
        push_kind(terms, &mut kinds, sign, atom, holds)?;
    }
    Ok(kinds)
}

// The kind of a term, where it is a constant or written out.
fn push_own(terms: &Terms, kinds: &mut Vec<Kinded>, t: u32) -> Result<(), NoMemory>
    requires term { t < length terms.now }
    requires kinds { AreKinded (length terms.now) kinds.old.items }
    ensures value { OnOk result (kinded (tree_at terms.now) kinds.new.items ≡ kinded (tree_at terms.now) kinds.old.items ++ classes.own_kinds (tree_at terms.now t ∷ [])) }
    ensures kinds { OnOk result (AreKinded (length terms.now) kinds.new.items) }
{
    match kind_given(terms, t)? {
        Some(kind) => {
            kinds.push(Kinded { term: t, kind })?;
            Ok(())
        }
        None => Ok(()),
    }
}

/// These kinds, and behind them those of the terms present that are constants or written out.
pub fn with_own_kinds(
    terms: &Terms,
    present: &Present,
    kinds: Vec<Kinded>,
) -> Result<Vec<Kinded>, NoMemory>
    requires present { IsPresent terms.now present.now }
    requires kinds { AreKinded (length terms.now) kinds.items }
    ensures value { IfOk result (λ ks. kinded (tree_at terms.now) ks.items ≡ kinded (tree_at terms.now) kinds.items ++ classes.own_kinds (terms_of (tree_at terms.now) present.now)) }
    ensures kinds { IfOk result (λ ks. AreKinded (length terms.now) ks.items) }
{
    let mut kinds = kinds;
    for i in 0..present.numbers.len() {
        push_own(terms, &mut kinds, present.numbers[i])?;
    }
    Ok(kinds)
}
