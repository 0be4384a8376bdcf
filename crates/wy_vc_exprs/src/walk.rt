//! What is assumed and what is owed.
ghost use Rattle.std.specs.Prelude.{◌≡◌, ◌<◌, [], ◌∷◌, length, take, OnOk};
ghost use Rattle.wy_term.specs.Nodes.{tree_at};
ghost use Rattle.wy_vc_terms.specs.wy_vc_spec.Owed.{assume as assumed, assume_all as all_assumed, members, owe as owed_goals};
ghost use Rattle.wy_vc_terms.specs.wy_vc_spec.Clauses.{passed};
ghost use Rattle.wy_vc_operations.specs.Growing.{AreBelow};
ghost use Rattle.wy_vc_exprs.specs.Numbered.{Grown, trees_of};
ghost use Rattle.wy_vc_exprs.specs.State.{IsSound, Steps, hyps_of};

use crate::goal::Goal;
use std::alloc::Global;
use wy_term::{CondKind, NoMemory, Node, Terms};
use wy_vc_terms::Maker;

/// The terms made, what is assumed, and what is owed so far.
#[derive(Drop)]
pub struct Walk {
    pub maker: Maker,
    pub hyps: Vec<u32>,
    pub owed: Vec<Goal>,
}

// The members of an `and`, and theirs, or a formula that is none.
fn add_members(terms: &Terms, formula: u32, hyps: &mut Vec<u32>) -> Result<(), NoMemory>
    requires formula { formula < length terms.now }
    ensures value { OnOk result (Grown terms.now hyps.old.items hyps.new.items (members (tree_at terms.now formula))) }
{
    match terms.node(formula) {
        Node::And(members) => {
            for member in members.as_slice() {
                add_members(terms, *member, hyps)?;
            }
            Ok(())
        }
        _ => {
            hyps.push(formula)?;
            Ok(())
        }
    }
}

impl Walk {
    /// Assumes a formula, in time linear in its members: the members of an `and` stand by themselves.
    pub fn assume(&mut self, formula: u32) -> Result<(), NoMemory>
        requires sound { IsSound self.old }
        requires formula { formula < length self.old.maker.terms }
        ensures value { OnOk result (Steps self.old self.new (passed self.old.maker.count (assumed (hyps_of self.old) (tree_at self.old.maker.terms formula)) [])) }
        ensures maker { self.new.maker ≡ self.old.maker }
    {
        add_members(&self.maker.terms, formula, &mut self.hyps)
    }

    /// How many hypotheses there are, to go back to.
    pub fn mark(&self) -> usize
        ensures value { result ≡ length self.now.hyps.items }
    {
        self.hyps.len()
    }

    /// Assumes no more than the first so many hypotheses.
    pub fn back_to(&mut self, count: usize)
        ensures hyps { self.new.hyps.items ≡ take count self.old.hyps.items }
        ensures maker { self.new.maker ≡ self.old.maker }
        ensures owed { self.new.owed ≡ self.old.owed }
    {
        self.hyps.truncate(count);
    }

    /// Owes a goal at a place under what is assumed, and assumes it. It takes time linear in the hypotheses, which are copied.
    pub fn owe(&mut self, alloc: Global, kind: CondKind, at: u32, goal: u32) -> Result<(), NoMemory>
        requires sound { IsSound self.old }
        requires goal { goal < length self.old.maker.terms }
        ensures value { OnOk result (Steps self.old self.new (passed self.old.maker.count (assumed (hyps_of self.old) (tree_at self.old.maker.terms goal)) (owed_goals kind at (hyps_of self.old) (tree_at self.old.maker.terms goal ∷ [])))) }
        ensures maker { self.new.maker ≡ self.old.maker }
    {
        let hyps = Vec::from_slice(alloc, self.hyps.as_slice())?;
        self.owed.push(Goal {
            kind,
            at,
            hyps,
            goal,
        })?;
        self.assume(goal)
    }

    /// Owes goals of one kind at a place, each with those before it assumed.
    pub fn owe_all(
        &mut self,
        alloc: Global,
        kind: CondKind,
        at: u32,
        goals: &[u32],
    ) -> Result<(), NoMemory>
        requires sound { IsSound self.old }
        requires goals { AreBelow (length self.old.maker.terms) goals.now }
        ensures value { OnOk result (Steps self.old self.new (passed self.old.maker.count (all_assumed (hyps_of self.old) (trees_of self.old.maker.terms goals.now)) (owed_goals kind at (hyps_of self.old) (trees_of self.old.maker.terms goals.now)))) }
        ensures maker { self.new.maker ≡ self.old.maker }
    {
        for goal in goals {
            self.owe(alloc, kind, at, *goal)?;
        }
        Ok(())
    }
}
