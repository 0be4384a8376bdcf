//! Goals with what their tests of named types stand for.
ghost use Rattle.std.specs.Prelude.{◌≡◌, ◌++◌, All, map, IfOk, OnOk};
ghost use Rattle.wy_vc_spec.specs.Numbered.{Node};
ghost use Rattle.wy_vc_spec.specs.Values.{Setting};
ghost use Rattle.wy_vc.specs.Meanings.{AreMeanings};
ghost use Rattle.wy_vc.specs.Standing.{Stands};
ghost use Rattle.wy_vc.specs.Tested.{AreQuiet};
ghost use Rattle.wy_vc.specs.Told as spec;
ghost use Rattle.wy_vc_body.specs.wy_vc_exprs.State.{IsGoal, seen_goal};

use crate::mentioned::{is_marked, mentioned};
use crate::small::small;
use crate::standing::{Standing, nothing_stands, types_behind};
use crate::testing::testing_terms;
use crate::unfolding::Meaning;
use std::alloc::{AllocError, Global};
use wy_term::{Cond, NoMemory, Terms, Unfold};
use wy_vc_body::Goal;

// Puts a named type behind others, with what its test stands for, where it is marked.
fn put_entry(
    number: usize,
    meaning: &Meaning,
    marked: bool,
    made: &mut Vec<(u32, u32, u32)>,
) -> Result<(), AllocError>
    ensures value { OnOk result (made.new.items ≡ made.old.items ++ spec.entry_if marked number meaning.now) }
{
    if marked {
        let number = small(number)?;
        made.push((number, meaning.name, meaning.formula))?;
    }
    Ok(())
}

// The named types that are marked, by rising number, with what their tests stand for.
fn entries(
    alloc: Global,
    meanings: &[Meaning],
    marks: &[bool],
) -> Result<Vec<(u32, u32, u32)>, AllocError>
    ensures value { IfOk result (λ es. es.items ≡ spec.entries_by marks.now 0 meanings.now) }
{
    let mut made = Vec::new(alloc);
    for (number, meaning) in meanings.iter().enumerate() {
        let marked = is_marked(marks, number);
        put_entry(number, meaning, marked, &mut made)?;
    }
    Ok(made)
}

/// A goal with the named types that it mentions, and those that these mention, by rising number, with the Val name and the formula that the
/// test of each stands for. Its hypotheses stand from then on in place of others: linear in those hypotheses that don't stand yet, in how many
/// terms those of them and the goal that test a type are made of, in the named types, and in what those that it mentions test.
pub fn told(
    alloc: Global,
    terms: &Terms,
    meanings: &[Meaning],
    testing: &[bool],
    standing: &mut Standing,
    goal: Goal,
) -> Result<Cond, NoMemory>
    requires goal { IsGoal terms.now goal }
    requires quiet { AreQuiet terms.now testing.now }
    requires stands { Stands terms.now standing.old }
    ensures stands { OnOk result (Stands terms.now standing.new) }
    ensures within { (s : Setting Node) → AreMeanings terms.now s meanings.now → IfOk result (λ c. spec.IsCond terms.now c) }
    ensures value { (s : Setting Node) → AreMeanings terms.now s meanings.now → IfOk result (λ c. spec.seen_cond terms.now c ≡ spec.told s (seen_goal terms.now goal)) }
{
    let tests = types_behind(terms, testing, standing, goal.hyps.as_slice(), goal.goal)?;
    let marks = mentioned(alloc, meanings, tests.as_slice())?;
    let list = entries(alloc, meanings, marks.as_slice())?;
    let Goal {
        kind,
        at,
        hyps,
        goal,
    } = goal;
    Ok(Cond {
        kind,
        at,
        hyps,
        goal,
        unfold: Unfold { list },
    })
}

/// The same of goals, in their order. They are told from the last to the first, so a hypothesis is looked at once for all goals that stand
/// one behind the other under it.
pub fn told_all(
    alloc: Global,
    terms: &Terms,
    meanings: &[Meaning],
    goals: Vec<Goal>,
) -> Result<Vec<Cond>, NoMemory>
    requires goals { All (IsGoal terms.now) goals.items }
    ensures within { (s : Setting Node) → AreMeanings terms.now s meanings.now → IfOk result (λ list. All (spec.IsCond terms.now) list.items) }
    ensures value { (s : Setting Node) → AreMeanings terms.now s meanings.now → IfOk result (λ list. map (spec.seen_cond terms.now) list.items ≡ map (spec.told s) (map (seen_goal terms.now) goals.items)) }
{
    let mut left = goals;
    let mut list = Vec::new(alloc);
    let testing = testing_terms(terms)?;
    let mut standing = nothing_stands(alloc);
    while let Some(goal) = left.pop() {
        let cond = told(
            alloc,
            terms,
            meanings,
            testing.as_slice(),
            &mut standing,
            goal,
        )?;
        list.push(cond)?;
    }
    list.reverse();
    Ok(list)
}
