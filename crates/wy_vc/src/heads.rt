//! What stands before and behind the body of a loop.
ghost use Rattle.std.specs.Prelude.{◌≡◌, ◌<◌, ◌≤◌, ◌+◌, ℕ, length as count_of, take, IfOk, OnOk};
ghost use Rattle.wy_vc_spec.specs.Numbered.{numbered, numbered_block, numbered_list};
ghost use Rattle.wy_vc_spec.specs.Sizes as sizes;
ghost use Rattle.wy_vc_spec.specs.Statements as spec;
ghost use Rattle.wy_core.specs.CoreSeen.{seen_block, seen_expr, seen_exprs};
ghost use Rattle.wy_vc_body.specs.Frames.{IsFrame, body_at};
ghost use Rattle.wy_vc_body.specs.Paths.{ArePaths, seen_ends, spot_of};
ghost use Rattle.wy_vc.specs.Branches.{IsTested};
ghost use Rattle.wy_vc.specs.Flows.{IsEndOf, Moves, end_of};
ghost use Rattle.wy_vc.specs.Heads.{Begins, Closes, Enters, Parts, closed, entered, tested};
ghost use Rattle.wy_vc.specs.Rounds.{around};
ghost use Rattle.wy_vc_body.specs.wy_vc_exprs.Numbered.{trees_of};
ghost use Rattle.wy_vc_body.specs.wy_vc_exprs.Slots.{AreSlots, slots_of};
ghost use Rattle.wy_vc_body.specs.wy_vc_exprs.State.{IsSound, hyps_of};

use crate::branches::{Tested, path_where, walk_test};
use crate::rounds::Round;
use std::alloc::Global;
use wy_core::{Expr, Stmt};
use wy_term::{CondKind, NoMemory};
use wy_vc_body::{Frame, Here, Path, Walk, meet, owe_invariants, renew, walk_clauses};
use wy_vc_tables::sizes::{exprs_in, total};

/// Where a turn of a loop begins: the number of the first expression of the invariants, how many hypotheses there are where the paths of
/// the turn part, the paths that came behind the loop so far, and what is known of variables.
#[derive(Drop)]
pub struct Head {
    pub first: usize,
    pub base: usize,
    pub breaks: Vec<Path>,
    pub here: Here,
}

// The invariants hold at entry, what the body assigns is forgotten, and the invariants are assumed, each with what it owes.
fn enter_loop(
    alloc: Global,
    frame: &Frame,
    walk: &mut Walk,
    here: Here,
    at: u32,
    invariants: &[Expr],
    first: usize,
    body: &[Stmt],
) -> Result<Here, NoMemory>
    requires frame { IsFrame walk.old.maker.terms frame.now }
    requires sound { IsSound walk.old }
    requires slots { AreSlots walk.old.maker.terms here.vars.items }
    ensures value { (k : ℕ) → IfOk result (λ h. Enters walk.old walk.new h (entered (body_at walk.old.maker.terms frame.now) at (numbered_list (seen_exprs invariants.now) first) (numbered_block (seen_block body.now) k) (spot_of walk.old here) walk.old.maker.count)) }
    ensures node { OnOk result (walk.new.maker.node ≡ first + sizes.exprs_in_list (seen_exprs invariants.now)) }
{
    let vars = here.vars.as_slice();
    let kind = CondKind::Entry;
    owe_invariants(alloc, frame, walk, vars, kind, at, invariants, first)?;
    let mut here = here;
    renew(alloc, frame, walk, &mut here, body)?;
    walk.maker.node = first;
    let words = frame.routine.variables.as_slice();
    let vars = here.vars.as_slice();
    walk_clauses(
        alloc,
        frame.core,
        frame.program,
        words,
        walk,
        vars,
        invariants,
    )?;
    Ok(here)
}

// The test is walked, the first of whose expressions has this number.
fn test_at(
    alloc: Global,
    frame: &Frame,
    walk: &mut Walk,
    vars: &[Option<u32>],
    test: &Expr,
    number: usize,
) -> Result<Tested, NoMemory>
    requires frame { IsFrame walk.old.maker.terms frame.now }
    requires sound { IsSound walk.old }
    requires slots { AreSlots walk.old.maker.terms vars.now }
    ensures value { IfOk result (λ t. IsTested walk.old walk.new t (spec.expr (body_at walk.old.maker.terms frame.now) (numbered (seen_expr test.now) number) (slots_of walk.old.maker.terms vars.now) (hyps_of walk.old) walk.old.maker.count)) }
    ensures node { OnOk result (walk.new.maker.node ≡ walk.old.maker.node) }
{
    let node = walk.maker.node;
    walk.maker.node = number;
    let tested = walk_test(alloc, frame, walk, vars, test)?;
    walk.maker.node = node;
    Ok(tested)
}

// The path on which the test is false comes behind the loop, and the test is true from now on.
fn part_ways(
    alloc: Global,
    walk: &mut Walk,
    here: Here,
    tested: Tested,
    first: usize,
) -> Result<Head, NoMemory>
    requires sound { IsSound walk.old }
    requires slots { AreSlots walk.old.maker.terms here.vars.items }
    requires holds { tested.holds < count_of walk.old.maker.terms }
    requires fails { tested.fails < count_of walk.old.maker.terms }
    ensures value { IfOk result (λ head. Parts walk.old walk.new tested here head) }
    ensures first { IfOk result (λ head. head.first ≡ first) }
    ensures node { OnOk result (walk.new.maker.node ≡ walk.old.maker.node) }
{
    let path = path_where(alloc, walk, &here, tested.fails)?;
    let mut breaks = Vec::new(alloc);
    breaks.push(path)?;
    walk.assume(tested.holds)?;
    Ok(Head {
        first,
        base: tested.base,
        breaks,
        here,
    })
}

/// The head of a loop: its invariants hold at entry, what the body assigns is forgotten, the invariants are assumed, and then the test.
pub fn begin_loop(
    alloc: Global,
    frame: &Frame,
    walk: &mut Walk,
    here: Here,
    at: u32,
    test: &Expr,
    invariants: &[Expr],
    body: &[Stmt],
) -> Result<Head, NoMemory>
    requires frame { IsFrame walk.old.maker.terms frame.now }
    requires sound { IsSound walk.old }
    requires slots { AreSlots walk.old.maker.terms here.vars.items }
    ensures value { (k : ℕ) → IfOk result (λ head. Begins walk.old walk.new head (entered (body_at walk.old.maker.terms frame.now) at (numbered_list (seen_exprs invariants.now) (walk.old.maker.node + sizes.exprs_in (seen_expr test.now))) (numbered_block (seen_block body.now) k) (spot_of walk.old here) walk.old.maker.count) (tested (body_at walk.old.maker.terms frame.now) (numbered (seen_expr test.now) walk.old.maker.node) (entered (body_at walk.old.maker.terms frame.now) at (numbered_list (seen_exprs invariants.now) (walk.old.maker.node + sizes.exprs_in (seen_expr test.now))) (numbered_block (seen_block body.now) k) (spot_of walk.old here) walk.old.maker.count))) }
    ensures first { IfOk result (λ head. head.first ≡ walk.old.maker.node + sizes.exprs_in (seen_expr test.now)) }
    ensures node { OnOk result (walk.new.maker.node ≡ walk.old.maker.node + sizes.exprs_in (seen_expr test.now) + sizes.exprs_in_list (seen_exprs invariants.now)) }
{
    let number = walk.maker.node;
    let first = total(number, exprs_in(test)?)?;
    let here = enter_loop(alloc, frame, walk, here, at, invariants, first, body)?;
    let tested = test_at(alloc, frame, walk, here.vars.as_slice(), test, number)?;
    part_ways(alloc, walk, here, tested, first)
}

/// The invariants of the loop hold again, where a path gets to the end of its body.
pub fn keep(
    alloc: Global,
    frame: &Frame,
    round: &Round,
    walk: &mut Walk,
    at: u32,
    end: &Option<Here>,
) -> Result<(), NoMemory>
    requires frame { IsFrame walk.old.maker.terms frame.now }
    requires sound { IsSound walk.old }
    requires end { IsEndOf walk.old.maker.terms end.now }
    ensures value { OnOk result (Moves walk.old walk.new (count_of walk.old.hyps.items) (spec.keep (body_at walk.old.maker.terms frame.now) at (around round.now) (end_of walk.old end.now) walk.old.maker.count).count (spec.keep (body_at walk.old.maker.terms frame.now) at (around round.now) (end_of walk.old end.now) walk.old.maker.count).owed) }
    ensures node { OnOk result (walk.new.maker.node ≡ walk.old.maker.node) }
{
    match end {
        None => Ok(()),
        Some(here) => {
            owe_invariants(
                alloc,
                frame,
                walk,
                here.vars.as_slice(),
                CondKind::Keep,
                at,
                round.invariants,
                round.first,
            )
        }
    }
}

/// Behind the body of a loop: its invariants hold again, and the paths behind the loop come together.
pub fn end_loop(
    alloc: Global,
    frame: &Frame,
    round: &Round,
    walk: &mut Walk,
    at: u32,
    breaks: Vec<Path>,
    end: &Option<Here>,
) -> Result<Option<Here>, NoMemory>
    requires frame { IsFrame walk.old.maker.terms frame.now }
    requires sound { IsSound walk.old }
    requires base { round.now.base ≤ count_of walk.old.hyps.items }
    requires breaks { ArePaths walk.old.maker.terms breaks.items }
    requires end { IsEndOf walk.old.maker.terms end.now }
    ensures value { IfOk result (λ h. Closes walk.old walk.new round.now.base h (closed (body_at walk.old.maker.terms frame.now) at (around round.now) (trees_of walk.old.maker.terms (take round.now.base walk.old.hyps.items)) (seen_ends walk.old.maker.terms (take round.now.base walk.old.hyps.items) breaks.items) (end_of walk.old end.now) walk.old.maker.count)) }
    ensures node { OnOk result (walk.new.maker.node ≡ walk.old.maker.node) }
{
    keep(alloc, frame, round, walk, at, end)?;
    let words = frame.routine.variables.as_slice();
    meet(alloc, walk, words, round.base, breaks)
}
