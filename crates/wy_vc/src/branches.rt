//! What stands before, between and behind the blocks of an `if`.
ghost use Rattle.std.specs.Prelude.{◌≡◌, ◌<◌, ◌≤◌, ◌+◌, ◌++◌, [], length as count_of, take, IfOk, OnOk};
ghost use Rattle.wy_vc_spec.specs.Clauses.{passed};
ghost use Rattle.wy_vc_spec.specs.Joins as joins;
ghost use Rattle.wy_vc_spec.specs.Numbered.{numbered};
ghost use Rattle.wy_vc_spec.specs.Owed.{assume as assumed};
ghost use Rattle.wy_vc_spec.specs.Sizes as sizes;
ghost use Rattle.wy_vc_spec.specs.Spots.{as_list, spot};
ghost use Rattle.wy_vc_spec.specs.Statements as spec;
ghost use Rattle.wy_core.specs.CoreSeen.{seen_expr};
ghost use Rattle.wy_term.specs.Nodes.{tree_at};
ghost use Rattle.wy_vc_body.specs.Frames.{IsFrame, body_at};
ghost use Rattle.wy_vc_body.specs.Paths.{ArePaths, IsPath, Meets, seen_end, seen_ends};
ghost use Rattle.wy_vc.specs.Branches.{Forks, IsTested, Turns};
ghost use Rattle.wy_vc.specs.Flows.{IsEndOf, end_of};
ghost use Rattle.wy_vc_body.specs.wy_vc_exprs.Numbered.{trees_of};
ghost use Rattle.wy_vc_body.specs.wy_vc_exprs.Slots.{AreSlots, slots_of};
ghost use Rattle.wy_vc_body.specs.wy_vc_exprs.State.{IsSound, Steps, hyps_of};

use std::alloc::Global;
use wy_core::Expr;
use wy_term::NoMemory;
use wy_vc_body::{Frame, Here, Path, Walk, denied, formula, meet, path_here, walked};

/// A test that was walked: how many hypotheses there are behind it, and the formulas that it is true and that it is false, each by the
/// number of its term.
#[derive(Drop)]
pub struct Tested {
    pub base: usize,
    pub holds: u32,
    pub fails: u32,
}

/// What the second side of a branch begins with: how many hypotheses there are where the sides part, the formula that is assumed behind
/// them, and what is known of variables.
#[derive(Drop)]
pub struct Fork {
    pub base: usize,
    pub fails: u32,
    pub here: Here,
}

/// A test is walked, and the formulas that it is true and that it is false are made.
pub fn walk_test(
    alloc: Global,
    frame: &Frame,
    walk: &mut Walk,
    vars: &[Option<u32>],
    test: &Expr,
) -> Result<Tested, NoMemory>
    requires frame { IsFrame walk.old.maker.terms frame.now }
    requires sound { IsSound walk.old }
    requires slots { AreSlots walk.old.maker.terms vars.now }
    ensures value { IfOk result (λ t. IsTested walk.old walk.new t (spec.expr (body_at walk.old.maker.terms frame.now) (numbered (seen_expr test.now) walk.old.maker.node) (slots_of walk.old.maker.terms vars.now) (hyps_of walk.old) walk.old.maker.count)) }
    ensures node { OnOk result (walk.new.maker.node ≡ walk.old.maker.node + sizes.exprs_in (seen_expr test.now)) }
{
    let words = frame.routine.variables.as_slice();
    let value = walked(alloc, frame.core, frame.program, words, walk, vars, test)?;
    let holds = formula(&mut walk.maker.terms, value)?;
    let fails = denied(&mut walk.maker.terms, holds)?;
    Ok(Tested {
        base: walk.mark(),
        holds,
        fails,
    })
}

/// The path on which this formula is assumed besides. The walk assumes it no more behind that.
pub fn path_where(
    alloc: Global,
    walk: &mut Walk,
    here: &Here,
    formula: u32,
) -> Result<Path, NoMemory>
    requires sound { IsSound walk.old }
    requires slots { AreSlots walk.old.maker.terms here.now.vars.items }
    requires within { formula < count_of walk.old.maker.terms }
    ensures steps { OnOk result (Steps walk.old walk.new (passed walk.old.maker.count (hyps_of walk.old) [])) }
    ensures maker { OnOk result (walk.new.maker ≡ walk.old.maker) }
    ensures hyps { OnOk result (walk.new.hyps.items ≡ walk.old.hyps.items) }
    ensures is_path { IfOk result (λ p. IsPath walk.old.maker.terms p) }
    ensures value { IfOk result (λ p. seen_end walk.old.maker.terms walk.old.hyps.items p ≡ spot (assumed (hyps_of walk.old) (tree_at walk.old.maker.terms formula)) (slots_of walk.old.maker.terms here.now.vars.items) here.now.set.items) }
{
    let base = walk.mark();
    walk.assume(formula)?;
    let path = path_here(alloc, walk, here, base)?;
    walk.back_to(base);
    Ok(path)
}

/// The path to where a side ended, if one gets there.
pub fn way_to(
    alloc: Global,
    walk: &Walk,
    end: &Option<Here>,
    base: usize,
    paths: &mut Vec<Path>,
) -> Result<(), NoMemory>
    requires sound { IsSound walk.now }
    requires base { base ≤ count_of walk.now.hyps.items }
    requires end { IsEndOf walk.now.maker.terms end.now }
    requires paths { ArePaths walk.now.maker.terms paths.old.items }
    ensures are { OnOk result (ArePaths walk.now.maker.terms paths.new.items) }
    ensures value { OnOk result (seen_ends walk.now.maker.terms (take base walk.now.hyps.items) paths.new.items ≡ seen_ends walk.now.maker.terms (take base walk.now.hyps.items) paths.old.items ++ as_list (end_of walk.now end.now)) }
{
    match end {
        None => Ok(()),
        Some(here) => {
            let path = path_here(alloc, walk, here, base)?;
            paths.push(path)?;
            Ok(())
        }
    }
}

/// The head of an `if`: its test is walked and assumed, and what the other side begins with is kept.
pub fn begin_if(
    alloc: Global,
    frame: &Frame,
    walk: &mut Walk,
    here: &Here,
    test: &Expr,
) -> Result<Fork, NoMemory>
    requires frame { IsFrame walk.old.maker.terms frame.now }
    requires sound { IsSound walk.old }
    requires slots { AreSlots walk.old.maker.terms here.now.vars.items }
    ensures value { IfOk result (λ f. Forks walk.old walk.new here.now f (spec.expr (body_at walk.old.maker.terms frame.now) (numbered (seen_expr test.now) walk.old.maker.node) (slots_of walk.old.maker.terms here.now.vars.items) (hyps_of walk.old) walk.old.maker.count)) }
    ensures node { OnOk result (walk.new.maker.node ≡ walk.old.maker.node + sizes.exprs_in (seen_expr test.now)) }
{
    let other = here.copy(alloc)?;
    let tested = walk_test(alloc, frame, walk, here.vars.as_slice(), test)?;
    walk.assume(tested.holds)?;
    Ok(Fork {
        base: tested.base,
        fails: tested.fails,
        here: other,
    })
}

/// Behind the first block of an `if`: the path to its end, and the test is false from now on.
pub fn begin_else(
    alloc: Global,
    walk: &mut Walk,
    base: usize,
    fails: u32,
    end: &Option<Here>,
) -> Result<Vec<Path>, NoMemory>
    requires sound { IsSound walk.old }
    requires base { base ≤ count_of walk.old.hyps.items }
    requires within { fails < count_of walk.old.maker.terms }
    requires end { IsEndOf walk.old.maker.terms end.now }
    ensures value { IfOk result (λ ps. Turns walk.old walk.new base fails end.now ps.items) }
    ensures node { OnOk result (walk.new.maker.node ≡ walk.old.maker.node) }
{
    let mut paths = Vec::new(alloc);
    way_to(alloc, walk, end, base, &mut paths)?;
    walk.back_to(base);
    walk.assume(fails)?;
    Ok(paths)
}

/// Behind the second block of an `if`: the paths come together.
pub fn end_if(
    alloc: Global,
    frame: &Frame,
    walk: &mut Walk,
    base: usize,
    paths: Vec<Path>,
    end: &Option<Here>,
) -> Result<Option<Here>, NoMemory>
    requires sound { IsSound walk.old }
    requires base { base ≤ count_of walk.old.hyps.items }
    requires paths { ArePaths walk.old.maker.terms paths.items }
    requires end { IsEndOf walk.old.maker.terms end.now }
    ensures value { IfOk result (λ h. Meets walk.old walk.new base h (joins.meet frame.now.routine.now.variables (trees_of walk.old.maker.terms (take base walk.old.hyps.items)) (seen_ends walk.old.maker.terms (take base walk.old.hyps.items) paths.items ++ as_list (end_of walk.old end.now)) walk.old.maker.count)) }
    ensures node { OnOk result (walk.new.maker.node ≡ walk.old.maker.node) }
{
    let mut paths = paths;
    way_to(alloc, walk, end, base, &mut paths)?;
    let words = frame.routine.variables.as_slice();
    meet(alloc, walk, words, base, paths)
}
