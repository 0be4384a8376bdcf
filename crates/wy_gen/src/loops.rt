//! The code of `if` and `while` around that of their blocks.
ghost use Rattle.std.specs.Prelude.{◌≡◌, ◌++◌, ◌∷◌, suc, List, IfOk, length};
ghost use Rattle.wy_core.specs.CoreSeen.{seen_block, seen_expr};
ghost use Rattle.wy_code_spec.specs.compiled.Statements as spec;
ghost use Rattle.wy_code_spec.specs.compiled.Expressions as expressions;
ghost use Rattle.wy_live.specs.Sets as sets;
ghost use Rattle.wy_live.specs.Walks as lives;
ghost use Rattle.wy_code.specs.pieces.Steps as pieces;
ghost use Rattle.wy_code.specs.declared.pieces.steps.Step.{Step};

use crate::expressions::code;
use crate::made::{Made, is_plain, release_unless, released};
use std::alloc::Global;
use wy_code::pieces::{NoMemory, Steps, begin_turns, end_turns, fork, jump_over, leave_turns};
use wy_code_spec::tables::Context;
use wy_core::{Expr, Stmt};
use wy_live::{Ends, Variables, head_live, joined, live_block};

/// What is live behind the loop around and at its head, and how many steps stand behind the end of
/// the loop and from its step back on.
#[derive(Drop)]
pub struct Around {
    pub ends: Ends,
    pub exit: usize,
    pub again: usize,
}

/// An `if` whose second block is made: what is live behind its test, how many steps stand behind the
/// first block, and where the first block ends.
#[derive(Drop)]
pub struct Choice {
    pub both: Variables,
    pub mid: usize,
    pub start: Made,
}

/// What only the first block uses is released before the second one, which ends behind `end` steps.
pub fn begin_first(
    alloc: Global,
    first: &[Stmt],
    ends: &Ends,
    behind: Variables,
    end: usize,
    second: Made,
) -> Result<Choice, NoMemory>
    ensures both { IfOk result (λ c. c.both ≡ sets.joined (lives.live_all (seen_block first.now) behind ends.now) second.live) }
    ensures value { (steps old : List Step) → second.steps ≡ steps ++ old → length old ≡ end → IfOk result (λ c. c.start.steps ≡ pieces.jumped (expressions.released c.both second.live ++ steps) old) }
    ensures live { IfOk result (λ c. c.start.live ≡ behind) }
    ensures mid { IfOk result (λ c. c.mid ≡ length c.start.steps) }
{
    let Made { live, steps } = second;
    let one = live_block(alloc, first, behind.copy(alloc)?, ends)?;
    let both = joined(alloc, &one, &live)?;
    let steps = released(alloc, &both, &live, steps)?;
    let steps = jump_over(end, steps)?;
    Ok(Choice {
        both,
        mid: steps.len(),
        start: Made {
            live: behind,
            steps,
        },
    })
}

/// The two blocks of an `if` before the first of them, which begins behind `mid` steps: the second,
/// which is gone over, ends behind `end` steps. Where neither has code, the value of the test is
/// released.
fn branches(
    alloc: Global,
    plain: bool,
    register: u32,
    end: usize,
    mid: usize,
    steps: Steps,
) -> Result<Steps, NoMemory>
    ensures value { (one two old : List Step) → steps ≡ one ++ pieces.jumped two old → length old ≡ end → length (pieces.jumped two old) ≡ mid → IfOk result (λ s. s ≡ spec.branches register plain one two ++ old) }
{
    if steps.len() == end {
        return release_unless(alloc, plain, register, steps);
    }
    fork(register, end, mid, steps)
}

/// What only the second block uses is released before the first one; then the test before both.
pub fn end_choice(
    alloc: Global,
    context: &Context,
    test: &Expr,
    both: Variables,
    end: usize,
    mid: usize,
    free: u32,
    first: Made,
) -> Result<Made, NoMemory>
    ensures value { (one two old : List Step) → first.steps ≡ one ++ pieces.jumped two old → length old ≡ end → length (pieces.jumped two old) ≡ mid → IfOk result (λ m. m.steps ≡ (expressions.code context.now (seen_expr test.now) both free ++ spec.branches free (expressions.is_plain (seen_expr test.now)) (expressions.released both first.live ++ one) two) ++ old) }
    ensures live { IfOk result (λ m. m.live ≡ lives.before (seen_expr test.now) both) }
{
    let Made { live, steps } = first;
    let steps = released(alloc, &both, &live, steps)?;
    let steps = branches(alloc, is_plain(test), free, end, mid, steps)?;
    code(alloc, context, test, free, Made { live: both, steps })
}

/// A loop before its body: what is live behind it, what its body stands in, how many steps stand
/// behind its step back, and where its body ends.
#[derive(Drop)]
pub struct Loop {
    pub live: Variables,
    pub around: Around,
    pub done: usize,
    pub start: Made,
}

/// What only the turns use is released behind them, and the step back stands behind the body.
pub fn begin_loop(alloc: Global, test: &Expr, body: &[Stmt], behind: Made) -> Result<Loop, NoMemory>
    ensures behind { IfOk result (λ l. l.live ≡ behind.live) }
    ensures ends { IfOk result (λ l. l.around.ends ≡ lives.around behind.live (lives.head_live (seen_expr test.now) (seen_block body.now) behind.live)) }
    ensures exit { IfOk result (λ l. l.around.exit ≡ length behind.steps) }
    ensures again { IfOk result (λ l. l.around.again ≡ suc l.done) }
    ensures done { IfOk result (λ l. l.done ≡ length (expressions.released (spec.turn (seen_expr test.now) (seen_block body.now) behind.live) behind.live ++ behind.steps)) }
    ensures value { IfOk result (λ l. l.start.steps ≡ Step.GoesBack 0 ∷ (expressions.released (spec.turn (seen_expr test.now) (seen_block body.now) behind.live) behind.live ++ behind.steps)) }
    ensures live { IfOk result (λ l. l.start.live ≡ lives.head_live (seen_expr test.now) (seen_block body.now) behind.live) }
{
    let Made { live, steps } = behind;
    let exit = steps.len();
    let head = head_live(alloc, test, body, &live)?;
    let ends = Ends {
        exit: live.copy(alloc)?,
        again: head.copy(alloc)?,
    };
    let inside = live_block(alloc, body, head.copy(alloc)?, &ends)?;
    let both = joined(alloc, &inside, &live)?;
    let steps = released(alloc, &both, &live, steps)?;
    let done = steps.len();
    let steps = begin_turns(steps)?;
    let again = steps.len();
    Ok(Loop {
        live,
        around: Around { ends, exit, again },
        done,
        start: Made { live: head, steps },
    })
}

/// The test of a loop before its body, where this is live behind the loop.
pub fn end_loop(
    alloc: Global,
    context: &Context,
    test: &Expr,
    behind: Variables,
    around: Around,
    done: usize,
    free: u32,
    body: Made,
) -> Result<Made, NoMemory>
    ensures value { (rest old : List Step) → body.steps ≡ rest ++ Step.GoesBack 0 ∷ old → length old ≡ done → IfOk result (λ m. m.steps ≡ pieces.turns (expressions.code context.now (seen_expr test.now) (sets.joined body.live behind) free) free (expressions.released (sets.joined body.live behind) body.live ++ rest) ++ old) }
    ensures live { IfOk result (λ m. m.live ≡ around.ends.again) }
{
    let Made { live, steps } = body;
    let both = joined(alloc, &live, &behind)?;
    let steps = released(alloc, &both, &live, steps)?;
    let steps = leave_turns(free, done, steps)?;
    let made = code(alloc, context, test, free, Made { live: both, steps })?;
    let steps = end_turns(done, made.steps)?;
    let Ends { exit: _, again } = around.ends;
    Ok(Made { live: again, steps })
}
