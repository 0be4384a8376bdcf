//! What one tuple of arguments comes to.
ghost use Rattle.std.specs.Prelude.{◌≡◌, ◌≤◌, IfOk, map};
ghost use Rattle.wy_core.specs.CoreSeen.{seen_core};
ghost use Rattle.wy_value.specs.Seen.{seen};
ghost use Rattle.wy_probe.specs.Comes.{ComesTo, probe_of};
ghost use Rattle.wy_probe.specs.Trials.{IsMet};

use std::alloc::Global;
use wy_core::Core;
use wy_eval::{EvalEnd, eval};
use wy_eval_exprs::{MeetsEnd, meets};
use wy_items::NoMemory;
use wy_term::CondKind;
use wy_value::Value;

/// How many visits of types and turns of quantifiers a test of arguments may take, and the contracts of a run likewise.
const TURNS: u64 = 1_000_000;

/// What a tuple comes to.
#[derive(Clone, Copy, Debug, PartialEq, Eq)]
pub enum Trial {
    /// Its run faults, by this kind at this place, a byte offset.
    Faults(CondKind, u32),
    /// It is no fault: whether the precondition is met, as was told within the turns, and whether the turns were spent.
    Passes { met: bool, undecided: bool },
}

/// Tries the arguments: whether they meet the declared function or method with this number, and what its run comes to
/// within the ticks, at most 2,000. Of the run nothing is kept.
pub fn tried(
    alloc: Global,
    core: &Core,
    entry: u32,
    args: &[Value],
    ticks: u32,
) -> Result<Trial, NoMemory>
    requires { ticks ≤ 2000 }
    ensures value { IfOk result (ComesTo (probe_of (seen_core core.now) entry ticks) (map seen args.now)) }
{
    let Ok(end) = meets(alloc, core, entry, args, TURNS) else {
        return Err(NoMemory);
    };
    match end {
        MeetsEnd::Met => ran(alloc, core, entry, args, ticks),
        MeetsEnd::TurnsSpent => Ok(Trial::Passes {
            met: false,
            undecided: true,
        }),
        _ => Ok(Trial::Passes {
            met: false,
            undecided: false,
        }),
    }
}

// What the run of arguments comes to that meet the precondition.
fn ran(
    alloc: Global,
    core: &Core,
    entry: u32,
    args: &[Value],
    ticks: u32,
) -> Result<Trial, NoMemory>
    requires ticks { ticks ≤ 2000 }
    requires met { IsMet (probe_of (seen_core core.now) entry ticks) (map seen args.now) }
    ensures value { IfOk result (ComesTo (probe_of (seen_core core.now) entry ticks) (map seen args.now)) }
{
    let Ok(end) = eval(alloc, core, entry, args, ticks, TURNS) else {
        return Err(NoMemory);
    };
    match end {
        EvalEnd::Fault(kind, at, _) => Ok(Trial::Faults(kind, at)),
        EvalEnd::TurnsSpent => Ok(Trial::Passes {
            met: true,
            undecided: true,
        }),
        EvalEnd::Done(_, _) | EvalEnd::More(_) => Ok(Trial::Passes {
            met: true,
            undecided: false,
        }),
    }
}
