//! Which declaration a number names, and the two built-in methods behind the last.
ghost use Rattle.std.specs.Prelude.{◌≡◌, ◌≤◌, MatchOption, Some, length, map};
ghost use Rattle.wy_core.specs.CoreSeen.{seen_alias, seen_core, seen_decl, seen_routine};
ghost use Rattle.wy_core.specs.CoreTree.{routines_of};
ghost use Rattle.wy_value.specs.Seen.{seen};
ghost use Rattle.wy_sem.specs.Evaluation.{Declared, callee};
ghost use Rattle.wy_eval_exprs.specs.Operands.{seen_option};
ghost use Rattle.wy_eval_exprs.specs.Outcomes.{Gives, meter_of};
ghost use Rattle.wy_eval.specs.Settings.{built_in_call};

use crate::printing::{print_call, print_int_call};
use crate::program::Program;
use std::alloc::Global;
use wy_core::{Core, Decl, Routine};
use wy_eval_exprs::{Meter, Stop};
use wy_term::CondKind;
use wy_value::Value;

/// The declared function or method with this number; none where the number stands behind the last.
pub fn find(decls: &[Decl], number: u32) -> Option<&Routine>
    ensures value { MatchOption result (length (routines_of (map seen_decl decls.now)) ≤ number) (λ routine. callee (routines_of (map seen_decl decls.now)) number ≡ Declared (seen_routine routine.now)) }
{
    let mut left = number;
    for decl in decls {
        match decl {
            Decl::Alias(_) => {}
            Decl::Routine(routine) => {
                if left == 0 {
                    return Some(routine);
                }
                left -= 1;
            }
        }
    }
    None
}

// How many functions and methods are declared, where that is at most the number; else the number and one.
fn counted(decls: &[Decl], number: u32) -> u32
    requires { length (routines_of (map seen_decl decls.now)) ≤ number }
    ensures value { result ≡ length (routines_of (map seen_decl decls.now)) }
{
    let mut count = 0;
    for decl in decls {
        match decl {
            Decl::Alias(_) => {}
            Decl::Routine(_) => {
                if count == number {
                    return count;
                }
                count += 1;
            }
        }
    }
    count
}

/// The built-in method with this number, which stands behind the last declared one: `print`, then
/// `print_int`. At any other it is a fault of kind member.
pub fn built_in(
    alloc: Global,
    program: &Program,
    core: &Core,
    number: u32,
    at: u32,
    args: &[Value],
    meter: &mut Meter,
) -> Result<Option<Value>, Stop>
    requires { length (routines_of (seen_core core.now)) ≤ number }
    ensures value { Gives seen_option (built_in_call program.now.declared.limit (callee (routines_of (seen_core core.now)) number) at (map seen args.now) (meter_of meter.old)) result (meter_of meter.new) }
{
    let decls = core.decls.as_slice();
    let behind = number - counted(decls, number);
    if behind == 0 {
        return print_call(alloc, program.declared.limit, at, args, meter);
    }
    if behind == 1 {
        return print_int_call(alloc, at, args, meter);
    }
    Err(Stop::Fault(CondKind::Member, at))
}
