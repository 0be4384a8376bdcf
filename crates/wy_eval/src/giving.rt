//! Whether a value is of the type that it is given.
ghost use Rattle.std.specs.Prelude.{Some, length, map, suc, true};
ghost use Rattle.wy_core.specs.CoreSeen.{seen_alias, seen_ty};
ghost use Rattle.wy_value.specs.Seen.{seen};
ghost use Rattle.wy_sem.specs.Evaluation.{owed_member as spec_owed_member};
ghost use Rattle.wy_sem.specs.Meter.{Done};
ghost use Rattle.wy_sem.specs.Statements.{given as spec_given};
ghost use Rattle.wy_sem.specs.TypeTests.{tests as spec_tests};
ghost use Rattle.wy_eval_exprs.specs.Outcomes.{Gives, itself, meter_of};
ghost use Rattle.wy_eval_exprs.specs.Settings.{here};

use crate::constrained::mentions;
use crate::program::Program;
use std::alloc::Global;
use wy_core::Ty;
use wy_eval_exprs::{Meter, ROOM, Stop, check, member, type_test};
use wy_term::CondKind;
use wy_value::Value;

/// Whether the value is in the type, which is asked where the type reaches one with clauses; elsewhere
/// flow types say so.
pub fn owed_member(
    alloc: Global,
    program: &Program,
    ty: &Ty,
    value: &Value,
    meter: &mut Meter,
) -> Result<bool, Stop>
    ensures value { Gives itself (spec_owed_member here (Some program.now.declared.limit) (map seen_alias program.now.declared.types) (seen_ty ty.now) (seen value.now) (meter_of meter.old)) result (meter_of meter.new) }
{
    let marks = program.marks.as_slice();
    let owed = mentions(marks, ty);
    if !owed {
        return Ok(true);
    }
    let declared = &program.declared;
    member(alloc, declared, ty, value, meter)
}

/// The value must be of the type that it is given, else it is a fault of kind member at this place.
pub fn given(
    alloc: Global,
    program: &Program,
    at: u32,
    ty: &Ty,
    value: &Value,
    meter: &mut Meter,
) -> Result<(), Stop>
    ensures value { Gives itself (spec_given (spec_owed_member here (Some program.now.declared.limit) (map seen_alias program.now.declared.types)) at (seen_ty ty.now) (seen value.now) (Done tt) (meter_of meter.old)) result (meter_of meter.new) }
{
    let within = owed_member(alloc, program, ty, value, meter)?;
    check(within, CondKind::Member, at)
}

/// What an `is` test in code does: each visit spends a tick, and its clauses nest no deeper than there are
/// declared types.
pub fn tested(
    alloc: Global,
    program: &Program,
    ty: &Ty,
    value: &Value,
    meter: &mut Meter,
) -> Result<bool, Stop>
    ensures value { Gives itself (spec_tests here (Some program.now.declared.limit) (map seen_alias program.now.declared.types) (suc (length (map seen_alias program.now.declared.types))) true (seen_ty ty.now) (seen value.now) (meter_of meter.old)) result (meter_of meter.new) }
{
    let declared = &program.declared;
    let bare = declared.types.len();
    if bare == usize::MAX {
        return Err(Stop::NoMemory);
    }
    type_test(alloc, ROOM, declared, bare + 1, true, ty, value, meter)
}
