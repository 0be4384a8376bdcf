//! What a contract asks of a value that is given a type.
ghost use Rattle.std.specs.Prelude.{◌≡◌, Some, map};
ghost use Rattle.wy_core.specs.CoreSeen.{seen_alias, seen_ty};
ghost use Rattle.wy_value.specs.Seen.{seen};
ghost use Rattle.wy_sem.specs.TypeTests as tests;
ghost use Rattle.wy_eval_exprs.specs.Outcomes.{Gives, itself, meter_of};
ghost use Rattle.wy_eval_exprs.specs.Settings.{here};

use crate::declared::{Declared, ROOM};
use crate::evaluation::asked;
use crate::meter::Meter;
use crate::stop::Stop;
use std::alloc::Global;
use wy_core::Ty;
use wy_value::Value;

/// Whether the value is in the type, where a clause that faults isn't true.
pub fn member(
    alloc: Global,
    declared: &Declared,
    ty: &Ty,
    value: &Value,
    meter: &mut Meter,
) -> Result<bool, Stop>
    ensures value { Gives itself (tests.member here (Some declared.now.limit) (map seen_alias declared.now.types) (seen_ty ty.now) (seen value.now) (meter_of meter.old)) result (meter_of meter.new) }
{
    let bare = declared.types.len();
    if bare == usize::MAX {
        return Err(Stop::NoMemory);
    }
    asked(
        alloc,
        ROOM,
        declared,
        bare + 1,
        false,
        true,
        bare,
        ty,
        value,
        meter,
    )
}
