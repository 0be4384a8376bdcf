//! Whether arguments are of the types of their parameters.
ghost use Rattle.std.specs.Prelude.{map};
ghost use Rattle.wy_core.specs.CoreSeen.{seen_alias, seen_param};
ghost use Rattle.wy_value.specs.Seen.{seen};
ghost use Rattle.wy_eval_exprs.specs.Outcomes.{meter_of};
ghost use Rattle.wy_eval_exprs.specs.Verdicts.{FirstOf};

use crate::declared::Declared;
use crate::membership::member;
use crate::meter::Meter;
use crate::stop::Stop;
use std::alloc::Global;
use wy_core::Param;
use wy_value::Value;

/// The number, from 1, of the first argument that isn't of its parameter's type.
pub fn first_not_member(
    alloc: Global,
    declared: &Declared,
    params: &[Param],
    args: &[Value],
    meter: &mut Meter,
) -> Result<Option<u32>, Stop>
    ensures value { FirstOf declared.now.limit (map seen_alias declared.now.types) (map seen_param params.now) (map seen args.now) (meter_of meter.old) result (meter_of meter.new) }
{
    let mut number: u32 = 0;
    for param in params {
        let place = number as usize;
        if place >= args.len() {
            return Ok(None);
        }
        if number == u32::MAX {
            return Err(Stop::NoMemory);
        }
        number += 1;
        let ty = &param.ty;
        let arg = &args[place];
        let within = member(alloc, declared, ty, arg, meter)?;
        if !within {
            return Ok(Some(number));
        }
    }
    Ok(None)
}
