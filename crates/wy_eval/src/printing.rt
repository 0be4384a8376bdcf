//! The two built-in methods, which print.
ghost use Rattle.std.specs.Prelude.{Some, map};
ghost use Rattle.wy_value.specs.Seen.{seen};
ghost use Rattle.wy_sem.specs.Evaluation.{print_call as spec_print_call, print_int_call as spec_print_int_call, text_of as spec_text_of};
ghost use Rattle.wy_eval_exprs.specs.Operands.{items_of, seen_option};
ghost use Rattle.wy_eval_exprs.specs.Outcomes.{Gives, meter_of};
ghost use Rattle.wy_eval.specs.Texts.{AsciiOf};

use std::alloc::Global;
use wy_eval_exprs::{Meter, Stop, as_items, as_number};
use wy_term::CondKind;
use wy_value::Value;

/// `print` writes the bytes of a text. Its requires clause asks each code to be one of ASCII, a turn for
/// each: else it is a fault of kind requires at this place.
pub fn print_call(
    alloc: Global,
    limit: u64,
    at: u32,
    args: &[Value],
    meter: &mut Meter,
) -> Result<Option<Value>, Stop>
    ensures value { Gives seen_option (spec_print_call (Some limit) at (map seen args.now) (meter_of meter.old)) result (meter_of meter.new) }
{
    if args.len() != 1 {
        return Err(Stop::Fault(CondKind::Member, at));
    }
    let text = &args[0];
    let items = as_items(at, text)?;
    let items = items.as_slice();
    let bytes = text_of(alloc, limit, at, items, meter)?;
    let bytes = bytes.as_slice();
    meter.print(bytes)?;
    Ok(None)
}

// The bytes of a text.
fn text_of(
    alloc: Global,
    limit: u64,
    at: u32,
    codes: &[Value],
    meter: &mut Meter,
) -> Result<Vec<u8>, Stop>
    ensures value { Gives (λ bytes. bytes.items) (spec_text_of (Some limit) at (items_of codes.now) (meter_of meter.old)) result (meter_of meter.new) }
{
    let mut bytes = Vec::new(alloc);
    for code in codes {
        meter.count(limit)?;
        let byte = ascii(at, code)?;
        bytes.push(byte)?;
    }
    Ok(bytes)
}

// The byte of a code, which must be one of ASCII.
fn ascii(at: u32, code: &Value) -> Result<u8, Stop>
    ensures value { AsciiOf at (seen code.now) result }
{
    let number = as_number(at, code)?;
    if number < 0 {
        return Err(Stop::Fault(CondKind::Requires, at));
    }
    if number > 127 {
        return Err(Stop::Fault(CondKind::Requires, at));
    }
    Ok(number as u8)
}

/// `print_int` writes its argument in decimal.
pub fn print_int_call(
    alloc: Global,
    at: u32,
    args: &[Value],
    meter: &mut Meter,
) -> Result<Option<Value>, Stop>
    ensures value { Gives seen_option (spec_print_int_call at (map seen args.now) (meter_of meter.old)) result (meter_of meter.new) }
{
    if args.len() != 1 {
        return Err(Stop::Fault(CondKind::Member, at));
    }
    let value = &args[0];
    let number = as_number(at, value)?;
    let digits = format!(in alloc; "{number}")?;
    let digits = digits.as_bytes();
    meter.print(digits)?;
    Ok(None)
}
