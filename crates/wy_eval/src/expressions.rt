//! What expressions of code come to.
ghost use Rattle.std.specs.Prelude.{◌≡◌, map, true};
ghost use Rattle.wy_core.specs.CoreSeen.{seen_alias, seen_core, seen_expr, seen_exprs, seen_fields};
ghost use Rattle.wy_core.specs.CoreTree.{aliases_of, exprs_of};
ghost use Rattle.wy_value.specs.Seen.{seen};
ghost use Rattle.wy_sem.specs.Expressions as spec;
ghost use Rattle.wy_sem.specs.Operations as operations;
ghost use Rattle.wy_eval_exprs.specs.Operands.{parts_of};
ghost use Rattle.wy_eval_exprs.specs.Outcomes.{Gives, meter_of};
ghost use Rattle.wy_eval_exprs.specs.Scopes.{scope, store_of};
ghost use Rattle.wy_eval_exprs.specs.Settings.{data_in, turns_of};
ghost use Rattle.wy_eval.specs.Settings.{code};

use crate::calls::run;
use crate::giving::tested;
use crate::program::Program;
use std::alloc::Global;
use wy_core::{Core, Expr, ExprKind, Op};
use wy_data::Name;
use wy_eval_exprs::{
    Meter, Stop, applied, as_numbers, as_truth, denied, early, field_of, item_of, length, needed,
    negated, repeated, variable, with_number,
};
use wy_items::Items;
use wy_value::Value;

/// The value of an expression. Each node spends a tick.
#[cycle(code)]
pub fn value_of(
    alloc: Global,
    room: u32,
    program: &Program,
    core: &Core,
    calls: usize,
    store: &[Option<Value>],
    over: &[(u32, i128)],
    expr: &Expr,
    meter: &mut Meter,
) -> Result<Value, Stop>
    requires { map seen_alias program.now.declared.types ≡ aliases_of (seen_core core.now) }
    ensures value { Gives seen (spec.eval (code (seen_core core.now) (map seen_alias program.now.declared.types) program.now.declared.limit calls) true (seen_expr expr.now) (scope (store_of store.now) over.now) (meter_of meter.old)) result (meter_of meter.new) }
{
    if room == 0 {
        return Err(Stop::NoMemory);
    }
    let inside = room - 1;
    meter.spend(true)?;
    let at = expr.at;
    match &expr.kind {
        ExprKind::Null => Ok(Value::Null),
        ExprKind::Bool(truth) => Ok(Value::Bool(*truth)),
        ExprKind::Int(number) => Ok(Value::Int(*number)),
        ExprKind::Var(number) => variable(alloc, at, store, over, *number),
        ExprKind::Call(routine, args) => {
            let args = args.as_slice();
            let values = values_of(
                alloc, inside, program, core, calls, store, over, args, meter,
            )?;
            let values = values.as_slice();
            let given = run(
                alloc, inside, program, core, calls, *routine, at, values, meter,
            )?;
            needed(at, given)
        }
        ExprKind::Neg(operand) => {
            let operand = operand.get();
            let value = value_of(
                alloc, inside, program, core, calls, store, over, operand, meter,
            )?;
            negated(at, &value)
        }
        ExprKind::Not(operand) => {
            let operand = operand.get();
            let value = value_of(
                alloc, inside, program, core, calls, store, over, operand, meter,
            )?;
            denied(at, &value)
        }
        ExprKind::Len(operand) => {
            let operand = operand.get();
            let value = value_of(
                alloc, inside, program, core, calls, store, over, operand, meter,
            )?;
            length(at, &value)
        }
        ExprKind::Binary(op, left, right) => {
            let left = left.get();
            let right = right.get();
            let value = value_of(
                alloc, inside, program, core, calls, store, over, left, meter,
            )?;
            operated(
                alloc, inside, program, core, calls, store, over, *op, at, &value, right, meter,
            )
        }
        ExprKind::Is(operand, ty) => {
            let operand = operand.get();
            let value = value_of(
                alloc, inside, program, core, calls, store, over, operand, meter,
            )?;
            let truth = tested(alloc, program, ty, &value, meter)?;
            Ok(Value::Bool(truth))
        }
        ExprKind::Index(array, index) => {
            let array = array.get();
            let index = index.get();
            let value = value_of(
                alloc, inside, program, core, calls, store, over, array, meter,
            )?;
            let place = value_of(
                alloc, inside, program, core, calls, store, over, index, meter,
            )?;
            item_of(alloc, at, &value, &place)
        }
        ExprKind::Field(whole, name) => {
            let whole = whole.get();
            let value = value_of(
                alloc, inside, program, core, calls, store, over, whole, meter,
            )?;
            field_of(alloc, at, &value, name)
        }
        ExprKind::List(items) => {
            let items = items.as_slice();
            let values = values_of(
                alloc, inside, program, core, calls, store, over, items, meter,
            )?;
            Ok(Value::Array(values))
        }
        ExprKind::Repeat(item, count) => {
            let item = item.get();
            let count = count.get();
            let value = value_of(
                alloc, inside, program, core, calls, store, over, item, meter,
            )?;
            let times = value_of(
                alloc, inside, program, core, calls, store, over, count, meter,
            )?;
            repeated(alloc, at, &value, &times)
        }
        ExprKind::Record(fields) => {
            let fields = fields.as_slice();
            let values = fields_of(
                alloc, inside, program, core, calls, store, over, fields, meter,
            )?;
            Ok(Value::Record(values))
        }
        ExprKind::Quant(all, number, from, to, body) => {
            let from = from.get();
            let to = to.get();
            let body = body.get();
            let first = value_of(
                alloc, inside, program, core, calls, store, over, from, meter,
            )?;
            let behind = value_of(alloc, inside, program, core, calls, store, over, to, meter)?;
            quantified(
                alloc, inside, program, core, calls, store, over, at, *all, *number, &first,
                &behind, body, meter,
            )
        }
    }
}

/// The operator on its first operand: `&&` and `||` may leave the second out.
#[cycle(code)]
fn operated(
    alloc: Global,
    room: u32,
    program: &Program,
    core: &Core,
    calls: usize,
    store: &[Option<Value>],
    over: &[(u32, i128)],
    op: Op,
    at: u32,
    left: &Value,
    right: &Expr,
    meter: &mut Meter,
) -> Result<Value, Stop>
    requires { map seen_alias program.now.declared.types ≡ aliases_of (seen_core core.now) }
    ensures value { Gives seen (operations.operated op at (spec.eval (code (seen_core core.now) (map seen_alias program.now.declared.types) program.now.declared.limit calls) true (seen_expr right.now) (scope (store_of store.now) over.now)) (seen left.now) (meter_of meter.old)) result (meter_of meter.new) }
{
    match early(op, at, left) {
        Ok(Some(truth)) => Ok(Value::Bool(truth)),
        Ok(None) => {
            let value = value_of(alloc, room, program, core, calls, store, over, right, meter)?;
            applied(op, at, left, &value)
        }
        Err(stop) => Err(stop),
    }
}

/// The values of expressions, from left to right.
#[cycle(code)]
pub fn values_of(
    alloc: Global,
    room: u32,
    program: &Program,
    core: &Core,
    calls: usize,
    store: &[Option<Value>],
    over: &[(u32, i128)],
    exprs: &[Expr],
    meter: &mut Meter,
) -> Result<Items<Value>, Stop>
    requires { map seen_alias program.now.declared.types ≡ aliases_of (seen_core core.now) }
    ensures value { Gives data_in (spec.eval_all (code (seen_core core.now) (map seen_alias program.now.declared.types) program.now.declared.limit calls) true (exprs_of (seen_exprs exprs.now)) (scope (store_of store.now) over.now) (meter_of meter.old)) result (meter_of meter.new) }
{
    let mut made = Items::new(alloc);
    for expr in exprs {
        let value = value_of(alloc, room, program, core, calls, store, over, expr, meter)?;
        made.push(value)?;
    }
    Ok(made)
}

/// The fields of a record, from left to right.
#[cycle(code)]
fn fields_of(
    alloc: Global,
    room: u32,
    program: &Program,
    core: &Core,
    calls: usize,
    store: &[Option<Value>],
    over: &[(u32, i128)],
    fields: &[(Name, Expr)],
    meter: &mut Meter,
) -> Result<Items<(Name, Value)>, Stop>
    requires { map seen_alias program.now.declared.types ≡ aliases_of (seen_core core.now) }
    ensures value { Gives parts_of (spec.eval_fields (code (seen_core core.now) (map seen_alias program.now.declared.types) program.now.declared.limit calls) true (seen_fields fields.now) (scope (store_of store.now) over.now) (meter_of meter.old)) result (meter_of meter.new) }
{
    let mut made = Items::new(alloc);
    for field in fields {
        let value = value_of(
            alloc, room, program, core, calls, store, over, &field.1, meter,
        )?;
        let name = field.0.copy(alloc)?;
        made.push((name, value))?;
    }
    Ok(made)
}

/// The turns of a quantifier from the one bound to before the other, which must be numbers.
#[cycle(code)]
fn quantified(
    alloc: Global,
    room: u32,
    program: &Program,
    core: &Core,
    calls: usize,
    store: &[Option<Value>],
    over: &[(u32, i128)],
    at: u32,
    all: bool,
    variable: u32,
    first: &Value,
    behind: &Value,
    body: &Expr,
    meter: &mut Meter,
) -> Result<Value, Stop>
    requires { map seen_alias program.now.declared.types ≡ aliases_of (seen_core core.now) }
    ensures value { Gives seen (spec.quantified all at (turns_of (code (seen_core core.now) (map seen_alias program.now.declared.types) program.now.declared.limit calls) true (seen_expr body.now) (scope (store_of store.now) over.now) variable) (seen first.now) (seen behind.now) (meter_of meter.old)) result (meter_of meter.new) }
{
    let (from, to) = as_numbers(at, first, behind)?;
    turns(
        alloc, room, program, core, calls, store, over, at, all, variable, from, to, body, meter,
    )
}

/// `all` (true) ends at the first turn that is false, `some` at the first that is true.
#[cycle(code)]
fn turns(
    alloc: Global,
    room: u32,
    program: &Program,
    core: &Core,
    calls: usize,
    store: &[Option<Value>],
    over: &[(u32, i128)],
    at: u32,
    all: bool,
    variable: u32,
    from: i128,
    to: i128,
    body: &Expr,
    meter: &mut Meter,
) -> Result<Value, Stop>
    requires { map seen_alias program.now.declared.types ≡ aliases_of (seen_core core.now) }
    ensures value { Gives seen (spec.each all at (turns_of (code (seen_core core.now) (map seen_alias program.now.declared.types) program.now.declared.limit calls) true (seen_expr body.now) (scope (store_of store.now) over.now) variable) from (spec.span from to) (meter_of meter.old)) result (meter_of meter.new) }
{
    let mut number = from;
    while number < to {
        meter.tick()?;
        let inside = with_number(alloc, over, variable, number)?;
        let inside = inside.as_slice();
        let value = value_of(
            alloc, room, program, core, calls, store, inside, body, meter,
        )?;
        let truth = as_truth(at, &value)?;
        if truth != all {
            return Ok(Value::Bool(truth));
        }
        number += 1;
    }
    Ok(Value::Bool(all))
}
