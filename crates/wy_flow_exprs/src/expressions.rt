//! Expressions.
ghost use Rattle.std.specs.Prelude.{◌≡◌, ◌++◌, ◌∷◌, [], IfOk, OnOk};
ghost use Rattle.wy_core.specs.CoreSeen.{seen_expr, seen_exprs, seen_fields};
ghost use Rattle.wy_flow_spec.specs.environment.Seen.{seen_changes, seen_environment};
ghost use Rattle.wy_flow_exprs.specs.Seen.{seen_all, seen_all_fields, seen_flow, seen_found, seen_program};
ghost use Rattle.wy_types.specs.Names.{types_of};
ghost use Rattle.wy_types.specs.Questions.{IsOver};
ghost use Rattle.wy_types.specs.Recursion.{RecurThroughParts};
ghost use Rattle.wy_flow_spec.specs.typing.Outcomes.{Meets};
ghost use Rattle.wy_core.specs.CoreTree.{exprs_of};
ghost use Rattle.wy_flow_spec.specs.environment.Variables as variables;
ghost use Rattle.wy_flow_spec.specs.typing.Expressions.{TypedExpr, TypedExprs, TypedFields, none_yet, no_field_yet};

use crate::calls::call;
use crate::narrowing::{behind, is};
use crate::operators::{binary, len, neg, not, right_side};
use crate::parts::{field, index, list, quant, record, repeat};
use crate::walk::{Found, Program, Walk, number, of_type, truth};
use std::alloc::{AllocError, Global};
use wy_core::{Expr, ExprKind};
use wy_data::Name;
use wy_flow_spec::environment::{Environment, Shared, int_type, null_type};
use wy_flow_spec::typing::FlowFault;
use wy_items::Items;

/// The type of an expression where these changes lie on the types of variables, and those that it
/// makes where it is true and where it is false; or the first fault.
#[cycle(typed)]
pub fn typed(
    alloc: Global,
    program: &Program,
    env: &Environment,
    walk: &mut Walk,
    over: &[(u32, Shared)],
    expr: &Expr,
) -> Result<Found, FlowFault>
    requires recursion { RecurThroughParts (types_of program.now.names) }
    requires over { IsOver (types_of program.now.names) walk.old.question }
    ensures value { Meets (TypedExpr (seen_program program.now) (seen_environment env.now) (seen_expr expr.now) (seen_changes over.now) (seen_flow walk.old)) (seen_found (seen_flow walk.new)) result }
    ensures over { OnOk result (IsOver (types_of program.now.names) walk.new.question) }
{
    let at = expr.at;
    match &expr.kind {
        ExprKind::Null => {
            let ty = null_type(alloc, at)?;
            of_type(alloc, walk, ty)
        }
        ExprKind::Bool(_) => { truth(alloc, walk, at, Items::new(alloc), Items::new(alloc)) }
        ExprKind::Int(_) => number(alloc, walk, at),
        ExprKind::Var(variable) => {
            let ty = env.type_of(alloc, at, over, *variable)?;
            of_type(alloc, walk, ty)
        }
        ExprKind::Call(routine, args) => {
            let args = typed_all(alloc, program, env, walk, over, args.as_slice())?;
            call(alloc, program, walk, at, *routine, args)
        }
        ExprKind::Neg(operand) => {
            let operand = typed(alloc, program, env, walk, over, operand.get())?;
            neg(alloc, program, walk, at, operand)
        }
        ExprKind::Not(operand) => {
            let operand = typed(alloc, program, env, walk, over, operand.get())?;
            not(alloc, program, walk, at, operand)
        }
        ExprKind::Len(operand) => {
            let operand = typed(alloc, program, env, walk, over, operand.get())?;
            len(alloc, program, walk, at, operand)
        }
        ExprKind::Binary(op, left, right) => {
            let left = typed(alloc, program, env, walk, over, left.get())?;
            let inside = right_side(alloc, over, *op, &left)?;
            let right = typed(alloc, program, env, walk, inside.as_slice(), right.get())?;
            binary(alloc, program, env, walk, over, at, *op, left, right)
        }
        ExprKind::Is(operand, ty) => {
            let operand = operand.get();
            let value = typed(alloc, program, env, walk, over, operand)?;
            is(alloc, program, walk, at, operand, value, ty)
        }
        ExprKind::Index(array, place) => {
            let array = typed(alloc, program, env, walk, over, array.get())?;
            let place = typed(alloc, program, env, walk, over, place.get())?;
            index(alloc, program, walk, at, array, place)
        }
        ExprKind::Field(whole, name) => {
            let whole = typed(alloc, program, env, walk, over, whole.get())?;
            field(alloc, program, walk, at, whole, name)
        }
        ExprKind::List(items) => {
            let items = typed_all(alloc, program, env, walk, over, items.as_slice())?;
            list(alloc, program, walk, at, items)
        }
        ExprKind::Repeat(item, count) => {
            let item = typed(alloc, program, env, walk, over, item.get())?;
            let count = typed(alloc, program, env, walk, over, count.get())?;
            repeat(alloc, program, walk, at, item, count)
        }
        ExprKind::Record(fields) => {
            let fields = typed_fields(alloc, program, env, walk, over, fields.as_slice())?;
            record(alloc, program, walk, at, fields)
        }
        ExprKind::Quant(_, variable, from, to, body) => {
            let from = typed(alloc, program, env, walk, over, from.get())?;
            let to = typed(alloc, program, env, walk, over, to.get())?;
            let inside = with_number(alloc, at, over, *variable)?;
            let body = typed(alloc, program, env, walk, inside.as_slice(), body.get())?;
            quant(alloc, program, walk, at, from, to, body)
        }
    }
}

/// The types of expressions, from left to right.
#[cycle(typed)]
pub fn typed_all(
    alloc: Global,
    program: &Program,
    env: &Environment,
    walk: &mut Walk,
    over: &[(u32, Shared)],
    exprs: &[Expr],
) -> Result<Items<Shared>, FlowFault>
    requires recursion { RecurThroughParts (types_of program.now.names) }
    requires over { IsOver (types_of program.now.names) walk.old.question }
    ensures value { Meets (TypedExprs (seen_program program.now) (seen_environment env.now) (exprs_of (seen_exprs exprs.now)) (seen_changes over.now) (none_yet (seen_flow walk.old))) (seen_all (seen_flow walk.new)) result }
    ensures over { OnOk result (IsOver (types_of program.now.names) walk.new.question) }
{
    let mut made = Items::new(alloc);
    for expr in exprs {
        let found = typed(alloc, program, env, walk, over, expr)?;
        made.push(found.ty)?;
    }
    Ok(made)
}

#[cycle(typed)]
fn typed_fields(
    alloc: Global,
    program: &Program,
    env: &Environment,
    walk: &mut Walk,
    over: &[(u32, Shared)],
    fields: &[(Name, Expr)],
) -> Result<Items<(Name, Shared)>, FlowFault>
    requires recursion { RecurThroughParts (types_of program.now.names) }
    requires over { IsOver (types_of program.now.names) walk.old.question }
    ensures value { Meets (TypedFields (seen_program program.now) (seen_environment env.now) (seen_fields fields.now) (seen_changes over.now) (no_field_yet (seen_flow walk.old))) (seen_all_fields (seen_flow walk.new)) result }
    ensures over { OnOk result (IsOver (types_of program.now.names) walk.new.question) }
{
    let mut made = Items::new(alloc);
    for field in fields {
        let found = typed(alloc, program, env, walk, over, &field.1)?;
        let name = field.0.copy(alloc)?;
        made.push((name, found.ty))?;
    }
    Ok(made)
}

// The changes, and a number for the variable of a quantifier.
fn with_number(
    alloc: Global,
    at: u32,
    over: &[(u32, Shared)],
    variable: u32,
) -> Result<Items<(u32, Shared)>, AllocError>
    ensures value { IfOk result (λ t. seen_changes t ≡ seen_changes over.now ++ (variable, variables.int_type) ∷ []) }
{
    let mut inside = behind(alloc, over, &[])?;
    let ty = int_type(alloc, at)?;
    inside.push((variable, ty))?;
    Ok(inside)
}
