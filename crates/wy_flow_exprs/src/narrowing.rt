//! Changes of variables by tests.
ghost use Rattle.std.specs.Prelude.{◌≡◌, ◌++◌, [], ◌∷◌, IfOk, OnOk};
ghost use Rattle.wy_core.specs.CoreSeen.{seen_expr, seen_ty};
ghost use Rattle.wy_flow_spec.specs.environment.Seen.{seen_changes, seen_environment};
ghost use Rattle.wy_flow_exprs.specs.Seen.{seen_flow, seen_found};
ghost use Rattle.wy_types.specs.Names.{types_of};
ghost use Rattle.wy_types.specs.Questions.{IsOver};
ghost use Rattle.wy_types.specs.Recursion.{RecurThroughParts};
ghost use Rattle.wy_flow_spec.specs.typing.Outcomes.{Meets};
ghost use Rattle.wy_core.specs.Types.{InterTy};
ghost use Rattle.wy_flow_spec.specs.environment.Variables.{type_of};
ghost use Rattle.wy_flow_spec.specs.typing.Asked.{Norm};
ghost use Rattle.wy_flow_spec.specs.typing.Joins.{JoinedType};
ghost use Rattle.wy_flow_exprs.specs.Tested.{tested};
ghost use Rattle.wy_flow_spec.specs.typing.Narrowing as rule;

use crate::checks::{inter_of, joined_type, norm_at, not_of};
use crate::walk::{Found, Program, Walk, truth};
use std::alloc::{AllocError, Global};
use wy_core::{Expr, ExprKind, Ty};
use wy_flow_spec::environment::{Environment, Shared};
use wy_flow_spec::typing::FlowFault;
use wy_items::Items;

fn copy_change(change: &(u32, Shared)) -> Result<(u32, Shared), AllocError>
    ensures value { IfOk result (λ t. t ≡ change.now) }
{
    Ok((change.0, change.1.share()?))
}

/// The first changes and then the others, each type with one more owner.
pub fn behind(
    alloc: Global,
    first: &[(u32, Shared)],
    others: &[(u32, Shared)],
) -> Result<Items<(u32, Shared)>, AllocError>
    ensures value { IfOk result (λ t. seen_changes t ≡ seen_changes first.now ++ seen_changes others.now) }
{
    let made = with_changes(Items::new(alloc), first)?;
    with_changes(made, others)
}

// The changes, and these behind them.
fn with_changes(
    made: Items<(u32, Shared)>,
    others: &[(u32, Shared)],
) -> Result<Items<(u32, Shared)>, AllocError>
    ensures value { IfOk result (λ t. seen_changes t ≡ seen_changes made ++ seen_changes others.now) }
{
    let mut all = made;
    for change in others {
        all.push(copy_change(change)?)?;
    }
    Ok(all)
}

// Whether one of the numbers is the variable.
fn is_among(variables: &[u32], variable: u32) -> bool
    ensures value { result ≡ rule.is_among variables.now variable }
{
    for other in variables {
        if *other == variable {
            return true;
        }
    }
    false
}

// The numbers, and the variables of the changes that are not among them.
fn with_variables(
    variables: Items<u32>,
    changes: &[(u32, Shared)],
) -> Result<Items<u32>, AllocError>
    ensures value { IfOk result (λ t. t ≡ rule.with_variables variables (seen_changes changes.now)) }
{
    let mut all = variables;
    for change in changes {
        if !is_among(all.as_slice(), change.0) {
            all.push(change.0)?;
        }
    }
    Ok(all)
}

// What the variable is where either changes are made.
fn either_type(
    alloc: Global,
    program: &Program,
    env: &Environment,
    walk: &mut Walk,
    at: u32,
    first: &[(u32, Shared)],
    second: &[(u32, Shared)],
    variable: u32,
) -> Result<Shared, FlowFault>
    requires recursion { RecurThroughParts (types_of program.now.names) }
    requires over { IsOver (types_of program.now.names) walk.old.question }
    ensures value { Meets (JoinedType (types_of program.now.names) at (type_of (seen_environment env.now) (seen_changes first.now) variable) (type_of (seen_environment env.now) (seen_changes second.now) variable)) seen_ty result }
    ensures over { OnOk result (IsOver (types_of program.now.names) walk.new.question) }
    ensures flow { OnOk result (seen_flow walk.new ≡ seen_flow walk.old) }
{
    let a = env.type_of(alloc, at, first, variable)?;
    let b = env.type_of(alloc, at, second, variable)?;
    joined_type(alloc, &program.names, &mut walk.question, at, &a, &b)
}

// So for each of the variables.
fn either_all(
    alloc: Global,
    program: &Program,
    env: &Environment,
    walk: &mut Walk,
    at: u32,
    first: &[(u32, Shared)],
    second: &[(u32, Shared)],
    variables: &[u32],
) -> Result<Items<(u32, Shared)>, FlowFault>
    requires recursion { RecurThroughParts (types_of program.now.names) }
    requires over { IsOver (types_of program.now.names) walk.old.question }
    ensures value { Meets (rule.EitherAll (types_of program.now.names) at (seen_environment env.now) (seen_changes first.now) (seen_changes second.now) [] variables.now) seen_changes result }
    ensures over { OnOk result (IsOver (types_of program.now.names) walk.new.question) }
    ensures flow { OnOk result (seen_flow walk.new ≡ seen_flow walk.old) }
{
    let mut made = Items::new(alloc);
    for variable in variables {
        let ty = either_type(alloc, program, env, walk, at, first, second, *variable)?;
        made.push((*variable, ty))?;
    }
    Ok(made)
}

/// The changes where the first changes are made or the second ones, for a node at `at`: each variable
/// that either changes has the union of its types.
pub fn either(
    alloc: Global,
    program: &Program,
    env: &Environment,
    walk: &mut Walk,
    over: &[(u32, Shared)],
    at: u32,
    first: &[(u32, Shared)],
    second: &[(u32, Shared)],
) -> Result<Items<(u32, Shared)>, FlowFault>
    requires recursion { RecurThroughParts (types_of program.now.names) }
    requires over { IsOver (types_of program.now.names) walk.old.question }
    ensures value { Meets (rule.Either (types_of program.now.names) at (seen_environment env.now) (seen_changes over.now) (seen_changes first.now) (seen_changes second.now)) seen_changes result }
    ensures over { OnOk result (IsOver (types_of program.now.names) walk.new.question) }
    ensures flow { OnOk result (seen_flow walk.new ≡ seen_flow walk.old) }
{
    let variables = with_variables(Items::new(alloc), first)?;
    let all = with_variables(variables, second)?;
    let one = behind(alloc, over, first)?;
    let two = behind(alloc, over, second)?;
    either_all(
        alloc,
        program,
        env,
        walk,
        at,
        one.as_slice(),
        two.as_slice(),
        all.as_slice(),
    )
}

// What is in the type, and in the other or not.
fn meet(
    alloc: Global,
    program: &Program,
    walk: &mut Walk,
    at: u32,
    ty: &Ty,
    other: &Ty,
) -> Result<Shared, FlowFault>
    requires recursion { RecurThroughParts (types_of program.now.names) }
    requires over { IsOver (types_of program.now.names) walk.old.question }
    ensures value { Meets (Norm (types_of program.now.names) at (InterTy (seen_ty ty.now) (seen_ty other.now))) seen_ty result }
    ensures over { OnOk result (IsOver (types_of program.now.names) walk.new.question) }
    ensures flow { OnOk result (seen_flow walk.new ≡ seen_flow walk.old) }
{
    let both = inter_of(alloc, at, ty, other)?;
    norm_at(alloc, &program.names, &mut walk.question, at, &both)
}

fn one_change(alloc: Global, variable: u32, ty: Shared) -> Result<Items<(u32, Shared)>, AllocError>
    ensures value { IfOk result (λ t. seen_changes t ≡ (variable, seen_ty ty) ∷ []) }
{
    let mut made = Items::new(alloc);
    made.push((variable, ty))?;
    Ok(made)
}

// `x is T`: x has what is in both types where it is true, and else what is in its own alone.
fn is_variable(
    alloc: Global,
    program: &Program,
    walk: &mut Walk,
    at: u32,
    variable: u32,
    operand: Found,
    ty: &Ty,
) -> Result<Found, FlowFault>
    requires recursion { RecurThroughParts (types_of program.now.names) }
    requires over { IsOver (types_of program.now.names) walk.old.question }
    ensures value { Meets (rule.IsVariable (types_of program.now.names) at variable (seen_ty operand.ty) (seen_ty ty.now) (seen_flow walk.old)) (seen_found (seen_flow walk.new)) result }
    ensures over { OnOk result (IsOver (types_of program.now.names) walk.new.question) }
{
    let yes = meet(alloc, program, walk, at, operand.ty.get(), ty)?;
    let outside = not_of(alloc, at, ty)?;
    let no = meet(alloc, program, walk, at, operand.ty.get(), &outside)?;
    let yes = one_change(alloc, variable, yes)?;
    let no = one_change(alloc, variable, no)?;
    truth(alloc, walk, at, yes, no)
}

// The variable that is tested, where the operand is one.
fn tested(operand: &Expr) -> Option<u32>
    ensures value { result ≡ tested (seen_expr operand.now) }
{
    match &operand.kind {
        ExprKind::Var(variable) => Some(*variable),
        _ => None,
    }
}

/// `e is T`
pub fn is(
    alloc: Global,
    program: &Program,
    walk: &mut Walk,
    at: u32,
    operand: &Expr,
    value: Found,
    ty: &Ty,
) -> Result<Found, FlowFault>
    requires recursion { RecurThroughParts (types_of program.now.names) }
    requires over { IsOver (types_of program.now.names) walk.old.question }
    ensures value { Meets (rule.IsTest (types_of program.now.names) at (seen_expr operand.now) (seen_found (seen_flow walk.old) value) (seen_ty ty.now)) (seen_found (seen_flow walk.new)) result }
    ensures over { OnOk result (IsOver (types_of program.now.names) walk.new.question) }
{
    match tested(operand) {
        Some(variable) => is_variable(alloc, program, walk, at, variable, value, ty),
        None => truth(alloc, walk, at, Items::new(alloc), Items::new(alloc)),
    }
}
