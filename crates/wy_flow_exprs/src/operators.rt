//! Operators.
ghost use Rattle.std.specs.Prelude.{◌≡◌, [], IfOk, OnOk};
ghost use Rattle.wy_core.specs.CoreSeen.{seen_ty};
ghost use Rattle.wy_flow_spec.specs.environment.Seen.{seen_changes, seen_environment};
ghost use Rattle.wy_flow_exprs.specs.Seen.{seen_flow, seen_found};
ghost use Rattle.wy_types.specs.Names.{types_of};
ghost use Rattle.wy_types.specs.Questions.{IsOver};
ghost use Rattle.wy_types.specs.Recursion.{RecurThroughParts};
ghost use Rattle.wy_flow_spec.specs.typing.Outcomes.{Meets};
ghost use Rattle.wy_flow_spec.specs.typing.Operators as rule;

use crate::checks::{is_array, is_bool, is_int};
use crate::narrowing::{behind, either};
use crate::walk::{Found, Program, Walk, number, truth};
use std::alloc::{AllocError, Global};
use wy_core::Op;
use wy_flow_spec::environment::{Environment, Shared};
use wy_flow_spec::typing::FlowFault;
use wy_items::Items;

/// `- x`
pub fn neg(
    alloc: Global,
    program: &Program,
    walk: &mut Walk,
    at: u32,
    operand: Found,
) -> Result<Found, FlowFault>
    requires recursion { RecurThroughParts (types_of program.now.names) }
    requires over { IsOver (types_of program.now.names) walk.old.question }
    ensures value { Meets (rule.Neg (types_of program.now.names) at (seen_found (seen_flow walk.old) operand)) (seen_found (seen_flow walk.new)) result }
    ensures over { OnOk result (IsOver (types_of program.now.names) walk.new.question) }
{
    is_int(
        alloc,
        &program.names,
        &mut walk.question,
        at,
        operand.ty.get(),
    )?;
    number(alloc, walk, at)
}

/// `!x`, true where its operand is false.
pub fn not(
    alloc: Global,
    program: &Program,
    walk: &mut Walk,
    at: u32,
    operand: Found,
) -> Result<Found, FlowFault>
    requires recursion { RecurThroughParts (types_of program.now.names) }
    requires over { IsOver (types_of program.now.names) walk.old.question }
    ensures value { Meets (rule.Not (types_of program.now.names) at (seen_found (seen_flow walk.old) operand)) (seen_found (seen_flow walk.new)) result }
    ensures over { OnOk result (IsOver (types_of program.now.names) walk.new.question) }
{
    is_bool(
        alloc,
        &program.names,
        &mut walk.question,
        at,
        operand.ty.get(),
    )?;
    let Found { yes, no, .. } = operand;
    truth(alloc, walk, at, no, yes)
}

/// `|xs|`
pub fn len(
    alloc: Global,
    program: &Program,
    walk: &mut Walk,
    at: u32,
    operand: Found,
) -> Result<Found, FlowFault>
    requires recursion { RecurThroughParts (types_of program.now.names) }
    requires over { IsOver (types_of program.now.names) walk.old.question }
    ensures value { Meets (rule.Len (types_of program.now.names) at (seen_found (seen_flow walk.old) operand)) (seen_found (seen_flow walk.new)) result }
    ensures over { OnOk result (IsOver (types_of program.now.names) walk.new.question) }
{
    is_array(
        alloc,
        &program.names,
        &mut walk.question,
        at,
        operand.ty.get(),
    )?;
    number(alloc, walk, at)
}

fn are_ints(
    alloc: Global,
    program: &Program,
    walk: &mut Walk,
    at: u32,
    left: &Shared,
    right: &Shared,
) -> Result<(), FlowFault>
    requires recursion { RecurThroughParts (types_of program.now.names) }
    requires over { IsOver (types_of program.now.names) walk.old.question }
    ensures value { Meets (rule.AreInts (types_of program.now.names) at (seen_ty left.now) (seen_ty right.now)) (λ (u : Unit {0}). u) result }
    ensures over { OnOk result (IsOver (types_of program.now.names) walk.new.question) }
    ensures flow { OnOk result (seen_flow walk.new ≡ seen_flow walk.old) }
{
    is_int(alloc, &program.names, &mut walk.question, at, left.get())?;
    is_int(alloc, &program.names, &mut walk.question, at, right.get())
}

fn are_bools(
    alloc: Global,
    program: &Program,
    walk: &mut Walk,
    at: u32,
    left: &Shared,
    right: &Shared,
) -> Result<(), FlowFault>
    requires recursion { RecurThroughParts (types_of program.now.names) }
    requires over { IsOver (types_of program.now.names) walk.old.question }
    ensures value { Meets (rule.AreBools (types_of program.now.names) at (seen_ty left.now) (seen_ty right.now)) (λ (u : Unit {0}). u) result }
    ensures over { OnOk result (IsOver (types_of program.now.names) walk.new.question) }
    ensures flow { OnOk result (seen_flow walk.new ≡ seen_flow walk.old) }
{
    is_bool(alloc, &program.names, &mut walk.question, at, left.get())?;
    is_bool(alloc, &program.names, &mut walk.question, at, right.get())
}

fn arithmetic(
    alloc: Global,
    program: &Program,
    walk: &mut Walk,
    at: u32,
    left: Found,
    right: Found,
) -> Result<Found, FlowFault>
    requires recursion { RecurThroughParts (types_of program.now.names) }
    requires over { IsOver (types_of program.now.names) walk.old.question }
    ensures value { Meets (rule.Arithmetic (types_of program.now.names) at (seen_found (seen_flow walk.old) left) (seen_found (seen_flow walk.old) right)) (seen_found (seen_flow walk.new)) result }
    ensures over { OnOk result (IsOver (types_of program.now.names) walk.new.question) }
{
    are_ints(alloc, program, walk, at, &left.ty, &right.ty)?;
    number(alloc, walk, at)
}

fn comparison(
    alloc: Global,
    program: &Program,
    walk: &mut Walk,
    at: u32,
    left: Found,
    right: Found,
) -> Result<Found, FlowFault>
    requires recursion { RecurThroughParts (types_of program.now.names) }
    requires over { IsOver (types_of program.now.names) walk.old.question }
    ensures value { Meets (rule.Comparison (types_of program.now.names) at (seen_found (seen_flow walk.old) left) (seen_found (seen_flow walk.old) right)) (seen_found (seen_flow walk.new)) result }
    ensures over { OnOk result (IsOver (types_of program.now.names) walk.new.question) }
{
    are_ints(alloc, program, walk, at, &left.ty, &right.ty)?;
    truth(alloc, walk, at, Items::new(alloc), Items::new(alloc))
}

// `&&` is true where both sides are, the right one behind the left; it is false where the left side is,
// or the right one behind a true left.
fn and(
    alloc: Global,
    program: &Program,
    env: &Environment,
    walk: &mut Walk,
    over: &[(u32, Shared)],
    at: u32,
    left: Found,
    right: Found,
) -> Result<Found, FlowFault>
    requires recursion { RecurThroughParts (types_of program.now.names) }
    requires over { IsOver (types_of program.now.names) walk.old.question }
    ensures value { Meets (rule.And (types_of program.now.names) at (seen_environment env.now) (seen_changes over.now) (seen_found (seen_flow walk.old) left) (seen_found (seen_flow walk.old) right)) (seen_found (seen_flow walk.new)) result }
    ensures over { OnOk result (IsOver (types_of program.now.names) walk.new.question) }
{
    are_bools(alloc, program, walk, at, &left.ty, &right.ty)?;
    let late = behind(alloc, left.yes.as_slice(), right.no.as_slice())?;
    let no = either(
        alloc,
        program,
        env,
        walk,
        over,
        at,
        left.no.as_slice(),
        late.as_slice(),
    )?;
    let yes = behind(alloc, left.yes.as_slice(), right.yes.as_slice())?;
    truth(alloc, walk, at, yes, no)
}

fn or(
    alloc: Global,
    program: &Program,
    env: &Environment,
    walk: &mut Walk,
    over: &[(u32, Shared)],
    at: u32,
    left: Found,
    right: Found,
) -> Result<Found, FlowFault>
    requires recursion { RecurThroughParts (types_of program.now.names) }
    requires over { IsOver (types_of program.now.names) walk.old.question }
    ensures value { Meets (rule.Or (types_of program.now.names) at (seen_environment env.now) (seen_changes over.now) (seen_found (seen_flow walk.old) left) (seen_found (seen_flow walk.old) right)) (seen_found (seen_flow walk.new)) result }
    ensures over { OnOk result (IsOver (types_of program.now.names) walk.new.question) }
{
    are_bools(alloc, program, walk, at, &left.ty, &right.ty)?;
    let late = behind(alloc, left.no.as_slice(), right.yes.as_slice())?;
    let yes = either(
        alloc,
        program,
        env,
        walk,
        over,
        at,
        left.yes.as_slice(),
        late.as_slice(),
    )?;
    let no = behind(alloc, left.no.as_slice(), right.no.as_slice())?;
    truth(alloc, walk, at, yes, no)
}

/// An operator of two operands.
pub fn binary(
    alloc: Global,
    program: &Program,
    env: &Environment,
    walk: &mut Walk,
    over: &[(u32, Shared)],
    at: u32,
    op: Op,
    left: Found,
    right: Found,
) -> Result<Found, FlowFault>
    requires recursion { RecurThroughParts (types_of program.now.names) }
    requires over { IsOver (types_of program.now.names) walk.old.question }
    ensures value { Meets (rule.Binary (types_of program.now.names) at (seen_environment env.now) (seen_changes over.now) op (seen_found (seen_flow walk.old) left) (seen_found (seen_flow walk.old) right)) (seen_found (seen_flow walk.new)) result }
    ensures over { OnOk result (IsOver (types_of program.now.names) walk.new.question) }
{
    match op {
        Op::Add | Op::Sub | Op::Mul | Op::Div | Op::Mod => {
            arithmetic(alloc, program, walk, at, left, right)
        }
        Op::Equal => truth(alloc, walk, at, Items::new(alloc), Items::new(alloc)),
        Op::Less | Op::LessEqual | Op::Greater | Op::GreaterEqual => {
            comparison(alloc, program, walk, at, left, right)
        }
        Op::And => and(alloc, program, env, walk, over, at, left, right),
        Op::Or => or(alloc, program, env, walk, over, at, left, right),
    }
}

/// The changes under which the right side of an operator is typed.
pub fn right_side(
    alloc: Global,
    over: &[(u32, Shared)],
    op: Op,
    left: &Found,
) -> Result<Items<(u32, Shared)>, AllocError>
    ensures value { IfOk result (λ cs. seen_changes cs ≡ rule.right_side (seen_changes over.now) op (seen_found [] left.now)) }
{
    match op {
        Op::And => behind(alloc, over, left.yes.as_slice()),
        Op::Or => behind(alloc, over, left.no.as_slice()),
        _ => behind(alloc, over, &[]),
    }
}
