//! Updates of parts of a variable.
ghost use Rattle.std.specs.Prelude.{◌≡◌, ◌+◌, length, map, IfOk, OnOk};
ghost use Rattle.wy_core.specs.CoreSeen.{seen_step, seen_ty};
ghost use Rattle.wy_flow_spec.specs.environment.Seen.{seen_changes, seen_environment, seen_slot, seen_slots};
ghost use Rattle.wy_flow.specs.States.{seen_environments, seen_state};
ghost use Rattle.wy_flow_exprs.specs.Seen.{seen_all, seen_flow, seen_found, seen_program, seen_result, seen_types};
ghost use Rattle.wy_types.specs.Names.{types_of};
ghost use Rattle.wy_types.specs.Questions.{IsOver};
ghost use Rattle.wy_types.specs.Recursion.{RecurThroughParts};
ghost use Rattle.wy_flow_spec.specs.typing.Outcomes.{Meets};
ghost use Rattle.wy_core.specs.Types.{ArrayTy, UnionTy};
ghost use Rattle.wy_flow.specs.Paths.{seen_reached};
ghost use Rattle.wy_flow_spec.specs.typing.Paths as spec;

use std::alloc::{AllocError, Global};
use wy_core::{Step, StepKind, Ty, TyKind};
use wy_flow_exprs::checks::{field_at, with_field_at};
use wy_flow_exprs::{Program, Walk, item_of, typed};
use wy_flow_spec::environment::{Environment, Shared};
use wy_flow_spec::typing::FlowFault;
use wy_items::{Boxed, Items};

// What the step leads to in values of the type.
fn step_type(
    alloc: Global,
    program: &Program,
    env: &Environment,
    walk: &mut Walk,
    ty: &Shared,
    step: &Step,
) -> Result<Shared, FlowFault>
    requires recursion { RecurThroughParts (types_of program.now.names) }
    requires over { IsOver (types_of program.now.names) walk.old.question }
    ensures value { Meets (spec.StepType (seen_program program.now) (seen_environment env.now) (seen_flow walk.old) (seen_ty ty.now) (seen_step step.now)) (seen_reached (seen_flow walk.new)) result }
    ensures over { OnOk result (IsOver (types_of program.now.names) walk.new.question) }
{
    match &step.kind {
        StepKind::Index(index) => {
            let found = typed(alloc, program, env, walk, &[], index)?;
            let item = item_of(alloc, program, walk, step.at, ty, &found.ty)?;
            Ok(item)
        }
        StepKind::Field(name) => {
            let question = &mut walk.question;
            let made = field_at(alloc, &program.names, question, step.at, ty.get(), name)?;
            Ok(made)
        }
    }
}

/// The types along the path: that of the variable, and that behind each step.
pub fn path_types(
    alloc: Global,
    program: &Program,
    env: &Environment,
    walk: &mut Walk,
    ty: Shared,
    path: &[Step],
) -> Result<Items<Shared>, FlowFault>
    requires recursion { RecurThroughParts (types_of program.now.names) }
    requires over { IsOver (types_of program.now.names) walk.old.question }
    ensures value { Meets (spec.TypesAlong (seen_program program.now) (seen_environment env.now) (map seen_step path.now) (seen_flow walk.old) (seen_ty ty)) (seen_all (seen_flow walk.new)) result }
    ensures along { IfOk result (λ types. length types ≡ length path.now + 1) }
    ensures over { OnOk result (IsOver (types_of program.now.names) walk.new.question) }
{
    let mut made = Items::new(alloc);
    let first = ty.share()?;
    made.push(first)?;
    let mut here = ty;
    for step in path {
        let next = step_type(alloc, program, env, walk, &here, step)?;
        let shared = next.share()?;
        made.push(shared)?;
        here = next;
    }
    Ok(made)
}

// Arrays of items of the type or of the new one.
fn with_item(alloc: Global, at: u32, items: &Shared, added: Ty) -> Result<Ty, AllocError>
    ensures value { IfOk result (λ t. seen_ty t ≡ ArrayTy (UnionTy (seen_ty items.now) (seen_ty added))) }
{
    let left = Boxed::new(alloc, items.get().copy(alloc)?)?;
    let right = Boxed::new(alloc, added)?;
    let union = Boxed::new(
        alloc,
        Ty {
            at,
            kind: TyKind::Union(left, right),
        },
    )?;
    Ok(Ty {
        at,
        kind: TyKind::Array(union),
    })
}

// The values of the type with the new ones at the step, behind which they have the type `behind`.
fn step_updated(
    alloc: Global,
    program: &Program,
    walk: &mut Walk,
    at: u32,
    step: &Step,
    ty: &Shared,
    behind: &Shared,
    new: Ty,
) -> Result<Ty, FlowFault>
    requires recursion { RecurThroughParts (types_of program.now.names) }
    requires over { IsOver (types_of program.now.names) walk.old.question }
    ensures value { Meets (spec.StepUpdated (types_of program.now.names) at (seen_step step.now) (seen_ty ty.now) (seen_ty behind.now) (seen_ty new)) seen_ty result }
    ensures over { OnOk result (IsOver (types_of program.now.names) walk.new.question) }
    ensures flow { OnOk result (seen_flow walk.new ≡ seen_flow walk.old) }
{
    match &step.kind {
        StepKind::Index(_) => Ok(with_item(alloc, at, behind, new)?),
        StepKind::Field(name) => {
            let made = with_field_at(
                alloc,
                &program.names,
                &mut walk.question,
                at,
                ty.get(),
                name,
                &new,
            )?;
            Ok(made.get().copy(alloc)?)
        }
    }
}

/// The values of the first of the types along the path, with values of the new type at its end: from
/// the last step to the first.
pub fn updated(
    alloc: Global,
    program: &Program,
    walk: &mut Walk,
    at: u32,
    path: &[Step],
    types: &[Shared],
    new: &Ty,
) -> Result<Ty, FlowFault>
    requires recursion { RecurThroughParts (types_of program.now.names) }
    requires over { IsOver (types_of program.now.names) walk.old.question }
    requires along { length types.now ≡ length path.now + 1 }
    ensures value { Meets (spec.Updated (types_of program.now.names) at (map seen_step path.now) (seen_types types.now) (seen_ty new.now)) seen_ty result }
    ensures over { OnOk result (IsOver (types_of program.now.names) walk.new.question) }
    ensures flow { OnOk result (seen_flow walk.new ≡ seen_flow walk.old) }
{
    let mut inner = new.copy(alloc)?;
    let mut left = path.len();
    while left > 0 {
        left -= 1;
        let step = &path[left];
        let ty = &types[left];
        let behind = &types[left + 1];
        let next = step_updated(alloc, program, walk, at, step, ty, behind, inner)?;
        inner = next;
    }
    Ok(inner)
}
