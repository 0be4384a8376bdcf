//! What an expression leads to.
ghost use Rattle.std.specs.Prelude.{◌≡◌, OnOk};
ghost use Rattle.wy_core.specs.CoreSeen.{seen_ty};
ghost use Rattle.wy_flow_spec.specs.environment.Seen.{seen_changes};
ghost use Rattle.wy_flow_exprs.specs.Seen.{seen_flow, seen_found};
ghost use Rattle.wy_flow_spec.specs.typing.Leaves as rule;
ghost use Rattle.wy_flow_spec.specs.typing.Outcomes.{Meets};

use crate::signatures::Signature;
use std::alloc::Global;
use wy_flow_spec::environment::{Shared, bool_type, int_type};
use wy_flow_spec::typing::FlowFault;
use wy_items::Items;
use wy_types::{Names, Question};

/// What is the same in the whole program: its declared types and what its calls must meet.
#[derive(Drop)]
pub struct Program {
    pub names: Names,
    pub signatures: Items<Signature>,
}

/// What grows along the walk: the table of questions, and the types of the expressions so far.
#[derive(Drop)]
pub struct Walk {
    pub question: Question,
    pub flow: Items<Shared>,
}

/// The type of an expression, and the changes of variables where it is true and where it is false.
#[derive(Drop)]
pub struct Found {
    pub ty: Shared,
    pub yes: Items<(u32, Shared)>,
    pub no: Items<(u32, Shared)>,
}

/// An expression of this type, which changes no variable.
pub fn of_type(alloc: Global, walk: &mut Walk, ty: Shared) -> Result<Found, FlowFault>
    ensures value { Meets (rule.OfType (seen_ty ty) (seen_flow walk.old)) (seen_found (seen_flow walk.new)) result }
    ensures question { OnOk result (walk.new.question ≡ walk.old.question) }
{
    walk.flow.push(ty.share()?)?;
    Ok(Found {
        ty,
        yes: Items::new(alloc),
        no: Items::new(alloc),
    })
}

/// A number, which changes no variable.
pub fn number(alloc: Global, walk: &mut Walk, at: u32) -> Result<Found, FlowFault>
    ensures value { Meets (rule.Number (seen_flow walk.old)) (seen_found (seen_flow walk.new)) result }
    ensures question { OnOk result (walk.new.question ≡ walk.old.question) }
{
    let ty = int_type(alloc, at)?;
    of_type(alloc, walk, ty)
}

/// A truth value, with these changes.
pub fn truth(
    alloc: Global,
    walk: &mut Walk,
    at: u32,
    yes: Items<(u32, Shared)>,
    no: Items<(u32, Shared)>,
) -> Result<Found, FlowFault>
    ensures value { Meets (rule.Truth (seen_changes yes) (seen_changes no) (seen_flow walk.old)) (seen_found (seen_flow walk.new)) result }
    ensures question { OnOk result (walk.new.question ≡ walk.old.question) }
{
    let ty = bool_type(alloc, at)?;
    walk.flow.push(ty.share()?)?;
    Ok(Found { ty, yes, no })
}
