//! What is known at a point of a body.
ghost use Rattle.std.specs.Prelude.{◌≡◌, [], IfOk, OnOk};
ghost use Rattle.wy_core.specs.CoreSeen.{seen_ty};
ghost use Rattle.wy_flow_spec.specs.environment.Seen.{seen_slot, seen_slots};
ghost use Rattle.wy_flow_spec.specs.environment.Slots.{slot_at as slot};
ghost use Rattle.wy_flow.specs.States.{seen_state};
ghost use Rattle.wy_flow_spec.specs.typing.States as spec;

use std::alloc::{AllocError, Global};
use wy_core::Ty;
use wy_flow_spec::environment::{Environment, Shared, put_slot, slot_at};
use wy_items::Items;

/// The types of variables at a point, the declared types of those declared so far, and the types of
/// variables at each `break` so far out of the innermost loop.
#[derive(Drop)]
pub struct State {
    pub env: Environment,
    pub declared: Items<Option<Shared>>,
    pub breaks: Items<Environment>,
}

/// No path goes on.
pub fn left(alloc: Global, state: State) -> State
    ensures value { seen_state [] result ≡ spec.left (seen_state [] state) }
{
    let State {
        declared,
        breaks,
        ..
    } = state;
    State {
        env: Environment::unreached(alloc),
        declared,
        breaks,
    }
}

/// Behind a `break`.
pub fn broken(alloc: Global, state: State) -> Result<State, AllocError>
    ensures value { IfOk result (λ t. seen_state [] t ≡ spec.broken (seen_state [] state)) }
{
    let State {
        env,
        declared,
        mut breaks,
    } = state;
    breaks.push(env)?;
    Ok(State {
        env: Environment::unreached(alloc),
        declared,
        breaks,
    })
}

/// The variable is declared with this type.
pub fn declare(alloc: Global, state: &mut State, variable: u32, ty: &Ty) -> Result<(), AllocError>
    ensures value { OnOk result (seen_state [] state.new ≡ spec.declare variable (seen_ty ty.now) (seen_state [] state.old)) }
{
    let ty = Shared::new(alloc, ty.copy(alloc)?)?;
    put_slot(&mut state.declared, variable, ty)
}

/// The declared type of the variable, if it was declared.
pub fn declared_type(state: &State, variable: u32) -> Result<Option<Shared>, AllocError>
    ensures value { IfOk result (λ t. seen_slot t ≡ slot (seen_slots state.now.declared) variable) }
{
    slot_at(state.declared.as_slice(), variable)
}
