//! The variables that an expression sees: a store, and over it the numbers that quantifiers bind.
ghost use Rattle.std.specs.Prelude.{◌≡◌, ◌∷◌, IfOk, map};
ghost use Rattle.wy_value.specs.Seen.{seen};
ghost use Rattle.wy_core.specs.CoreSeen.{seen_param};
ghost use Rattle.wy_sem.specs.Evaluation.{bound};
ghost use Rattle.wy_sem.specs.Expressions as spec;
ghost use Rattle.wy_sem.specs.Meter as sem;
ghost use Rattle.wy_sem.specs.Meter.{Done};
ghost use Rattle.wy_sem.specs.Operations.{needed};
ghost use Rattle.wy_sem.specs.TypeTests as tests;
ghost use Rattle.wy_eval_exprs.specs.Operands.{seen_option};
ghost use Rattle.wy_eval_exprs.specs.Outcomes.{Gives};
ghost use Rattle.wy_eval_exprs.specs.Scopes.{number_at, scope, store_of};

use crate::stop::Stop;
use std::alloc::{AllocError, Global};
use wy_core::Param;
use wy_data::Name;
use wy_items::Items;
use wy_term::CondKind;
use wy_value::Value;

/// The value of a variable, copied; where it is unset, it is a fault of kind member at the place.
#[tactic(auto, using(crate::proofs::StoreLemmas::nothing_seen, crate::proofs::StoreLemmas::number_seen, crate::proofs::StoreLemmas::held_seen))]
pub fn variable(
    alloc: Global,
    at: u32,
    store: &[Option<Value>],
    over: &[(u32, i128)],
    variable: u32,
) -> Result<Value, Stop>
    ensures value { (m : sem.Meter) → Gives seen (needed at (spec.slot (scope (store_of store.now) over.now) variable) Done m) result m }
{
    let number = variable as usize;
    if number >= store.len() {
        return Err(Stop::Fault(CondKind::Member, at));
    }
    match bound_number(over, variable) {
        Some(found) => Ok(Value::Int(found)),
        None => held(alloc, at, &store[number]),
    }
}

// What is held, copied.
fn held(alloc: Global, at: u32, value: &Option<Value>) -> Result<Value, Stop>
    ensures value { (m : sem.Meter) → Gives seen (needed at (seen_option value.now) Done m) result m }
{
    match value {
        None => Err(Stop::Fault(CondKind::Member, at)),
        Some(value) => Ok(value.copy(alloc)?),
    }
}

// The number that the innermost quantifier binds to the variable. The innermost is the first.
fn bound_number(over: &[(u32, i128)], variable: u32) -> Option<i128>
    ensures value { result ≡ number_at over.now variable }
{
    for entry in over {
        if entry.0 == variable {
            return Some(entry.1);
        }
    }
    None
}

/// The numbers, under one more.
pub fn with_number(
    alloc: Global,
    over: &[(u32, i128)],
    variable: u32,
    number: i128,
) -> Result<Items<(u32, i128)>, AllocError>
    ensures value { IfOk result (λ made. made ≡ (variable, number) ∷ over.now) }
{
    let mut made = Items::new(alloc);
    made.push((variable, number))?;
    for entry in over {
        made.push(*entry)?;
    }
    Ok(made)
}

/// A store in which each of these variables is unset.
pub fn unset(alloc: Global, variables: &[Name]) -> Result<Vec<Option<Value>>, AllocError>
    ensures value { IfOk result (λ store. store_of store.items ≡ tests.unset variables.now) }
{
    let mut store = Vec::new(alloc);
    for name in variables {
        let _each = name;
        store.push(None)?;
    }
    Ok(store)
}

/// The store with this for the variable; a variable that it doesn't have is left out.
#[tactic(auto, using(crate::proofs::StoreLemmas::store_put, crate::proofs::StoreLemmas::store_put_past))]
pub fn put(mut store: Vec<Option<Value>>, variable: u32, value: Option<Value>) -> Vec<Option<Value>>
    ensures value { store_of result.items ≡ spec.put (store_of store.items) variable (seen_option value) }
{
    let variable = variable as usize;
    if variable < store.len() {
        store[variable] = value;
    }
    store
}

/// The variables at entry: the parameters have these values, copied, and the others are unset.
pub fn entry_of(
    alloc: Global,
    variables: &[Name],
    params: &[Param],
    args: &[Value],
) -> Result<Vec<Option<Value>>, AllocError>
    ensures value { IfOk result (λ store. store_of store.items ≡ bound (map seen_param params.now) (map seen args.now) (tests.unset variables.now)) }
{
    let mut store = unset(alloc, variables)?;
    let mut number = 0;
    for param in params {
        if number >= args.len() {
            return Ok(store);
        }
        let value = args[number].copy(alloc)?;
        store = put(store, param.variable, Some(value));
        number += 1;
    }
    Ok(store)
}
