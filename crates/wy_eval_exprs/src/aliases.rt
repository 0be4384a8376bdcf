//! What a type's clauses are asked with, and what a fault among them says.
ghost use Rattle.std.specs.Prelude.{◌≡◌, IfOk, Some};
ghost use Rattle.wy_value.specs.Seen.{seen};
ghost use Rattle.wy_sem.specs.TypeTests as tests;
ghost use Rattle.wy_eval_exprs.specs.Scopes.{store_of};
ghost use Rattle.wy_eval_exprs.specs.Settings.{pardoned};

use crate::scope::{put, unset};
use crate::stop::Stop;
use std::alloc::{AllocError, Global};
use wy_core::Alias;
use wy_value::Value;

/// The variables of a type's clauses: all unset, but for the one that stands for the value.
pub fn store_of_alias(
    alloc: Global,
    alias: &Alias,
    value: &Value,
) -> Result<Vec<Option<Value>>, AllocError>
    ensures value { IfOk result (λ store. store_of store.items ≡ tests.set_if (tests.unset alias.now.variables) alias.now.variable (Some (seen value.now))) }
{
    let store = unset(alloc, alias.variables.as_slice())?;
    match alias.variable {
        Some(variable) => {
            let copy = value.copy(alloc)?;
            Ok(put(store, variable, Some(copy)))
        }
        None => Ok(store),
    }
}

/// A fault is a no.
pub fn forgiven(answer: Result<bool, Stop>) -> Result<bool, Stop>
    ensures value { result ≡ pardoned answer }
{
    match answer {
        Ok(is) => Ok(is),
        Err(Stop::Fault(_, _)) => Ok(false),
        Err(Stop::More) => Err(Stop::More),
        Err(Stop::Spent) => Err(Stop::Spent),
        Err(Stop::NoMemory) => Err(Stop::NoMemory),
    }
}
