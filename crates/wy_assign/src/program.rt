//! Declarations, and the fault that is given.
ghost use Rattle.std.specs.Prelude.{◌≡◌, ◌≢◌, IfOk, OnOk, IfErr, MatchResult, map, is_some, None};
ghost use Rattle.wy_core.specs.CoreSeen.{seen_alias, seen_core, seen_decl, seen_output, seen_param, seen_routine};
ghost use Rattle.wy_assign.specs.Faults as spec;
ghost use Rattle.wy_assign.specs.Flows as flows;
ghost use Rattle.wy_assign.specs.Marks as mark;
ghost use Rattle.wy_assign.specs.Assigned as definition;
ghost use Rattle.wy_assign.specs.declared.fault.AssignFault.{AssignFault};

use crate::fault::AssignFault;
use crate::flow::{Flow, Walk, from_here};
use crate::marks::Marks;
use crate::statements::walk_block;
use crate::uses::{note_clauses, noted_where};
use std::alloc::{AllocError, Global};
use wy_core::{Alias, Core, Decl, Output, Param, Routine};

/// The least places so far of a use of what may be without a value, and of a body that a path leaves
/// without `return` or `fail`.
#[derive(Clone, Copy)]
struct Places {
    uses: Option<u32>,
    ends: Option<u32>,
}

/// Whether each use of a variable follows an assignment to it on each path through the syntax, and
/// each path of a body with a result ends in `return` or `fail`.
///
/// A path takes either block of an `if` and either way at `&&` and `||`, and the body of a loop or of
/// a quantifier any number of times. The clauses of a contract, of a loop and of `assert` use
/// variables as code does. A declaration without a value takes its variable's value away; an update
/// of a part uses the variable and gives it no value; a parameter has a value at entry. `Unset`
/// stands at such a use, `NoReturn` at the declaration. The fault at the least place is given, and at
/// one place `Unset` before `NoReturn`.
///
/// It goes through each node once, and once more for each loop around it; each `if` and each loop
/// copies and joins the bits of the variables.
pub fn assigned(alloc: Global, core: &Core) -> Result<(), AssignFault>
    ensures value { spec.Answers (spec.fault_of (seen_core core.now)) result }
    ensures sound { OnOk result (definition.IsAssigned (seen_core core.now)) }
    ensures complete { definition.IsAssigned (seen_core core.now) → IfErr result (λ e. e ≡ AssignFault.NoMemory) }
    ensures fault { IfErr result (λ e. e ≢ AssignFault.NoMemory → definition.IsFault (seen_core core.now) e) }
    ensures exact { (f : AssignFault) → definition.IsFault (seen_core core.now) f → MatchResult result (λ t. ⊥) (λ e. e ≢ AssignFault.NoMemory → e ≡ f) }
{
    judge(alloc, core)
}

/// The same by the plain function alone.
fn judge(alloc: Global, core: &Core) -> Result<(), AssignFault>
    ensures value { spec.Answers (spec.fault_of (seen_core core.now)) result }
{
    match least_places(alloc, core.decls.as_slice()) {
        Err(_) => Err(AssignFault::NoMemory),
        Ok(places) => verdict(places),
    }
}

/// The fault at the lesser place, and at one place the use.
fn verdict(places: Places) -> Result<(), AssignFault>
    ensures value { spec.Answers (spec.verdict places.uses places.ends) result }
{
    match (places.uses, places.ends) {
        (None, None) => Ok(()),
        (Some(at), None) => Err(AssignFault::Unset(at)),
        (None, Some(at)) => Err(AssignFault::NoReturn(at)),
        (Some(at), Some(other)) => {
            if other < at {
                Err(AssignFault::NoReturn(other))
            } else {
                Err(AssignFault::Unset(at))
            }
        }
    }
}

/// The least places of both in the declarations.
fn least_places(alloc: Global, decls: &[Decl]) -> Result<Places, AllocError>
    ensures value { IfOk result (λ p. (p.uses ≡ spec.core_faults (map seen_decl decls.now) None) × (p.ends ≡ spec.core_open (map seen_decl decls.now) None)) }
{
    let mut places = Places {
        uses: None,
        ends: None,
    };
    for decl in decls {
        places = in_decl(alloc, decl, places)?;
    }
    Ok(places)
}

fn in_decl(alloc: Global, decl: &Decl, places: Places) -> Result<Places, AllocError>
    ensures value { IfOk result (λ p. (p.uses ≡ spec.decl_faults (seen_decl decl.now) places.uses) × (p.ends ≡ spec.decl_open (seen_decl decl.now) places.ends)) }
{
    match decl {
        Decl::Alias(alias) => in_alias(alloc, alias, places),
        Decl::Routine(routine) => in_routine(alloc, routine, places),
    }
}

/// The clauses of a type, whose variable has a value.
fn in_alias(alloc: Global, alias: &Alias, places: Places) -> Result<Places, AllocError>
    ensures value { IfOk result (λ p. (p.uses ≡ spec.alias_faults (seen_alias alias.now) places.uses) × (p.ends ≡ places.ends)) }
{
    let marks = with_option(Marks::none_set(alloc), alias.variable)?;
    let uses = note_clauses(alloc, &marks, alias.clauses.as_slice(), places.uses)?;
    Ok(Places {
        uses,
        ends: places.ends,
    })
}

/// A function or method: its parameters have values, and in its ensures clauses its result too.
fn in_routine(alloc: Global, routine: &Routine, places: Places) -> Result<Places, AllocError>
    ensures value { IfOk result (λ p. (p.uses ≡ spec.routine_faults (seen_routine routine.now) places.uses) × (p.ends ≡ spec.routine_open (seen_routine routine.now) places.ends)) }
{
    let entry = with_params(Marks::none_set(alloc), routine.params.as_slice())?;
    let uses = note_clauses(alloc, &entry, routine.preconditions.as_slice(), places.uses)?;
    let behind = with_option(entry.copy(alloc)?, result_variable(&routine.result))?;
    let uses = note_clauses(alloc, &behind, routine.postconditions.as_slice(), uses)?;
    let start = Walk {
        flow: from_here(alloc, entry),
        found: uses,
    };
    let end = walk_block(alloc, routine.body.as_slice(), start)?;
    let ends = has_result(&routine.result) && is_open(&end.flow);
    Ok(Places {
        uses: end.found,
        ends: noted_where(ends, places.ends, routine.at),
    })
}

/// Whether a path gets past the statements that left this.
fn is_open(flow: &Flow) -> bool
    ensures value { result ≡ flows.is_open flow.now }
{
    flow.here.is_reached() || flow.breaks.is_reached() || flow.continues.is_reached()
}

fn has_result(output: &Option<Output>) -> bool
    ensures value { result ≡ is_some (seen_output output.now) }
{
    match output {
        None => false,
        Some(_) => true,
    }
}

/// The number of the result's variable, where it has a name.
fn result_variable(output: &Option<Output>) -> Option<u32>
    ensures value { result ≡ definition.result_variable (seen_output output.now) }
{
    match output {
        None => None,
        Some(output) => output.variable,
    }
}

/// The parameters have values.
fn with_params(marks: Marks, params: &[Param]) -> Result<Marks, AllocError>
    ensures value { IfOk result (λ m. m ≡ mark.with_params marks (map seen_param params.now)) }
{
    let mut here = marks;
    for param in params {
        here.assign(param.variable)?;
    }
    Ok(here)
}

/// A variable that may be absent has a value.
fn with_option(marks: Marks, variable: Option<u32>) -> Result<Marks, AllocError>
    ensures value { IfOk result (λ m. m ≡ mark.with_option marks variable) }
{
    match variable {
        None => Ok(marks),
        Some(variable) => {
            let mut here = marks;
            here.assign(variable)?;
            Ok(here)
        }
    }
}
