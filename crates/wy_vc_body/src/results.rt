//! What a `return` owes.
ghost use Rattle.std.specs.Prelude.{◌≡◌, option_map, IfOk, OnOk};
ghost use Rattle.wy_vc_exprs.specs.wy_vc_spec.Statements as spec;
ghost use Rattle.wy_vc_exprs.specs.wy_vc_spec.Variables as slots;
ghost use Rattle.wy_core.specs.CoreSeen.{seen_output};
ghost use Rattle.wy_term.specs.Nodes.{tree_at};
ghost use Rattle.wy_vc_body.specs.Frames.{IsFrame, body_at};
ghost use Rattle.wy_vc_body.specs.Results.{IsGiven, with_number};
ghost use Rattle.wy_vc_exprs.specs.State.{IsSound, Steps, hyps_of};

use crate::frame::Frame;
use std::alloc::{AllocError, Global};
use wy_core::Output;
use wy_term::{CondKind, NoMemory};
use wy_vc_exprs::{Walk, owe_clauses, owe_member, put};

// The result, if there is one, is in its type.
fn owe_result(
    alloc: Global,
    frame: &Frame,
    walk: &mut Walk,
    at: u32,
    given: Option<u32>,
) -> Result<(), NoMemory>
    requires frame { IsFrame walk.old.maker.terms frame.now }
    requires sound { IsSound walk.old }
    requires given { IsGiven walk.old.maker.terms given }
    ensures value { OnOk result (Steps walk.old walk.new (spec.owe_result (body_at walk.old.maker.terms frame.now) at (seen_output frame.now.routine.now.result) (option_map (tree_at walk.old.maker.terms) given) (hyps_of walk.old) walk.old.maker.count)) }
    ensures node { OnOk result (walk.new.maker.node ≡ walk.old.maker.node) }
{
    match &frame.routine.result {
        None => Ok(()),
        Some(output) => match given {
            None => Ok(()),
            Some(term) => {
                owe_member(alloc, frame.core, frame.program, walk, at, term, &output.ty)
            }
        },
    }
}

// The variable of the result, if it has one, stands for this term.
fn put_result(vars: &mut Vec<Option<u32>>, output: &Output, term: u32) -> Result<(), AllocError>
    ensures value { OnOk result (vars.new.items ≡ slots.put_if vars.old.items output.now.variable term) }
{
    match output.variable {
        None => Ok(()),
        Some(variable) => put(vars, variable, term),
    }
}

// The terms of the parameters at entry, and that of the result's variable.
fn vars_at_return(
    alloc: Global,
    frame: &Frame,
    given: Option<u32>,
) -> Result<Vec<Option<u32>>, AllocError>
    ensures value { IfOk result (λ vars. vars.items ≡ with_number (seen_output frame.now.routine.now.result) given frame.now.entry.items) }
{
    let mut vars = Vec::from_slice(alloc, frame.entry.as_slice())?;
    match &frame.routine.result {
        None => Ok(vars),
        Some(output) => match given {
            None => Ok(vars),
            Some(term) => {
                put_result(&mut vars, output, term)?;
                Ok(vars)
            }
        },
    }
}

/// A `return` at a place, with the term of the value that is given if there is one: it is in the type of the result, and the ensures clauses
/// hold of it and of the parameters as they were at entry.
pub fn leave(
    alloc: Global,
    frame: &Frame,
    walk: &mut Walk,
    at: u32,
    given: Option<u32>,
) -> Result<(), NoMemory>
    requires frame { IsFrame walk.old.maker.terms frame.now }
    requires sound { IsSound walk.old }
    requires given { IsGiven walk.old.maker.terms given }
    ensures value { OnOk result (Steps walk.old walk.new (spec.leave (body_at walk.old.maker.terms frame.now) at (option_map (tree_at walk.old.maker.terms) given) (hyps_of walk.old) walk.old.maker.count)) }
    ensures node { OnOk result (walk.new.maker.node ≡ walk.old.maker.node) }
{
    owe_result(alloc, frame, walk, at, given)?;
    let mut vars = vars_at_return(alloc, frame, given)?;
    let node = walk.maker.node;
    walk.maker.node = frame.called.postconditions;
    let words = frame.routine.variables.as_slice();
    let clauses = frame.routine.postconditions.as_slice();
    owe_clauses(
        alloc,
        frame.core,
        frame.program,
        words,
        walk,
        &mut vars,
        CondKind::Ensures,
        at,
        clauses,
    )?;
    walk.maker.node = node;
    Ok(())
}
