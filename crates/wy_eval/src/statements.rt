//! What statements of code do.
ghost use Rattle.std.specs.Prelude.{◌≡◌, map, suc};
ghost use Rattle.wy_core.specs.CoreSeen.{seen_alias, seen_block, seen_core, seen_expr, seen_exprs, seen_stmt};
ghost use Rattle.wy_core.specs.CoreTree.{aliases_of};
ghost use Rattle.wy_sem.specs.Statements as spec;
ghost use Rattle.wy_eval_exprs.specs.Outcomes.{Gives, meter_of};
ghost use Rattle.wy_eval_exprs.specs.Scopes.{store_of};
ghost use Rattle.wy_eval.specs.Exits.{frame, seen_exit};
ghost use Rattle.wy_eval.specs.Settings.{code, kept};

use crate::assignments::assigned;
use crate::calls::run;
use crate::exits::{Exit, stored};
use crate::expressions::{value_of, values_of};
use crate::leaving::leave;
use crate::program::Program;
use crate::turning::{Turn, turned};
use std::alloc::Global;
use wy_core::{Core, Expr, Routine, Stmt, StmtKind, Ty};
use wy_eval_exprs::{Meter, Stop, as_truth, check, clauses_hold, holds_at, put};
use wy_term::CondKind;
use wy_value::Value;

/// A statement, which spends a tick.
#[cycle(code)]
fn exec(
    alloc: Global,
    room: u32,
    program: &Program,
    core: &Core,
    calls: usize,
    routine: &Routine,
    types: &[Ty],
    entry: &[Option<Value>],
    stmt: &Stmt,
    store: Vec<Option<Value>>,
    meter: &mut Meter,
) -> Result<Exit, Stop>
    requires { map seen_alias program.now.declared.types ≡ aliases_of (seen_core core.now) }
    ensures value { Gives seen_exit (spec.exec (code (seen_core core.now) (map seen_alias program.now.declared.types) program.now.declared.limit calls) (frame program.now.declared.limit (map seen_alias program.now.declared.types) routine.now types.now (store_of entry.now)) (seen_stmt stmt.now) (store_of store.items) (meter_of meter.old)) result (meter_of meter.new) }
{
    if room == 0 {
        return Err(Stop::NoMemory);
    }
    let inside = room - 1;
    meter.tick()?;
    let at = stmt.at;
    match &stmt.kind {
        StmtKind::Declare(ty, variable, value) => match value {
            None => Ok(Exit::Went(put(store, *variable, None))),
            Some(expr) => {
                let held = store.as_slice();
                let value = value_of(alloc, inside, program, core, calls, held, &[], expr, meter)?;
                stored(alloc, program, at, ty, *variable, store, value, meter)
            }
        },
        StmtKind::Assign(variable, path, value) => {
            let path = path.as_slice();
            assigned(
                alloc, inside, program, core, calls, routine, types, entry, at, *variable, path,
                value, store, meter,
            )
        }
        StmtKind::Call(number, args) => {
            let args = args.as_slice();
            let held = store.as_slice();
            let values = values_of(alloc, inside, program, core, calls, held, &[], args, meter)?;
            let values = values.as_slice();
            let _given = run(
                alloc, inside, program, core, calls, *number, at, values, meter,
            )?;
            Ok(Exit::Went(store))
        }
        StmtKind::Return(value) => match value {
            None => {
                let given = leave(alloc, program, routine, types, entry, at, None, meter)?;
                Ok(Exit::Gave(given))
            }
            Some(expr) => {
                let held = store.as_slice();
                let value = value_of(alloc, inside, program, core, calls, held, &[], expr, meter)?;
                let given = leave(
                    alloc,
                    program,
                    routine,
                    types,
                    entry,
                    at,
                    Some(value),
                    meter,
                )?;
                Ok(Exit::Gave(given))
            }
        },
        StmtKind::Assert(test) => {
            let held = store.as_slice();
            let declared = &program.declared;
            let holds = holds_at(alloc, declared, at, test, held, meter)?;
            check(holds, CondKind::Assert, at)?;
            Ok(Exit::Went(store))
        }
        StmtKind::Break => Ok(Exit::Broke(store)),
        StmtKind::Continue => Ok(Exit::Continued(at, store)),
        StmtKind::Skip => Ok(Exit::Went(store)),
        StmtKind::Fail => Err(Stop::Fault(CondKind::Fail, at)),
        StmtKind::If(test, first, second) => {
            let held = store.as_slice();
            let value = value_of(alloc, inside, program, core, calls, held, &[], test, meter)?;
            let truth = as_truth(at, &value)?;
            if truth {
                let first = first.as_slice();
                return exec_all(
                    alloc, inside, program, core, calls, routine, types, entry, first, store, meter,
                );
            }
            let second = second.as_slice();
            exec_all(
                alloc, inside, program, core, calls, routine, types, entry, second, store, meter,
            )
        }
        StmtKind::While(test, invariants, body) => {
            let invariants = invariants.as_slice();
            let body = body.as_slice();
            let held = store.as_slice();
            let declared = &program.declared;
            clauses_hold(
                alloc,
                declared,
                CondKind::Entry,
                at,
                invariants,
                held,
                meter,
            )?;
            rounds(
                alloc, inside, program, core, calls, routine, types, entry, at, test, invariants,
                body, store, meter,
            )
        }
    }
}

/// A block.
#[cycle(code)]
pub fn exec_all(
    alloc: Global,
    room: u32,
    program: &Program,
    core: &Core,
    calls: usize,
    routine: &Routine,
    types: &[Ty],
    entry: &[Option<Value>],
    stmts: &[Stmt],
    store: Vec<Option<Value>>,
    meter: &mut Meter,
) -> Result<Exit, Stop>
    requires { map seen_alias program.now.declared.types ≡ aliases_of (seen_core core.now) }
    ensures value { Gives seen_exit (spec.exec_all (code (seen_core core.now) (map seen_alias program.now.declared.types) program.now.declared.limit calls) (frame program.now.declared.limit (map seen_alias program.now.declared.types) routine.now types.now (store_of entry.now)) (seen_block stmts.now) (store_of store.items) (meter_of meter.old)) result (meter_of meter.new) }
{
    let mut store = store;
    for stmt in stmts {
        let exit = exec(
            alloc, room, program, core, calls, routine, types, entry, stmt, store, meter,
        )?;
        match exit {
            Exit::Went(next) => {
                store = next;
            }
            Exit::Broke(next) => return Ok(Exit::Broke(next)),
            Exit::Continued(at, next) => return Ok(Exit::Continued(at, next)),
            Exit::Gave(value) => return Ok(Exit::Gave(value)),
        }
    }
    Ok(Exit::Went(store))
}

/// The turns of a loop, of which each spends a tick before its test: so there are at most as many as
/// there are ticks, and one.
#[cycle(code)]
fn rounds(
    alloc: Global,
    room: u32,
    program: &Program,
    core: &Core,
    calls: usize,
    routine: &Routine,
    types: &[Ty],
    entry: &[Option<Value>],
    at: u32,
    test: &Expr,
    invariants: &[Expr],
    body: &[Stmt],
    store: Vec<Option<Value>>,
    meter: &mut Meter,
) -> Result<Exit, Stop>
    requires { map seen_alias program.now.declared.types ≡ aliases_of (seen_core core.now) }
    ensures value { Gives seen_exit (spec.rounds (suc meter.old.ticks) at (spec.tested_truth (code (seen_core core.now) (map seen_alias program.now.declared.types) program.now.declared.limit calls) at (seen_expr test.now)) (spec.exec_all (code (seen_core core.now) (map seen_alias program.now.declared.types) program.now.declared.limit calls) (frame program.now.declared.limit (map seen_alias program.now.declared.types) routine.now types.now (store_of entry.now)) (seen_block body.now)) (kept (code (seen_core core.now) (map seen_alias program.now.declared.types) program.now.declared.limit calls) (seen_exprs invariants.now)) (store_of store.items) (meter_of meter.old)) result (meter_of meter.new) }
{
    let mut store = store;
    let count = meter.ticks as u64 + 1;
    for round in 0..count {
        let _each = round;
        meter.tick()?;
        let held = store.as_slice();
        let value = value_of(alloc, room, program, core, calls, held, &[], test, meter)?;
        let truth = as_truth(at, &value)?;
        if !truth {
            return Ok(Exit::Went(store));
        }
        let exit = exec_all(
            alloc, room, program, core, calls, routine, types, entry, body, store, meter,
        )?;
        let follows = turned(alloc, program, at, invariants, exit, meter)?;
        match follows {
            Turn::Again(next) => {
                store = next;
            }
            Turn::Left(exit) => return Ok(exit),
        }
    }
    Err(Stop::More)
}
