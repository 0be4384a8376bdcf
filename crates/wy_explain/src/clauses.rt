//! Which clause a condition owes.
use crate::places::{Wanted, node_there};
use std::alloc::Global;
use wy_core::{Core, Decl, Expr, ExprKind, Op, Routine, Stmt, StmtKind};
use wy_explain_source::{NoMemory, Seen};
use wy_term::{Cond, CondKind};

/// The place of the clause, or of the part of it between two `&&`, that the condition with this number in the list, from 0, owes;
/// nothing where it owes none. Of the conditions of one kind at one place the first owes the first part of the clauses, and so on.
pub fn clause_owed(
    alloc: Global,
    seen: &Seen,
    core: &Core,
    conds: &[Cond],
    number: usize,
) -> Result<Option<u32>, NoMemory> {
    let cond = match conds.get(number) {
        Some(cond) => cond,
        None => return Ok(None),
    };
    let parts = match cond.kind {
        CondKind::Ensures => match routine_at(core, cond.at) {
            Some(routine) => parts_of(alloc, routine.postconditions.as_slice(), u32::MAX)?,
            None => return Ok(None),
        },
        CondKind::Requires => match called(core, seen.text(seen.mark_at(cond.at))) {
            Some(routine) => parts_of(alloc, routine.preconditions.as_slice(), u32::MAX)?,
            None => return Ok(None),
        },
        CondKind::Entry | CondKind::Keep => match routine_at(core, cond.at) {
            Some(routine) => loop_parts(alloc, routine, loop_at(seen, cond))?,
            None => return Ok(None),
        },
        _ => return Ok(None),
    };
    Ok(parts.get(ordinal(conds, number)).copied())
}

// How many conditions of the same kind and place stand directly before this one.
fn ordinal(conds: &[Cond], number: usize) -> usize {
    let mut passed = 0usize;
    let mut run = 0usize;
    let mut last: Option<(CondKind, u32)> = None;
    for cond in conds {
        if last == Some((cond.kind, cond.at)) {
            run = run.saturating_add(1);
        } else {
            run = 0;
        }
        last = Some((cond.kind, cond.at));
        if passed == number {
            return run;
        }
        passed = passed.saturating_add(1);
    }
    0
}

/// The function or method that holds the offset: the last that begins at it or before.
pub fn routine_at(core: &Core, at: u32) -> Option<&Routine> {
    let mut found = None;
    for decl in core.decls.as_slice() {
        match decl {
            Decl::Routine(routine) => {
                if routine.at <= at {
                    found = Some(routine);
                }
            }
            Decl::Alias(_) => {}
        }
    }
    found
}

// The function or method with this name.
fn called<'a>(core: &'a Core, name: &[u8]) -> Option<&'a Routine> {
    for decl in core.decls.as_slice() {
        match decl {
            Decl::Routine(routine) => {
                if routine.name.as_bytes() == name {
                    return Some(routine);
                }
            }
            Decl::Alias(_) => {}
        }
    }
    None
}

// The place of the loop: the condition's own, or that of the loop around a `continue`.
fn loop_at(seen: &Seen, cond: &Cond) -> u32 {
    match node_there(seen, cond.at, Wanted::Stmt) {
        Some(number) => match seen.nodes.get(number) {
            Some(node) => {
                if node.class.is_loop() {
                    return node.at;
                }
                match seen.loop_of(number) {
                    Some(around) => match seen.nodes.get(around) {
                        Some(around) => around.at,
                        None => cond.at,
                    },
                    None => cond.at,
                }
            }
            None => cond.at,
        },
        None => cond.at,
    }
}

// The places of the parts of clauses. A part `first || v` that a `do` is written by, at its place, stands at v's.
fn parts_of(alloc: Global, clauses: &[Expr], at: u32) -> Result<Vec<u32>, NoMemory> {
    let mut parts: Vec<u32> = Vec::new(alloc);
    for clause in clauses {
        put_parts(clause, at, &mut parts)?;
    }
    Ok(parts)
}

#[cycle(put_parts)]
fn put_parts(clause: &Expr, at: u32, parts: &mut Vec<u32>) -> Result<(), NoMemory> {
    match &clause.kind {
        ExprKind::Binary(Op::And, left, right) => {
            put_parts(left.get(), at, parts)?;
            put_parts(right.get(), at, parts)
        }
        ExprKind::Binary(Op::Or, _, right) => {
            parts.push(if clause.at == at {
                right.get().at
            } else {
                clause.at
            })?;
            Ok(())
        }
        _ => {
            parts.push(clause.at)?;
            Ok(())
        }
    }
}

// The places of the parts of a loop's invariants.
fn loop_parts(alloc: Global, routine: &Routine, at: u32) -> Result<Vec<u32>, NoMemory> {
    let mut parts: Vec<u32> = Vec::new(alloc);
    for stmt in routine.body.as_slice() {
        put_loop(stmt, at, &mut parts)?;
    }
    Ok(parts)
}

#[cycle(put_loop)]
fn put_loop(stmt: &Stmt, at: u32, parts: &mut Vec<u32>) -> Result<(), NoMemory> {
    match &stmt.kind {
        StmtKind::If(_, first, second) => {
            put_loops(first.as_slice(), at, parts)?;
            put_loops(second.as_slice(), at, parts)
        }
        StmtKind::While(_, invariants, body) => {
            if stmt.at == at {
                for invariant in invariants.as_slice() {
                    put_parts(invariant, at, parts)?;
                }
                return Ok(());
            }
            put_loops(body.as_slice(), at, parts)
        }
        _ => Ok(()),
    }
}

#[cycle(put_loop)]
fn put_loops(block: &[Stmt], at: u32, parts: &mut Vec<u32>) -> Result<(), NoMemory> {
    for stmt in block {
        put_loop(stmt, at, parts)?;
    }
    Ok(())
}
