//! The variables that statements assign.
ghost use Rattle.std.specs.Prelude.{◌≡◌, ℕ, IfOk, OnOk, length};
ghost use Rattle.wy_core.specs.CoreSeen.{seen_block, seen_stmt};
ghost use Rattle.wy_vc_exprs.specs.wy_vc_spec.Assigned.{assigns_in, bound_in};
ghost use Rattle.wy_vc_exprs.specs.wy_vc_spec.Spots.{is_set};
ghost use Rattle.wy_vc_body.specs.Marked as spec;

use crate::here::mark;
use std::alloc::{AllocError, Global};
use wy_core::{Expr, Stmt, StmtKind};

// A declaration with a value assigns its variable.
fn mark_declared(
    variable: u32,
    value: &Option<Expr>,
    marks: &mut Vec<bool>,
) -> Result<(), AllocError>
    ensures value { OnOk result (marks.new.items ≡ spec.marked_value variable value.now marks.old.items) }
{
    match value {
        None => Ok(()),
        Some(_) => mark(marks, variable, true),
    }
}

#[cycle(assigned)]
fn mark_stmt(stmt: &Stmt, marks: &mut Vec<bool>) -> Result<(), AllocError>
    ensures value { OnOk result (marks.new.items ≡ spec.marked_by (seen_stmt stmt.now) marks.old.items) }
{
    match &stmt.kind {
        StmtKind::Declare(_, variable, value) => mark_declared(*variable, value, marks),
        StmtKind::Assign(variable, _, _) => mark(marks, *variable, true),
        StmtKind::If(_, first, second) => {
            mark_block(first.as_slice(), marks)?;
            mark_block(second.as_slice(), marks)
        }
        StmtKind::While(_, _, body) => mark_block(body.as_slice(), marks),
        _ => Ok(()),
    }
}

#[cycle(assigned)]
fn mark_block(block: &[Stmt], marks: &mut Vec<bool>) -> Result<(), AllocError>
    ensures value { OnOk result (marks.new.items ≡ spec.marked_in (seen_block block.now) marks.old.items) }
{
    for stmt in block {
        mark_stmt(stmt, marks)?;
    }
    Ok(())
}

/// Marks for the variables that a block assigns, whole or in part, or declares with a value, up to the greatest of these. Linear in the
/// block's statements and in that number.
pub fn assigned_in(alloc: Global, block: &[Stmt]) -> Result<Vec<bool>, AllocError>
    ensures each { IfOk result (λ ms. (x : ℕ) → is_set ms.items x ≡ assigns_in x (seen_block block.now)) }
    ensures count { IfOk result (λ ms. length ms.items ≡ bound_in (seen_block block.now)) }
{
    let mut marks = Vec::new(alloc);
    mark_block(block, &mut marks)?;
    Ok(marks)
}
