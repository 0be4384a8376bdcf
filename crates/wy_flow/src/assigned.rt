//! The variables that statements assign.
ghost use Rattle.std.specs.Prelude.{◌≡◌, [], IfOk};
ghost use Rattle.wy_core.specs.CoreSeen.{seen_block, seen_stmt};
ghost use Rattle.wy_flow_spec.specs.typing.Assigned as spec;
ghost use Rattle.wy_flow_spec.specs.typing.Narrowing as rule;

use std::alloc::{AllocError, Global};
use wy_core::{Stmt, StmtKind};
use wy_items::Items;

fn is_among(variables: &[u32], variable: u32) -> bool
    ensures value { result ≡ rule.is_among variables.now variable }
{
    for other in variables {
        if *other == variable {
            return true;
        }
    }
    false
}

fn with_variable(variables: Items<u32>, variable: u32) -> Result<Items<u32>, AllocError>
    ensures value { IfOk result (λ t. t ≡ rule.with_variable variables variable) }
{
    let mut all = variables;
    if !is_among(all.as_slice(), variable) {
        all.push(variable)?;
    }
    Ok(all)
}

#[cycle(assigned)]
fn assigned_by(stmt: &Stmt, variables: Items<u32>) -> Result<Items<u32>, AllocError>
    ensures value { IfOk result (λ t. t ≡ spec.assigned_by (seen_stmt stmt.now) variables) }
{
    match &stmt.kind {
        StmtKind::Assign(variable, _, _) => with_variable(variables, *variable),
        StmtKind::If(_, first, second) => {
            let variables = assigned_in(first.as_slice(), variables)?;
            assigned_in(second.as_slice(), variables)
        }
        StmtKind::While(_, _, body) => assigned_in(body.as_slice(), variables),
        _ => Ok(variables),
    }
}

/// The variables that the statements assign, whole or in part, each once, by their first assignment.
/// A look for a variable is linear in those found before.
pub fn assigned_variables(alloc: Global, block: &[Stmt]) -> Result<Items<u32>, AllocError>
    ensures value { IfOk result (λ t. t ≡ spec.assigned_in (seen_block block.now) []) }
{
    assigned_in(block, Items::new(alloc))
}

// The variables, and those that the statements assign.
#[cycle(assigned)]
fn assigned_in(block: &[Stmt], variables: Items<u32>) -> Result<Items<u32>, AllocError>
    ensures value { IfOk result (λ t. t ≡ spec.assigned_in (seen_block block.now) variables) }
{
    let mut all = variables;
    for stmt in block {
        all = assigned_by(stmt, all)?;
    }
    Ok(all)
}
