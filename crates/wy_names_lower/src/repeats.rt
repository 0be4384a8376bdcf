//! What a `do` has besides its block.
ghost use Rattle.std.specs.Prelude.{◌≡◌, map, length, IfOk, OnOk};
ghost use Rattle.wy_ast.specs.SurfaceSeen as surface_seen;
ghost use Rattle.wy_core.specs.CoreSeen.{seen_expr, seen_exprs, seen_stmt};
ghost use Rattle.wy_names_lower.specs.StmtsLowered as lowered;
ghost use Rattle.wy_names_lower.specs.Uses.{seen_templates};

use crate::expressions::boxed_expr;
use crate::loops::{behind_first, repeated};
use crate::numbers::made;
use crate::uses::Template;
use std::alloc::{AllocError, Global};
use wy_ast as surface;
use wy_core::{Expr, Stmt};
use wy_data::Name;
use wy_items::{Boxed, Items};
use wy_names_scope::Table;

/// What a `do` has besides its block: its variable, its test and its invariants behind `first ||`.
#[derive(Drop)]
pub struct DoHead {
    pub first: u32,
    pub test: Boxed<Expr>,
    pub invariants: Items<Expr>,
}

/// The test and the invariants of a `do`, behind the declaration of its variable.
pub fn in_do(
    alloc: Global,
    scope: &mut Table,
    templates: &[Template],
    variables: &mut Items<Name>,
    at: u32,
    test: &surface::Expr,
    invariants: &[surface::Expr],
) -> Result<DoHead, AllocError>
    ensures scope { OnOk result (scope.new ≡ scope.old) }
    ensures variables { OnOk result (variables.new ≡ (lowered.do_invariants (seen_templates templates.now) scope.old variables.old (surface_seen.seen_expr test.now) (surface_seen.seen_exprs invariants.now)).0) }
    ensures first { IfOk result (λ head. head.first ≡ length variables.old) }
    ensures test { IfOk result (λ head. seen_expr head.test ≡ lowered.behind_first at (length variables.old) (lowered.do_test (seen_templates templates.now) scope.old variables.old (surface_seen.seen_expr test.now)).1) }
    ensures invariants { IfOk result (λ head. seen_exprs head.invariants ≡ lowered.each_behind_first at (length variables.old) (lowered.do_invariants (seen_templates templates.now) scope.old variables.old (surface_seen.seen_expr test.now) (surface_seen.seen_exprs invariants.now)).1) }
{
    let first = made(alloc, variables, "first")?;
    let test = boxed_expr(alloc, scope, templates, variables, test)?;
    let test = behind_first(alloc, at, first, test)?;
    let invariants = each_behind_first(alloc, scope, templates, variables, at, first, invariants)?;
    Ok(DoHead {
        first,
        test,
        invariants,
    })
}

/// `first || v` for each invariant.
#[tactic(auto, using(crate::proofs::ListLemmas::exprs_more))]
fn each_behind_first(
    alloc: Global,
    scope: &mut Table,
    templates: &[Template],
    variables: &mut Items<Name>,
    at: u32,
    first: u32,
    exprs: &[surface::Expr],
) -> Result<Items<Expr>, AllocError>
    ensures scope { OnOk result (scope.new ≡ scope.old) }
    ensures variables { OnOk result (variables.new ≡ (lowered.in_clauses (seen_templates templates.now) scope.old variables.old (surface_seen.seen_exprs exprs.now)).0) }
    ensures value { IfOk result (λ made. seen_exprs made ≡ lowered.each_behind_first at first (lowered.in_clauses (seen_templates templates.now) scope.old variables.old (surface_seen.seen_exprs exprs.now)).1) }
{
    let mut made = Items::new(alloc);
    for expr in exprs {
        let expr = boxed_expr(alloc, scope, templates, variables, expr)?;
        let next = behind_first(alloc, at, first, expr)?;
        made.push(next.into_inner())?;
    }
    Ok(made)
}

/// The statements of a `do`.
pub fn done(
    alloc: Global,
    at: u32,
    head: DoHead,
    body: Items<Stmt>,
) -> Result<Items<Stmt>, AllocError>
    ensures value { IfOk result (λ made. map seen_stmt made ≡ lowered.repeated_behind at head.first (seen_expr head.test) (seen_exprs head.invariants) (map seen_stmt body)) }
{
    let DoHead {
        first,
        test,
        invariants,
    } = head;
    repeated(alloc, at, first, test, invariants, body)
}
