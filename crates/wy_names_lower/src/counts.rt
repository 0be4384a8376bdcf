//! What a `for` has besides its block.
ghost use Rattle.std.specs.Prelude.{◌≡◌, map, IfOk, OnOk};
ghost use Rattle.wy_ast.specs.SurfaceSeen as surface_seen;
ghost use Rattle.wy_core.specs.CoreSeen.{seen_expr, seen_exprs, seen_stmt};
ghost use Rattle.wy_names_lower.specs.SeenSpans.{seen_span};
ghost use Rattle.wy_names_lower.specs.StmtsLowered as lowered;
ghost use Rattle.wy_names_lower.specs.Uses.{seen_templates};

use crate::expressions::{boxed_expr, in_exprs};
use crate::loops::{Span, counted};
use crate::numbers::{fresh, made};
use crate::uses::Template;
use std::alloc::{AllocError, Global};
use wy_ast as surface;
use wy_core::{Expr, Stmt};
use wy_data::Name;
use wy_items::{Boxed, Items};
use wy_names_scope::{Entry, Table};

/// What a `for` has besides its block: its variables, its ends and its own invariants.
#[derive(Drop)]
pub struct ForHead {
    pub span: Span,
    pub from: Boxed<Expr>,
    pub to: Boxed<Expr>,
    pub invariants: Items<Expr>,
}

/// The ends and the invariants of a `for`, its variables declared between them.
pub fn in_for(
    alloc: Global,
    scope: &mut Table,
    templates: &[Template],
    variables: &mut Items<Name>,
    name: &Name,
    from: &surface::Expr,
    to: &surface::Expr,
    invariants: &[surface::Expr],
) -> Result<ForHead, AllocError>
    ensures scope { OnOk result (scope.new ≡ scope.old) }
    ensures variables { OnOk result (variables.new ≡ (lowered.for_invariants (seen_templates templates.now) scope.old variables.old name.now (surface_seen.seen_expr from.now) (surface_seen.seen_expr to.now) (surface_seen.seen_exprs invariants.now)).0) }
    ensures span { IfOk result (λ head. seen_span head.span ≡ lowered.for_span (seen_templates templates.now) scope.old variables.old (surface_seen.seen_expr from.now) (surface_seen.seen_expr to.now)) }
    ensures start { IfOk result (λ head. seen_expr head.from ≡ (lowered.for_from (seen_templates templates.now) scope.old variables.old (surface_seen.seen_expr from.now)).1) }
    ensures end { IfOk result (λ head. seen_expr head.to ≡ (lowered.for_to (seen_templates templates.now) scope.old variables.old (surface_seen.seen_expr from.now) (surface_seen.seen_expr to.now)).1) }
    ensures invariants { IfOk result (λ head. seen_exprs head.invariants ≡ (lowered.for_invariants (seen_templates templates.now) scope.old variables.old name.now (surface_seen.seen_expr from.now) (surface_seen.seen_expr to.now) (surface_seen.seen_exprs invariants.now)).1) }
{
    let from = boxed_expr(alloc, scope, templates, variables, from)?;
    let to = boxed_expr(alloc, scope, templates, variables, to)?;
    let span = spanned(alloc, variables, name)?;
    let invariants = in_renamed(alloc, scope, templates, variables, name, span.t, invariants)?;
    Ok(ForHead {
        span,
        from,
        to,
        invariants,
    })
}

/// New variables for a `for`.
fn spanned(alloc: Global, variables: &mut Items<Name>, name: &Name) -> Result<Span, AllocError>
    ensures variables { OnOk result (variables.new ≡ lowered.with_span variables.old name.now) }
    ensures value { IfOk result (λ v. seen_span v ≡ lowered.span variables.old) }
{
    let lo = made(alloc, variables, "lo")?;
    let hi = made(alloc, variables, "hi")?;
    let t = made(alloc, variables, "t")?;
    let i = fresh(alloc, variables, name)?;
    Ok(Span { lo, hi, t, i })
}

/// Clauses in which the name stands for this variable.
#[tactic(auto, using(crate::proofs::KeptLemmas::kept_name))]
fn in_renamed(
    alloc: Global,
    scope: &mut Table,
    templates: &[Template],
    variables: &mut Items<Name>,
    name: &Name,
    variable: u32,
    clauses: &[surface::Expr],
) -> Result<Items<Expr>, AllocError>
    ensures scope { OnOk result (scope.new ≡ scope.old) }
    ensures variables { OnOk result (variables.new ≡ (lowered.in_clauses (seen_templates templates.now) (lowered.renamed scope.old name.now variable) variables.old (surface_seen.seen_exprs clauses.now)).0) }
    ensures value { IfOk result (λ made. seen_exprs made ≡ (lowered.in_clauses (seen_templates templates.now) (lowered.renamed scope.old name.now variable) variables.old (surface_seen.seen_exprs clauses.now)).1) }
{
    let mark = scope.len();
    scope.put(alloc, name, Entry::Variable(variable))?;
    let made = in_exprs(alloc, scope, templates, variables, clauses)?;
    scope.cut(mark);
    Ok(made)
}

/// The statements of a `for`.
pub fn run(
    alloc: Global,
    at: u32,
    head: ForHead,
    body: Items<Stmt>,
) -> Result<Items<Stmt>, AllocError>
    ensures value { IfOk result (λ made. map seen_stmt made ≡ lowered.counted at (seen_span head.span) (seen_expr head.from) (seen_expr head.to) (seen_exprs head.invariants) (map seen_stmt body)) }
{
    let ForHead {
        span,
        from,
        to,
        invariants,
    } = head;
    counted(alloc, at, span, from, to, invariants, body)
}
