//! Statements that hold no block.
ghost use Rattle.std.specs.Prelude.{◌≡◌, map, IfOk, OnOk};
ghost use Rattle.wy_ast.specs.SurfaceSeen as surface_seen;
ghost use Rattle.wy_ast.specs.SurfaceTree as surface_tree;
ghost use Rattle.wy_core.specs.CoreSeen.{seen_option, seen_step, seen_stmt};
ghost use Rattle.wy_names_lower.specs.StmtsLowered as lowered;
ghost use Rattle.wy_names_lower.specs.Variables.{declared as lowered_scope};
ghost use Rattle.wy_names_lower.specs.Uses.{seen_templates};

use crate::choices::one;
use crate::expressions::{boxed_expr, in_expr, in_exprs};
use crate::numbers::{declared, routine_of, variable_of};
use crate::operands::unboxed;
use crate::types::boxed_ty;
use crate::uses::Template;
use std::alloc::{AllocError, Global};
use wy_ast as surface;
use wy_core::{Expr, Step, Stmt};
use wy_core_build::{assert_stmt, assign, call_stmt, declare, field_step, index_step, return_stmt};
use wy_data::Name;
use wy_items::{Boxed, Items};
use wy_names_scope::Table;

/// `ty name = value`. The variable is in scope afterwards.
pub fn in_declare(
    alloc: Global,
    scope: &mut Table,
    templates: &[Template],
    variables: &mut Items<Name>,
    at: u32,
    ty: &surface::Ty,
    name: &Name,
    value: &Option<surface::Expr>,
) -> Result<Items<Stmt>, AllocError>
    ensures scope { OnOk result (scope.new ≡ lowered_scope scope.old (lowered.in_option (seen_templates templates.now) scope.old variables.old (surface_seen.seen_option value.now)).0 name.now) }
    ensures variables { OnOk result (variables.new ≡ (lowered.in_declare (seen_templates templates.now) scope.old variables.old at (surface_seen.seen_ty ty.now) name.now (surface_seen.seen_option value.now)).0) }
    ensures value { IfOk result (λ made. map seen_stmt made ≡ (lowered.in_declare (seen_templates templates.now) scope.old variables.old at (surface_seen.seen_ty ty.now) name.now (surface_seen.seen_option value.now)).1) }
{
    let ty = boxed_ty(alloc, scope, ty)?;
    let value = in_option(alloc, scope, templates, variables, value)?;
    let variable = declared(alloc, scope, variables, name)?;
    let start = declare(at, ty.into_inner(), variable, unboxed(value));
    one(alloc, start)
}

/// `name path = value`
pub fn in_assign(
    alloc: Global,
    scope: &mut Table,
    templates: &[Template],
    variables: &mut Items<Name>,
    at: u32,
    name: &Name,
    path: &[surface::Step],
    value: &surface::Expr,
) -> Result<Items<Stmt>, AllocError>
    ensures scope { OnOk result (scope.new ≡ scope.old) }
    ensures variables { OnOk result (variables.new ≡ (lowered.in_assign (seen_templates templates.now) scope.old variables.old at name.now (map surface_seen.seen_step path.now) (surface_seen.seen_expr value.now)).0) }
    ensures value { IfOk result (λ made. map seen_stmt made ≡ (lowered.in_assign (seen_templates templates.now) scope.old variables.old at name.now (map surface_seen.seen_step path.now) (surface_seen.seen_expr value.now)).1) }
{
    let path = in_path(alloc, scope, templates, variables, path)?;
    let value = in_expr(alloc, scope, templates, variables, value)?;
    one(alloc, assign(at, variable_of(scope.get(name)), path, value))
}

/// A call.
pub fn in_call(
    alloc: Global,
    scope: &mut Table,
    templates: &[Template],
    variables: &mut Items<Name>,
    at: u32,
    name: &Name,
    args: &[surface::Expr],
) -> Result<Items<Stmt>, AllocError>
    ensures scope { OnOk result (scope.new ≡ scope.old) }
    ensures variables { OnOk result (variables.new ≡ (lowered.in_call (seen_templates templates.now) scope.old variables.old at name.now (surface_tree.exprs_of (surface_seen.seen_exprs args.now))).0) }
    ensures value { IfOk result (λ made. map seen_stmt made ≡ (lowered.in_call (seen_templates templates.now) scope.old variables.old at name.now (surface_tree.exprs_of (surface_seen.seen_exprs args.now))).1) }
{
    let args = in_exprs(alloc, scope, templates, variables, args)?;
    one(alloc, call_stmt(at, routine_of(scope.get(name)), args))
}

/// A return, with or without a result.
pub fn in_return(
    alloc: Global,
    scope: &mut Table,
    templates: &[Template],
    variables: &mut Items<Name>,
    at: u32,
    value: &Option<surface::Expr>,
) -> Result<Items<Stmt>, AllocError>
    ensures scope { OnOk result (scope.new ≡ scope.old) }
    ensures variables { OnOk result (variables.new ≡ (lowered.in_return (seen_templates templates.now) scope.old variables.old at (surface_seen.seen_option value.now)).0) }
    ensures value { IfOk result (λ made. map seen_stmt made ≡ (lowered.in_return (seen_templates templates.now) scope.old variables.old at (surface_seen.seen_option value.now)).1) }
{
    let value = in_option(alloc, scope, templates, variables, value)?;
    one(alloc, return_stmt(at, unboxed(value)))
}

/// An assertion.
pub fn in_assert(
    alloc: Global,
    scope: &mut Table,
    templates: &[Template],
    variables: &mut Items<Name>,
    at: u32,
    test: &surface::Expr,
) -> Result<Items<Stmt>, AllocError>
    ensures scope { OnOk result (scope.new ≡ scope.old) }
    ensures variables { OnOk result (variables.new ≡ (lowered.in_assert (seen_templates templates.now) scope.old variables.old at (surface_seen.seen_expr test.now)).0) }
    ensures value { IfOk result (λ made. map seen_stmt made ≡ (lowered.in_assert (seen_templates templates.now) scope.old variables.old at (surface_seen.seen_expr test.now)).1) }
{
    let test = in_expr(alloc, scope, templates, variables, test)?;
    one(alloc, assert_stmt(at, test))
}

/// An expression that may be absent.
fn in_option(
    alloc: Global,
    scope: &mut Table,
    templates: &[Template],
    variables: &mut Items<Name>,
    value: &Option<surface::Expr>,
) -> Result<Option<Boxed<Expr>>, AllocError>
    ensures scope { OnOk result (scope.new ≡ scope.old) }
    ensures variables { OnOk result (variables.new ≡ (lowered.in_option (seen_templates templates.now) scope.old variables.old (surface_seen.seen_option value.now)).0) }
    ensures value { IfOk result (λ made. seen_option made ≡ (lowered.in_option (seen_templates templates.now) scope.old variables.old (surface_seen.seen_option value.now)).1) }
{
    match value {
        None => Ok(None),
        Some(expr) => {
            let value = boxed_expr(alloc, scope, templates, variables, expr)?;
            Ok(Some(value))
        }
    }
}

/// The steps of a path.
#[tactic(auto, using(crate::proofs::ListLemmas::steps_more))]
fn in_path(
    alloc: Global,
    scope: &mut Table,
    templates: &[Template],
    variables: &mut Items<Name>,
    path: &[surface::Step],
) -> Result<Items<Step>, AllocError>
    ensures scope { OnOk result (scope.new ≡ scope.old) }
    ensures variables { OnOk result (variables.new ≡ (lowered.in_path (seen_templates templates.now) scope.old variables.old (map surface_seen.seen_step path.now)).0) }
    ensures value { IfOk result (λ made. map seen_step made ≡ (lowered.in_path (seen_templates templates.now) scope.old variables.old (map surface_seen.seen_step path.now)).1) }
{
    let mut made = Items::new(alloc);
    for step in path {
        let next = in_step(alloc, scope, templates, variables, step)?;
        made.push(next)?;
    }
    Ok(made)
}

/// A step of a path.
fn in_step(
    alloc: Global,
    scope: &mut Table,
    templates: &[Template],
    variables: &mut Items<Name>,
    step: &surface::Step,
) -> Result<Step, AllocError>
    ensures scope { OnOk result (scope.new ≡ scope.old) }
    ensures variables { OnOk result (variables.new ≡ (lowered.in_step (seen_templates templates.now) scope.old variables.old (surface_seen.seen_step step.now)).0) }
    ensures value { IfOk result (λ made. seen_step made ≡ (lowered.in_step (seen_templates templates.now) scope.old variables.old (surface_seen.seen_step step.now)).1) }
{
    match &step.kind {
        surface::StepKind::Index(index) => {
            let index = in_expr(alloc, scope, templates, variables, index)?;
            Ok(index_step(step.at, index))
        }
        surface::StepKind::Field(name) => Ok(field_step(step.at, name.copy(alloc)?)),
    }
}
