//! Names in statements.
ghost use Rattle.std.specs.Prelude.{◌≡◌, map, IfOk, OnOk};
ghost use Rattle.wy_ast.specs.SurfaceSeen.{seen_exprs, seen_stmt, seen_block, seen_step, seen_option};
ghost use Rattle.wy_ast.specs.SurfaceTree.{cases_of};
ghost use Rattle.wy_names_recursion.specs.StmtNames as names;

use crate::bind_expressions::{count_of, in_expr, in_exprs};
use crate::bind_types::in_ty;
use crate::context::{Context, call, contract, is_variable, looped};
use std::alloc::{AllocError, Global};
use wy_ast::{Case, Expr, Step, StepKind, Stmt, StmtKind};
use wy_names_scope::{Cause, Entry, Fault, Table, noted_where};

/// The faults of a statement. A declaration puts its variable in scope.
#[cycle(stmt)]
#[tactic(auto, using(crate::proofs::CutLemmas::kept_name))]
fn in_stmt(
    alloc: Global,
    context: Context,
    scope: &mut Table,
    found: Option<Fault>,
    stmt: &Stmt,
) -> Result<Option<Fault>, AllocError>
    ensures scope { OnOk result (scope.new ≡ names.scope_behind scope.old (seen_stmt stmt.now)) }
    ensures value { IfOk result (λ f. f ≡ names.in_stmt context scope.old (seen_stmt stmt.now) found) }
{
    let at = stmt.at;
    match &stmt.kind {
        StmtKind::Declare(ty, name, value) => {
            let found = in_ty(alloc, scope, found, ty)?;
            let found = in_option(alloc, context, scope, found, value)?;
            let found = noted_where(scope.has(name), found, at, Cause::Twice);
            scope.put(alloc, name, Entry::Variable(0))?;
            Ok(found)
        }
        StmtKind::Assign(name, path, value) => {
            let unknown = !is_variable(scope.get(name));
            let found = noted_where(unknown, found, at, Cause::Unknown);
            let found = in_path(alloc, context, scope, found, path.as_slice())?;
            in_expr(alloc, context, scope, found, value)
        }
        StmtKind::Call(name, args) => {
            let callee = scope.get(name);
            let count = count_of(args.as_slice());
            let found = call(context, false, callee, count, at, found);
            in_exprs(alloc, context, scope, found, args.as_slice())
        }
        StmtKind::Return(value) => {
            let misfit = value.is_some() != context.has_result;
            let found = noted_where(misfit, found, at, Cause::Arity);
            in_option(alloc, context, scope, found, value)
        }
        StmtKind::Assert(test) => in_expr(alloc, contract(context), scope, found, test),
        StmtKind::Break => Ok(noted_where(!context.in_loop, found, at, Cause::OutsideLoop)),
        StmtKind::Continue => Ok(noted_where(!context.in_loop, found, at, Cause::OutsideLoop)),
        StmtKind::Skip => Ok(found),
        StmtKind::Fail => Ok(found),
        StmtKind::If(test, first, second) => {
            let found = in_expr(alloc, context, scope, found, test)?;
            let found = in_block(alloc, context, scope, found, first.as_slice())?;
            in_block(alloc, context, scope, found, second.as_slice())
        }
        StmtKind::While(test, invariants, body) => {
            let found = in_expr(alloc, context, scope, found, test)?;
            let invariants = invariants.as_slice();
            let found = in_exprs(alloc, contract(context), scope, found, invariants)?;
            in_block(alloc, looped(context), scope, found, body.as_slice())
        }
        StmtKind::Do(body, test, invariants) => {
            let found = in_block(alloc, looped(context), scope, found, body.as_slice())?;
            let found = in_expr(alloc, context, scope, found, test)?;
            in_exprs(
                alloc,
                contract(context),
                scope,
                found,
                invariants.as_slice(),
            )
        }
        StmtKind::For(name, from, to, invariants, body) => {
            let found = in_expr(alloc, context, scope, found, from)?;
            let found = in_expr(alloc, context, scope, found, to)?;
            let found = noted_where(scope.has(name), found, at, Cause::Twice);
            let mark = scope.len();
            scope.put(alloc, name, Entry::Variable(0))?;
            let invariants = invariants.as_slice();
            let found = in_exprs(alloc, contract(context), scope, found, invariants)?;
            let found = in_block(alloc, looped(context), scope, found, body.as_slice())?;
            scope.cut(mark);
            Ok(found)
        }
        StmtKind::Switch(value, cases, default) => {
            let found = in_expr(alloc, context, scope, found, value)?;
            let found = in_cases(alloc, context, scope, found, cases.as_slice())?;
            match default {
                None => Ok(found),
                Some(block) => in_block(alloc, context, scope, found, block.as_slice()),
            }
        }
    }
}

/// The faults of a block. The scope is as before afterwards.
#[cycle(stmt)]
#[tactic(auto, using(crate::proofs::CutLemmas::kept_stmts))]
pub fn in_block(
    alloc: Global,
    context: Context,
    scope: &mut Table,
    found: Option<Fault>,
    block: &[Stmt],
) -> Result<Option<Fault>, AllocError>
    ensures scope { OnOk result (scope.new ≡ scope.old) }
    ensures value { IfOk result (λ f. f ≡ names.in_stmts context scope.old (seen_block block.now) found) }
{
    let mark = scope.len();
    let mut found = found;
    for stmt in block {
        found = in_stmt(alloc, context, scope, found, stmt)?;
    }
    scope.cut(mark);
    Ok(found)
}

#[cycle(stmt)]
fn in_cases(
    alloc: Global,
    context: Context,
    scope: &mut Table,
    found: Option<Fault>,
    cases: &[Case],
) -> Result<Option<Fault>, AllocError>
    ensures scope { OnOk result (scope.new ≡ scope.old) }
    ensures value { IfOk result (λ f. f ≡ names.in_cases context scope.old (cases_of (map names.seen_case cases.now)) found) }
{
    let mut found = found;
    for case in cases {
        found = in_exprs(alloc, context, scope, found, case.labels.as_slice())?;
        found = in_block(alloc, context, scope, found, case.body.as_slice())?;
    }
    Ok(found)
}

fn in_option(
    alloc: Global,
    context: Context,
    scope: &mut Table,
    found: Option<Fault>,
    value: &Option<Expr>,
) -> Result<Option<Fault>, AllocError>
    ensures scope { OnOk result (scope.new ≡ scope.old) }
    ensures value { IfOk result (λ f. f ≡ names.in_option context scope.old (seen_option value.now) found) }
{
    match value {
        None => Ok(found),
        Some(expr) => in_expr(alloc, context, scope, found, expr),
    }
}

fn in_path(
    alloc: Global,
    context: Context,
    scope: &mut Table,
    found: Option<Fault>,
    path: &[Step],
) -> Result<Option<Fault>, AllocError>
    ensures scope { OnOk result (scope.new ≡ scope.old) }
    ensures value { IfOk result (λ f. f ≡ names.in_path context scope.old (map seen_step path.now) found) }
{
    let mut found = found;
    for step in path {
        match &step.kind {
            StepKind::Index(index) => {
                found = in_expr(alloc, context, scope, found, index)?;
            }
            StepKind::Field(_) => {}
        }
    }
    Ok(found)
}
