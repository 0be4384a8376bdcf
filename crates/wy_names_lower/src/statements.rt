//! Statements of the core: blocks and the statements that hold them.
ghost use Rattle.std.specs.Prelude.{◌≡◌, map, IfOk, OnOk};
ghost use Rattle.wy_ast.specs.SurfaceSeen as surface_seen;
ghost use Rattle.wy_ast.specs.SurfaceTree as surface_tree;
ghost use Rattle.wy_core.specs.CoreSeen.{seen_expr, seen_stmt};
ghost use Rattle.wy_names_lower.specs.StmtsLowered as lowered;
ghost use Rattle.wy_names_lower.specs.Uses.{seen_templates};
ghost use Rattle.wy_names_lower.specs.SeenPairs.{seen_arm, seen_case};

use crate::choices::{Arm, one, switched};
use crate::counts::{in_for, run};
use crate::expressions::{boxed_expr, in_exprs};
use crate::plain::{in_assert, in_assign, in_call, in_declare, in_return};
use crate::repeats::{done, in_do};
use crate::switches::{in_labels, in_switch};
use crate::uses::Template;
use std::alloc::{AllocError, Global};
use wy_ast as surface;
use wy_core::{Expr, Stmt};
use wy_core_build::{break_stmt, continue_stmt, fail_stmt, if_stmt, skip_stmt, while_stmt};
use wy_data::Name;
use wy_items::{Boxed, Items};
use wy_names_scope::{Entry, Table};

/// The core of a block. The scope is as before afterwards; variables that it declares are put behind
/// the others. Linear in the block and its expansion.
#[cycle(stmt)]
#[tactic(auto, using(crate::proofs::ListLemmas::stmts_more, crate::proofs::KeptLemmas::cut_behind))]
pub fn in_block(
    alloc: Global,
    scope: &mut Table,
    templates: &[Template],
    variables: &mut Items<Name>,
    block: &[surface::Stmt],
) -> Result<Items<Stmt>, AllocError>
    ensures scope { OnOk result (scope.new ≡ scope.old) }
    ensures variables { OnOk result (variables.new ≡ (lowered.in_stmts (seen_templates templates.now) scope.old variables.old (surface_seen.seen_block block.now)).0) }
    ensures value { IfOk result (λ made. map seen_stmt made ≡ (lowered.in_stmts (seen_templates templates.now) scope.old variables.old (surface_seen.seen_block block.now)).1) }
{
    let mark = scope.len();
    let mut into = Items::new(alloc);
    for statement in block {
        let next = in_stmt(alloc, scope, templates, variables, statement)?;
        into.append(next)?;
    }
    scope.cut(mark);
    Ok(into)
}

/// The core of a statement. A declaration puts its variable in scope.
#[cycle(stmt)]
fn in_stmt(
    alloc: Global,
    scope: &mut Table,
    templates: &[Template],
    variables: &mut Items<Name>,
    statement: &surface::Stmt,
) -> Result<Items<Stmt>, AllocError>
    ensures scope { OnOk result (scope.new ≡ lowered.scope_behind (seen_templates templates.now) scope.old variables.old (surface_seen.seen_stmt statement.now)) }
    ensures variables { OnOk result (variables.new ≡ (lowered.in_stmt (seen_templates templates.now) scope.old variables.old (surface_seen.seen_stmt statement.now)).0) }
    ensures value { IfOk result (λ made. map seen_stmt made ≡ (lowered.in_stmt (seen_templates templates.now) scope.old variables.old (surface_seen.seen_stmt statement.now)).1) }
{
    let at = statement.at;
    match &statement.kind {
        surface::StmtKind::Declare(ty, name, value) => {
            in_declare(alloc, scope, templates, variables, at, ty, name, value)
        }
        surface::StmtKind::Assign(name, path, value) => {
            in_assign(
                alloc,
                scope,
                templates,
                variables,
                at,
                name,
                path.as_slice(),
                value,
            )
        }
        surface::StmtKind::Call(name, args) => {
            in_call(
                alloc,
                scope,
                templates,
                variables,
                at,
                name,
                args.as_slice(),
            )
        }
        surface::StmtKind::Return(value) => {
            in_return(alloc, scope, templates, variables, at, value)
        }
        surface::StmtKind::Assert(test) => {
            in_assert(alloc, scope, templates, variables, at, test)
        }
        surface::StmtKind::Break => one(alloc, break_stmt(at)),
        surface::StmtKind::Continue => one(alloc, continue_stmt(at)),
        surface::StmtKind::Skip => one(alloc, skip_stmt(at)),
        surface::StmtKind::Fail => one(alloc, fail_stmt(at)),
        surface::StmtKind::If(test, first, second) => {
            let head = in_tested(alloc, scope, templates, variables, first.as_slice(), test)?;
            let second = in_block(alloc, scope, templates, variables, second.as_slice())?;
            either_of(alloc, at, head, second)
        }
        surface::StmtKind::While(test, invariants, body) => {
            let invariants = invariants.as_slice();
            in_while(
                alloc,
                scope,
                templates,
                variables,
                body.as_slice(),
                at,
                test,
                invariants,
            )
        }
        surface::StmtKind::Do(body, test, invariants) => {
            let invariants = invariants.as_slice();
            in_do_stmt(
                alloc,
                scope,
                templates,
                variables,
                body.as_slice(),
                at,
                test,
                invariants,
            )
        }
        surface::StmtKind::For(name, from, to, invariants, body) => {
            let invariants = invariants.as_slice();
            in_for_stmt(
                alloc,
                scope,
                templates,
                variables,
                body.as_slice(),
                at,
                name,
                from,
                to,
                invariants,
            )
        }
        surface::StmtKind::Switch(_, _, default) => match default {
            None => in_switch_stmt(alloc, scope, templates, variables, statement),
            Some(_) => in_switch_stmt(alloc, scope, templates, variables, statement),
        },
    }
}

/// The test of an `if` and its first block.
#[derive(Drop)]
struct IfHead {
    test: Boxed<Expr>,
    first: Items<Stmt>,
}

/// The test of an `if` and its first block, the block first.
#[cycle(stmt)]
fn in_tested(
    alloc: Global,
    scope: &mut Table,
    templates: &[Template],
    variables: &mut Items<Name>,
    first: &[surface::Stmt],
    test: &surface::Expr,
) -> Result<IfHead, AllocError>
    ensures scope { OnOk result (scope.new ≡ scope.old) }
    ensures variables { OnOk result (variables.new ≡ (lowered.if_first (seen_templates templates.now) scope.old variables.old (surface_seen.seen_expr test.now) (surface_seen.seen_block first.now)).0) }
    ensures test { IfOk result (λ h. seen_expr h.test ≡ (lowered.if_test (seen_templates templates.now) scope.old variables.old (surface_seen.seen_expr test.now)).1) }
    ensures first { IfOk result (λ h. map seen_stmt h.first ≡ (lowered.if_first (seen_templates templates.now) scope.old variables.old (surface_seen.seen_expr test.now) (surface_seen.seen_block first.now)).1) }
{
    let test = boxed_expr(alloc, scope, templates, variables, test)?;
    let first = in_block(alloc, scope, templates, variables, first)?;
    Ok(IfHead { test, first })
}

/// An `if` of these parts.
fn either_of(
    alloc: Global,
    at: u32,
    head: IfHead,
    second: Items<Stmt>,
) -> Result<Items<Stmt>, AllocError>
    ensures value { IfOk result (λ made. map seen_stmt made ≡ lowered.if_of at (seen_expr head.test) (map seen_stmt head.first) (map seen_stmt second)) }
{
    let IfHead { test, first } = head;
    one(alloc, if_stmt(at, test.into_inner(), first, second))
}

/// `while`, its body first.
#[cycle(stmt)]
fn in_while(
    alloc: Global,
    scope: &mut Table,
    templates: &[Template],
    variables: &mut Items<Name>,
    body: &[surface::Stmt],
    at: u32,
    test: &surface::Expr,
    invariants: &[surface::Expr],
) -> Result<Items<Stmt>, AllocError>
    ensures scope { OnOk result (scope.new ≡ scope.old) }
    ensures variables { OnOk result (variables.new ≡ (lowered.while_stmt (seen_templates templates.now) scope.old variables.old at (surface_seen.seen_expr test.now) (surface_seen.seen_exprs invariants.now) (surface_seen.seen_block body.now)).0) }
    ensures value { IfOk result (λ made. map seen_stmt made ≡ (lowered.while_stmt (seen_templates templates.now) scope.old variables.old at (surface_seen.seen_expr test.now) (surface_seen.seen_exprs invariants.now) (surface_seen.seen_block body.now)).1) }
{
    let test = boxed_expr(alloc, scope, templates, variables, test)?;
    let invariants = in_exprs(alloc, scope, templates, variables, invariants)?;
    let body = in_block(alloc, scope, templates, variables, body)?;
    let repeat = while_stmt(at, test.into_inner(), invariants, body);
    one(alloc, repeat)
}

/// `do`, its body first.
#[cycle(stmt)]
fn in_do_stmt(
    alloc: Global,
    scope: &mut Table,
    templates: &[Template],
    variables: &mut Items<Name>,
    body: &[surface::Stmt],
    at: u32,
    test: &surface::Expr,
    invariants: &[surface::Expr],
) -> Result<Items<Stmt>, AllocError>
    ensures scope { OnOk result (scope.new ≡ scope.old) }
    ensures variables { OnOk result (variables.new ≡ (lowered.do_stmt (seen_templates templates.now) scope.old variables.old at (surface_seen.seen_expr test.now) (surface_seen.seen_exprs invariants.now) (surface_seen.seen_block body.now)).0) }
    ensures value { IfOk result (λ made. map seen_stmt made ≡ (lowered.do_stmt (seen_templates templates.now) scope.old variables.old at (surface_seen.seen_expr test.now) (surface_seen.seen_exprs invariants.now) (surface_seen.seen_block body.now)).1) }
{
    let head = in_do(alloc, scope, templates, variables, at, test, invariants)?;
    let body = in_block(alloc, scope, templates, variables, body)?;
    done(alloc, at, head, body)
}

/// `for`, its body first.
#[cycle(stmt)]
fn in_for_stmt(
    alloc: Global,
    scope: &mut Table,
    templates: &[Template],
    variables: &mut Items<Name>,
    body: &[surface::Stmt],
    at: u32,
    name: &Name,
    from: &surface::Expr,
    to: &surface::Expr,
    invariants: &[surface::Expr],
) -> Result<Items<Stmt>, AllocError>
    ensures scope { OnOk result (scope.new ≡ scope.old) }
    ensures variables { OnOk result (variables.new ≡ (lowered.for_stmt (seen_templates templates.now) scope.old variables.old at name.now (surface_seen.seen_expr from.now) (surface_seen.seen_expr to.now) (surface_seen.seen_exprs invariants.now) (surface_seen.seen_block body.now)).0) }
    ensures value { IfOk result (λ made. map seen_stmt made ≡ (lowered.for_stmt (seen_templates templates.now) scope.old variables.old at name.now (surface_seen.seen_expr from.now) (surface_seen.seen_expr to.now) (surface_seen.seen_exprs invariants.now) (surface_seen.seen_block body.now)).1) }
{
    let head = in_for(
        alloc, scope, templates, variables, name, from, to, invariants,
    )?;
    let body = in_named_block(alloc, scope, templates, variables, body, name, head.span.i)?;
    run(alloc, at, head, body)
}

/// The core of a block in which the name stands for this variable.
#[cycle(stmt)]
#[tactic(auto, using(crate::proofs::KeptLemmas::kept_name))]
fn in_named_block(
    alloc: Global,
    scope: &mut Table,
    templates: &[Template],
    variables: &mut Items<Name>,
    body: &[surface::Stmt],
    name: &Name,
    variable: u32,
) -> Result<Items<Stmt>, AllocError>
    ensures scope { OnOk result (scope.new ≡ scope.old) }
    ensures variables { OnOk result (variables.new ≡ (lowered.in_stmts (seen_templates templates.now) (lowered.renamed scope.old name.now variable) variables.old (surface_seen.seen_block body.now)).0) }
    ensures value { IfOk result (λ made. map seen_stmt made ≡ (lowered.in_stmts (seen_templates templates.now) (lowered.renamed scope.old name.now variable) variables.old (surface_seen.seen_block body.now)).1) }
{
    let mark = scope.len();
    scope.put(alloc, name, Entry::Variable(variable))?;
    let body = in_block(alloc, scope, templates, variables, body)?;
    scope.cut(mark);
    Ok(body)
}

/// `switch`; nothing for other statements.
#[cycle(stmt)]
fn in_switch_stmt(
    alloc: Global,
    scope: &mut Table,
    templates: &[Template],
    variables: &mut Items<Name>,
    statement: &surface::Stmt,
) -> Result<Items<Stmt>, AllocError>
    ensures scope { OnOk result (scope.new ≡ scope.old) }
    ensures variables { OnOk result (variables.new ≡ (lowered.switch_stmt (seen_templates templates.now) scope.old variables.old (surface_seen.seen_stmt statement.now)).0) }
    ensures value { IfOk result (λ made. map seen_stmt made ≡ (lowered.switch_stmt (seen_templates templates.now) scope.old variables.old (surface_seen.seen_stmt statement.now)).1) }
{
    let at = statement.at;
    match &statement.kind {
        surface::StmtKind::Declare(_, _, _) => Ok(Items::new(alloc)),
        surface::StmtKind::Assign(_, _, _) => Ok(Items::new(alloc)),
        surface::StmtKind::Call(_, _) => Ok(Items::new(alloc)),
        surface::StmtKind::Return(_) => Ok(Items::new(alloc)),
        surface::StmtKind::Assert(_) => Ok(Items::new(alloc)),
        surface::StmtKind::Break => Ok(Items::new(alloc)),
        surface::StmtKind::Continue => Ok(Items::new(alloc)),
        surface::StmtKind::Skip => Ok(Items::new(alloc)),
        surface::StmtKind::Fail => Ok(Items::new(alloc)),
        surface::StmtKind::If(_, _, _) => Ok(Items::new(alloc)),
        surface::StmtKind::While(_, _, _) => Ok(Items::new(alloc)),
        surface::StmtKind::Do(_, _, _) => Ok(Items::new(alloc)),
        surface::StmtKind::For(_, _, _, _, _) => Ok(Items::new(alloc)),
        surface::StmtKind::Switch(value, cases, default) => {
            let head = in_switch(alloc, scope, templates, variables, value)?;
            let (cases, variable) = (cases.as_slice(), head.variable);
            let arms = in_cases(alloc, scope, templates, variables, at, variable, cases)?;
            match default {
                None => switched(alloc, at, variable, head.value, arms, Items::new(alloc)),
                Some(block) => {
                    let last = in_block(alloc, scope, templates, variables, block.as_slice())?;
                    switched(alloc, at, variable, head.value, arms, last)
                }
            }
        }
    }
}

/// The cases of a `switch` at the place, whose value is the variable.
#[cycle(stmt)]
#[tactic(auto, using(crate::proofs::ListLemmas::arms_more))]
fn in_cases(
    alloc: Global,
    scope: &mut Table,
    templates: &[Template],
    variables: &mut Items<Name>,
    at: u32,
    variable: u32,
    cases: &[surface::Case],
) -> Result<Items<Arm>, AllocError>
    ensures scope { OnOk result (scope.new ≡ scope.old) }
    ensures variables { OnOk result (variables.new ≡ (lowered.in_cases (seen_templates templates.now) scope.old variables.old at variable (surface_tree.cases_of (map seen_case cases.now))).0) }
    ensures value { IfOk result (λ arms. map seen_arm arms ≡ (lowered.in_cases (seen_templates templates.now) scope.old variables.old at variable (surface_tree.cases_of (map seen_case cases.now))).1) }
{
    let mut arms = Items::new(alloc);
    for case in cases {
        let labels = case.labels.as_slice();
        let test = in_labels(alloc, scope, templates, variables, at, variable, labels)?;
        let body = in_block(alloc, scope, templates, variables, case.body.as_slice())?;
        arms.push(Arm { test, body })?;
    }
    Ok(arms)
}
