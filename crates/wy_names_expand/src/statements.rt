//! The faults that expansions bring to statements.
ghost use Rattle.std.specs.Prelude.{◌≡◌, true, map};
ghost use Rattle.wy_ast.specs.SurfaceSeen.{seen_expr, seen_exprs, seen_stmt, seen_block, seen_option, seen_step};
ghost use Rattle.wy_ast.specs.SurfaceTree.{cases_of, exprs_of};
ghost use Rattle.wy_names_expand.specs.Sizes.{known};
ghost use Rattle.wy_names_expand.specs.Wholes as wholes;

use crate::expressions::{in_expr, in_label};
use crate::measure::{Expansion, Measure, counted, deeper, inside, limited, nothing, root};
use crate::numbers::many;
use std::alloc::Global;
use wy_ast::{Case, Expr, Step, StepKind, Stmt, StmtKind};
use wy_items::Items;
use wy_names_scope::{Fault, Table, place_of_expr};

/// The faults of a whole expression, with those found before: those of uses in it, and `TooLarge` at
/// its root.
pub fn whole(
    alloc: Global,
    scope: &Table,
    params: &Table,
    expansions: &[Expansion],
    is_code: bool,
    found: Option<Fault>,
    expr: &Expr,
) -> Option<Fault>
    ensures value { result ≡ wholes.whole (known scope.now params.now expansions.now) is_code (seen_expr expr.now) found }
{
    let measure = nothing(found, Items::new(alloc));
    let measure = in_expr(scope, params, expansions, root(is_code), measure, expr);
    limited(measure, place_of_expr(expr))
}

/// Those of whole expressions.
pub fn each_whole(
    alloc: Global,
    scope: &Table,
    params: &Table,
    expansions: &[Expansion],
    is_code: bool,
    found: Option<Fault>,
    exprs: &[Expr],
) -> Option<Fault>
    ensures value { result ≡ wholes.each_whole (known scope.now params.now expansions.now) is_code (seen_exprs exprs.now) found }
{
    let mut found = found;
    for expr in exprs {
        found = whole(alloc, scope, params, expansions, is_code, found, expr);
    }
    found
}

/// Those of the arguments of a call that is a statement, each of them whole.
fn each_arg(
    alloc: Global,
    scope: &Table,
    params: &Table,
    expansions: &[Expansion],
    found: Option<Fault>,
    args: &[Expr],
) -> Option<Fault>
    ensures value { result ≡ wholes.each_arg (known scope.now params.now expansions.now) (exprs_of (seen_exprs args.now)) found }
{
    let mut found = found;
    for arg in args {
        found = whole(alloc, scope, params, expansions, true, found, arg);
    }
    found
}

fn whole_option(
    alloc: Global,
    scope: &Table,
    params: &Table,
    expansions: &[Expansion],
    found: Option<Fault>,
    value: &Option<Expr>,
) -> Option<Fault>
    ensures value { result ≡ wholes.whole_option (known scope.now params.now expansions.now) (seen_option value.now) found }
{
    match value {
        None => found,
        Some(expr) => whole(alloc, scope, params, expansions, true, found, expr),
    }
}

/// The test or an invariant of a `do` at the place, which stands behind `first ||` in the core.
fn behind_first(
    alloc: Global,
    scope: &Table,
    params: &Table,
    expansions: &[Expansion],
    is_code: bool,
    found: Option<Fault>,
    at: u32,
    expr: &Expr,
) -> Option<Fault>
    ensures value { result ≡ wholes.behind_first (known scope.now params.now expansions.now) is_code at (seen_expr expr.now) found }
{
    let spot = root(is_code);
    let measure = nothing(found, Items::new(alloc));
    let measure = counted(counted(measure, spot), inside(spot));
    let measure = in_expr(scope, params, expansions, inside(spot), measure, expr);
    limited(measure, at)
}

fn each_behind_first(
    alloc: Global,
    scope: &Table,
    params: &Table,
    expansions: &[Expansion],
    found: Option<Fault>,
    at: u32,
    exprs: &[Expr],
) -> Option<Fault>
    ensures value { result ≡ wholes.each_behind_first (known scope.now params.now expansions.now) at (seen_exprs exprs.now) found }
{
    let mut found = found;
    for expr in exprs {
        found = behind_first(alloc, scope, params, expansions, false, found, at, expr);
    }
    found
}

/// The faults of a statement, with those found before. Linear in its size.
#[cycle(stmt)]
fn in_stmt(
    alloc: Global,
    scope: &Table,
    params: &Table,
    expansions: &[Expansion],
    found: Option<Fault>,
    stmt: &Stmt,
) -> Option<Fault>
    ensures value { result ≡ wholes.in_stmt (known scope.now params.now expansions.now) (seen_stmt stmt.now) found }
{
    let at = stmt.at;
    match &stmt.kind {
        StmtKind::Declare(_, _, value) => whole_option(
            alloc, scope, params, expansions, found, value,
        ),
        StmtKind::Assign(_, path, value) => {
            let found = in_path(alloc, scope, params, expansions, found, path.as_slice());
            whole(alloc, scope, params, expansions, true, found, value)
        }
        StmtKind::Call(_, args) => {
            each_arg(alloc, scope, params, expansions, found, args.as_slice())
        }
        StmtKind::Return(value) => whole_option(alloc, scope, params, expansions, found, value),
        StmtKind::Assert(test) => whole(alloc, scope, params, expansions, false, found, test),
        StmtKind::Break => found,
        StmtKind::Continue => found,
        StmtKind::Skip => found,
        StmtKind::Fail => found,
        StmtKind::If(test, first, second) => {
            let found = whole(alloc, scope, params, expansions, true, found, test);
            let found = in_block(alloc, scope, params, expansions, found, first.as_slice());
            in_block(alloc, scope, params, expansions, found, second.as_slice())
        }
        StmtKind::While(test, invariants, body) => {
            let found = whole(alloc, scope, params, expansions, true, found, test);
            let invariants = invariants.as_slice();
            let found = each_whole(alloc, scope, params, expansions, false, found, invariants);
            in_block(alloc, scope, params, expansions, found, body.as_slice())
        }
        StmtKind::Do(body, test, invariants) => {
            let found = in_block(alloc, scope, params, expansions, found, body.as_slice());
            let found = behind_first(alloc, scope, params, expansions, true, found, at, test);
            each_behind_first(
                alloc,
                scope,
                params,
                expansions,
                found,
                at,
                invariants.as_slice(),
            )
        }
        StmtKind::For(_, from, to, invariants, body) => {
            let found = whole(alloc, scope, params, expansions, true, found, from);
            let found = whole(alloc, scope, params, expansions, true, found, to);
            let invariants = invariants.as_slice();
            let found = each_whole(alloc, scope, params, expansions, false, found, invariants);
            in_block(alloc, scope, params, expansions, found, body.as_slice())
        }
        StmtKind::Switch(value, cases, default) => {
            let found = whole(alloc, scope, params, expansions, true, found, value);
            let found = in_cases(
                alloc,
                scope,
                params,
                expansions,
                found,
                at,
                cases.as_slice(),
            );
            match default {
                None => found,
                Some(block) => in_block(alloc, scope, params, expansions, found, block.as_slice()),
            }
        }
    }
}

/// Those of a block.
#[cycle(stmt)]
pub fn in_block(
    alloc: Global,
    scope: &Table,
    params: &Table,
    expansions: &[Expansion],
    found: Option<Fault>,
    block: &[Stmt],
) -> Option<Fault>
    ensures value { result ≡ wholes.in_stmts (known scope.now params.now expansions.now) (seen_block block.now) found }
{
    let mut found = found;
    for stmt in block {
        found = in_stmt(alloc, scope, params, expansions, found, stmt);
    }
    found
}

/// Those of the cases of a `switch` at the place.
#[cycle(stmt)]
fn in_cases(
    alloc: Global,
    scope: &Table,
    params: &Table,
    expansions: &[Expansion],
    found: Option<Fault>,
    at: u32,
    cases: &[Case],
) -> Option<Fault>
    ensures value { result ≡ wholes.in_cases (known scope.now params.now expansions.now) at (cases_of (map wholes.seen_case cases.now)) found }
{
    let mut found = found;
    for case in cases {
        found = in_test(
            alloc,
            scope,
            params,
            expansions,
            found,
            at,
            case.labels.as_slice(),
        );
        found = in_block(
            alloc,
            scope,
            params,
            expansions,
            found,
            case.body.as_slice(),
        );
    }
    found
}

/// The test of a case: `t == c` for each label, joined by `||`.
fn in_test(
    alloc: Global,
    scope: &Table,
    params: &Table,
    expansions: &[Expansion],
    found: Option<Fault>,
    at: u32,
    labels: &[Expr],
) -> Option<Fault>
    ensures value { result ≡ wholes.in_test (known scope.now params.now expansions.now) at (seen_exprs labels.now) found }
{
    let measure = nothing(found, Items::new(alloc));
    limited(in_labels(scope, params, expansions, measure, labels), at)
}

fn in_labels(
    scope: &Table,
    params: &Table,
    expansions: &[Expansion],
    measure: Measure,
    labels: &[Expr],
) -> Measure
    ensures value { result ≡ wholes.in_labels (known scope.now params.now expansions.now) true (seen_exprs labels.now) measure }
{
    let mut measure = measure;
    let mut is_first = true;
    let mut left = labels.len();
    for label in labels {
        left = left.saturating_sub(1);
        let spot = deeper(root(true), many(left));
        if is_first {
            measure = in_label(scope, params, expansions, spot, measure, label);
        } else {
            measure = counted(measure, spot);
            measure = in_label(scope, params, expansions, inside(spot), measure, label);
        }
        is_first = false;
    }
    measure
}

fn in_path(
    alloc: Global,
    scope: &Table,
    params: &Table,
    expansions: &[Expansion],
    found: Option<Fault>,
    path: &[Step],
) -> Option<Fault>
    ensures value { result ≡ wholes.in_path (known scope.now params.now expansions.now) (map seen_step path.now) found }
{
    let mut found = found;
    for step in path {
        match &step.kind {
            StepKind::Index(index) => {
                found = whole(alloc, scope, params, expansions, true, found, index);
            }
            StepKind::Field(_) => {}
        }
    }
    found
}
