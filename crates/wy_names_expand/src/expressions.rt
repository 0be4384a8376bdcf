//! The nodes of an expression and of what its properties expand to.
ghost use Rattle.std.specs.Prelude.{◌≡◌};
ghost use Rattle.wy_ast.specs.SurfaceSeen.{seen_ty, seen_expr, seen_exprs, seen_fields, seen_ranges};
ghost use Rattle.wy_ast.specs.SurfaceTree.{exprs_of};
ghost use Rattle.wy_names_expand.specs.Sizes as sizes;

use crate::measure::{
    Expansion, Measure, Spot, Use, argument, called, counted, counted_many, dropped, endless,
    expanded, inside, quantified, used,
};
use crate::numbers::many;
use wy_ast::{Expr, ExprKind, Op, Ty, TyKind};
use wy_data::Name;
use wy_names_scope::{Entry, Table};

/// The measure with the nodes of an expression that stands there, its properties expanded. The
/// parameters are those of the property whose clause it is, and none elsewhere. It takes no memory, and
/// its time is linear in the expression as it is written.
#[cycle(expr)]
pub fn in_expr(
    scope: &Table,
    params: &Table,
    expansions: &[Expansion],
    spot: Spot,
    measure: Measure,
    expr: &Expr,
) -> Measure
    ensures value { result ≡ sizes.in_expr (sizes.known scope.now params.now expansions.now) spot (seen_expr expr.now) measure }
{
    match &expr.kind {
        ExprKind::Null => counted(measure, spot),
        ExprKind::Bool(_) => counted(measure, spot),
        ExprKind::Int(_) => counted(measure, spot),
        ExprKind::Text(bytes) => {
            let count = many(bytes.as_slice().len());
            counted_many(counted(measure, spot), inside(spot), count)
        }
        ExprKind::Var(name) => variable(params.get(name), spot, measure),
        ExprKind::Call(name, args) => {
            let callee = scope.get(name);
            let measure = call(expansions, callee, spot, expr.at, measure);
            in_args(
                scope,
                params,
                expansions,
                spot,
                expr.at,
                callee,
                measure,
                args.as_slice(),
            )
        }
        ExprKind::Neg(operand) => in_expr(
            scope,
            params,
            expansions,
            inside(spot),
            counted(measure, spot),
            operand.get(),
        ),
        ExprKind::Not(operand) => in_expr(
            scope,
            params,
            expansions,
            inside(spot),
            counted(measure, spot),
            operand.get(),
        ),
        ExprKind::Len(operand) => in_expr(
            scope,
            params,
            expansions,
            inside(spot),
            counted(measure, spot),
            operand.get(),
        ),
        ExprKind::Binary(op, left, right) => {
            let measure = operator(*op, spot, measure);
            let first = left_of(*op, spot);
            let measure = in_expr(scope, params, expansions, first, measure, left.get());
            let second = right_of(*op, spot);
            in_expr(scope, params, expansions, second, measure, right.get())
        }
        ExprKind::Is(operand, ty) => {
            let measure = in_expr(
                scope,
                params,
                expansions,
                inside(spot),
                counted(measure, spot),
                operand.get(),
            );
            in_ty(inside(spot), measure, ty)
        }
        ExprKind::Index(array, index) => {
            let measure = in_expr(
                scope,
                params,
                expansions,
                inside(spot),
                counted(measure, spot),
                array.get(),
            );
            in_expr(
                scope,
                params,
                expansions,
                inside(spot),
                measure,
                index.get(),
            )
        }
        ExprKind::Field(whole, _) => in_expr(
            scope,
            params,
            expansions,
            inside(spot),
            counted(measure, spot),
            whole.get(),
        ),
        ExprKind::List(items) => {
            let measure = counted(measure, spot);
            in_exprs(
                scope,
                params,
                expansions,
                inside(spot),
                measure,
                items.as_slice(),
            )
        }
        ExprKind::Repeat(item, count) => {
            let measure = in_expr(
                scope,
                params,
                expansions,
                inside(spot),
                counted(measure, spot),
                item.get(),
            );
            in_expr(
                scope,
                params,
                expansions,
                inside(spot),
                measure,
                count.get(),
            )
        }
        ExprKind::Record(fields) => {
            let measure = counted(measure, spot);
            in_fields(
                scope,
                params,
                expansions,
                inside(spot),
                measure,
                fields.as_slice(),
            )
        }
        ExprKind::Quant(_, ranges, body) => {
            let outer = quantified(spot);
            let ranges = ranges.as_slice();
            let measure = in_ranges(scope, params, expansions, outer, measure, ranges);
            let inner = behind_ranges(outer, ranges);
            in_expr(scope, params, expansions, inner, measure, body.get())
        }
    }
}

#[cycle(expr)]
fn in_exprs(
    scope: &Table,
    params: &Table,
    expansions: &[Expansion],
    spot: Spot,
    measure: Measure,
    exprs: &[Expr],
) -> Measure
    ensures value { result ≡ sizes.in_exprs (sizes.known scope.now params.now expansions.now) spot (exprs_of (seen_exprs exprs.now)) measure }
{
    let mut measure = measure;
    for expr in exprs {
        measure = in_expr(scope, params, expansions, spot, measure, expr);
    }
    measure
}

/// The arguments of a call, which may be the use of a property, at the place.
#[cycle(expr)]
fn in_args(
    scope: &Table,
    params: &Table,
    expansions: &[Expansion],
    spot: Spot,
    at: u32,
    callee: Option<Entry>,
    measure: Measure,
    args: &[Expr],
) -> Measure
    ensures value { result ≡ sizes.in_args (sizes.known scope.now params.now expansions.now) spot at callee 0 (exprs_of (seen_exprs args.now)) measure }
{
    let mut measure = measure;
    for (i, arg) in args.iter().enumerate() {
        let inner = arg_spot(expansions, callee, spot, at, i);
        measure = in_expr(scope, params, expansions, inner, measure, arg);
    }
    measure
}

#[cycle(expr)]
fn in_fields(
    scope: &Table,
    params: &Table,
    expansions: &[Expansion],
    spot: Spot,
    measure: Measure,
    fields: &[(Name, Expr)],
) -> Measure
    ensures value { result ≡ sizes.in_fields (sizes.known scope.now params.now expansions.now) spot (seen_fields fields.now) measure }
{
    let mut measure = measure;
    for field in fields {
        measure = in_expr(scope, params, expansions, spot, measure, &field.1);
    }
    measure
}

/// The ranges of a quantifier, each of which is a quantifier of its own.
#[cycle(expr)]
fn in_ranges(
    scope: &Table,
    params: &Table,
    expansions: &[Expansion],
    spot: Spot,
    measure: Measure,
    ranges: &[(Name, Expr, Expr)],
) -> Measure
    ensures value { result ≡ sizes.in_ranges (sizes.known scope.now params.now expansions.now) spot (seen_ranges ranges.now) measure }
{
    let mut measure = measure;
    let mut spot = spot;
    for range in ranges {
        measure = counted(measure, spot);
        spot = inside(spot);
        measure = in_expr(scope, params, expansions, spot, measure, &range.1);
        measure = in_expr(scope, params, expansions, spot, measure, &range.2);
    }
    measure
}

/// Where the body of a quantifier with these ranges stands.
fn behind_ranges(spot: Spot, ranges: &[(Name, Expr, Expr)]) -> Spot
    ensures value { result ≡ sizes.behind_ranges spot (seen_ranges ranges.now) }
{
    let mut spot = spot;
    for _range in ranges {
        spot = inside(spot);
    }
    spot
}

/// A variable, or a parameter.
fn variable(entry: Option<Entry>, spot: Spot, measure: Measure) -> Measure
    ensures value { result ≡ sizes.variable entry spot measure }
{
    match entry {
        None => counted(measure, spot),
        Some(Entry::Type(_, _)) => counted(measure, spot),
        Some(Entry::Routine(_)) => counted(measure, spot),
        Some(Entry::Property(_, _)) => counted(measure, spot),
        Some(Entry::Variable(index)) => used(measure, spot, index),
    }
}

/// A call, its arguments aside.
fn call(
    expansions: &[Expansion],
    callee: Option<Entry>,
    spot: Spot,
    at: u32,
    measure: Measure,
) -> Measure
    ensures value { result ≡ sizes.call expansions.now callee spot at measure }
{
    match callee {
        None => called(measure, spot),
        Some(Entry::Type(_, _)) => called(measure, spot),
        Some(Entry::Routine(_)) => called(measure, spot),
        Some(Entry::Variable(_)) => called(measure, spot),
        Some(Entry::Property(index, _)) => match expansions.get(index as usize) {
            None => endless(measure, at),
            Some(Expansion::Endless) => endless(measure, at),
            Some(Expansion::Finite(summary)) => expanded(measure, spot, summary),
        },
    }
}

/// Where an argument of a call stands.
fn arg_spot(
    expansions: &[Expansion],
    callee: Option<Entry>,
    spot: Spot,
    at: u32,
    index: usize,
) -> Spot
    ensures value { result ≡ sizes.arg_spot expansions.now callee spot at index }
{
    match callee {
        None => inside(spot),
        Some(Entry::Type(_, _)) => inside(spot),
        Some(Entry::Routine(_)) => inside(spot),
        Some(Entry::Variable(_)) => inside(spot),
        Some(Entry::Property(declared, _)) => match expansions.get(declared as usize) {
            None => dropped(spot),
            Some(Expansion::Endless) => dropped(spot),
            Some(Expansion::Finite(summary)) => use_spot(
                spot,
                at,
                summary.uses.get(index).copied(),
            ),
        },
    }
}

fn use_spot(spot: Spot, at: u32, parameter: Option<Use>) -> Spot
    ensures value { result ≡ sizes.use_spot spot at parameter }
{
    match parameter {
        None => dropped(spot),
        Some(parameter) => argument(spot, at, parameter),
    }
}

/// The nodes of an operator in the core: `!=` is a denied `==`, and `a ==> b` is `!a || b`.
fn operator(op: Op, spot: Spot, measure: Measure) -> Measure
    ensures value { result ≡ sizes.operator op spot measure }
{
    let measure = counted(measure, spot);
    match op {
        Op::NotEqual => counted(measure, inside(spot)),
        Op::Implies => counted(measure, inside(spot)),
        _ => measure,
    }
}

/// Where the left operand stands in the core.
fn left_of(op: Op, spot: Spot) -> Spot
    ensures value { result ≡ sizes.left_of op spot }
{
    match op {
        Op::NotEqual => inside(inside(spot)),
        Op::Implies => inside(inside(spot)),
        _ => inside(spot),
    }
}

/// Where the right operand stands in the core.
fn right_of(op: Op, spot: Spot) -> Spot
    ensures value { result ≡ sizes.right_of op spot }
{
    match op {
        Op::NotEqual => inside(inside(spot)),
        _ => inside(spot),
    }
}

/// The measure with the nodes of a type.
#[cycle(ty)]
fn in_ty(spot: Spot, measure: Measure, ty: &Ty) -> Measure
    ensures value { result ≡ sizes.in_ty spot (seen_ty ty.now) measure }
{
    let measure = counted(measure, spot);
    match &ty.kind {
        TyKind::Null => measure,
        TyKind::Bool => measure,
        TyKind::Int => measure,
        TyKind::Any => measure,
        TyKind::Void => measure,
        TyKind::Record(fields) => in_field_tys(inside(spot), measure, fields.as_slice()),
        TyKind::Array(item) => in_ty(inside(spot), measure, item.get()),
        TyKind::Union(left, right) => {
            let measure = in_ty(inside(spot), measure, left.get());
            in_ty(inside(spot), measure, right.get())
        }
        TyKind::Inter(left, right) => {
            let measure = in_ty(inside(spot), measure, left.get());
            in_ty(inside(spot), measure, right.get())
        }
        TyKind::Not(inner) => in_ty(inside(spot), measure, inner.get()),
        TyKind::Named(_) => measure,
    }
}

#[cycle(ty)]
fn in_field_tys(spot: Spot, measure: Measure, fields: &[(Name, Ty)]) -> Measure
    ensures value { result ≡ sizes.in_field_tys spot (sizes.seen_field_tys fields.now) measure }
{
    let mut measure = measure;
    for field in fields {
        measure = in_ty(spot, measure, &field.1);
    }
    measure
}

/// The test of a case, behind others of the same case: `t == label`, joined to them by `||`. This many
/// labels follow.
pub fn in_label(
    scope: &Table,
    params: &Table,
    expansions: &[Expansion],
    spot: Spot,
    measure: Measure,
    label: &Expr,
) -> Measure
    ensures value { result ≡ sizes.in_label (sizes.known scope.now params.now expansions.now) spot (seen_expr label.now) measure }
{
    let measure = counted(counted(measure, spot), inside(spot));
    in_expr(scope, params, expansions, inside(spot), measure, label)
}
