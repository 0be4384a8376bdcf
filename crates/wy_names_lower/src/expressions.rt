//! Expressions of the core.
ghost use Rattle.std.specs.Prelude.{◌≡◌, [], ◌++◌, map, IfOk, OnOk};
ghost use Rattle.wy_ast.specs.SurfaceSeen as surface_seen;
ghost use Rattle.wy_ast.specs.SurfaceTree as surface_tree;
ghost use Rattle.wy_core.specs.CoreSeen.{seen_expr, seen_exprs};
ghost use Rattle.wy_core.specs.CoreTree as tree;
ghost use Rattle.wy_names_lower.specs.ExprsLowered as lowered;
ghost use Rattle.wy_names_lower.specs.TypesLowered.{in_ty as ty_lowered};
ghost use Rattle.wy_names_lower.specs.Uses.{seen_templates};
ghost use Rattle.wy_names_lower.specs.SeenPairs.{seen_head, valued_pairs};

use crate::numbers::{declared, variable_of};
use crate::quantifiers::{Head, quantified};
use crate::types::in_ty;
use crate::uses::{Template, called, is_used};
use std::alloc::{AllocError, Global};
use std::collections::BTreeMap;
use wy_ast as surface;
use wy_core::{Expr, Op};
use wy_core_build::{
    binary, denied, field, index, int, is, len, list, neg, null, record, repeat, truth, var,
};
use wy_data::Name;
use wy_items::{Boxed, Items};
use wy_names_scope::{Entry, Table};

/// The core of an expression, its properties expanded. The scope is as before afterwards; variables
/// that it binds are put behind the others. Linear in the expression and its expansion, beside the
/// order of fields.
#[cycle(expr)]
pub fn in_expr(
    alloc: Global,
    scope: &mut Table,
    templates: &[Template],
    variables: &mut Items<Name>,
    expr: &surface::Expr,
) -> Result<Expr, AllocError>
    ensures scope { OnOk result (scope.new ≡ scope.old) }
    ensures variables { OnOk result (variables.new ≡ (lowered.in_expr (seen_templates templates.now) scope.old variables.old (surface_seen.seen_expr expr.now)).0) }
    ensures value { IfOk result (λ e. seen_expr e ≡ (lowered.in_expr (seen_templates templates.now) scope.old variables.old (surface_seen.seen_expr expr.now)).1) }
{
    let at = expr.at;
    match &expr.kind {
        surface::ExprKind::Null => Ok(null(at)),
        surface::ExprKind::Bool(value) => Ok(truth(at, *value)),
        surface::ExprKind::Int(number) => Ok(int(at, *number)),
        surface::ExprKind::Text(bytes) => text(alloc, at, bytes.as_slice()),
        surface::ExprKind::Var(name) => Ok(var(at, variable_of(scope.get(name)))),
        surface::ExprKind::Call(name, args) => {
            let callee = scope.get(name);
            let args = in_args(alloc, scope, templates, variables, callee, args.as_slice())?;
            called(alloc, templates, variables, at, callee, args)
        }
        surface::ExprKind::Neg(a) => { Ok(neg(at, boxed(alloc, scope, templates, variables, a)?)) }
        surface::ExprKind::Not(a) => {
            Ok(denied(at, boxed(alloc, scope, templates, variables, a)?))
        }
        surface::ExprKind::Len(a) => { Ok(len(at, boxed(alloc, scope, templates, variables, a)?)) }
        surface::ExprKind::Binary(_, _, _) => several(alloc, scope, templates, variables, expr),
        surface::ExprKind::Is(a, ty) => {
            let a = boxed(alloc, scope, templates, variables, a)?;
            tested(alloc, scope, at, a, ty)
        }
        surface::ExprKind::Index(_, _) => several(alloc, scope, templates, variables, expr),
        surface::ExprKind::Field(a, name) => {
            let a = boxed(alloc, scope, templates, variables, a)?;
            named(alloc, at, a, name)
        }
        surface::ExprKind::List(items) => {
            let items = in_exprs(alloc, scope, templates, variables, items.as_slice())?;
            Ok(list(at, items))
        }
        surface::ExprKind::Repeat(_, _) => several(alloc, scope, templates, variables, expr),
        surface::ExprKind::Record(fields) => {
            let fields = in_fields(alloc, scope, templates, variables, fields.as_slice())?;
            Ok(record(at, fields))
        }
        surface::ExprKind::Quant(_, _, _) => several(alloc, scope, templates, variables, expr),
    }
}

/// The same for an operator between two operands, an index, a repeated item and a quantifier; `null` for
/// other expressions.
#[cycle(expr)]
#[tactic(auto, using(crate::proofs::KeptLemmas::kept_ranges))]
fn several(
    alloc: Global,
    scope: &mut Table,
    templates: &[Template],
    variables: &mut Items<Name>,
    expr: &surface::Expr,
) -> Result<Expr, AllocError>
    ensures scope { OnOk result (scope.new ≡ scope.old) }
    ensures variables { OnOk result (variables.new ≡ (lowered.several (seen_templates templates.now) scope.old variables.old (surface_seen.seen_expr expr.now)).0) }
    ensures value { IfOk result (λ e. seen_expr e ≡ (lowered.several (seen_templates templates.now) scope.old variables.old (surface_seen.seen_expr expr.now)).1) }
{
    let at = expr.at;
    match &expr.kind {
        surface::ExprKind::Null => Ok(null(0)),
        surface::ExprKind::Bool(_) => Ok(null(0)),
        surface::ExprKind::Int(_) => Ok(null(0)),
        surface::ExprKind::Text(_) => Ok(null(0)),
        surface::ExprKind::Var(_) => Ok(null(0)),
        surface::ExprKind::Call(_, _) => Ok(null(0)),
        surface::ExprKind::Neg(_) => Ok(null(0)),
        surface::ExprKind::Not(_) => Ok(null(0)),
        surface::ExprKind::Len(_) => Ok(null(0)),
        surface::ExprKind::Binary(op, a, b) => {
            let a = boxed(alloc, scope, templates, variables, a)?;
            let b = boxed(alloc, scope, templates, variables, b)?;
            operator(alloc, at, *op, a, b)
        }
        surface::ExprKind::Is(_, _) => Ok(null(0)),
        surface::ExprKind::Index(a, b) => {
            let a = boxed(alloc, scope, templates, variables, a)?;
            let b = boxed(alloc, scope, templates, variables, b)?;
            Ok(index(at, a, b))
        }
        surface::ExprKind::Field(_, _) => Ok(null(0)),
        surface::ExprKind::List(_) => Ok(null(0)),
        surface::ExprKind::Repeat(a, b) => {
            let a = boxed(alloc, scope, templates, variables, a)?;
            let b = boxed(alloc, scope, templates, variables, b)?;
            Ok(repeat(at, a, b))
        }
        surface::ExprKind::Record(_) => Ok(null(0)),
        surface::ExprKind::Quant(all, ranges, body) => {
            let mark = scope.len();
            let heads = in_ranges(alloc, scope, templates, variables, ranges.as_slice())?;
            let body = in_expr(alloc, scope, templates, variables, body.get())?;
            scope.cut(mark);
            quantified(alloc, at, *all, heads, body)
        }
    }
}

/// The core of a part.
#[cycle(expr)]
fn boxed(
    alloc: Global,
    scope: &mut Table,
    templates: &[Template],
    variables: &mut Items<Name>,
    part: &Boxed<surface::Expr>,
) -> Result<Boxed<Expr>, AllocError>
    ensures scope { OnOk result (scope.new ≡ scope.old) }
    ensures variables { OnOk result (variables.new ≡ (lowered.in_expr (seen_templates templates.now) scope.old variables.old (surface_seen.seen_expr part.now)).0) }
    ensures value { IfOk result (λ e. seen_expr e ≡ (lowered.in_expr (seen_templates templates.now) scope.old variables.old (surface_seen.seen_expr part.now)).1) }
{
    let part = in_expr(alloc, scope, templates, variables, part.get())?;
    Boxed::new(alloc, part)
}

/// The core of an expression, in a box.
pub fn boxed_expr(
    alloc: Global,
    scope: &mut Table,
    templates: &[Template],
    variables: &mut Items<Name>,
    expr: &surface::Expr,
) -> Result<Boxed<Expr>, AllocError>
    ensures scope { OnOk result (scope.new ≡ scope.old) }
    ensures variables { OnOk result (variables.new ≡ (lowered.in_expr (seen_templates templates.now) scope.old variables.old (surface_seen.seen_expr expr.now)).0) }
    ensures value { IfOk result (λ e. seen_expr e ≡ (lowered.in_expr (seen_templates templates.now) scope.old variables.old (surface_seen.seen_expr expr.now)).1) }
{
    let expr = in_expr(alloc, scope, templates, variables, expr)?;
    Boxed::new(alloc, expr)
}

/// The core of these expressions.
#[cycle(expr)]
#[tactic(auto, using(crate::proofs::ListLemmas::exprs_more))]
pub fn in_exprs(
    alloc: Global,
    scope: &mut Table,
    templates: &[Template],
    variables: &mut Items<Name>,
    exprs: &[surface::Expr],
) -> Result<Items<Expr>, AllocError>
    ensures scope { OnOk result (scope.new ≡ scope.old) }
    ensures variables { OnOk result (variables.new ≡ (lowered.in_exprs (seen_templates templates.now) scope.old variables.old (surface_tree.exprs_of (surface_seen.seen_exprs exprs.now))).0) }
    ensures value { IfOk result (λ made. seen_exprs made ≡ (lowered.in_exprs (seen_templates templates.now) scope.old variables.old (surface_tree.exprs_of (surface_seen.seen_exprs exprs.now))).1) }
{
    let mut made = Items::new(alloc);
    for expr in exprs {
        let next = in_expr(alloc, scope, templates, variables, expr)?;
        made.push(next)?;
    }
    Ok(made)
}

/// The fields by rising names.
#[cycle(expr)]
#[tactic(auto, using(crate::proofs::PairLemmas::placed_expr))]
fn in_fields(
    alloc: Global,
    scope: &mut Table,
    templates: &[Template],
    variables: &mut Items<Name>,
    fields: &[(Name, surface::Expr)],
) -> Result<Items<(Name, Expr)>, AllocError>
    ensures scope { OnOk result (scope.new ≡ scope.old) }
    ensures variables { OnOk result (variables.new ≡ (lowered.in_fields (seen_templates templates.now) scope.old variables.old [] (surface_seen.seen_fields fields.now)).0) }
    ensures value { IfOk result (λ made. valued_pairs made ≡ (lowered.in_fields (seen_templates templates.now) scope.old variables.old [] (surface_seen.seen_fields fields.now)).1) }
{
    let mut map = BTreeMap::new(alloc);
    for field in fields {
        let name = field.0.copy(alloc)?;
        let value = in_expr(alloc, scope, templates, variables, &field.1)?;
        let held = Boxed::new(alloc, value)?;
        map.insert(name, held)?;
    }
    listed(alloc, map)
}

/// The ranges of a quantifier, whose variables are in scope afterwards.
#[cycle(expr)]
#[tactic(auto, using(crate::proofs::ListLemmas::heads_more))]
fn in_ranges(
    alloc: Global,
    scope: &mut Table,
    templates: &[Template],
    variables: &mut Items<Name>,
    ranges: &[(Name, surface::Expr, surface::Expr)],
) -> Result<Items<Head>, AllocError>
    ensures scope { OnOk result (scope.new ≡ (lowered.in_ranges (seen_templates templates.now) scope.old variables.old (surface_seen.seen_ranges ranges.now)).0) }
    ensures variables { OnOk result (variables.new ≡ (lowered.in_ranges (seen_templates templates.now) scope.old variables.old (surface_seen.seen_ranges ranges.now)).1) }
    ensures value { IfOk result (λ heads. map seen_head heads ≡ (lowered.in_ranges (seen_templates templates.now) scope.old variables.old (surface_seen.seen_ranges ranges.now)).2) }
{
    let mut heads = Items::new(alloc);
    for range in ranges {
        let from = in_expr(alloc, scope, templates, variables, &range.1)?;
        let from = Boxed::new(alloc, from)?;
        let to = in_expr(alloc, scope, templates, variables, &range.2)?;
        let to = Boxed::new(alloc, to)?;
        let variable = declared(alloc, scope, variables, &range.0)?;
        heads.push(Head { variable, from, to })?;
    }
    Ok(heads)
}

/// The arguments of a call. One of a property that no clause uses isn't lowered.
#[cycle(expr)]
#[tactic(auto, using(crate::proofs::ListLemmas::exprs_more))]
fn in_args(
    alloc: Global,
    scope: &mut Table,
    templates: &[Template],
    variables: &mut Items<Name>,
    callee: Option<Entry>,
    args: &[surface::Expr],
) -> Result<Items<Expr>, AllocError>
    ensures scope { OnOk result (scope.new ≡ scope.old) }
    ensures variables { OnOk result (variables.new ≡ (lowered.in_args (seen_templates templates.now) scope.old variables.old callee 0 (surface_tree.exprs_of (surface_seen.seen_exprs args.now))).0) }
    ensures value { IfOk result (λ made. seen_exprs made ≡ (lowered.in_args (seen_templates templates.now) scope.old variables.old callee 0 (surface_tree.exprs_of (surface_seen.seen_exprs args.now))).1) }
{
    let mut made = Items::new(alloc);
    for (i, arg) in args.iter().enumerate() {
        if is_used(templates, callee, i) {
            let next = in_expr(alloc, scope, templates, variables, arg)?;
            made.push(next)?;
        } else {
            made.push(null(0))?;
        }
    }
    Ok(made)
}

/// The entries of the map, in its order.
fn listed(
    alloc: Global,
    map: BTreeMap<Name, Boxed<Expr>>,
) -> Result<Items<(Name, Expr)>, AllocError>
    ensures value { IfOk result (λ items. items ≡ map.entries) }
{
    let mut items = Items::new(alloc);
    for (name, value) in map {
        items.push((name, value.into_inner()))?;
    }
    Ok(items)
}

/// A test of a type.
fn tested(
    alloc: Global,
    scope: &Table,
    at: u32,
    operand: Boxed<Expr>,
    ty: &surface::Ty,
) -> Result<Expr, AllocError>
    ensures value { IfOk result (λ e. seen_expr e ≡ tree.IsExpr at (seen_expr operand) (ty_lowered scope.now (surface_seen.seen_ty ty.now))) }
{
    let ty = in_ty(alloc, scope, ty)?;
    Ok(is(at, operand, ty))
}

/// A field of a record.
fn named(alloc: Global, at: u32, whole: Boxed<Expr>, name: &Name) -> Result<Expr, AllocError>
    ensures value { IfOk result (λ e. seen_expr e ≡ tree.FieldExpr at (seen_expr whole) name.now) }
{
    let name = name.copy(alloc)?;
    Ok(field(at, whole, name))
}

/// A text is the list of its bytes.
#[tactic(auto, using(crate::proofs::ListLemmas::exprs_more))]
fn text(alloc: Global, at: u32, bytes: &[u8]) -> Result<Expr, AllocError>
    ensures value { IfOk result (λ e. seen_expr e ≡ tree.ListExpr at (tree.exprs_of (lowered.text at bytes.now))) }
{
    let mut items = Items::new(alloc);
    for byte in bytes {
        items.push(int(at, i128::from(*byte)))?;
    }
    Ok(list(at, items))
}

/// `a != b` is `!(a == b)`, and `a ==> b` is `!a || b`.
fn operator(
    alloc: Global,
    at: u32,
    op: surface::Op,
    a: Boxed<Expr>,
    b: Boxed<Expr>,
) -> Result<Expr, AllocError>
    ensures value { IfOk result (λ e. seen_expr e ≡ lowered.operator at op (seen_expr a) (seen_expr b)) }
{
    match op {
        surface::Op::Add => Ok(binary(at, Op::Add, a, b)),
        surface::Op::Sub => Ok(binary(at, Op::Sub, a, b)),
        surface::Op::Mul => Ok(binary(at, Op::Mul, a, b)),
        surface::Op::Div => Ok(binary(at, Op::Div, a, b)),
        surface::Op::Mod => Ok(binary(at, Op::Mod, a, b)),
        surface::Op::Equal => Ok(binary(at, Op::Equal, a, b)),
        surface::Op::NotEqual => {
            let equal = Boxed::new(alloc, binary(at, Op::Equal, a, b))?;
            Ok(denied(at, equal))
        }
        surface::Op::Less => Ok(binary(at, Op::Less, a, b)),
        surface::Op::LessEqual => Ok(binary(at, Op::LessEqual, a, b)),
        surface::Op::Greater => Ok(binary(at, Op::Greater, a, b)),
        surface::Op::GreaterEqual => Ok(binary(at, Op::GreaterEqual, a, b)),
        surface::Op::And => Ok(binary(at, Op::And, a, b)),
        surface::Op::Or => Ok(binary(at, Op::Or, a, b)),
        surface::Op::Implies => {
            let a = Boxed::new(alloc, denied(at, a))?;
            Ok(binary(at, Op::Or, a, b))
        }
    }
}
