//! Names in declarations.
ghost use Rattle.std.specs.Prelude.{◌≡◌, map, IfOk, OnOk};
ghost use Rattle.wy_ast.specs.SurfaceSeen.{seen_decl, seen_exprs, seen_param};
ghost use Rattle.wy_names_recursion.specs.DeclNames as names;

use crate::bind_expressions::in_exprs;
use crate::bind_types::in_ty;
use crate::context::Context;
use crate::statements::in_block;
use std::alloc::{AllocError, Global};
use wy_ast::{Alias, Decl, Expr, Function, Method, Param, Property};
use wy_data::Name;
use wy_names_scope::{Cause, Entry, Fault, Table, noted_where, place_of_ty};

/// The fault to be given, of those found before and those that the nodes of the declarations show by
/// themselves: `Unknown`, `Twice`, `CallInContract`, `MethodInFunction`, `Arity` and `OutsideLoop`, each
/// at its place. The scope holds the names of all declarations, and is as before afterwards. Linear in
/// the size of the declarations.
pub fn bind(
    alloc: Global,
    scope: &mut Table,
    found: Option<Fault>,
    decls: &[Decl],
) -> Result<Option<Fault>, AllocError>
    ensures scope { OnOk result (scope.new ≡ scope.old) }
    ensures value { IfOk result (λ f. f ≡ names.in_decls scope.old (map seen_decl decls.now) found) }
{
    let mut found = found;
    for decl in decls {
        found = in_decl(alloc, scope, found, decl)?;
    }
    Ok(found)
}

fn in_decl(
    alloc: Global,
    scope: &mut Table,
    found: Option<Fault>,
    decl: &Decl,
) -> Result<Option<Fault>, AllocError>
    ensures scope { OnOk result (scope.new ≡ scope.old) }
    ensures value { IfOk result (λ f. f ≡ names.in_decl scope.old (seen_decl decl.now) found) }
{
    match decl {
        Decl::Alias(alias) => in_alias(alloc, scope, found, alias),
        Decl::Function(function) => in_function(alloc, scope, found, function),
        Decl::Method(method) => in_method(alloc, scope, found, method),
        Decl::Property(property) => in_property(alloc, scope, found, property),
    }
}

/// Where a clause of a type or a property stands.
fn clause_context() -> Context
    ensures value { result ≡ names.clause_context }
{
    Context {
        is_function: false,
        has_result: false,
        in_loop: false,
        is_contract: true,
    }
}

/// Where the body of a function or a method stands, and in a clause of its contract.
fn routine_context(is_function: bool, has_result: bool, is_contract: bool) -> Context
    ensures value { result ≡ names.routine_context is_function has_result is_contract }
{
    Context {
        is_function,
        has_result,
        in_loop: false,
        is_contract,
    }
}

fn in_alias(
    alloc: Global,
    scope: &mut Table,
    found: Option<Fault>,
    alias: &Alias,
) -> Result<Option<Fault>, AllocError>
    ensures scope { OnOk result (scope.new ≡ scope.old) }
    ensures value { IfOk result (λ f. f ≡ names.in_alias scope.old (names.seen_alias alias.now) found) }
{
    let found = in_ty(alloc, scope, found, &alias.ty)?;
    let at = place_of_ty(&alias.ty);
    let clauses = alias.clauses.as_slice();
    in_clauses(
        alloc,
        clause_context(),
        scope,
        found,
        at,
        &alias.variable,
        clauses,
    )
}

/// The clauses behind a variable that may be named, and whose type stands at the place.
#[tactic(auto, using(crate::proofs::CutLemmas::kept_name))]
fn in_clauses(
    alloc: Global,
    context: Context,
    scope: &mut Table,
    found: Option<Fault>,
    at: u32,
    variable: &Option<Name>,
    clauses: &[Expr],
) -> Result<Option<Fault>, AllocError>
    ensures scope { OnOk result (scope.new ≡ scope.old) }
    ensures value { IfOk result (λ f. f ≡ names.in_clauses context scope.old at variable.now (seen_exprs clauses.now) found) }
{
    match variable {
        None => in_exprs(alloc, context, scope, found, clauses),
        Some(name) => {
            let mark = scope.len();
            let found = noted_where(scope.has(name), found, at, Cause::Twice);
            scope.put(alloc, name, Entry::Variable(0))?;
            let found = in_exprs(alloc, context, scope, found, clauses)?;
            scope.cut(mark);
            Ok(found)
        }
    }
}

/// The types and names of parameters, which are in scope afterwards.
fn in_params(
    alloc: Global,
    scope: &mut Table,
    found: Option<Fault>,
    params: &[Param],
) -> Result<Option<Fault>, AllocError>
    ensures scope { OnOk result (scope.new ≡ names.with_params scope.old (map seen_param params.now)) }
    ensures value { IfOk result (λ f. f ≡ names.in_params scope.old (map seen_param params.now) found) }
{
    let mut found = found;
    for param in params {
        found = in_ty(alloc, scope, found, &param.ty)?;
        found = noted_where(
            scope.has(&param.name),
            found,
            place_of_ty(&param.ty),
            Cause::Twice,
        );
        scope.put(alloc, &param.name, Entry::Variable(0))?;
    }
    Ok(found)
}

#[tactic(auto, using(crate::proofs::CutLemmas::kept_params))]
fn in_function(
    alloc: Global,
    scope: &mut Table,
    found: Option<Fault>,
    function: &Function,
) -> Result<Option<Fault>, AllocError>
    ensures scope { OnOk result (scope.new ≡ scope.old) }
    ensures value { IfOk result (λ f. f ≡ names.in_function scope.old (names.seen_function function.now) found) }
{
    let mark = scope.len();
    let found = in_params(alloc, scope, found, function.params.as_slice())?;
    let found = in_ty(alloc, scope, found, &function.result)?;
    let at = place_of_ty(&function.result);
    let clause = routine_context(true, true, true);
    let preconditions = function.preconditions.as_slice();
    let found = in_exprs(alloc, clause, scope, found, preconditions)?;
    let postconditions = function.postconditions.as_slice();
    let name = &function.result_name;
    let found = in_clauses(alloc, clause, scope, found, at, name, postconditions)?;
    let context = routine_context(true, true, false);
    let found = in_block(alloc, context, scope, found, function.body.as_slice())?;
    scope.cut(mark);
    Ok(found)
}

#[tactic(auto, using(crate::proofs::CutLemmas::kept_params))]
fn in_method(
    alloc: Global,
    scope: &mut Table,
    found: Option<Fault>,
    method: &Method,
) -> Result<Option<Fault>, AllocError>
    ensures scope { OnOk result (scope.new ≡ scope.old) }
    ensures value { IfOk result (λ f. f ≡ names.in_method scope.old (names.seen_method method.now) found) }
{
    let mark = scope.len();
    let found = in_params(alloc, scope, found, method.params.as_slice())?;
    let found = in_outcome(alloc, scope, found, method)?;
    let context = routine_context(false, method.result.is_some(), false);
    let found = in_block(alloc, context, scope, found, method.body.as_slice())?;
    scope.cut(mark);
    Ok(found)
}

/// The result and the contract of a method.
fn in_outcome(
    alloc: Global,
    scope: &mut Table,
    found: Option<Fault>,
    method: &Method,
) -> Result<Option<Fault>, AllocError>
    ensures scope { OnOk result (scope.new ≡ scope.old) }
    ensures value { IfOk result (λ f. f ≡ names.in_outcome scope.old (names.seen_method method.now) found) }
{
    let preconditions = method.preconditions.as_slice();
    let postconditions = method.postconditions.as_slice();
    match &method.result {
        None => {
            let clause = routine_context(false, false, true);
            let found = in_exprs(alloc, clause, scope, found, preconditions)?;
            in_exprs(alloc, clause, scope, found, postconditions)
        }
        Some((ty, name)) => {
            let clause = routine_context(false, true, true);
            let found = in_ty(alloc, scope, found, ty)?;
            let found = in_exprs(alloc, clause, scope, found, preconditions)?;
            in_clauses(
                alloc,
                clause,
                scope,
                found,
                place_of_ty(ty),
                name,
                postconditions,
            )
        }
    }
}

#[tactic(auto, using(crate::proofs::CutLemmas::kept_params))]
fn in_property(
    alloc: Global,
    scope: &mut Table,
    found: Option<Fault>,
    property: &Property,
) -> Result<Option<Fault>, AllocError>
    ensures scope { OnOk result (scope.new ≡ scope.old) }
    ensures value { IfOk result (λ f. f ≡ names.in_property scope.old (names.seen_property property.now) found) }
{
    let mark = scope.len();
    let found = in_params(alloc, scope, found, property.params.as_slice())?;
    let clauses = property.clauses.as_slice();
    let found = in_exprs(alloc, clause_context(), scope, found, clauses)?;
    scope.cut(mark);
    Ok(found)
}
