//! Declarations of the core.
ghost use Rattle.std.specs.Prelude.{◌≡◌, [], map, Some, IfOk, OnOk};
ghost use Rattle.std.specs.Option.{option_map};
ghost use Rattle.wy_ast.specs.SurfaceSeen as surface_seen;
ghost use Rattle.wy_core.specs.CoreSeen.{seen_core, seen_alias as core_alias, seen_routine, seen_param as core_param, seen_output, seen_exprs, seen_decl as core_decl};
ghost use Rattle.wy_names_lower.specs.DeclsLowered as lowered;
ghost use Rattle.wy_names_lower.specs.Templates as params_spec;
ghost use Rattle.wy_names_lower.specs.SeenDecls.{seen_alias, seen_function, seen_method};
ghost use Rattle.wy_names_lower.specs.Uses.{seen_templates};

use crate::expressions::in_exprs;
use crate::numbers::declared;
use crate::operands::unboxed;
use crate::statements::in_block;
use crate::types::boxed_ty;
use crate::uses::Template;
use std::alloc::{AllocError, Global};
use wy_ast as surface;
use wy_core::{Alias, Core, Decl, Expr, Output, Param, Routine};
use wy_data::Name;
use wy_items::{Boxed, Items};
use wy_names_scope::Table;

/// The core of the declarations, whose names are bound. The scope holds the names of all of them, and is
/// as before afterwards. Linear in their size and their expansion, beside the order of fields.
pub fn core_of(
    alloc: Global,
    scope: &mut Table,
    templates: &[Template],
    decls: &[surface::Decl],
) -> Result<Core, AllocError>
    ensures scope { OnOk result (scope.new ≡ scope.old) }
    ensures value { IfOk result (λ core. seen_core core ≡ lowered.in_decls (seen_templates templates.now) scope.old (map surface_seen.seen_decl decls.now)) }
{
    let mut made = Items::new(alloc);
    for decl in decls {
        let next = in_decl(alloc, scope, templates, decl)?;
        made = with_last(made, next)?;
    }
    Ok(Core { decls: made })
}

fn with_last(decls: Items<Decl>, next: Option<Decl>) -> Result<Items<Decl>, AllocError>
    ensures value { IfOk result (λ made. made ≡ lowered.with_last decls next) }
{
    let mut decls = decls;
    match next {
        None => Ok(decls),
        Some(decl) => {
            decls.push(decl)?;
            Ok(decls)
        }
    }
}

fn in_decl(
    alloc: Global,
    scope: &mut Table,
    templates: &[Template],
    decl: &surface::Decl,
) -> Result<Option<Decl>, AllocError>
    ensures scope { OnOk result (scope.new ≡ scope.old) }
    ensures value { IfOk result (λ d. option_map core_decl d ≡ lowered.in_decl (seen_templates templates.now) scope.old (surface_seen.seen_decl decl.now)) }
{
    match decl {
        surface::Decl::Alias(alias) => {
            let alias = in_alias(alloc, scope, templates, alias)?;
            Ok(Some(Decl::Alias(alias)))
        }
        surface::Decl::Function(function) => {
            let routine = in_function(alloc, scope, templates, function)?;
            Ok(Some(Decl::Routine(routine)))
        }
        surface::Decl::Method(method) => {
            let routine = in_method(alloc, scope, templates, method)?;
            Ok(Some(Decl::Routine(routine)))
        }
        surface::Decl::Property(_) => Ok(None),
    }
}

/// Clauses that speak of a variable which may be named: its number, and the clauses.
#[derive(Drop)]
struct NamedClauses {
    variable: Option<u32>,
    clauses: Items<Expr>,
}

/// The scope is as before afterwards.
#[tactic(auto, using(crate::proofs::KeptLemmas::kept_maybe))]
fn named_clauses(
    alloc: Global,
    scope: &mut Table,
    templates: &[Template],
    variables: &mut Items<Name>,
    name: &Option<Name>,
    clauses: &[surface::Expr],
) -> Result<NamedClauses, AllocError>
    ensures scope { OnOk result (scope.new ≡ scope.old) }
    ensures variables { OnOk result (variables.new ≡ (lowered.named_clauses (seen_templates templates.now) scope.old variables.old name.now (surface_seen.seen_exprs clauses.now)).0) }
    ensures number { IfOk result (λ n. n.variable ≡ lowered.name_number variables.old name.now) }
    ensures value { IfOk result (λ n. seen_exprs n.clauses ≡ (lowered.named_clauses (seen_templates templates.now) scope.old variables.old name.now (surface_seen.seen_exprs clauses.now)).1) }
{
    let mark = scope.len();
    let variable = in_name(alloc, scope, variables, name)?;
    let clauses = in_exprs(alloc, scope, templates, variables, clauses)?;
    scope.cut(mark);
    Ok(NamedClauses { variable, clauses })
}

/// The number of a variable that may be named, which is in scope from there on.
fn in_name(
    alloc: Global,
    scope: &mut Table,
    variables: &mut Items<Name>,
    name: &Option<Name>,
) -> Result<Option<u32>, AllocError>
    ensures scope { OnOk result (scope.new ≡ lowered.name_scope scope.old variables.old name.now) }
    ensures variables { OnOk result (variables.new ≡ lowered.name_named variables.old name.now) }
    ensures value { IfOk result (λ n. n ≡ lowered.name_number variables.old name.now) }
{
    match name {
        None => Ok(None),
        Some(name) => {
            let number = declared(alloc, scope, variables, name)?;
            Ok(Some(number))
        }
    }
}

fn in_alias(
    alloc: Global,
    scope: &mut Table,
    templates: &[Template],
    alias: &surface::Alias,
) -> Result<Alias, AllocError>
    ensures scope { OnOk result (scope.new ≡ scope.old) }
    ensures value { IfOk result (λ a. core_alias a ≡ lowered.in_alias (seen_templates templates.now) scope.old (seen_alias alias.now)) }
{
    let mut variables = Items::new(alloc);
    let ty = boxed_ty(alloc, scope, &alias.ty)?;
    let clauses = alias.clauses.as_slice();
    let named = named_clauses(
        alloc,
        scope,
        templates,
        &mut variables,
        &alias.variable,
        clauses,
    )?;
    let name = alias.name.copy(alloc)?;
    let NamedClauses { variable, clauses } = named;
    Ok(Alias {
        at: alias.at,
        name,
        variables,
        ty: ty.into_inner(),
        variable,
        clauses,
    })
}

/// Parameters, which are in scope from there on.
#[tactic(auto, using(crate::proofs::ListLemmas::params_more))]
fn in_params(
    alloc: Global,
    scope: &mut Table,
    variables: &mut Items<Name>,
    params: &[surface::Param],
) -> Result<Items<Param>, AllocError>
    ensures scope { OnOk result (scope.new ≡ params_spec.params_scope scope.old variables.old (map surface_seen.seen_param params.now)) }
    ensures variables { OnOk result (variables.new ≡ params_spec.params_named variables.old (map surface_seen.seen_param params.now)) }
    ensures value { IfOk result (λ made. map core_param made ≡ lowered.in_params scope.old variables.old (map surface_seen.seen_param params.now)) }
{
    let mut made = Items::new(alloc);
    for param in params {
        let ty = boxed_ty(alloc, scope, &param.ty)?;
        let variable = declared(alloc, scope, variables, &param.name)?;
        made.push(Param {
            ty: ty.into_inner(),
            variable,
        })?;
    }
    Ok(made)
}

/// A result that may be absent, and the clauses that may speak of it.
#[derive(Drop)]
struct Outcome {
    output: Option<Boxed<Output>>,
    clauses: Items<Expr>,
}

/// The result and the clauses that speak of it. Its name is in scope in them alone.
fn in_output(
    alloc: Global,
    scope: &mut Table,
    templates: &[Template],
    variables: &mut Items<Name>,
    ty: &surface::Ty,
    name: &Option<Name>,
    clauses: &[surface::Expr],
) -> Result<Outcome, AllocError>
    ensures scope { OnOk result (scope.new ≡ scope.old) }
    ensures variables { OnOk result (variables.new ≡ (lowered.named_clauses (seen_templates templates.now) scope.old variables.old name.now (surface_seen.seen_exprs clauses.now)).0) }
    ensures output { IfOk result (λ o. seen_output o.output ≡ Some (lowered.in_output scope.old variables.old (surface_seen.seen_ty ty.now) name.now)) }
    ensures value { IfOk result (λ o. seen_exprs o.clauses ≡ (lowered.named_clauses (seen_templates templates.now) scope.old variables.old name.now (surface_seen.seen_exprs clauses.now)).1) }
{
    let ty = boxed_ty(alloc, scope, ty)?;
    let named = named_clauses(alloc, scope, templates, variables, name, clauses)?;
    let NamedClauses { variable, clauses } = named;
    let ty = ty.into_inner();
    let output = Boxed::new(alloc, Output { ty, variable })?;
    Ok(Outcome {
        output: Some(output),
        clauses,
    })
}

/// The result of a method, where it has one, and the clauses that may speak of it.
fn in_outcome(
    alloc: Global,
    scope: &mut Table,
    templates: &[Template],
    variables: &mut Items<Name>,
    result_of: &Option<(surface::Ty, Option<Name>)>,
    clauses: &[surface::Expr],
) -> Result<Outcome, AllocError>
    ensures scope { OnOk result (scope.new ≡ scope.old) }
    ensures variables { OnOk result (variables.new ≡ (lowered.result_clauses (seen_templates templates.now) scope.old variables.old (surface_seen.seen_result result_of.now) (surface_seen.seen_exprs clauses.now)).0) }
    ensures output { IfOk result (λ o. seen_output o.output ≡ lowered.in_result scope.old variables.old (surface_seen.seen_result result_of.now)) }
    ensures value { IfOk result (λ o. seen_exprs o.clauses ≡ (lowered.result_clauses (seen_templates templates.now) scope.old variables.old (surface_seen.seen_result result_of.now) (surface_seen.seen_exprs clauses.now)).1) }
{
    match result_of {
        None => {
            let clauses = in_exprs(alloc, scope, templates, variables, clauses)?;
            Ok(Outcome {
                output: None,
                clauses,
            })
        }
        Some((ty, name)) => in_output(alloc, scope, templates, variables, ty, name, clauses),
    }
}

#[tactic(auto, using(crate::proofs::KeptLemmas::kept_params))]
fn in_function(
    alloc: Global,
    scope: &mut Table,
    templates: &[Template],
    function: &surface::Function,
) -> Result<Routine, AllocError>
    ensures scope { OnOk result (scope.new ≡ scope.old) }
    ensures value { IfOk result (λ r. seen_routine r ≡ lowered.in_routine (seen_templates templates.now) scope.old (seen_function function.now)) }
{
    let mark = scope.len();
    let mut variables = Items::new(alloc);
    let params = in_params(alloc, scope, &mut variables, function.params.as_slice())?;
    let before = function.preconditions.as_slice();
    let preconditions = in_exprs(alloc, scope, templates, &mut variables, before)?;
    let after = function.postconditions.as_slice();
    let (ty, name) = (&function.result, &function.result_name);
    let outcome = in_output(alloc, scope, templates, &mut variables, ty, name, after)?;
    let block = function.body.as_slice();
    let body = in_block(alloc, scope, templates, &mut variables, block)?;
    scope.cut(mark);
    let name = function.name.copy(alloc)?;
    let Outcome { output, clauses } = outcome;
    Ok(Routine {
        at: function.at,
        name,
        is_method: false,
        variables,
        params,
        result: unboxed(output),
        preconditions,
        postconditions: clauses,
        body,
    })
}

#[tactic(auto, using(crate::proofs::KeptLemmas::kept_params))]
fn in_method(
    alloc: Global,
    scope: &mut Table,
    templates: &[Template],
    method: &surface::Method,
) -> Result<Routine, AllocError>
    ensures scope { OnOk result (scope.new ≡ scope.old) }
    ensures value { IfOk result (λ r. seen_routine r ≡ lowered.in_routine (seen_templates templates.now) scope.old (seen_method method.now)) }
{
    let mark = scope.len();
    let mut variables = Items::new(alloc);
    let params = in_params(alloc, scope, &mut variables, method.params.as_slice())?;
    let before = method.preconditions.as_slice();
    let preconditions = in_exprs(alloc, scope, templates, &mut variables, before)?;
    let after = method.postconditions.as_slice();
    let own = &method.result;
    let outcome = in_outcome(alloc, scope, templates, &mut variables, own, after)?;
    let block = method.body.as_slice();
    let body = in_block(alloc, scope, templates, &mut variables, block)?;
    scope.cut(mark);
    let name = method.name.copy(alloc)?;
    let Outcome { output, clauses } = outcome;
    Ok(Routine {
        at: method.at,
        name,
        is_method: true,
        variables,
        params,
        result: unboxed(output),
        preconditions,
        postconditions: clauses,
        body,
    })
}
