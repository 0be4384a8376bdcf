//! Clauses of properties, lowered once.
ghost use Rattle.std.specs.Prelude.{◌≡◌, map, drop, IfOk, OnOk};
ghost use Rattle.std.specs.Option.{option_copied, option_map};
ghost use Rattle.wy_ast.specs.SurfaceSeen.{seen_decl, seen_param, seen_exprs};
ghost use Rattle.wy_names_lower.specs.Uses.{seen_template, seen_templates};
ghost use Rattle.wy_names_lower.specs.Templates as spec;

use crate::expressions::in_exprs;
use crate::numbers::declared;
use crate::uses::Template;
use std::alloc::{AllocError, Global};
use wy_ast::{Decl, Param, Property};
use wy_data::Name;
use wy_items::{Items, at};
use wy_names_expand::{Expansion, Use};
use wy_names_scope::Table;

/// The template of each declaration, by its index. The order has the indices of the properties whose
/// expansions end, each behind those that it uses. The scope holds the names of all declarations, and
/// is as before afterwards. Linear in the properties and their expansion.
pub fn templates_of(
    alloc: Global,
    scope: &mut Table,
    decls: &[Decl],
    expansions: &[Expansion],
    order: &[usize],
) -> Result<Items<Template>, AllocError>
    ensures scope { OnOk result (scope.new ≡ scope.old) }
    ensures value { IfOk result (λ ts. seen_templates ts ≡ spec.templates scope.old (map seen_decl decls.now) expansions.now order.now) }
{
    let mut made = without_uses(alloc, decls)?;
    for index in order {
        let place = *index;
        let used = used_of(alloc, at(expansions, place))?;
        made = with_option(alloc, scope, made, used, place, at(decls, place))?;
    }
    Ok(made)
}

fn without_uses(alloc: Global, decls: &[Decl]) -> Result<Items<Template>, AllocError>
    ensures value { IfOk result (λ ts. seen_templates ts ≡ spec.without_uses (map seen_decl decls.now)) }
{
    let mut made = Items::new(alloc);
    for _decl in decls {
        made.push(Template {
            used: Items::new(alloc),
            clauses: Items::new(alloc),
            names: Items::new(alloc),
        })?;
    }
    Ok(made)
}

/// The templates with that of the declaration, where it is a property, at its place.
fn with_option(
    alloc: Global,
    scope: &mut Table,
    templates: Items<Template>,
    used: Items<bool>,
    place: usize,
    decl: Option<&Decl>,
) -> Result<Items<Template>, AllocError>
    ensures scope { OnOk result (scope.new ≡ scope.old) }
    ensures value { IfOk result (λ ts. seen_templates ts ≡ spec.with_option scope.old (seen_templates templates) used place (option_map seen_decl (option_copied decl.entry))) }
{
    match decl {
        None => Ok(templates),
        Some(Decl::Alias(_)) => Ok(templates),
        Some(Decl::Function(_)) => Ok(templates),
        Some(Decl::Method(_)) => Ok(templates),
        Some(Decl::Property(property)) => {
            let next = template(alloc, scope, templates.as_slice(), used, property)?;
            Ok(set_at(templates, place, next))
        }
    }
}

#[tactic(auto, using(crate::proofs::UseLemmas::set_within, crate::proofs::UseLemmas::set_beyond))]
fn set_at(templates: Items<Template>, place: usize, template: Template) -> Items<Template>
    ensures value { seen_templates result ≡ spec.set_at (seen_templates templates) place (seen_template template) }
{
    let mut templates = templates;
    if place >= templates.len() {
        return templates;
    }
    templates.set(place, template);
    templates
}

fn used_of(alloc: Global, expansion: Option<&Expansion>) -> Result<Items<bool>, AllocError>
    ensures value { IfOk result (λ used. used ≡ spec.used_of (option_copied expansion.entry)) }
{
    match expansion {
        None => Ok(Items::new(alloc)),
        Some(Expansion::Endless) => Ok(Items::new(alloc)),
        Some(Expansion::Finite(summary)) => are_used(alloc, summary.uses.as_slice()),
    }
}

fn are_used(alloc: Global, uses: &[Use]) -> Result<Items<bool>, AllocError>
    ensures value { IfOk result (λ used. used ≡ map spec.stands uses.now) }
{
    let mut used = Items::new(alloc);
    for parameter in uses {
        used.push(parameter.times != 0)?;
    }
    Ok(used)
}

#[tactic(auto, using(crate::proofs::KeptLemmas::kept_params))]
fn template(
    alloc: Global,
    scope: &mut Table,
    templates: &[Template],
    used: Items<bool>,
    property: &Property,
) -> Result<Template, AllocError>
    ensures scope { OnOk result (scope.new ≡ scope.old) }
    ensures value { IfOk result (λ t. seen_template t ≡ spec.template (seen_templates templates.now) scope.old used (map seen_param property.now.params) (seen_exprs property.now.clauses)) }
{
    let mark = scope.len();
    let params = property.params.as_slice();
    let mut variables = Items::new(alloc);
    put_params(alloc, scope, &mut variables, params)?;
    let clauses = property.clauses.as_slice();
    let clauses = in_exprs(alloc, scope, templates, &mut variables, clauses)?;
    scope.cut(mark);
    let names = behind(alloc, variables.as_slice(), params.len())?;
    Ok(Template {
        used,
        clauses,
        names,
    })
}

/// Puts the parameters in scope.
fn put_params(
    alloc: Global,
    scope: &mut Table,
    variables: &mut Items<Name>,
    params: &[Param],
) -> Result<(), AllocError>
    ensures scope { OnOk result (scope.new ≡ spec.params_scope scope.old variables.old (map seen_param params.now)) }
    ensures variables { OnOk result (variables.new ≡ spec.params_named variables.old (map seen_param params.now)) }
{
    for param in params {
        let _number = declared(alloc, scope, variables, &param.name)?;
    }
    Ok(())
}

/// The names behind the first ones.
fn behind(alloc: Global, names: &[Name], first: usize) -> Result<Items<Name>, AllocError>
    ensures value { IfOk result (λ rest. rest ≡ drop first names.now) }
{
    if first > names.len() {
        return Ok(Items::new(alloc));
    }
    copied(alloc, &names[first..])
}

fn copied(alloc: Global, names: &[Name]) -> Result<Items<Name>, AllocError>
    ensures value { IfOk result (λ made. made ≡ names.now) }
{
    let mut made = Items::new(alloc);
    for name in names {
        made.push(name.copy(alloc)?)?;
    }
    Ok(made)
}
