//! Uses of what a name stands for, properties among them.
ghost use Rattle.std.specs.Prelude.{◌≡◌, ◌++◌, length, slice_get, IfOk, OnOk};
ghost use Rattle.std.specs.Option.{option_copied};
ghost use Rattle.wy_core.specs.CoreSeen.{seen_expr, seen_exprs};
ghost use Rattle.wy_names_lower.specs.Uses as spec;

use std::alloc::{AllocError, Global};
use wy_core::Expr;
use wy_core_build::{call, joined, null};
use wy_data::Name;
use wy_items::{Items, at};
use wy_names_scope::Entry;

/// What a use of a property is made of.
#[derive(Drop)]
pub struct Template {
    /// Which parameters the clauses use.
    pub used: Items<bool>,
    /// The clauses. The parameters are the variables from 0 on.
    pub clauses: Items<Expr>,
    /// The names of the variables behind the parameters.
    pub names: Items<Name>,
}

/// Whether the callee uses the argument with this number. Constant time.
pub fn is_used(templates: &[Template], callee: Option<Entry>, number: usize) -> bool
    ensures value { result ≡ spec.is_used (spec.seen_templates templates.now) callee number }
{
    match callee {
        None => true,
        Some(Entry::Type(_, _)) => true,
        Some(Entry::Routine(_)) => true,
        Some(Entry::Property(index, _)) => used_by(template_at(templates, index), number),
        Some(Entry::Variable(_)) => true,
    }
}

/// The template of the declaration with this index.
#[tactic(auto, using(crate::proofs::UseLemmas::template_found))]
fn template_at(templates: &[Template], index: u32) -> Option<&Template>
    ensures value { spec.seen_maybe (option_copied result) ≡ slice_get (spec.seen_templates templates.now) index }
{
    at(templates, index as usize)
}

fn used_by(template: Option<&Template>, number: usize) -> bool
    ensures value { result ≡ spec.used_by (spec.seen_maybe (option_copied template.entry)) number }
{
    match template {
        None => false,
        Some(template) => or_not(template.used.get(number)),
    }
}

fn or_not(used: Option<&bool>) -> bool
    ensures value { result ≡ spec.or_not (option_copied used.entry) }
{
    match used {
        None => false,
        Some(used) => *used,
    }
}

/// A call with these arguments, or the expansion of a property. Linear in what is made.
pub fn called(
    alloc: Global,
    templates: &[Template],
    variables: &mut Items<Name>,
    place: u32,
    callee: Option<Entry>,
    args: Items<Expr>,
) -> Result<Expr, AllocError>
    ensures variables { OnOk result (variables.new ≡ (spec.called (spec.seen_templates templates.now) place callee variables.old (seen_exprs args)).0) }
    ensures value { IfOk result (λ e. seen_expr e ≡ (spec.called (spec.seen_templates templates.now) place callee variables.old (seen_exprs args)).1) }
{
    match callee {
        None => Ok(call(place, 0, args)),
        Some(Entry::Type(_, _)) => Ok(call(place, 0, args)),
        Some(Entry::Routine(signature)) => Ok(call(place, signature.number, args)),
        Some(Entry::Property(index, _)) => expansion(
            alloc,
            template_at(templates, index),
            variables,
            place,
            args.as_slice(),
        ),
        Some(Entry::Variable(_)) => Ok(call(place, 0, args)),
    }
}

/// A property used at the place with these arguments: its clauses, joined by `&&` from the left, its
/// other variables put behind those of the declaration.
fn expansion(
    alloc: Global,
    template: Option<&Template>,
    variables: &mut Items<Name>,
    place: u32,
    args: &[Expr],
) -> Result<Expr, AllocError>
    ensures variables { OnOk result (variables.new ≡ (spec.expansion place (spec.seen_maybe (option_copied template.entry)) variables.old (seen_exprs args.now)).0) }
    ensures value { IfOk result (λ e. seen_expr e ≡ (spec.expansion place (spec.seen_maybe (option_copied template.entry)) variables.old (seen_exprs args.now)).1) }
{
    match template {
        None => Ok(null(place)),
        Some(template) => {
            let base = variables.len();
            if base >= 4294967295 {
                return Err(AllocError);
            }
            put_names(alloc, variables, template.names.as_slice())?;
            joined(alloc, template.clauses.as_slice(), place, args, base as u32)
        }
    }
}

/// Puts the names behind the others.
fn put_names(alloc: Global, variables: &mut Items<Name>, names: &[Name]) -> Result<(), AllocError>
    ensures variables { OnOk result (variables.new ≡ variables.old ++ names.now) }
{
    for name in names {
        variables.push(name.copy(alloc)?)?;
    }
    Ok(())
}
