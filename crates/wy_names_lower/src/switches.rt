//! What a `switch` has besides its blocks.
ghost use Rattle.std.specs.Prelude.{◌≡◌, IfOk, OnOk};
ghost use Rattle.wy_ast.specs.SurfaceSeen as surface_seen;
ghost use Rattle.wy_core.specs.CoreSeen.{seen_expr};
ghost use Rattle.wy_names_lower.specs.StmtsLowered as lowered;
ghost use Rattle.wy_names_lower.specs.Uses.{seen_templates};

use crate::choices::is_one_of;
use crate::expressions::{boxed_expr, in_exprs};
use crate::numbers::made;
use crate::uses::Template;
use std::alloc::{AllocError, Global};
use wy_ast as surface;
use wy_core::Expr;
use wy_data::Name;
use wy_items::{Boxed, Items};
use wy_names_scope::Table;

/// What a `switch` has besides its cases: the variable of its value, and the value.
#[derive(Drop)]
pub struct SwitchHead {
    pub variable: u32,
    pub value: Boxed<Expr>,
}

/// The value of a `switch`, and a new variable for it.
pub fn in_switch(
    alloc: Global,
    scope: &mut Table,
    templates: &[Template],
    variables: &mut Items<Name>,
    value: &surface::Expr,
) -> Result<SwitchHead, AllocError>
    ensures scope { OnOk result (scope.new ≡ scope.old) }
    ensures variables { OnOk result (variables.new ≡ lowered.switch_variables (seen_templates templates.now) scope.old variables.old (surface_seen.seen_expr value.now)) }
    ensures number { IfOk result (λ head. head.variable ≡ lowered.switch_number (seen_templates templates.now) scope.old variables.old (surface_seen.seen_expr value.now)) }
    ensures value { IfOk result (λ head. seen_expr head.value ≡ (lowered.switch_value (seen_templates templates.now) scope.old variables.old (surface_seen.seen_expr value.now)).1) }
{
    let value = boxed_expr(alloc, scope, templates, variables, value)?;
    let variable = made(alloc, variables, "t")?;
    Ok(SwitchHead { variable, value })
}

/// The test of a case.
pub fn in_labels(
    alloc: Global,
    scope: &mut Table,
    templates: &[Template],
    variables: &mut Items<Name>,
    at: u32,
    variable: u32,
    labels: &[surface::Expr],
) -> Result<Boxed<Expr>, AllocError>
    ensures scope { OnOk result (scope.new ≡ scope.old) }
    ensures variables { OnOk result (variables.new ≡ (lowered.in_clauses (seen_templates templates.now) scope.old variables.old (surface_seen.seen_exprs labels.now)).0) }
    ensures value { IfOk result (λ e. seen_expr e ≡ lowered.is_one_of at variable (lowered.in_clauses (seen_templates templates.now) scope.old variables.old (surface_seen.seen_exprs labels.now)).1) }
{
    let labels = in_exprs(alloc, scope, templates, variables, labels)?;
    is_one_of(alloc, at, variable, labels.as_slice())
}
