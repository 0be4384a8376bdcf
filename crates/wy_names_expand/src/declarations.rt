//! The faults that expansions bring to declarations.
ghost use Rattle.std.specs.Prelude.{◌≡◌, [], map, IfOk};
ghost use Rattle.wy_ast.specs.SurfaceSeen.{seen_decl, seen_exprs, seen_block, seen_param};
ghost use Rattle.wy_names_expand.specs.Sizes.{known};
ghost use Rattle.wy_names_expand.specs.Faults as faults;

use crate::measure::Expansion;
use crate::properties::params_of;
use crate::statements::{each_whole, in_block};
use std::alloc::{AllocError, Global};
use wy_ast::{Decl, Function, Method, Property};
use wy_names_scope::{Fault, Table};

/// The fault to be given, of those found before and those that expansions bring: `PropertyLoop` at the
/// use of a property whose expansion has no end, `CallInContract` at one whose clauses put a call that
/// stands in an argument into a quantifier, and `TooLarge` at an expression that has more than 4,096
/// nodes or is higher than 400 when it is expanded and lowered, at its root or at the statement whose
/// lowering makes it. The scope holds the names of all declarations, `expansions` what they expand to.
/// Linear in the size of the declarations as they are written.
pub fn in_decls(
    alloc: Global,
    scope: &Table,
    expansions: &[Expansion],
    found: Option<Fault>,
    decls: &[Decl],
) -> Result<Option<Fault>, AllocError>
    ensures value { IfOk result (λ f. f ≡ faults.in_decls scope.now expansions.now (map seen_decl decls.now) found) }
{
    let none = Table::new(alloc);
    let mut found = found;
    for decl in decls {
        found = in_decl(alloc, scope, &none, expansions, found, decl)?;
    }
    Ok(found)
}

fn in_decl(
    alloc: Global,
    scope: &Table,
    none: &Table,
    expansions: &[Expansion],
    found: Option<Fault>,
    decl: &Decl,
) -> Result<Option<Fault>, AllocError>
    requires { none.now ≡ [] }
    ensures value { IfOk result (λ f. f ≡ faults.in_decl scope.now expansions.now (seen_decl decl.now) found) }
{
    match decl {
        Decl::Alias(alias) => {
            let clauses = alias.clauses.as_slice();
            Ok(each_whole(alloc, scope, none, expansions, false, found, clauses))
        }
        Decl::Function(function) => Ok(in_function(
            alloc, scope, none, expansions, found, function,
        )),
        Decl::Method(method) => Ok(in_method(alloc, scope, none, expansions, found, method)),
        Decl::Property(property) => in_property(alloc, scope, expansions, found, property),
    }
}

fn in_function(
    alloc: Global,
    scope: &Table,
    none: &Table,
    expansions: &[Expansion],
    found: Option<Fault>,
    function: &Function,
) -> Option<Fault>
    ensures value { result ≡ faults.in_routine (known scope.now none.now expansions.now) (seen_exprs function.now.preconditions) (seen_exprs function.now.postconditions) (seen_block function.now.body) found }
{
    let before = function.preconditions.as_slice();
    let found = each_whole(alloc, scope, none, expansions, false, found, before);
    let after = function.postconditions.as_slice();
    let found = each_whole(alloc, scope, none, expansions, false, found, after);
    in_block(
        alloc,
        scope,
        none,
        expansions,
        found,
        function.body.as_slice(),
    )
}

fn in_method(
    alloc: Global,
    scope: &Table,
    none: &Table,
    expansions: &[Expansion],
    found: Option<Fault>,
    method: &Method,
) -> Option<Fault>
    ensures value { result ≡ faults.in_routine (known scope.now none.now expansions.now) (seen_exprs method.now.preconditions) (seen_exprs method.now.postconditions) (seen_block method.now.body) found }
{
    let before = method.preconditions.as_slice();
    let found = each_whole(alloc, scope, none, expansions, false, found, before);
    let after = method.postconditions.as_slice();
    let found = each_whole(alloc, scope, none, expansions, false, found, after);
    in_block(
        alloc,
        scope,
        none,
        expansions,
        found,
        method.body.as_slice(),
    )
}

fn in_property(
    alloc: Global,
    scope: &Table,
    expansions: &[Expansion],
    found: Option<Fault>,
    property: &Property,
) -> Result<Option<Fault>, AllocError>
    ensures value { IfOk result (λ f. f ≡ faults.in_property scope.now expansions.now (map seen_param property.now.params) (seen_exprs property.now.clauses) found) }
{
    let params = params_of(alloc, property.params.as_slice())?;
    let clauses = property.clauses.as_slice();
    Ok(each_whole(alloc, scope, &params, expansions, false, found, clauses))
}
