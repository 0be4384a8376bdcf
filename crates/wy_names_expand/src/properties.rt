//! What properties come to, summed up.
ghost use Rattle.std.specs.Prelude.{◌≡◌, true, map, slice_get, IfOk, OnOk};
ghost use Rattle.wy_ast.specs.SurfaceSeen.{seen_decl, seen_exprs, seen_param};
ghost use Rattle.wy_names_expand.specs.Sizes.{known};
ghost use Rattle.wy_names_expand.specs.Summaries as spec;

use crate::expressions::in_expr;
use crate::measure::{Expansion, Measure, Summary, Use, counted, deeper, inside, nothing, root};
use crate::numbers::many;
use std::alloc::{AllocError, Global};
use wy_ast::{Decl, Expr, Param, Property};
use wy_items::{Items, at};
use wy_names_scope::{Entry, Table};

/// What each declaration expands to, by its index. The order has the indices of the properties whose
/// expansions end, each behind those that it uses; the others have none. The scope holds the names of
/// all declarations. Linear in the size of the properties.
pub fn summaries(
    alloc: Global,
    scope: &Table,
    decls: &[Decl],
    order: &[usize],
) -> Result<Items<Expansion>, AllocError>
    ensures value { IfOk result (λ x. x ≡ spec.summaries scope.now (map seen_decl decls.now) order.now) }
{
    let mut expansions = without_end(alloc, decls)?;
    for index in order {
        with_index(alloc, scope, decls, &mut expansions, *index)?;
    }
    Ok(expansions)
}

/// With the summary of the declaration with this index, where it is a property.
#[tactic(auto, using(crate::proofs::SeenLemmas::seen_at, crate::proofs::SeenLemmas::seen_none))]
fn with_index(
    alloc: Global,
    scope: &Table,
    decls: &[Decl],
    expansions: &mut Items<Expansion>,
    index: usize,
) -> Result<(), AllocError>
    ensures value { OnOk result (expansions.new ≡ spec.with_option scope.now expansions.old index (slice_get (map seen_decl decls.now) index)) }
{
    match at(decls, index) {
        None => Ok(()),
        Some(decl) => with_decl(alloc, scope, expansions, index, decl),
    }
}

fn with_decl(
    alloc: Global,
    scope: &Table,
    expansions: &mut Items<Expansion>,
    index: usize,
    decl: &Decl,
) -> Result<(), AllocError>
    ensures value { OnOk result (expansions.new ≡ spec.with_decl scope.now expansions.old index (seen_decl decl.now)) }
{
    match decl {
        Decl::Alias(_) => Ok(()),
        Decl::Function(_) => Ok(()),
        Decl::Method(_) => Ok(()),
        Decl::Property(property) => {
            let summary = summary(alloc, scope, expansions.as_slice(), property)?;
            put(expansions, index, Expansion::Finite(summary));
            Ok(())
        }
    }
}

/// Puts an expansion at the index, where there is one.
fn put(expansions: &mut Items<Expansion>, index: usize, expansion: Expansion)
    ensures value { expansions.new ≡ spec.set_at expansions.old index expansion }
{
    if index < expansions.len() {
        expansions.set(index, expansion);
    }
}

fn without_end(alloc: Global, decls: &[Decl]) -> Result<Items<Expansion>, AllocError>
    ensures value { IfOk result (λ x. x ≡ spec.without_end (map seen_decl decls.now)) }
{
    let mut expansions = Items::new(alloc);
    for _decl in decls {
        expansions.push(Expansion::Endless)?;
    }
    Ok(expansions)
}

/// What the property's clauses come to, joined by `&&`, where what they use is summed up.
fn summary(
    alloc: Global,
    scope: &Table,
    expansions: &[Expansion],
    property: &Property,
) -> Result<Summary, AllocError>
    ensures value { IfOk result (λ s. s ≡ spec.summary scope.now expansions.now (map seen_param property.now.params) (seen_exprs property.now.clauses)) }
{
    let params = params_of(alloc, property.params.as_slice())?;
    let measure = nothing(None, no_uses(alloc, property.params.as_slice())?);
    let clauses = property.clauses.as_slice();
    let measure = in_joined(scope, &params, expansions, measure, clauses);
    Ok(Summary {
        nodes: measure.fixed,
        height: measure.height,
        uses: measure.uses,
    })
}

/// The parameters by number.
pub fn params_of(alloc: Global, params: &[Param]) -> Result<Table, AllocError>
    ensures value { IfOk result (λ table. table ≡ spec.params_of (map seen_param params.now)) }
{
    let mut table = Table::new(alloc);
    let mut number = 0u32;
    for param in params {
        table.put(alloc, &param.name, Entry::Variable(number))?;
        if number == u32::MAX {
            return Err(AllocError);
        }
        number += 1;
    }
    Ok(table)
}

fn no_uses(alloc: Global, params: &[Param]) -> Result<Items<Use>, AllocError>
    ensures value { IfOk result (λ uses. uses ≡ spec.no_uses (map seen_param params.now)) }
{
    let mut uses = Items::new(alloc);
    for _param in params {
        uses.push(Use {
            times: 0,
            depth: 0,
            quantified: false,
        })?;
    }
    Ok(uses)
}

/// The clauses, joined by `&&` from the left.
fn in_joined(
    scope: &Table,
    params: &Table,
    expansions: &[Expansion],
    measure: Measure,
    clauses: &[Expr],
) -> Measure
    ensures value { result ≡ spec.in_joined (known scope.now params.now expansions.now) true (seen_exprs clauses.now) measure }
{
    let mut measure = measure;
    let mut is_first = true;
    let mut left = clauses.len();
    for clause in clauses {
        left = left.saturating_sub(1);
        let spot = deeper(root(false), many(left));
        if is_first {
            measure = in_expr(scope, params, expansions, spot, measure, clause);
        } else {
            measure = counted(measure, spot);
            measure = in_expr(scope, params, expansions, inside(spot), measure, clause);
        }
        is_first = false;
    }
    measure
}
