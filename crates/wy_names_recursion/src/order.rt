//! Properties, each behind those that it uses.
ghost use Rattle.std.specs.Prelude.{◌≡◌, map, IfOk};
ghost use Rattle.wy_ast.specs.SurfaceSeen.{seen_decl};
ghost use Rattle.wy_names_recursion.specs.Endings.{IsOrder};

use crate::edges::Edge;
use crate::positions::holds;
use crate::rounds::by_rounds;
use crate::search::{Candidate, proposed};
use std::alloc::{AllocError, Global};
use wy_ast::Decl;
use wy_items::Items;

/// The indices of exactly the properties whose expansion ends, each behind those that it uses. Linear in
/// declarations and uses. Where what the search found were no such order, which no test has seen, it is
/// found by rounds.
pub fn order_of(alloc: Global, decls: &[Decl], edges: &[Edge]) -> Result<Items<usize>, AllocError>
    ensures value { IfOk result (λ order. IsOrder (map seen_decl decls.now) edges.now order) }
{
    let found = proposed(alloc, decls, edges)?;
    if !holds(decls, edges, &found) {
        return by_rounds(alloc, decls, edges);
    }
    let Candidate { order, .. } = found;
    Ok(order)
}
