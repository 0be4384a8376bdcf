//! Uses of one declaration in another.
ghost use Rattle.std.specs.Prelude.{◌≡◌, map, IfOk, OnOk};
ghost use Rattle.wy_ast.specs.SurfaceSeen.{seen_decl};
ghost use Rattle.wy_names_recursion.specs.Uses as uses;
ghost use Rattle.wy_names_recursion.specs.DeclUses as spec;

use crate::expressions::in_exprs;
use crate::types::in_ty;
use std::alloc::{AllocError, Global};
use wy_ast::Decl;
use wy_items::Items;
use wy_names_scope::Table;

/// How a declaration is used.
#[derive(Clone, Copy, Debug, PartialEq, Eq)]
pub enum Way {
    /// A type in a definition, outside of records and arrays.
    Bare,
    /// A type in a definition, inside a record or an array.
    Guarded,
    /// A type in a test of a clause.
    Mention,
    /// A property in a clause.
    Use,
}

/// A use of one declaration in another, by their indices, at a place.
#[derive(Clone, Copy, Debug, PartialEq, Eq)]
pub struct Edge {
    pub from: u32,
    pub to: u32,
    pub at: u32,
    pub way: Way,
}

/// The uses of types and properties in types and properties, in the order of the source: those of a type
/// in its definition and its clauses, those of a property in its clauses. The scope holds the names of
/// all declarations. Linear in the size of these. 2^32 declarations or more are answered as want of memory.
pub fn edges_of(alloc: Global, scope: &Table, decls: &[Decl]) -> Result<Items<Edge>, AllocError>
    ensures value { IfOk result (λ edges. edges ≡ spec.edges_of scope.now (map seen_decl decls.now)) }
{
    let mut edges = Items::new(alloc);
    let mut from = 0u32;
    for decl in decls {
        in_decl(scope, &mut edges, from, decl)?;
        if from == u32::MAX {
            return Err(AllocError);
        }
        from += 1;
    }
    Ok(edges)
}

fn in_decl(scope: &Table, edges: &mut Items<Edge>, from: u32, decl: &Decl) -> Result<(), AllocError>
    ensures value { OnOk result (edges.new ≡ spec.in_decl scope.now from (seen_decl decl.now) edges.old) }
{
    match decl {
        Decl::Alias(alias) => {
            in_ty(scope, edges, from, Way::Bare, &alias.ty)?;
            in_exprs(scope, edges, from, alias.clauses.as_slice())
        }
        Decl::Function(_) => Ok(()),
        Decl::Method(_) => Ok(()),
        Decl::Property(property) => in_exprs(scope, edges, from, property.clauses.as_slice()),
    }
}

/// Puts a use behind the others.
pub fn put(edges: &mut Items<Edge>, from: u32, to: u32, at: u32, way: Way) -> Result<(), AllocError>
    ensures value { OnOk result (edges.new ≡ uses.with_edge edges.old from to at way) }
{
    edges.push(Edge { from, to, at, way })
}
