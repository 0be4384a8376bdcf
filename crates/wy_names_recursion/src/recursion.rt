//! Types that recur where they may not.
ghost use Rattle.std.specs.Prelude.{◌≡◌, map, IfOk};
ghost use Rattle.std.specs.Option.{option_copied, option_map};
ghost use Rattle.wy_ast.specs.SurfaceSeen.{seen_decl};
ghost use Rattle.wy_names_recursion.specs.Recursion as spec;

use crate::arrows::arrows_of;
use crate::edges::{Edge, Way};
use std::alloc::{AllocError, Global};
use wy_ast::Decl;
use wy_graph::cycles::components;
use wy_items::at;
use wy_names_scope::{Cause, Fault, noted_where};

/// The fault to be given, of the one found before and those of types that recur: `BareRecursion` at a bare
/// use on a cycle of bare uses, mentions and properties, and at a mention, or the use of a property, in a
/// type's clause on any cycle. Linear in declarations and uses, as far as the labels of cycles are.
#[tactic(auto, using(crate::proofs::MarkLemmas::exactly_noted))]
pub fn noted_recursion(
    alloc: Global,
    decls: &[Decl],
    edges: &[Edge],
    found: Option<Fault>,
) -> Result<Option<Fault>, AllocError>
    ensures value { IfOk result (λ f. spec.NotesRecursion (map seen_decl decls.now) edges.now found f) }
{
    let arrows = arrows_of(alloc, false, edges)?;
    let bare = components(alloc, decls.len(), arrows.as_slice())?;
    let arrows = arrows_of(alloc, true, edges)?;
    let all = components(alloc, decls.len(), arrows.as_slice())?;
    let (bare, all) = (bare.labels.as_slice(), all.labels.as_slice());
    Ok(noted_by(bare, all, decls, edges, found))
}

/// The faults by labels of cycles: those of bare uses, mentions and properties, and those of all uses.
fn noted_by(
    bare: &[usize],
    all: &[usize],
    decls: &[Decl],
    edges: &[Edge],
    found: Option<Fault>,
) -> Option<Fault>
    ensures value { result ≡ spec.noted_by bare.now all.now (map seen_decl decls.now) edges.now found }
{
    let mut found = found;
    for edge in edges {
        let recurs = recurs_by(bare, all, decls, *edge);
        found = noted_where(recurs, found, edge.at, Cause::BareRecursion);
    }
    found
}

fn recurs_by(bare: &[usize], all: &[usize], decls: &[Decl], edge: Edge) -> bool
    ensures value { result ≡ spec.recurs_by bare.now all.now (map seen_decl decls.now) edge }
{
    match edge.way {
        Way::Bare => has_one_label(bare, edge),
        Way::Guarded => false,
        Way::Mention => is_type(at(decls, edge.from as usize)) && has_one_label(all, edge),
        Way::Use => is_type(at(decls, edge.from as usize)) && has_one_label(all, edge),
    }
}

/// Whether both ends have one label.
fn has_one_label(labels: &[usize], edge: Edge) -> bool
    ensures value { result ≡ spec.has_one_label labels.now edge }
{
    label(labels, edge.from) == label(labels, edge.to)
}

fn label(labels: &[usize], node: u32) -> usize
    ensures value { result ≡ spec.label labels.now node }
{
    match labels.get(node as usize) {
        None => 0,
        Some(label) => *label,
    }
}

fn is_type(decl: Option<&Decl>) -> bool
    ensures value { result ≡ spec.is_type (option_map seen_decl (option_copied decl.entry)) }
{
    match decl {
        None => false,
        Some(Decl::Alias(_)) => true,
        Some(Decl::Function(_)) => false,
        Some(Decl::Method(_)) => false,
        Some(Decl::Property(_)) => false,
    }
}
