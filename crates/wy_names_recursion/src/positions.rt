//! The test of an order of properties.
ghost use Rattle.std.specs.Prelude.{◌≡◌, ◌<◌, ℕ, true, map, length, IsTrue, slice_get, ◌&&◌, ◌==◌};
ghost use Rattle.std.specs.Option.{option_copied, option_map};
ghost use Rattle.wy_ast.specs.SurfaceSeen.{seen_decl};
ghost use Rattle.wy_names_recursion.specs.Endings as spec;

use crate::edges::{Edge, Way};
use crate::search::Candidate;
use wy_ast::Decl;
use wy_items::at;

/// Whether a declaration is used by a clause.
fn is_use_way(way: Way) -> bool
    ensures value { result ≡ spec.is_use_way way }
{
    match way {
        Way::Bare => false,
        Way::Guarded => false,
        Way::Mention => false,
        Way::Use => true,
    }
}

/// Whether it is the use of a property.
pub fn is_use(decls: &[Decl], edge: Edge) -> bool
    ensures value { result ≡ spec.is_use (map seen_decl decls.now) edge }
{
    is_use_way(edge.way) && is_property_at(decls, edge.to as usize)
}

/// Whether it is a property.
pub fn is_property(decl: Option<&Decl>) -> bool
    ensures value { result ≡ spec.is_property (option_map seen_decl (option_copied decl.entry)) }
{
    match decl {
        None => false,
        Some(Decl::Alias(_)) => false,
        Some(Decl::Function(_)) => false,
        Some(Decl::Method(_)) => false,
        Some(Decl::Property(_)) => true,
    }
}

/// Whether the declaration with this index is a property.
#[tactic(auto, using(crate::proofs::MarkLemmas::decl_found))]
fn is_property_at(decls: &[Decl], index: usize) -> bool
    ensures value { result ≡ spec.is_property (slice_get (map seen_decl decls.now) index) }
{
    is_property(at(decls, index))
}

fn number_at(list: &[usize], index: usize) -> usize
    ensures value { result ≡ spec.number_at list.now index }
{
    match list.get(index) {
        None => 0,
        Some(number) => *number,
    }
}

fn edge_at(edges: &[Edge], index: usize) -> Option<Edge>
    ensures value { result ≡ slice_get edges.now index }
{
    edges.get(index).copied()
}

fn is_at(place: Option<&usize>, index: usize) -> bool
    ensures value { result ≡ spec.is_at (option_copied place.entry) index }
{
    match place {
        None => false,
        Some(other) => *other == index,
    }
}

/// Whether the declaration stands where its position says.
fn stands(order: &[usize], positions: &[usize], index: usize) -> bool
    ensures value { result ≡ spec.stands order.now positions.now index }
{
    let place = number_at(positions, index).saturating_sub(1);
    is_at(order.get(place), index)
}

/// Whether the use, where there is one, is a use by this property of one that has no position.
fn opens(decls: &[Decl], positions: &[usize], index: usize, edge: Option<Edge>) -> bool
    ensures value { result ≡ spec.opens (map seen_decl decls.now) positions.now index edge }
{
    match edge {
        None => false,
        Some(edge) => {
            is_use(decls, edge)
                && (edge.from as usize == index && number_at(positions, edge.to as usize) == 0)
        }
    }
}

/// Whether the declaration stands where its position says; or it has none and is no property, or uses
/// another one that has none.
fn is_settled(decls: &[Decl], edges: &[Edge], candidate: &Candidate, index: usize) -> bool
    ensures value { result ≡ spec.is_settled (map seen_decl decls.now) edges.now candidate.now.order candidate.now.positions candidate.now.witnesses index }
{
    let positions = candidate.positions.as_slice();
    if number_at(positions, index) == 0 {
        let edge = edge_at(edges, number_at(candidate.witnesses.as_slice(), index));
        !is_property_at(decls, index) || opens(decls, positions, index, edge)
    } else {
        stands(candidate.order.as_slice(), positions, index)
    }
}

fn each_settled(decls: &[Decl], edges: &[Edge], candidate: &Candidate) -> bool
    ensures value { IsTrue result → (p : ℕ) → p < length decls.now → spec.is_settled (map seen_decl decls.now) edges.now candidate.now.order candidate.now.positions candidate.now.witnesses p ≡ true }
{
    for index in 0..decls.len() {
        if !is_settled(decls, edges, candidate, index) {
            return false;
        }
    }
    true
}

/// Whether what is used stands before what uses it.
fn falls(decls: &[Decl], order: &[usize], positions: &[usize], edge: Edge) -> bool
    ensures value { result ≡ spec.falls (map seen_decl decls.now) order.now positions.now edge }
{
    let from = number_at(positions, edge.from as usize);
    !is_use(decls, edge) || (from == 0 || is_before(order, positions, edge))
}

fn is_before(order: &[usize], positions: &[usize], edge: Edge) -> bool
    ensures value { result ≡ spec.is_before order.now positions.now edge }
{
    let from = number_at(positions, edge.from as usize);
    let to = number_at(positions, edge.to as usize);
    to != 0 && (to < from && stands(order, positions, edge.to as usize))
}

fn each_falls(decls: &[Decl], order: &[usize], positions: &[usize], edges: &[Edge]) -> bool
    ensures value { result ≡ spec.each_falls (map seen_decl decls.now) order.now positions.now edges.now }
{
    for edge in edges {
        if !falls(decls, order, positions, *edge) {
            return false;
        }
    }
    true
}

/// Whether the declaration is a property with this position.
fn is_placed(decls: &[Decl], positions: &[usize], index: usize, position: usize) -> bool
    ensures value { result ≡ (spec.is_property (slice_get (map seen_decl decls.now) index) && (spec.number_at positions.now index == position)) }
{
    is_property_at(decls, index) && number_at(positions, index) == position
}

fn each_placed(decls: &[Decl], positions: &[usize], order: &[usize]) -> bool
    ensures value { result ≡ spec.each_placed (map seen_decl decls.now) positions.now 0 order.now }
{
    for (place, index) in order.iter().enumerate() {
        if !is_placed(decls, positions, *index, place + 1) {
            return false;
        }
    }
    true
}

/// Whether it is an order of the properties whose expansion ends. Linear in declarations and uses.
pub fn holds(decls: &[Decl], edges: &[Edge], candidate: &Candidate) -> bool
    ensures settled { IsTrue result → (p : ℕ) → p < length decls.now → spec.is_settled (map seen_decl decls.now) edges.now candidate.now.order candidate.now.positions candidate.now.witnesses p ≡ true }
    ensures falling { IsTrue result → spec.each_falls (map seen_decl decls.now) candidate.now.order candidate.now.positions edges.now ≡ true }
    ensures placed { IsTrue result → spec.each_placed (map seen_decl decls.now) candidate.now.positions 0 candidate.now.order ≡ true }
{
    let order = candidate.order.as_slice();
    let positions = candidate.positions.as_slice();
    each_settled(decls, edges, candidate)
        && (each_falls(decls, order, positions, edges) && each_placed(decls, positions, order))
}
