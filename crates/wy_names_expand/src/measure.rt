//! What is counted of an expression, and where.
ghost use Rattle.std.specs.Prelude.{◌≡◌, []};
ghost use Rattle.wy_names_expand.specs.Measures as measures;

use crate::numbers::{plus, times};
use std::alloc::Global;
use wy_items::Items;
use wy_names_scope::{Cause, Fault, noted, noted_where};

/// How a property's clauses use a parameter.
#[derive(Clone, Copy)]
pub struct Use {
    /// How often it stands in them.
    pub times: u32,
    /// How deep at most. The root has depth 1.
    pub depth: u32,
    /// Whether it stands in a quantifier.
    pub quantified: bool,
}

/// What a property's clauses come to, joined and expanded.
#[derive(Drop)]
pub struct Summary {
    /// How many nodes they have, without the parameters.
    pub nodes: u32,
    /// How high they are, a parameter being a leaf.
    pub height: u32,
    /// How they use each parameter.
    pub uses: Items<Use>,
}

/// What a declaration expands to. One that is no property expands to nothing.
#[derive(Drop)]
pub enum Expansion {
    /// There is no expansion, or it has no end.
    Endless,
    Finite(Summary),
}

/// What is counted so far.
#[derive(Drop)]
pub struct Measure {
    /// The nodes, without parameters.
    pub fixed: u32,
    /// The nodes, a parameter being one.
    pub nodes: u32,
    /// The greatest depth of a node.
    pub height: u32,
    /// The fault to be given, of those found so far.
    pub found: Option<Fault>,
    /// How each parameter is used.
    pub uses: Items<Use>,
}

/// Where a node stands.
#[derive(Clone, Copy)]
pub struct Spot {
    /// How often its copies stand in the expansion.
    pub times: u32,
    /// The greatest depth of a copy.
    pub depth: u32,
    /// Whether it stands in a quantifier.
    pub quantified: bool,
    /// Whether it stands in no contract and in no quantifier as it is written.
    pub is_code: bool,
    /// The first use of a property whose clauses put it into a quantifier.
    pub wrapped: Option<u32>,
}

/// Nothing counted, with the fault found before.
pub fn nothing(found: Option<Fault>, uses: Items<Use>) -> Measure
    ensures value { result ≡ measures.nothing found uses }
{
    Measure {
        fixed: 0,
        nodes: 0,
        height: 0,
        found,
        uses,
    }
}

/// The root of an expression.
pub fn root(is_code: bool) -> Spot
    ensures value { result ≡ measures.root is_code }
{
    Spot {
        times: 1,
        depth: 1,
        quantified: false,
        is_code,
        wrapped: None,
    }
}

/// So much deeper.
pub fn deeper(spot: Spot, by: u32) -> Spot
    ensures value { result ≡ measures.deeper spot by }
{
    Spot {
        times: spot.times,
        depth: plus(spot.depth, by),
        quantified: spot.quantified,
        is_code: spot.is_code,
        wrapped: spot.wrapped,
    }
}

/// A child of the node.
pub fn inside(spot: Spot) -> Spot
    ensures value { result ≡ measures.inside spot }
{
    deeper(spot, 1)
}

/// Within a quantifier that is written there.
pub fn quantified(spot: Spot) -> Spot
    ensures value { result ≡ measures.quantified spot }
{
    Spot {
        times: spot.times,
        depth: spot.depth,
        quantified: true,
        is_code: false,
        wrapped: spot.wrapped,
    }
}

/// An argument that no clause uses.
pub fn dropped(spot: Spot) -> Spot
    ensures value { result ≡ measures.dropped spot }
{
    Spot {
        times: 0,
        depth: spot.depth,
        quantified: spot.quantified,
        is_code: spot.is_code,
        wrapped: spot.wrapped,
    }
}

/// An argument of the property used at the place, whose parameter is used so.
pub fn argument(spot: Spot, at: u32, parameter: Use) -> Spot
    ensures value { result ≡ measures.argument spot at parameter }
{
    let wraps = spot.is_code && parameter.quantified;
    Spot {
        times: times(spot.times, parameter.times),
        depth: plus(spot.depth, parameter.depth.saturating_sub(1)),
        quantified: spot.quantified || parameter.quantified,
        is_code: spot.is_code,
        wrapped: if wraps {
            first_of(spot.wrapped, at)
        } else {
            spot.wrapped
        },
    }
}

/// The lesser place.
fn first_of(place: Option<u32>, at: u32) -> Option<u32>
    ensures value { result ≡ measures.first_of place at }
{
    match place {
        None => Some(at),
        Some(other) => { if at < other { Some(at) } else { Some(other) } }
    }
}

/// The height with a node there, which must be in the expansion.
fn reached(height: u32, spot: Spot) -> u32
    ensures value { result ≡ measures.reached height spot }
{
    if spot.times == 0 {
        height
    } else {
        height.max(spot.depth)
    }
}

/// With one more node.
pub fn counted(measure: Measure, spot: Spot) -> Measure
    ensures value { result ≡ measures.counted measure spot }
{
    Measure {
        fixed: plus(measure.fixed, spot.times),
        nodes: plus(measure.nodes, spot.times),
        height: reached(measure.height, spot),
        found: measure.found,
        uses: measure.uses,
    }
}

/// With this many more nodes beside each other.
pub fn counted_many(measure: Measure, spot: Spot, count: u32) -> Measure
    ensures value { result ≡ measures.counted_many measure spot count }
{
    if count == 0 {
        return measure;
    }
    Measure {
        fixed: plus(measure.fixed, times(spot.times, count)),
        nodes: plus(measure.nodes, times(spot.times, count)),
        height: reached(measure.height, spot),
        found: measure.found,
        uses: measure.uses,
    }
}

/// With a call of a function or method, which no property may put into a quantifier.
pub fn called(measure: Measure, spot: Spot) -> Measure
    ensures value { result ≡ measures.called measure spot }
{
    let measure = counted(measure, spot);
    match spot.wrapped {
        None => measure,
        Some(at) => Measure {
            fixed: measure.fixed,
            nodes: measure.nodes,
            height: measure.height,
            found: noted_where(spot.times != 0, measure.found, at, Cause::CallInContract),
            uses: measure.uses,
        },
    }
}

/// With the clauses of a property that is used there.
pub fn expanded(measure: Measure, spot: Spot, summary: &Summary) -> Measure
    ensures value { result ≡ measures.expanded measure spot summary.now }
{
    let root = deeper(spot, summary.height.saturating_sub(1));
    counted_many(measure, root, summary.nodes)
}

/// With the use of a property whose expansion has no end.
pub fn endless(measure: Measure, at: u32) -> Measure
    ensures value { result ≡ measures.endless measure at }
{
    Measure {
        fixed: measure.fixed,
        nodes: measure.nodes,
        height: measure.height,
        found: noted(measure.found, at, Cause::PropertyLoop),
        uses: measure.uses,
    }
}

/// With a parameter.
pub fn used(measure: Measure, spot: Spot, index: u32) -> Measure
    ensures value { result ≡ measures.used measure spot index }
{
    Measure {
        fixed: measure.fixed,
        nodes: plus(measure.nodes, spot.times),
        height: reached(measure.height, spot),
        found: measure.found,
        uses: with_use(measure.uses, spot, index as usize),
    }
}

fn with_use(uses: Items<Use>, spot: Spot, index: usize) -> Items<Use>
    ensures value { result ≡ measures.with_use uses spot index }
{
    let mut uses = uses;
    match uses.get(index) {
        None => uses,
        Some(before) => {
            let more = one_more(*before, spot);
            uses.set(index, more);
            uses
        }
    }
}

/// One more use of a parameter.
fn one_more(before: Use, spot: Spot) -> Use
    ensures value { result ≡ measures.one_more before spot }
{
    Use {
        times: plus(before.times, spot.times),
        depth: reached(before.depth, spot),
        quantified: before.quantified || (spot.times != 0 && spot.quantified),
    }
}

/// With `TooLarge` at the place, where there are more than 4,096 nodes or a height above 400.
pub fn limited(measure: Measure, at: u32) -> Option<Fault>
    ensures value { result ≡ measures.limited measure at }
{
    let too_large = measure.nodes > 4096 || measure.height > 400;
    noted_where(too_large, measure.found, at, Cause::TooLarge)
}
