//! The literals whose forms an elimination needs.
ghost use Rattle.std.specs.Prelude.{◌<◌, length};
ghost use Rattle.wy_search_bounds.specs.wy_cong.Seen.{IsPresent};
ghost use Rattle.wy_facts.specs.Seen.{Stays};
ghost use Rattle.wy_check_nodes.specs.Seen.{IsBranch};

use crate::action::Named;
use crate::needed::place_of;
use crate::sources::placed_form;
use std::alloc::Global;
use std::collections::BTreeSet;
use wy_check_nodes::{Branch, nth_literal};
use wy_items::at;
use wy_search_bounds::{Present, Taking, takings};
use wy_term::{NoMemory, Terms};

/// A bound `lower <= upper`, so many times.
#[derive(Clone, Copy, Debug, PartialEq, Eq)]
pub struct Order {
    pub times: u128,
    pub lower: u32,
    pub upper: u32,
}

/// A literal of which elimination needs the form, by the place of that form, and the bounds that replace its variables.
#[derive(Drop)]
pub struct Used {
    pub place: u32,
    pub literal: Named,
    pub orders: Vec<Order>,
}

// The bound that takes a variable away, by terms.
fn order_of(present: &Present, taking: &Taking) -> Option<Order> {
    match taking.form.parts.as_slice() {
        [v, w] => {
            let lower = at(&present.numbers, v.1 as usize)?;
            let upper = at(&present.numbers, w.1 as usize)?;
            Some(Order {
                times: taking.times,
                lower: *lower,
                upper: *upper,
            })
        }
        _ => None,
    }
}

// The bounds that take variables away.
fn orders_of(alloc: Global, present: &Present, taken: &[Taking]) -> Result<Vec<Order>, NoMemory> {
    let mut orders = Vec::new(alloc);
    for taking in taken {
        match order_of(present, taking) {
            Some(order) => orders.push(order)?,
            None => return Err(NoMemory),
        }
    }
    Ok(orders)
}

// The bounds that replace the variables of the literal with a place.
fn orders_at(
    terms: &mut Terms,
    branch: &Branch,
    present: &Present,
    labels: &[u32],
    i: usize,
) -> Result<Vec<Order>, NoMemory>
    requires branch { IsBranch terms.old branch.now }
    requires present { IsPresent terms.old present.now }
    ensures { Stays terms.old terms.new }
{
    match placed_form(terms, branch, present, i)? {
        Some(placed) => {
            let taken = takings(terms.allocator(), labels, &placed.parts)?;
            orders_of(terms.allocator(), present, &taken)
        }
        None => Ok(Vec::new(terms.allocator())),
    }
}

// The literal with a place, and the bounds that replace its variables.
fn used_literal(
    terms: &mut Terms,
    branch: &Branch,
    present: &Present,
    labels: &[u32],
    place: u32,
    i: usize,
) -> Result<Used, NoMemory>
    requires branch { IsBranch terms.old branch.now }
    requires present { IsPresent terms.old present.now }
    requires literal { i < length branch.now.literals.keys }
    ensures { Stays terms.old terms.new }
{
    let (atom, holds) = nth_literal(terms, branch, i);
    let orders = orders_at(terms, branch, present, labels, i)?;
    Ok(Used {
        place,
        literal: Named::Literal(atom, holds),
        orders,
    })
}

// One literal more, if its form is needed.
fn push_used(
    terms: &mut Terms,
    branch: &Branch,
    present: &Present,
    labels: &[u32],
    marked: &BTreeSet<u32>,
    k: usize,
    i: usize,
    all: &mut Vec<Used>,
) -> Result<(), NoMemory>
    requires branch { IsBranch terms.old branch.now }
    requires present { IsPresent terms.old present.now }
    ensures { Stays terms.old terms.new }
{
    let place = place_of(0, k)?;
    if !marked.contains(&place) || i >= branch.literals.len() {
        return Ok(());
    }
    let used = used_literal(terms, branch, present, labels, place, i)?;
    all.push(used)?;
    Ok(())
}

/// The literals whose forms are needed. Older numbers name what they named.
pub fn used_literals(
    terms: &mut Terms,
    branch: &Branch,
    present: &Present,
    labels: &[u32],
    marked: &BTreeSet<u32>,
    literals: &[usize],
) -> Result<Vec<Used>, NoMemory>
    requires branch { IsBranch terms.old branch.now }
    requires present { IsPresent terms.old present.now }
    ensures { Stays terms.old terms.new }
{
    let mut all = Vec::new(terms.allocator());
    for (k, i) in literals.iter().enumerate() {
        push_used(terms, branch, present, labels, marked, k, *i, &mut all)?;
    }
    Ok(all)
}

/// The literal with a place, if there is one, and the bounds that replace its variables. Older numbers name what they named.
pub fn one_used(
    terms: &mut Terms,
    branch: &Branch,
    present: &Present,
    labels: &[u32],
    i: usize,
) -> Result<Vec<Used>, NoMemory>
    requires branch { IsBranch terms.old branch.now }
    requires present { IsPresent terms.old present.now }
    ensures { Stays terms.old terms.new }
{
    let mut all = Vec::new(terms.allocator());
    if i >= branch.literals.len() {
        return Ok(all);
    }
    let used = used_literal(terms, branch, present, labels, 0, i)?;
    all.push(used)?;
    Ok(all)
}
