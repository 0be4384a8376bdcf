//! The steps of an elimination that refutes a node, over the node's literals.
ghost use Rattle.wy_search_bounds.specs.wy_cong.Seen.{IsPresent};
ghost use Rattle.wy_facts.specs.Seen.{Stays};
ghost use Rattle.wy_check_nodes.specs.Seen.{IsBranch};

use crate::action::{Action, Named};
use crate::explaining::{Pair, explain};
use crate::merging::merges;
use crate::needed::{multipliers, needed, place_of};
use crate::sources::{Sources, sources_of};
use crate::used::{Order, Used, one_used, used_literals};
use std::collections::{BTreeSet, HashMap};
use wy_check_nodes::Branch;
use wy_lin_eliminate::{Elim, LinStep, Steps, eliminate};
use wy_search_bounds::Present;
use wy_term::{NoMemory, Node, Terms};

// The pairs of terms that the bounds of a literal compare.
fn push_pairs(used: &Used, pairs: &mut Vec<Pair>) -> Result<(), NoMemory> {
    for order in &used.orders {
        pairs.push((order.lower, order.upper))?;
    }
    Ok(())
}

// The chains that give the bounds by which the variables of these literals are replaced.
fn push_chains(
    terms: &Terms,
    branch: &Branch,
    present: &Present,
    labels: &[u32],
    all: &[Used],
    plan: &mut Vec<Action>,
) -> Result<(), NoMemory>
    requires branch { IsBranch terms.now branch.now }
    requires present { IsPresent terms.now present.now }
{
    let mut pairs = Vec::new(terms.allocator());
    for used in all {
        push_pairs(used, &mut pairs)?;
    }
    if pairs.is_empty() {
        return Ok(());
    }
    let merges = merges(terms, branch, present, labels)?;
    explain(terms, &merges, &pairs, plan)
}

// The literal of a bound.
fn bound(terms: &mut Terms, order: Order) -> Result<Named, NoMemory>
    ensures { Stays terms.old terms.new }
{
    if order.lower as usize >= terms.len() || order.upper as usize >= terms.len() {
        return Err(NoMemory);
    }
    let atom = terms.intern(Node::AtMost(order.lower, order.upper))?;
    Ok(Named::Literal(atom, true))
}

// The sum of a literal and the bounds that replace its variables.
fn sum_of(terms: &mut Terms, used: &Used) -> Result<Vec<(u128, Named)>, NoMemory>
    ensures { Stays terms.old terms.new }
{
    let mut sum = Vec::new(terms.allocator());
    sum.push((1, used.literal))?;
    for order in &used.orders {
        let named = bound(terms, *order)?;
        sum.push((order.times, named))?;
    }
    Ok(sum)
}

// What stands at each place, and how many cuts there are.
#[derive(Drop)]
struct Stated {
    at: HashMap<u32, Named>,
    cuts: u32,
}

// The next cut gives the form at a place.
fn state(stated: &mut Stated, place: u32) -> Result<(), NoMemory> {
    stated.at.insert(place, Named::Stated(stated.cuts))?;
    match stated.cuts.checked_add(1) {
        Some(more) => {
            stated.cuts = more;
            Ok(())
        }
        None => Err(NoMemory),
    }
}

// The form of a literal stands at its place: the literal itself, or a cut with the bounds that replace its variables.
fn state_used(
    terms: &mut Terms,
    used: &Used,
    stated: &mut Stated,
    plan: &mut Vec<Action>,
) -> Result<(), NoMemory>
    ensures { Stays terms.old terms.new }
{
    if used.orders.is_empty() {
        stated.at.insert(used.place, used.literal)?;
        return Ok(());
    }
    let sum = sum_of(terms, used)?;
    plan.push(Action::Reduce(sum))?;
    state(stated, used.place)
}

// Those of all literals that are needed.
fn state_all(
    terms: &mut Terms,
    all: &[Used],
    stated: &mut Stated,
    plan: &mut Vec<Action>,
) -> Result<(), NoMemory>
    ensures { Stays terms.old terms.new }
{
    for used in all {
        state_used(terms, used, stated, plan)?;
    }
    Ok(())
}

// The literal at a place.
fn named_at(stated: &Stated, place: u32) -> Result<Named, NoMemory> {
    match stated.at.get(&place).copied() {
        Some(named) => Ok(named),
        None => Err(NoMemory),
    }
}

// A step's multipliers, each with its literal.
fn named_all(
    terms: &Terms,
    stated: &Stated,
    multipliers: &[(u128, u32)],
) -> Result<Vec<(u128, Named)>, NoMemory> {
    let mut made = Vec::new(terms.allocator());
    for m in multipliers {
        let named = named_at(stated, m.1)?;
        made.push((m.0, named))?;
    }
    Ok(made)
}

// One step, if it is needed.
fn push_step(
    terms: &Terms,
    marked: &BTreeSet<u32>,
    place: u32,
    step: &LinStep,
    stated: &mut Stated,
    plan: &mut Vec<Action>,
) -> Result<(), NoMemory> {
    match step {
        LinStep::Sum(_) => {
            let sum = named_all(terms, stated, multipliers(step))?;
            plan.push(Action::Sum(sum))?;
            Ok(())
        }
        LinStep::Cut(d, _) => {
            if !marked.contains(&place) {
                return Ok(());
            }
            let sum = named_all(terms, stated, multipliers(step))?;
            plan.push(Action::Cut(*d, sum))?;
            state(stated, place)
        }
    }
}

// The steps that are needed.
fn push_steps(
    terms: &Terms,
    marked: &BTreeSet<u32>,
    given: usize,
    steps: &[LinStep],
    stated: &mut Stated,
    plan: &mut Vec<Action>,
) -> Result<(), NoMemory> {
    for (k, step) in steps.iter().enumerate() {
        let place = place_of(given, k)?;
        push_step(terms, marked, place, step, stated, plan)?;
    }
    Ok(())
}

// The plan by the steps of an elimination, which was given a form for each of these literals.
fn by_steps(
    terms: &mut Terms,
    branch: &Branch,
    present: &Present,
    labels: &[u32],
    literals: &[usize],
    steps: &Steps,
) -> Result<Vec<Action>, NoMemory>
    requires branch { IsBranch terms.old branch.now }
    requires present { IsPresent terms.old present.now }
    ensures { Stays terms.old terms.new }
{
    let alloc = terms.allocator();
    let given = literals.len();
    let marked = needed(alloc, given, &steps.list)?;
    let all = used_literals(terms, branch, present, labels, &marked, literals)?;
    let mut plan = Vec::new(alloc);
    push_chains(terms, branch, present, labels, &all, &mut plan)?;
    let mut stated = Stated {
        at: HashMap::new(alloc),
        cuts: 0,
    };
    state_all(terms, &all, &mut stated, &mut plan)?;
    push_steps(
        terms,
        &marked,
        given,
        steps.list.as_slice(),
        &mut stated,
        &mut plan,
    )?;
    Ok(plan)
}

// The sum of each literal and the bounds that replace its variables.
fn push_sums(terms: &mut Terms, all: &[Used], plan: &mut Vec<Action>) -> Result<(), NoMemory>
    ensures { Stays terms.old terms.new }
{
    for used in all {
        plan.push(Action::Sum(sum_of(terms, used)?))?;
    }
    Ok(())
}

// The plan where the literal with a place refutes as soon as its variables are replaced.
fn by_literal(
    terms: &mut Terms,
    branch: &Branch,
    present: &Present,
    labels: &[u32],
    i: usize,
) -> Result<Vec<Action>, NoMemory>
    requires branch { IsBranch terms.old branch.now }
    requires present { IsPresent terms.old present.now }
    ensures { Stays terms.old terms.new }
{
    let all = one_used(terms, branch, present, labels, i)?;
    let mut plan = Vec::new(terms.allocator());
    push_chains(terms, branch, present, labels, &all, &mut plan)?;
    push_sums(terms, &all, &mut plan)?;
    Ok(plan)
}

// The plan by what is left of the forms of the node's literals, where elimination refutes it.
fn by_sources(
    terms: &mut Terms,
    branch: &Branch,
    present: &Present,
    labels: &[u32],
    sources: Sources,
) -> Result<Option<Vec<Action>>, NoMemory>
    requires branch { IsBranch terms.old branch.now }
    requires present { IsPresent terms.old present.now }
    ensures { Stays terms.old terms.new }
{
    if let Some(i) = sources.refuting {
        let plan = by_literal(terms, branch, present, labels, i)?;
        return Ok(Some(plan));
    }
    if sources.leaves {
        return Ok(None);
    }
    match eliminate(terms.allocator(), sources.forms) {
        Ok(Elim::Refuted(steps)) => {
            let plan = by_steps(terms, branch, present, labels, &sources.literals, &steps)?;
            Ok(Some(plan))
        }
        Ok(_) => Ok(None),
        Err(_) => Err(NoMemory),
    }
}

/// The steps that close a node which elimination refutes: chains that give the bounds by which variables are replaced by the
/// first ones of their classes, then cuts and a sum. None where elimination doesn't refute. It takes the time of
/// elimination, and of joining the classes again where a variable was replaced. Older numbers name what they named.
pub fn why_it_refutes(
    terms: &mut Terms,
    branch: &Branch,
    present: &Present,
    labels: &[u32],
) -> Result<Option<Vec<Action>>, NoMemory>
    requires branch { IsBranch terms.old branch.now }
    requires present { IsPresent terms.old present.now }
    ensures { Stays terms.old terms.new }
{
    let sources = sources_of(terms, branch, present, labels)?;
    by_sources(terms, branch, present, labels, sources)
}
