//! The code of updates of parts.
ghost use Rattle.std.specs.Prelude.{◌≡◌, ◌+◌, ◌∷◌, ◌++◌, [], IfOk, List, map, None, slice_index_or, ℕ};
ghost use Rattle.wy_core.specs.CoreSeen.{seen_expr, seen_step};
ghost use Rattle.wy_core.specs.CoreTree as tree;
ghost use Rattle.wy_live.specs.Sets as sets;
ghost use Rattle.wy_live.specs.Walks as lives;
ghost use Rattle.wy_code_spec.specs.compiled.Statements as spec;
ghost use Rattle.wy_gen.specs.Places as reads;
ghost use Rattle.wy_code.specs.declared.pieces.steps.Step as steps;

use crate::expressions::{code, operand_code};
use crate::made::{Made, plain, previous, register_at};
use crate::operands::{read, standing};
use std::alloc::Global;
use wy_code::pieces::{NoMemory, clear_one, next};
use wy_code::{Instr, Slot};
use wy_code_spec::tables::{Context, name_number};
use wy_core::{Expr, Step, StepKind};
use wy_items::Items;
use wy_live::Variables;

/// `x[i].f = e`: the indices, the value, and the update; where the variable isn't live behind, what
/// it holds is released. An index that is a variable which is live behind the update is read in its
/// register: which ones are is asked before the update makes its own variable live.
pub fn update(
    alloc: Global,
    context: &Context,
    variable: u32,
    path: &[Step],
    value: &Expr,
    free: u32,
    behind: Made,
) -> Result<Made, NoMemory>
    ensures value { IfOk result (λ m. m.steps ≡ spec.update context.now variable (map seen_step path.now) (seen_expr value.now) behind.live free ++ behind.steps) }
    ensures live { IfOk result (λ m. m.live ≡ lives.before_steps (map seen_step path.now) (lives.before (seen_expr value.now) (sets.with behind.live variable))) }
{
    let register = register_at(free, index_count(path)?)?;
    let places = places_of(alloc, path, &behind.live)?;
    let slots = slots(alloc, context, path, &behind.live, free)?;
    let behind = kept(alloc, variable, behind)?;
    let behind = plain(Instr::Put(variable, slots, register), behind)?;
    let behind = code(alloc, context, value, register, behind)?;
    indices(alloc, context, path, places.as_slice(), free, behind)
}

/// A variable that is updated is live before; where it isn't live behind, what it holds is released.
fn kept(alloc: Global, variable: u32, behind: Made) -> Result<Made, NoMemory>
    ensures value { IfOk result (λ m. m.steps ≡ spec.kept variable behind.live ++ behind.steps) }
    ensures live { IfOk result (λ m. m.live ≡ sets.with behind.live variable) }
{
    let Made { mut live, steps } = behind;
    let steps = if live.has(variable) {
        steps
    } else {
        clear_one(alloc, variable, steps)?
    };
    live.insert(variable)?;
    Ok(Made { live, steps })
}

/// How many registers the indices of a path take.
fn index_count(path: &[Step]) -> Result<usize, NoMemory>
    ensures value { IfOk result (λ n. n ≡ spec.index_count (map seen_step path.now)) }
{
    let mut count = 0usize;
    for step in path {
        match &step.kind {
            StepKind::Index(_) => count = one_more(count)?,
            StepKind::Field(_) => (),
        }
    }
    Ok(count)
}

fn one_more(count: usize) -> Result<usize, NoMemory>
    ensures value { IfOk result (λ n. n ≡ count + 1) }
{
    match count.checked_add(1) {
        Some(more) => Ok(more),
        None => Err(NoMemory),
    }
}

/// The variable in whose register the index of a step is read, where this is live behind the update.
fn place_of(step: &Step, live: &Variables) -> Option<u32>
    ensures value { result ≡ reads.place_of (seen_step step.now) live.now }
{
    match &step.kind {
        StepKind::Index(index) => read(index, live),
        StepKind::Field(_) => None,
    }
}

/// The same of each step of a path.
fn places_of(alloc: Global, path: &[Step], live: &Variables) -> Result<Items<Option<u32>>, NoMemory>
    ensures value { IfOk result (λ ps. ps ≡ reads.places (map seen_step path.now) live.now) }
{
    let mut places = Items::new(alloc);
    for step in path {
        places.push(place_of(step, live))?;
    }
    Ok(places)
}

/// The one of the step at an index; none behind the last.
fn place_at(places: &[Option<u32>], index: usize) -> Option<u32>
    ensures value { result ≡ slice_index_or places.now index None }
{
    if index < places.len() {
        places[index]
    } else {
        None
    }
}

/// The slots of a path whose indices are in the registers from `free` on, but for those that are read
/// in their variable's.
fn slots(
    alloc: Global,
    context: &Context,
    path: &[Step],
    live: &Variables,
    free: u32,
) -> Result<Items<Slot>, NoMemory>
    ensures value { IfOk result (λ s. s ≡ spec.slots context.now (map seen_step path.now) live.now free) }
{
    let mut slots = Items::new(alloc);
    let mut register = free;
    for step in path {
        match &step.kind {
            StepKind::Index(index) => {
                slots.push(Slot::Item(standing(read(index, live), register)))?;
                register = next(register)?;
            }
            StepKind::Field(name) => {
                let number = name_number(name, &context.table)?;
                slots.push(Slot::Field(number))?;
            }
        }
    }
    Ok(slots)
}

/// Indices that are made, and the register of the first.
#[derive(Drop)]
struct Indexed {
    here: u32,
    made: Made,
}

/// The indices of a path, each into a register behind that of the one before, but for those that are
/// read in their variable's.
fn indices(
    alloc: Global,
    context: &Context,
    path: &[Step],
    places: &[Option<u32>],
    free: u32,
    behind: Made,
) -> Result<Made, NoMemory>
    ensures value { (s : sets.Variables) → places.now ≡ reads.places (map seen_step path.now) s → IfOk result (λ m. m.steps ≡ spec.indices context.now (map seen_step path.now) behind.live s free ++ behind.steps) }
    ensures live { IfOk result (λ m. m.live ≡ lives.before_steps (map seen_step path.now) behind.live) }
{
    let end = register_at(free, index_count(path)?)?;
    let mut indexed = Indexed {
        here: end,
        made: behind,
    };
    let mut left = path.len();
    while left > 0 {
        left -= 1;
        let place = place_at(places, left);
        indexed = index(alloc, context, &path[left], place, indexed)?;
    }
    let Indexed { here: _, made } = indexed;
    Ok(made)
}

/// The index of a step before those of the steps behind it, where it has one.
fn index(
    alloc: Global,
    context: &Context,
    step: &Step,
    place: Option<u32>,
    behind: Indexed,
) -> Result<Indexed, NoMemory>
    ensures value { (path : List (tree.Step ℕ)) (live s : sets.Variables) (old : List steps.Step) → place ≡ reads.place_of (seen_step step.now) s → behind.made.live ≡ lives.before_steps path live → behind.made.steps ≡ spec.indices context.now path live s behind.here ++ old → IfOk result (λ i. i.made.steps ≡ spec.indices context.now (seen_step step.now ∷ path) live s i.here ++ old) }
    ensures live { IfOk result (λ i. i.made.live ≡ lives.before_step (seen_step step.now) behind.made.live) }
    ensures here { IfOk result (λ i. i.here + spec.index_count (seen_step step.now ∷ []) ≡ behind.here) }
{
    match &step.kind {
        StepKind::Index(index) => {
            let Indexed { here, made } = behind;
            let here = previous(here)?;
            let made = operand_code(alloc, context, index, place, here, made)?;
            Ok(Indexed { here, made })
        }
        StepKind::Field(_) => Ok(behind),
    }
}
