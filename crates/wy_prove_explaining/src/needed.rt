//! Which of the forms and cuts of an elimination its last step needs.
use std::alloc::Global;
use std::collections::BTreeSet;
use wy_items::Items;
use wy_lin_eliminate::LinStep;
use wy_term::NoMemory;

// Marks the places of these forms.
fn mark(marked: &mut BTreeSet<u32>, multipliers: &[(u128, u32)]) -> Result<(), NoMemory> {
    for m in multipliers {
        marked.insert(m.1)?;
    }
    Ok(())
}

/// The multipliers of a step.
pub fn multipliers(step: &LinStep) -> &[(u128, u32)] {
    match step {
        LinStep::Sum(ms) => ms.as_slice(),
        LinStep::Cut(_, ms) => ms.as_slice(),
    }
}

/// The place of the form that the step with a place gives, behind so many given forms.
pub fn place_of(given: usize, k: usize) -> Result<u32, NoMemory> {
    match given.checked_add(k) {
        Some(place) => match u32::try_from(place) {
            Ok(number) => Ok(number),
            Err(_) => Err(NoMemory),
        },
        None => Err(NoMemory),
    }
}

// Marks what a step needs, if it is the last one or what it gives is marked.
fn mark_step(
    marked: &mut BTreeSet<u32>,
    given: usize,
    k: usize,
    step: &LinStep,
) -> Result<(), NoMemory> {
    let place = place_of(given, k)?;
    match step {
        LinStep::Sum(ms) => mark(marked, ms.as_slice()),
        LinStep::Cut(_, ms) => {
            if marked.contains(&place) {
                return mark(marked, ms.as_slice());
            }
            Ok(())
        }
    }
}

/// The places of the forms that the last step needs, among so many given forms followed by those of the cuts.
pub fn needed(
    alloc: Global,
    given: usize,
    steps: &Items<LinStep>,
) -> Result<BTreeSet<u32>, NoMemory> {
    let mut marked = BTreeSet::new(alloc);
    let all = steps.as_slice();
    let count = all.len();
    for turn in 0..count {
        let k = count - 1 - turn;
        mark_step(&mut marked, given, k, &all[k])?;
    }
    Ok(marked)
}
