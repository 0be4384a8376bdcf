//! The term of each variable that has one.
ghost use Rattle.std.specs.Prelude.{◌≡◌, ◌<◌, ℕ, List, Option, length as count_of, slice_set, OnOk};
ghost use Rattle.wy_vc_spec.specs.Variables as spec;

use std::alloc::AllocError;

/// The term of the variable, if it has one. Constant time.
pub fn slot_at(vars: &[Option<u32>], variable: u32) -> Option<u32>
    ensures value { result ≡ spec.slot_at vars.now variable }
{
    match vars.get(variable as usize) {
        None => None,
        Some(slot) => *slot,
    }
}

/// The variable stands for this term from now on. Linear in the variables before it that have no slot yet.
#[tactic(auto, using(crate::proofs::SlotLemmas::put_pushed, crate::proofs::SlotLemmas::put_within))]
pub fn put(vars: &mut Vec<Option<u32>>, variable: u32, term: u32) -> Result<(), AllocError>
    ensures value { OnOk result (vars.new.items ≡ spec.put vars.old.items variable term) }
{
    let index = variable as usize;
    while vars.len() <= index {
        vars.push(None)?;
    }
    vars[index] = Some(term);
    Ok(())
}

// The slot at the index, where there is one.
fn set_slot(vars: &mut Vec<Option<u32>>, index: usize, slot: Option<u32>)
    ensures value { index < count_of vars.old.items → vars.new.items ≡ slice_set vars.old.items index slot }
{
    if index < vars.len() {
        vars[index] = slot;
    }
}

/// The variable stands again for what it stood for before it was put last, where there were so many slots.
pub fn put_back(vars: &mut Vec<Option<u32>>, variable: u32, slot: Option<u32>, count: usize)
    ensures value { (before : List (Option ℕ)) (t : ℕ) → vars.old.items ≡ spec.put before variable t → slot ≡ spec.slot_at before variable → count ≡ count_of before → vars.new.items ≡ before }
{
    set_slot(vars, variable as usize, slot);
    vars.truncate(count);
}
