//! The text of a list of conditions.
ghost use Rattle.std.specs.Prelude.{◌≡◌, ◌<◌, ◌^◌, All, IfOk, OnOk, ◌++◌, ℕ, List, length, map};
ghost use Rattle.wy_batch.specs.wy_check.Within.{IsWithin};
ghost use Rattle.wy_top_probe.specs.wy_link_load.wy_parse_front.lines.Starts.{AreLines};
ghost use Rattle.wy_top_probe.specs.wy_top_answers.report.Shown.{AreShown};
ghost use Rattle.wy_top.specs.Owed as spec;
ghost use Rattle.wy_vc.specs.Told.{seen_cond};

use std::alloc::Global;
use wy_term::{Cond, Conds, NoMemory, Terms};
use wy_top_probe::Lines;
use wy_top_probe::wy_top_answers::report::{Shown, listed, nothing_shown};

/// The conditions in order, each with its number from 1, its kind, the line and the column of the construct that owes it, its
/// hypotheses and its goal. The text of each formula is made once, and copied where it stands again: so the time is linear in the source and
/// in the texts of the formulas that are named, each once, and in the length of the whole by copies alone.
#[tactic(auto, using(crate::proofs::ListLemmas::list_steps))]
pub fn conditions_text(alloc: Global, source: &[u8], conds: &Conds) -> Result<Vec<u8>, NoMemory>
    requires numbers { All (IsWithin (length conds.now.terms)) conds.now.list.items }
    requires few { length conds.now.list.items < 2 ^ 32 }
    ensures value { IfOk result (λ text. text.items ≡ spec.conditions_text source.now 1 (map (seen_cond conds.now.terms) conds.now.list.items)) }
{
    let lines = Lines::of(alloc, source)?;
    let mut text = Vec::new(alloc);
    let mut shown = nothing_shown(alloc);
    for i in 0..conds.list.len() {
        let number = i as u32 + 1;
        put_condition(
            alloc,
            &mut text,
            &mut shown,
            &lines,
            &conds.terms,
            &conds.list[i],
            number,
        )?;
    }
    Ok(text)
}

// Appends a condition.
fn put_condition(
    alloc: Global,
    text: &mut Vec<u8>,
    shown: &mut Shown,
    lines: &Lines,
    terms: &Terms,
    cond: &Cond,
    number: u32,
) -> Result<(), NoMemory>
    requires cond { IsWithin (length terms.now) cond.now }
    requires shown { AreShown terms.now shown.old }
    ensures shown { OnOk result (AreShown terms.now shown.new) }
    ensures value { (bytes : List ℕ) → AreLines bytes lines.now → OnOk result (text.new.items ≡ text.old.items ++ spec.condition_text bytes number (seen_cond terms.now cond.now)) }
{
    let place = lines.place(cond.at);
    let own = listed(alloc, shown, terms, cond, number, place.line, place.column)?;
    text.extend_from_slice(own.as_slice())?;
    Ok(())
}
