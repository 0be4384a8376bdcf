//! A condition as it is printed.
ghost use Rattle.std.specs.Prelude.{◌≡◌, ◌<◌, ◌++◌, ℕ, All, length, map, IfOk, OnOk};
ghost use Rattle.std.specs.Fmt.{decimal};
ghost use Rattle.wy_term_text.specs.show.Text.{text_of};
ghost use Rattle.wy_term.specs.Nodes.{tree_at};
ghost use Rattle.wy_term.specs.Condition.{word_of};
ghost use Rattle.wy_top_answers.specs.report.Lines.{line as whole_line};
ghost use Rattle.wy_top_answers.specs.report.Listing as listing;
ghost use Rattle.wy_top_answers.specs.report.Shown.{AreShown};

use crate::report::shown::{Shown, put_shown};
use std::alloc::Global;
use wy_term::{Cond, NoMemory, Terms};

// Appends a formula on a line behind two spaces.
fn put_formula(
    out: &mut Vec<u8>,
    shown: &mut Shown,
    terms: &Terms,
    formula: u32,
) -> Result<(), NoMemory>
    requires within { formula < length terms.now }
    requires shown { AreShown terms.now shown.old }
    ensures shown { OnOk result (AreShown terms.now shown.new) }
    ensures value { OnOk result (out.new.items ≡ out.old.items ++ listing.formula_line (tree_at terms.now formula)) }
{
    out.extend_from_slice(b"  ")?;
    put_shown(out, shown, terms, formula)?;
    out.push(b'\n')?;
    Ok(())
}

// Appends these formulas, each on a line of its own.
#[tactic(auto, using(crate::proofs::report_lemmas::ListingLemmas::lines_steps))]
fn put_formulas(
    out: &mut Vec<u8>,
    shown: &mut Shown,
    terms: &Terms,
    formulas: &[u32],
) -> Result<(), NoMemory>
    requires within { All (λ (f : ℕ). f < length terms.now) formulas.now }
    requires shown { AreShown terms.now shown.old }
    ensures shown { OnOk result (AreShown terms.now shown.new) }
    ensures value { OnOk result (out.new.items ≡ out.old.items ++ listing.formula_lines (map (tree_at terms.now) formulas.now)) }
{
    for formula in formulas {
        put_formula(out, shown, terms, *formula)?;
    }
    Ok(())
}

/// A condition by its number from 1, its kind, and the line and column of the construct that owes it; then its
/// hypotheses in order, and its goal, each on a line behind two spaces. The text of a formula is made where none is kept for
/// it, and else copied: linear in the length of the texts that are made, and in the length of the whole by copies alone.
pub fn listed(
    alloc: Global,
    shown: &mut Shown,
    terms: &Terms,
    cond: &Cond,
    number: u32,
    line: usize,
    column: usize,
) -> Result<Vec<u8>, NoMemory>
    requires goal { cond.now.goal < length terms.now }
    requires hypotheses { All (λ (f : ℕ). f < length terms.now) cond.now.hyps.items }
    requires shown { AreShown terms.now shown.old }
    ensures shown { OnOk result (AreShown terms.now shown.new) }
    ensures value { IfOk result (λ text. text.items ≡ listing.listed number (word_of cond.now.kind) line column (map (tree_at terms.now) cond.now.hyps.items) (tree_at terms.now cond.now.goal)) }
{
    let kind = cond.kind.word();
    let title = format!(in alloc; "cond {number} {kind} {line}:{column}\n")?;
    let mut out = Vec::from_slice(alloc, title.as_bytes())?;
    put_formulas(&mut out, shown, terms, cond.hyps.as_slice())?;
    out.extend_from_slice(b"  goal ")?;
    put_shown(&mut out, shown, terms, cond.goal)?;
    out.push(b'\n')?;
    Ok(out)
}
