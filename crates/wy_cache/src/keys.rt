//! The texts of conditions.
ghost use Rattle.std.specs.Prelude.{◌≡◌, ◌<◌, ◌++◌, List, All, length, map, IfOk, OnOk};
ghost use Rattle.wy_term.specs.Nodes.{Plain, tree_at};
ghost use Rattle.wy_term.specs.Condition.{condition_of};
ghost use Rattle.wy_cert.specs.writing.Text.{texts};
ghost use Rattle.wy_cache.specs.Key.{line_of, key_of};
ghost use Rattle.wy_cache.specs.Shown.{AreShown};

use std::alloc::Global;
use std::collections::HashMap;
use wy_term::{Cond, NoMemory, Terms};
use wy_term_text::show::show_formula;

/// The lines of formulas that were made so far, by the numbers of the formulas.
#[derive(Drop)]
pub(crate) struct Shown {
    lines: HashMap<u32, Vec<u8>>,
}

/// No line was made.
pub(crate) fn nothing_shown(alloc: Global) -> Shown
    ensures shown { (nodes : List Plain) → AreShown nodes result }
{
    Shown {
        lines: HashMap::new(alloc),
    }
}

// Appends the line of a formula. It is made where it wasn't, and then kept; so all calls for a formula but the first take the
// time of a copy.
fn put_line(
    out: &mut Vec<u8>,
    shown: &mut Shown,
    terms: &Terms,
    formula: u32,
) -> Result<(), NoMemory>
    requires within { formula < length terms.now }
    requires shown { AreShown terms.now shown.old }
    ensures shown { OnOk result (AreShown terms.now shown.new) }
    ensures value { OnOk result (out.new.items ≡ out.old.items ++ line_of (tree_at terms.now formula)) }
{
    if let Some(line) = shown.lines.get(&formula) {
        out.extend_from_slice(line.as_slice())?;
        return Ok(());
    }
    let mut line = show_formula(terms, formula)?;
    line.push(b'\n')?;
    out.extend_from_slice(line.as_slice())?;
    shown.lines.insert(formula, line)?;
    Ok(())
}

// Appends the lines of these formulas.
#[tactic(auto, using(wy_cert::proofs::writing_lemmas::WriteLemmas::texts_steps))]
fn put_lines(
    out: &mut Vec<u8>,
    shown: &mut Shown,
    terms: &Terms,
    formulas: &[u32],
) -> Result<(), NoMemory>
    requires within { All (λ f. f < length terms.now) formulas.now }
    requires shown { AreShown terms.now shown.old }
    ensures shown { OnOk result (AreShown terms.now shown.new) }
    ensures value { OnOk result (out.new.items ≡ out.old.items ++ texts (λ f. line_of (tree_at terms.now f)) formulas.now) }
{
    for formula in formulas {
        put_line(out, shown, terms, *formula)?;
    }
    Ok(())
}

/// The lines of a condition's hypotheses, in order, and of its goal. The line of a formula is made where none is kept for it,
/// and else copied: linear in the length of the lines that are made, and in the length of the whole by copies alone.
pub(crate) fn key(shown: &mut Shown, terms: &Terms, cond: &Cond) -> Result<Vec<u8>, NoMemory>
    requires hyps { All (λ h. h < length terms.now) cond.now.hyps.items }
    requires goal { cond.now.goal < length terms.now }
    requires shown { AreShown terms.now shown.old }
    ensures shown { OnOk result (AreShown terms.now shown.new) }
    ensures value { IfOk result (λ key. key.items ≡ key_of (condition_of terms.now cond.now)) }
{
    let mut out = Vec::new(terms.allocator());
    put_lines(&mut out, shown, terms, cond.hyps.as_slice())?;
    put_line(&mut out, shown, terms, cond.goal)?;
    Ok(out)
}
