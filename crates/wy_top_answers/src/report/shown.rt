//! The texts of formulas, each made once.
ghost use Rattle.std.specs.Prelude.{◌≡◌, ◌<◌, ◌++◌, List, length, IfOk, OnOk};
ghost use Rattle.wy_term_text.specs.show.Text.{text_of};
ghost use Rattle.wy_term.specs.Nodes.{Plain, tree_at};
ghost use Rattle.wy_top_answers.specs.report.Shown.{AreShown};

use std::alloc::Global;
use std::collections::HashMap;
use wy_term::{NoMemory, Terms};
use wy_term_text::show::show_formula;

/// The texts of formulas that were made so far, by the numbers of the formulas.
#[derive(Drop)]
pub struct Shown {
    texts: HashMap<u32, Vec<u8>>,
}

/// No text was made.
pub fn nothing_shown(alloc: Global) -> Shown
    ensures shown { (nodes : List Plain) → AreShown nodes result }
{
    let texts = HashMap::new(alloc);
    Shown { texts }
}

/// Appends a formula. Its text is made where it wasn't, and then kept; so all calls for a formula but the first take the time of a copy.
pub fn put_shown(
    out: &mut Vec<u8>,
    shown: &mut Shown,
    terms: &Terms,
    formula: u32,
) -> Result<(), NoMemory>
    requires within { formula < length terms.now }
    requires shown { AreShown terms.now shown.old }
    ensures shown { OnOk result (AreShown terms.now shown.new) }
    ensures value { OnOk result (out.new.items ≡ out.old.items ++ text_of (tree_at terms.now formula)) }
{
    if let Some(text) = shown.texts.get(&formula) {
        out.extend_from_slice(text.as_slice())?;
        return Ok(());
    }
    let text = show_formula(terms, formula)?;
    out.extend_from_slice(text.as_slice())?;
    shown.texts.insert(formula, text)?;
    Ok(())
}
