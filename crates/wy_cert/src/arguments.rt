//! Terms of a line.
ghost use Rattle.std.specs.Prelude.{◌≡◌, ◌<◌, ◌≤◌, ℕ, All, IfOk, IfSome, MatchOption, length, map};
ghost use Rattle.wy_term_text.specs.wy_term.Nodes.{tree_at};
ghost use Rattle.wy_term_text.specs.wy_term.Sorts.{int_sort};
ghost use Rattle.wy_term_text.specs.spell.Made.{IsSpelled};
ghost use Rattle.wy_cert.specs.Only.{IsTheOne, HasNone};
ghost use Rattle.wy_cert.specs.Arguments.{IsCut, NoCut, IsArgument, AreArguments};

use wy_data::scan::behind;
use wy_term_text::spell::{read_formula, read_int_term, read_term};
use wy_term_text::{NoMemory, Terms};

// The bytes before the first ` ; `, and those behind it if there is one.
#[tactic(auto, using(crate::proofs::CutLemmas::cut_steps))]
fn cut_first(text: &[u8]) -> (&[u8], Option<&[u8]>)
    ensures value { MatchOption result.1 (NoCut text.now × (result.0.now ≡ text.now)) (λ rest. IsCut text.now result.0.now rest.now) }
{
    for end in 0..text.len() {
        if let Some(rest) = behind(&text[end..], b" ; ") {
            return (&text[..end], Some(rest));
        }
    }
    (text, None)
}

/// The Int term that the text spells. Older numbers name what they named.
#[tactic(auto, using(crate::proofs::TermLemmas::int_steps))]
pub(crate) fn int_term(terms: &mut Terms, text: &[u8]) -> Result<Option<u32>, NoMemory>
    ensures value { IfOk result (λ o. MatchOption o (HasNone (IsSpelled int_sort text.now)) (λ t. IsTheOne (IsSpelled int_sort text.now) (tree_at terms.new t))) }
    ensures within { IfOk result (λ o. IfSome o (λ t. t < length terms.new)) }
    ensures kept { (t : ℕ) → t < length terms.old → tree_at terms.new t ≡ tree_at terms.old t }
    ensures grows { length terms.old ≤ length terms.new }
{
    read_int_term(terms, text)
}

// The argument that the text spells: a formula too, where formulas may stand and the text spells no term.
#[tactic(auto, using(crate::proofs::TermLemmas::argument_steps))]
fn argument(terms: &mut Terms, text: &[u8], formulas: bool) -> Result<Option<u32>, NoMemory>
    ensures value { IfOk result (λ o. MatchOption o (HasNone (IsArgument formulas text.now)) (λ t. IsTheOne (IsArgument formulas text.now) (tree_at terms.new t))) }
    ensures within { IfOk result (λ o. IfSome o (λ t. t < length terms.new)) }
    ensures kept { (t : ℕ) → t < length terms.old → tree_at terms.new t ≡ tree_at terms.old t }
    ensures grows { length terms.old ≤ length terms.new }
{
    match read_term(terms, text)? {
        Some(t) => Ok(Some(t)),
        None => {
            if formulas {
                return read_formula(terms, text);
            }
            Ok(None)
        }
    }
}

/// The arguments that the text spells, with ` ; ` between them, in time linear in the text beside what making terms takes.
/// Older numbers name what they named.
pub(crate) fn arguments(
    terms: &mut Terms,
    text: &[u8],
    formulas: bool,
) -> Result<Option<Vec<u32>>, NoMemory>
    ensures value { IfOk result (λ o. MatchOption o (HasNone (AreArguments formulas text.now)) (λ ts. IsTheOne (AreArguments formulas text.now) (map (tree_at terms.new) ts.items))) }
    ensures within { IfOk result (λ o. IfSome o (λ ts. All (λ t. t < length terms.new) ts.items)) }
    ensures kept { (t : ℕ) → t < length terms.old → tree_at terms.new t ≡ tree_at terms.old t }
    ensures grows { length terms.old ≤ length terms.new }
{
    let mut all = Vec::new(terms.allocator());
    let mut rest = text;
    for _turn in 0..u64::MAX {
        let (first, more) = cut_first(rest);
        let Some(t) = argument(terms, first, formulas)? else {
            return Ok(None);
        };
        all.push(t)?;
        let Some(more) = more else {
            return Ok(Some(all));
        };
        rest = more;
    }
    Err(NoMemory)
}
