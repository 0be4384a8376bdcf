//! Lines of single steps.
ghost use Rattle.std.specs.Prelude.{◌≡◌, ◌<◌, ◌≤◌, ℕ, true, IfOk, IfSome, MatchOption, length};
ghost use Rattle.wy_term_text.specs.wy_term.Term.{Term};
ghost use Rattle.wy_term_text.specs.wy_term.Nodes.{tree_at};
ghost use Rattle.wy_cert.specs.Only.{IsTheOne, HasNone};
ghost use Rattle.wy_cert.specs.Steps.{written, IsBelow};
ghost use Rattle.wy_cert.specs.Lines.{IsSplit, IsShut, IsChain, IsOther, IsClash, IsSum, IsCutStep, IsInst, IsWit, IsFact, IsProd, IsBody, IsStep};

use crate::arguments::{arguments, int_term};
use crate::numbers::{last_place, multiplier, pairs, place, spaced_place};
use crate::step::Step;
use crate::verb::{Verb, verb_of};
use std::alloc::Global;
use wy_data::scan::behind;
use wy_term_text::spell::read_formula;
use wy_term_text::{NoMemory, Terms};

/// The step that a line spells, without the line's end; `products` says whether `prod` may stand.
#[tactic(auto, using(crate::proofs::LineLemmas::step_steps))]
pub(crate) fn step_of(
    terms: &mut Terms,
    line: &[u8],
    products: bool,
) -> Result<Option<Step>, NoMemory>
    ensures value { IfOk result (λ o. MatchOption o (HasNone (IsStep products line.now)) (λ s. IsTheOne (IsStep products line.now) (written (tree_at terms.new) s))) }
    ensures within { IfOk result (λ o. IfSome o (IsBelow (length terms.new))) }
    ensures kept { (t : ℕ) → t < length terms.old → tree_at terms.new t ≡ tree_at terms.old t }
    ensures grows { length terms.old ≤ length terms.new }
{
    match verb_of(line) {
        None => Ok(None),
        Some((verb, text)) => body(terms, verb, text, products),
    }
}

// The step with this word whose other parts are the text.
#[tactic(auto, using(crate::proofs::BodyLemmas::no_product))]
fn body(
    terms: &mut Terms,
    verb: Verb,
    text: &[u8],
    products: bool,
) -> Result<Option<Step>, NoMemory>
    ensures value { IfOk result (λ o. MatchOption o (HasNone (IsBody products verb text.now)) (λ s. IsTheOne (IsBody products verb text.now) (written (tree_at terms.new) s))) }
    ensures within { IfOk result (λ o. IfSome o (IsBelow (length terms.new))) }
    ensures kept { (t : ℕ) → t < length terms.old → tree_at terms.new t ≡ tree_at terms.old t }
    ensures grows { length terms.old ≤ length terms.new }
{
    let alloc = terms.allocator();
    match verb {
        Verb::Split => split(terms, text),
        Verb::Shut => Ok(shut(text)),
        Verb::Chain => chain(terms, text),
        Verb::Clash => clash(alloc, text),
        Verb::Sum => sum(alloc, text),
        Verb::Cut => cut(alloc, text),
        Verb::Inst => inst(terms, text),
        Verb::Wit => wit(alloc, text),
        Verb::Fact => fact(terms, text),
        Verb::Prod => {
            if products {
                return product(terms, text);
            }
            Ok(None)
        }
    }
}

#[tactic(auto, using(crate::proofs::BodyLemmas::split_steps))]
fn split(terms: &mut Terms, text: &[u8]) -> Result<Option<Step>, NoMemory>
    ensures value { IfOk result (λ o. MatchOption o (HasNone (IsSplit text.now)) (λ s. IsTheOne (IsSplit text.now) (written (tree_at terms.new) s))) }
    ensures within { IfOk result (λ o. IfSome o (IsBelow (length terms.new))) }
    ensures kept { (t : ℕ) → t < length terms.old → tree_at terms.new t ≡ tree_at terms.old t }
    ensures grows { length terms.old ≤ length terms.new }
{
    match read_formula(terms, text)? {
        None => Ok(None),
        Some(formula) => Ok(Some(Step::Split(formula))),
    }
}

#[tactic(auto, using(crate::proofs::BodyLemmas::shut_steps))]
fn shut(text: &[u8]) -> Option<Step>
    ensures value { (at : ℕ → Term) → MatchOption result (HasNone (IsShut text.now)) (λ s. IsTheOne (IsShut text.now) (written at s)) }
    ensures within { (n : ℕ) → IfSome result (IsBelow n) }
{
    if text.is_empty() {
        return Some(Step::Shut);
    }
    None
}

#[tactic(auto, using(crate::proofs::BodyLemmas::chain_steps))]
fn chain(terms: &mut Terms, text: &[u8]) -> Result<Option<Step>, NoMemory>
    ensures value { IfOk result (λ o. MatchOption o (HasNone (IsChain text.now)) (λ s. IsTheOne (IsChain text.now) (written (tree_at terms.new) s))) }
    ensures within { IfOk result (λ o. IfSome o (IsBelow (length terms.new))) }
    ensures kept { (t : ℕ) → t < length terms.old → tree_at terms.new t ≡ tree_at terms.old t }
    ensures grows { length terms.old ≤ length terms.new }
{
    match arguments(terms, text, false)? {
        None => Ok(None),
        Some(all) => Ok(Some(Step::Chain(all))),
    }
}

// A second literal behind a space, or none where the text is at its end.
#[tactic(auto, using(crate::proofs::BodyLemmas::other_steps))]
fn other(alloc: Global, text: &[u8]) -> Result<Option<Option<u32>>, NoMemory>
    ensures value { IfOk result (λ o. MatchOption o (HasNone (IsOther text.now)) (λ j. IsTheOne (IsOther text.now) j)) }
{
    if text.is_empty() {
        return Ok(Some(None));
    }
    let Some(rest) = behind(text, b" ") else {
        return Ok(None);
    };
    match last_place(alloc, rest)? {
        None => Ok(None),
        Some(j) => Ok(Some(Some(j))),
    }
}

#[tactic(auto, using(crate::proofs::BodyLemmas::clash_steps))]
fn clash(alloc: Global, text: &[u8]) -> Result<Option<Step>, NoMemory>
    ensures value { (at : ℕ → Term) → IfOk result (λ o. MatchOption o (HasNone (IsClash text.now)) (λ s. IsTheOne (IsClash text.now) (written at s))) }
    ensures within { (n : ℕ) → IfOk result (λ o. IfSome o (IsBelow n)) }
{
    let Some((i, rest)) = place(alloc, text)? else {
        return Ok(None);
    };
    match other(alloc, rest)? {
        None => Ok(None),
        Some(other) => Ok(Some(Step::Clash(i, other))),
    }
}

#[tactic(auto, using(crate::proofs::BodyLemmas::sum_steps))]
fn sum(alloc: Global, text: &[u8]) -> Result<Option<Step>, NoMemory>
    ensures value { (at : ℕ → Term) → IfOk result (λ o. MatchOption o (HasNone (IsSum text.now)) (λ s. IsTheOne (IsSum text.now) (written at s))) }
    ensures within { (n : ℕ) → IfOk result (λ o. IfSome o (IsBelow n)) }
{
    match pairs(alloc, text)? {
        None => Ok(None),
        Some(pairs) => {
            if pairs.is_empty() {
                return Ok(None);
            }
            Ok(Some(Step::Sum(pairs)))
        }
    }
}

#[tactic(auto, using(crate::proofs::BodyLemmas::cut_steps))]
fn cut(alloc: Global, text: &[u8]) -> Result<Option<Step>, NoMemory>
    ensures value { (at : ℕ → Term) → IfOk result (λ o. MatchOption o (HasNone (IsCutStep text.now)) (λ s. IsTheOne (IsCutStep text.now) (written at s))) }
    ensures within { (n : ℕ) → IfOk result (λ o. IfSome o (IsBelow n)) }
{
    let Some((divisor, rest)) = multiplier(alloc, text)? else {
        return Ok(None);
    };
    if divisor < 2 {
        return Ok(None);
    }
    match pairs(alloc, rest)? {
        None => Ok(None),
        Some(pairs) => {
            if pairs.is_empty() {
                return Ok(None);
            }
            Ok(Some(Step::Cut(divisor, pairs)))
        }
    }
}

#[tactic(auto, using(crate::proofs::BodyLemmas::inst_steps))]
fn inst(terms: &mut Terms, text: &[u8]) -> Result<Option<Step>, NoMemory>
    ensures value { IfOk result (λ o. MatchOption o (HasNone (IsInst text.now)) (λ s. IsTheOne (IsInst text.now) (written (tree_at terms.new) s))) }
    ensures within { IfOk result (λ o. IfSome o (IsBelow (length terms.new))) }
    ensures kept { (t : ℕ) → t < length terms.old → tree_at terms.new t ≡ tree_at terms.old t }
    ensures grows { length terms.old ≤ length terms.new }
{
    let Some((i, rest)) = spaced_place(terms.allocator(), text)? else {
        return Ok(None);
    };
    match int_term(terms, rest)? {
        None => Ok(None),
        Some(t) => Ok(Some(Step::Inst(i, t))),
    }
}

#[tactic(auto, using(crate::proofs::BodyLemmas::wit_steps))]
fn wit(alloc: Global, text: &[u8]) -> Result<Option<Step>, NoMemory>
    ensures value { (at : ℕ → Term) → IfOk result (λ o. MatchOption o (HasNone (IsWit text.now)) (λ s. IsTheOne (IsWit text.now) (written at s))) }
    ensures within { (n : ℕ) → IfOk result (λ o. IfSome o (IsBelow n)) }
{
    match last_place(alloc, text)? {
        None => Ok(None),
        Some(i) => Ok(Some(Step::Wit(i))),
    }
}

#[tactic(auto, using(crate::proofs::BodyLemmas::fact_steps))]
fn fact(terms: &mut Terms, text: &[u8]) -> Result<Option<Step>, NoMemory>
    ensures value { IfOk result (λ o. MatchOption o (HasNone (IsFact text.now)) (λ s. IsTheOne (IsFact text.now) (written (tree_at terms.new) s))) }
    ensures within { IfOk result (λ o. IfSome o (IsBelow (length terms.new))) }
    ensures kept { (t : ℕ) → t < length terms.old → tree_at terms.new t ≡ tree_at terms.old t }
    ensures grows { length terms.old ≤ length terms.new }
{
    let Some((schema, rest)) = spaced_place(terms.allocator(), text)? else {
        return Ok(None);
    };
    if schema > 16 {
        return Ok(None);
    }
    match arguments(terms, rest, true)? {
        None => Ok(None),
        Some(all) => Ok(Some(Step::Fact(schema, all))),
    }
}

#[tactic(auto, using(crate::proofs::BodyLemmas::product_steps))]
fn product(terms: &mut Terms, text: &[u8]) -> Result<Option<Step>, NoMemory>
    ensures value { IfOk result (λ o. MatchOption o (HasNone (IsProd true text.now)) (λ s. IsTheOne (IsProd true text.now) (written (tree_at terms.new) s))) }
    ensures within { IfOk result (λ o. IfSome o (IsBelow (length terms.new))) }
    ensures kept { (t : ℕ) → t < length terms.old → tree_at terms.new t ≡ tree_at terms.old t }
    ensures grows { length terms.old ≤ length terms.new }
{
    let Some((i, rest)) = spaced_place(terms.allocator(), text)? else {
        return Ok(None);
    };
    let Some((j, rest)) = spaced_place(terms.allocator(), rest)? else {
        return Ok(None);
    };
    match int_term(terms, rest)? {
        None => Ok(None),
        Some(p) => Ok(Some(Step::Prod(i, j, p))),
    }
}
