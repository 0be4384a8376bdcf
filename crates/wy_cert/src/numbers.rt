//! Numbers of a line, and pairs of a multiplier and a literal.
ghost use Rattle.std.specs.Prelude.{◌∷◌, [], IfOk, MatchOption};
ghost use Rattle.wy_cert.specs.Only.{IsTheOne, HasNone};
ghost use Rattle.wy_cert.specs.Numbers.{IsPlaceAt, NoPlace, NoSpacedPlace, NoLastPlace, IsMultiplierAt, NoMultiplier, IsPairAt, NoPair, ArePairs};

use std::alloc::Global;
use wy_data::scan::{behind, natural};
use wy_term_text::NoMemory;

/// The number of a literal or of a condition that stands first, and what follows.
#[tactic(auto, using(crate::proofs::NumberLemmas::place_steps))]
pub(crate) fn place(alloc: Global, text: &[u8]) -> Result<Option<(u32, &[u8])>, NoMemory>
    ensures value { IfOk result (λ o. MatchOption o (NoPlace text.now) (λ p. IsPlaceAt text.now p.0 p.1.now)) }
{
    match natural(alloc, text)? {
        None => Ok(None),
        Some((n, rest)) => {
            if n == 0 {
                return Ok(None);
            }
            if n > u32::MAX as u128 {
                return Ok(None);
            }
            Ok(Some((n as u32, rest)))
        }
    }
}

/// The same, where a space has to follow it, and what follows the space.
#[tactic(auto, using(crate::proofs::NumberLemmas::spaced_steps))]
pub(crate) fn spaced_place(alloc: Global, text: &[u8]) -> Result<Option<(u32, &[u8])>, NoMemory>
    ensures value { IfOk result (λ o. MatchOption o (NoSpacedPlace text.now) (λ p. IsPlaceAt text.now p.0 (32 ∷ p.1.now))) }
{
    match place(alloc, text)? {
        None => Ok(None),
        Some((n, rest)) => match behind(rest, b" ") {
            None => Ok(None),
            Some(more) => Ok(Some((n, more))),
        },
    }
}

/// The number of a literal or of a condition that the text is.
#[tactic(auto, using(crate::proofs::NumberLemmas::last_steps))]
pub(crate) fn last_place(alloc: Global, text: &[u8]) -> Result<Option<u32>, NoMemory>
    ensures value { IfOk result (λ o. MatchOption o (NoLastPlace text.now) (λ n. IsPlaceAt text.now n [])) }
{
    match place(alloc, text)? {
        None => Ok(None),
        Some((n, rest)) => {
            if rest.is_empty() {
                return Ok(Some(n));
            }
            Ok(None)
        }
    }
}

/// The multiplier or divisor that stands first, and what follows.
#[tactic(auto, using(crate::proofs::NumberLemmas::multiplier_steps))]
pub(crate) fn multiplier(alloc: Global, text: &[u8]) -> Result<Option<(u128, &[u8])>, NoMemory>
    ensures value { IfOk result (λ o. MatchOption o (NoMultiplier text.now) (λ p. IsMultiplierAt text.now p.0 p.1.now)) }
{
    match natural(alloc, text)? {
        None => Ok(None),
        Some((n, rest)) => {
            if n == 0 {
                return Ok(None);
            }
            Ok(Some((n, rest)))
        }
    }
}

// A space and a pair that stand first, and what follows.
#[tactic(auto, using(crate::proofs::NumberLemmas::pair_steps))]
fn pair(alloc: Global, text: &[u8]) -> Result<Option<(u128, u32, &[u8])>, NoMemory>
    ensures value { IfOk result (λ o. MatchOption o (NoPair text.now) (λ p. IsPairAt text.now p.0 p.1 p.2.now)) }
{
    let Some(start) = behind(text, b" ") else {
        return Ok(None);
    };
    let Some((m, rest)) = multiplier(alloc, start)? else {
        return Ok(None);
    };
    let Some(between) = behind(rest, b" ") else {
        return Ok(None);
    };
    match place(alloc, between)? {
        None => Ok(None),
        Some((i, rest)) => Ok(Some((m, i, rest))),
    }
}

/// The pairs that the text is, each with a space before it, in time linear in the text.
pub(crate) fn pairs(alloc: Global, text: &[u8]) -> Result<Option<Vec<(u128, u32)>>, NoMemory>
    ensures value { IfOk result (λ o. MatchOption o (HasNone (ArePairs text.now)) (λ ps. IsTheOne (ArePairs text.now) ps.items)) }
{
    let mut pairs = Vec::new(alloc);
    let mut rest = text;
    for _turn in 0..u64::MAX {
        if rest.is_empty() {
            return Ok(Some(pairs));
        }
        let Some((m, i, more)) = pair(alloc, rest)? else {
            return Ok(None);
        };
        pairs.push((m, i))?;
        rest = more;
    }
    Err(NoMemory)
}
