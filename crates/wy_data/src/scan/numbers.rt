//! Numbers at the front of a text.
ghost use Rattle.std.specs.Prelude.{◌≡◌, ◌≤◌, IfOk, MatchOption, length, take, drop};
ghost use Rattle.wy_data.specs.scan.Numbers.{IsNaturalAt, NoNatural, IsWholeAt, NoWhole, IsDecimal, NotDecimal, IsSigned, NotSigned, IsSignedRun};

use crate::same_bytes;
use crate::scan::front::digits;
use std::alloc::{AllocError, Global};

/// The number from 0 to 2^127 - 1 whose decimal digits stand first, with no zero before them, and what follows, in time
/// linear in the digits.
#[tactic(auto, using(crate::proofs::scan_lemmas::NumberLemmas::natural_steps))]
pub fn natural(alloc: Global, text: &[u8]) -> Result<Option<(u128, &[u8])>, AllocError>
    ensures value { IfOk result (λ o. MatchOption o (NoNatural text.now) (λ p. IsNaturalAt text.now p.0 p.1.now)) }
{
    let (front, rest) = digits(text);
    match unsigned(alloc, front)? {
        None => Ok(None),
        Some(number) => Ok(Some((number, rest))),
    }
}

// The number from 0 to 2^127 - 1 that is written so.
#[tactic(auto, using(crate::proofs::scan_lemmas::NumberLemmas::unsigned_steps))]
fn unsigned(alloc: Global, front: &[u8]) -> Result<Option<u128>, AllocError>
    ensures value { IfOk result (λ o. MatchOption o (NotDecimal front.now) (λ n. IsDecimal front.now n)) }
{
    let Ok(front) = str::from_utf8(front) else {
        return Ok(None);
    };
    let Ok(number) = front.parse::<u128>() else {
        return Ok(None);
    };
    if number >= 0x8000_0000_0000_0000_0000_0000_0000_0000 {
        return Ok(None);
    }
    let written = format!(in alloc; "{number}")?;
    if same_bytes(written.as_bytes(), front.as_bytes()) {
        Ok(Some(number))
    } else {
        Ok(None)
    }
}

/// Likewise from -2^127 to 2^127 - 1, with a minus before the digits of a number below 0.
#[tactic(auto, using(crate::proofs::scan_lemmas::NumberLemmas::whole_steps))]
pub fn whole(alloc: Global, text: &[u8]) -> Result<Option<(i128, &[u8])>, AllocError>
    ensures value { IfOk result (λ o. MatchOption o (NoWhole text.now) (λ p. IsWholeAt text.now p.0 p.1.now)) }
{
    let front = sign_and_digits(text);
    match signed(alloc, &text[..front])? {
        None => Ok(None),
        Some(number) => Ok(Some((number, &text[front..]))),
    }
}

// How many bytes a minus and the digits behind it have, or the digits that stand first.
#[tactic(auto, using(crate::proofs::scan_lemmas::NumberLemmas::sign_steps))]
fn sign_and_digits(text: &[u8]) -> usize
    ensures within { result ≤ length text.now }
    ensures value { IsSignedRun (take result text.now) (drop result text.now) }
{
    match text {
        [45, more @ ..] => {
            let (front, _) = digits(more);
            front.len() + 1
        }
        _ => {
            let (front, _) = digits(text);
            front.len()
        }
    }
}

// The number from -2^127 to 2^127 - 1 that is written so.
#[tactic(auto, using(crate::proofs::scan_lemmas::NumberLemmas::signed_steps))]
fn signed(alloc: Global, front: &[u8]) -> Result<Option<i128>, AllocError>
    ensures value { IfOk result (λ o. MatchOption o (NotSigned front.now) (λ z. IsSigned front.now z)) }
{
    let Ok(front) = str::from_utf8(front) else {
        return Ok(None);
    };
    let Ok(number) = front.parse::<i128>() else {
        return Ok(None);
    };
    let spelled = format!(in alloc; "{number}")?;
    if same_bytes(spelled.as_bytes(), front.as_bytes()) {
        Ok(Some(number))
    } else {
        Ok(None)
    }
}
