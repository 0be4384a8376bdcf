//! Argument texts.
ghost use Rattle.std.specs.Str.{all_scalars};
ghost use Rattle.std.specs.Prelude.{◌≡◌, ◌≤◌, ◌<◌, ◌^◌, ℕ, List, length, Ok, Err, IfOk, IfErr, true};
ghost use Rattle.wy_reading.specs.Places as places;
ghost use Rattle.wy_reading.specs.Reader.{Reads};
ghost use Rattle.wy_value.specs.ArgumentText.{Answers, AreRefused, AreText, IsRefused, Meets, MeetsAt, Spells, fault_at, fault_of, offset, symbols};
ghost use Rattle.wy_value.specs.Reading as spec;
ghost use Rattle.wy_value.specs.Seen.{seen_items};
ghost use Rattle.wy_value.specs.Values.{AreValues};

use crate::character::Character;
use crate::fault::{Kind, ValueFault};
use crate::flat::mark;
use crate::nested::elems;
use crate::value::Value;
use std::alloc::{AllocError, Global};
use wy_reading::{Items, Stop, one};

/// The values that an argument text spells, as `(1, [true, null], {x: -5})`. Between tokens spaces may
/// stand, but none before the first and behind the last bracket; numbers may have leading zeros, and
/// fields stand in any order. Brackets nest 100 deep, the outer round pair not counted. Of the faults in
/// a text the first is answered, at its byte. Linear in the text, but for a record of n fields, whose
/// names take O(n log n) comparisons.
pub fn read_values(alloc: Global, text: &[u8]) -> Result<Items<Value>, ValueFault>
    ensures spells { IfOk result (λ vs. Spells text.now vs) }
    ensures values { IfOk result (λ vs. AreValues (seen_items vs)) }
    ensures reads { (vs : List Value) → Spells text.now vs → Answers (Ok vs) result }
    ensures fault { IfErr result (IsRefused text.now) }
    ensures exact { (x : Kind) (at : ℕ) → Meets text.now x at → Answers (Err (fault_of x at)) result }
{
    match decoded(alloc, text) {
        Ok(characters) => values(alloc, characters.as_slice()),
        Err(_) => Err(ValueFault::NoMemory),
    }
}

// The values that the characters spell.
fn values(alloc: Global, text: &[char]) -> Result<Items<Value>, ValueFault>
    requires scalars { all_scalars text.now ≡ true }
    requires within { length text.now < 2 ^ 63 }
    ensures spells { IfOk result (λ vs. AreText text.now vs) }
    ensures values { IfOk result (λ vs. AreValues (seen_items vs)) }
    ensures reads { (vs : List Value) → AreText text.now vs → Answers (Ok vs) result }
    ensures fault { IfErr result (AreRefused text.now) }
    ensures exact { (x : Kind) (at : ℕ) → MeetsAt text.now x at → Answers (Err (fault_of x at)) result }
{
    match arguments(alloc, text, 100) {
        Ok((values, _)) => Ok(values),
        Err(stop) => Err(refusal(text, stop)),
    }
}

// The characters of the text.
#[tactic(auto, using(std::proofs::lemmas::Str::chars_from_encodes, crate::proofs::OffsetLemmas::decoded_scalars), unfolding(crate::specs::ArgumentText::symbols))]
fn decoded(alloc: Global, text: &[u8]) -> Result<Items<char>, AllocError>
    ensures value { IfOk result (λ cs. cs ≡ symbols text.now) }
    ensures scalars { IfOk result (λ cs. all_scalars cs ≡ true) }
    ensures within { IfOk result (λ cs. length cs < 2 ^ 63) }
{
    let text = String::from_utf8_lossy(alloc, text)?;
    let characters: Vec<char> = text.chars().collect(alloc)?;
    Ok(Items::from_vec(characters))
}

#[tactic(auto, unfolding(crate::specs::Reading::text))]
fn arguments(
    alloc: Global,
    text: &[char],
    depth: usize,
) -> Result<(Items<Value>, &[char]), Stop<Kind>>
    ensures { Reads (spec.text record { depth = depth; strict = true } text.now) result }
{
    let (_, rest) = mark(text, '(')?;
    let (all, rest) = elems(alloc, rest, depth)?;
    let (_, rest) = one(rest, Character::Is(')'))?;
    if !rest.is_empty() {
        return Err(Stop::Unexpected(rest.len()));
    }
    Ok((all, rest))
}

// The fault that a stop is, with its place counted from the front.
fn refusal(text: &[char], stop: Stop<Kind>) -> ValueFault
    requires { places.Within (length text.now) stop }
    ensures { result ≡ fault_at text.now stop }
{
    match stop {
        Stop::Unexpected(left) => ValueFault::Shape(bytes_before(text, left)),
        Stop::Fault(Kind::Range, left) => ValueFault::Range(bytes_before(text, left)),
        Stop::Fault(Kind::Deep, left) => ValueFault::Deep(bytes_before(text, left)),
        Stop::Fault(Kind::Twice, left) => ValueFault::Shape(bytes_before(text, left)),
        Stop::NoMemory => ValueFault::NoMemory,
    }
}

// How many bytes stand before the last `left` characters.
#[tactic(auto, unfolding(crate::specs::ArgumentText::offset))]
fn bytes_before(text: &[char], left: usize) -> u64
    requires { left ≤ length text.now }
    ensures { result ≡ offset text.now left }
{
    let mut bytes = 0;
    for c in &text[..text.len() - left] {
        bytes += c.len_utf8() as u64;
    }
    bytes
}
