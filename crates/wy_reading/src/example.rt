//! An example: numbers and lists of them, read whole.
//!
//! The grammar is `item = digits | '[' [ item { ',' item } ] ']'`, and a text spells its numbers in
//! order. `specs/ListGrammar.antt` has it as rules and `specs/ListReading.antt` as readers; here each
//! reader is a function; `proofs/ListsExact.antt` has a line for each rule, and `specs/ListText.antt`
//! what the call promises.
ghost use Rattle.std.specs.Prelude.{◌≡◌, ◌<◌, ◌+◌, ℕ, List, Ok, Err, IfErr, IfOk, MatchOption, length, false, true, ◌&&◌};
ghost use Rattle.wy_reading.specs.ListGrammar as grammar;
ghost use Rattle.wy_reading.specs.ListReading as spec;
ghost use Rattle.wy_reading.specs.ListText.{Answers, IsRefused, Meets, Spells, fault_at, fault_of};
ghost use Rattle.wy_reading.specs.Places as places;
ghost use Rattle.wy_reading.specs.Reader.{Reads};

use crate::stop::Stop;
use crate::symbols::{Class, next_is, one, word};
use std::alloc::Global;
use wy_items::Items;

/// What a rule of the grammar refuses.
#[derive(Clone, Copy, Debug, PartialEq, Eq)]
pub enum Kind {
    /// A number above 255, at its first digit, as in `[1,256]`.
    TooLarge,
    /// A list nested too deep, at its bracket.
    Deep,
}

/// Why bytes are no text of numbers, with the offset where the fault stands.
#[derive(Clone, Copy, Debug, PartialEq, Eq)]
pub enum Fault {
    /// The first byte after which no text goes on, as the `,` in `[,`; the end counts as a byte.
    Unexpected(usize),
    TooLarge(usize),
    Deep(usize),
    NoMemory,
}

/// A class of bytes.
#[derive(Clone, Copy)]
pub enum Byte {
    Digit,
    /// What begins an item.
    Item,
    Is(u8),
}

impl Class<u8> for Byte {
    ghost use Rattle.wy_reading.specs.ListGrammar as grammar;

    ghost has = { grammar.has };

    fn has(&self, byte: u8) -> bool {
        match self {
            Byte::Digit => byte.is_ascii_digit(),
            Byte::Item => byte.is_ascii_digit() || byte == b'[',
            Byte::Is(c) => byte == *c,
        }
    }
}

/// The numbers that the text spells, with lists nested no deeper than `depth`. Linear in the text.
pub fn numbers(alloc: Global, text: &[u8], depth: usize) -> Result<Items<u8>, Fault>
    ensures spells { IfOk result (λ ns. Spells depth text.now ns) }
    ensures reads { (ns : List ℕ) → Spells depth text.now ns → Answers (Ok ns) result }
    ensures fault { IfErr result (IsRefused depth text.now) }
    ensures exact { (x : Kind) (at : ℕ) → Meets depth text.now x at → Answers (Err (fault_of x at)) result }
{
    match whole(alloc, text, depth) {
        Ok((numbers, _)) => Ok(numbers),
        Err(stop) => Err(refusal(text, stop)),
    }
}

// The fault of a stop, with its place counted from the front.
fn refusal(text: &[u8], stop: Stop<Kind>) -> Fault
    requires { places.Within (length text.now) stop }
    ensures { result ≡ fault_at text.now stop }
{
    match stop {
        Stop::Unexpected(left) => Fault::Unexpected(text.len() - left),
        Stop::Fault(Kind::TooLarge, left) => Fault::TooLarge(text.len() - left),
        Stop::Fault(Kind::Deep, left) => Fault::Deep(text.len() - left),
        Stop::NoMemory => Fault::NoMemory,
    }
}

#[tactic(auto, unfolding(crate::specs::ListReading::text))]
fn whole(alloc: Global, text: &[u8], depth: usize) -> Result<(Items<u8>, &[u8]), Stop<Kind>>
    ensures { Reads (spec.text record { depth = depth; strict = true } text.now) result }
{
    let (numbers, rest) = item(alloc, text, depth)?;
    if !rest.is_empty() {
        return Err(Stop::Unexpected(rest.len()));
    }
    Ok((numbers, rest))
}

#[cycle(item)]
#[tactic(auto, using(crate::proofs::ListLevels::levels), unfolding(crate::specs::ListReading::item_in))]
fn item(alloc: Global, text: &[u8], depth: usize) -> Result<(Items<u8>, &[u8]), Stop<Kind>>
    ensures { Reads (spec.item_in depth true text.now) result }
{
    if !next_is(text, Byte::Is(b'[')) {
        return plain(alloc, text);
    }
    if depth == 0 {
        return Err(Stop::Fault(Kind::Deep, text.len()));
    }
    bracketed(alloc, text, depth - 1)
}

#[cycle(item)]
#[tactic(auto, unfolding(crate::specs::ListReading::bracketed))]
fn bracketed(alloc: Global, text: &[u8], depth: usize) -> Result<(Items<u8>, &[u8]), Stop<Kind>>
    ensures { Reads (spec.bracketed (spec.item_in depth true) text.now) result }
{
    let (_, rest) = one(text, Byte::Is(b'['))?;
    let (numbers, rest) = items(alloc, rest, depth)?;
    let (_, rest) = one(rest, Byte::Is(b']'))?;
    Ok((numbers, rest))
}

#[cycle(item)]
#[tactic(auto, using(crate::proofs::Turns::reader_steps), unfolding(crate::specs::ListReading::items))]
fn items(alloc: Global, text: &[u8], depth: usize) -> Result<(Items<u8>, &[u8]), Stop<Kind>>
    ensures { Reads (spec.items (spec.item_in depth true) text.now) result }
{
    if !next_is(text, Byte::Item) {
        return Ok((Items::new(alloc), text));
    }
    let (mut all, mut rest) = item(alloc, text, depth)?;
    for _turn in 0..rest.len() {
        if !next_is(rest, Byte::Is(b',')) {
            return Ok((all, rest));
        }
        let (more, after) = next(alloc, all, rest, depth)?;
        all = more;
        rest = after;
    }
    Ok((all, rest))
}

#[cycle(item)]
fn next<'a>(
    alloc: Global,
    mut all: Items<u8>,
    text: &'a [u8],
    depth: usize,
) -> Result<(Items<u8>, &'a [u8]), Stop<Kind>>
    ensures { Reads (spec.next (spec.item_in depth true) all text.now) result }
{
    let (_, rest) = one(text, Byte::Is(b','))?;
    let (more, rest) = item(alloc, rest, depth)?;
    all.append(more)?;
    Ok((all, rest))
}

#[tactic(auto, unfolding(crate::specs::ListReading::plain))]
fn plain(alloc: Global, text: &[u8]) -> Result<(Items<u8>, &[u8]), Stop<Kind>>
    ensures { Reads (spec.plain true text.now) result }
{
    let (number, rest) = number(text)?;
    let mut all = Items::new(alloc);
    all.push(number)?;
    Ok((all, rest))
}

#[tactic(auto, unfolding(crate::specs::ListReading::number))]
fn number(text: &[u8]) -> Result<(u8, &[u8]), Stop<Kind>>
    ensures { Reads (spec.number true text.now) result }
{
    let (digits, rest) = word(text, Byte::Digit, Byte::Digit)?;
    match small(digits) {
        Some(number) => Ok((number, rest)),
        None => Err(Stop::Fault(Kind::TooLarge, text.len())),
    }
}

// The number that the digits write, if it is small.
#[tactic(auto, using(crate::proofs::ListLevels::number_grows))]
fn small(digits: &[u8]) -> Option<u8>
    ensures { MatchOption result (grammar.is_small (grammar.number_from 0 digits.now) ≡ false)
        (λ n. (n ≡ grammar.number_from 0 digits.now) × (grammar.is_small (grammar.number_from 0 digits.now) ≡ true)) }
{
    let mut number = 0u32;
    for digit in digits {
        if number > 255 {
            return None;
        }
        number = number * 10 + u32::from(digit.saturating_sub(48));
    }
    if number > 255 {
        return None;
    }
    Some(number as u8)
}
