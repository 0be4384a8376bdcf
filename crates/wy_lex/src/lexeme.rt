//! Words, literals and symbols.
ghost use Rattle.std.specs.Prelude.{◌≡◌, ◌≤◌, Ok, IfOk, MatchOption, string_bytes, pos, true, false, length};
ghost use Rattle.wy_lex.specs.Grammar as grammar;
ghost use Rattle.wy_lex.specs.Kinds as kinds;
ghost use Rattle.wy_lex.specs.Reading as spec;
ghost use Rattle.wy_lex.specs.Symbols as symbols;
ghost use Rattle.wy_reading.specs.Reader.{Reads, ReadsPart};

use crate::fault::Kind;
use crate::symbol::{Character, Symbol};
use crate::token::TokenKind;
use crate::words::{double, escaped, second, single, third};
use std::alloc::{AllocError, Global};
use wy_data::Bytes;
use wy_items::Items;
use wy_reading::{Stop, next_is, one, word};

/// A token that was read, and what would lengthen it.
#[derive(Debug, Drop)]
pub struct Lexeme {
    pub kind: TokenKind,
    pub at: u32,
    pub more: Character,
}

/// A literal or a symbol, but for the slash.
#[tactic(auto, unfolding(crate::specs::Reading::other))]
pub fn other(alloc: Global, text: &[Symbol]) -> Result<(Lexeme, &[Symbol]), Stop<Kind>>
    ensures { Reads (spec.other true text.now) result }
{
    if next_is(text, Character::Digit) {
        return numeral(text);
    }
    if next_is(text, Character::Is('"')) {
        return string(alloc, text);
    }
    sign(text)
}

#[tactic(auto, unfolding(crate::specs::Reading::numeral_lexeme))]
fn numeral(text: &[Symbol]) -> Result<(Lexeme, &[Symbol]), Stop<Kind>>
    ensures { Reads (spec.numeral_lexeme true text.now) result }
{
    let (digits, rest) = word(text, Character::Digit, Character::Part)?;
    match number(digits) {
        Some(number) => Ok((
            Lexeme {
                kind: TokenKind::Numeral(number),
                at: place(digits),
                more: Character::Part,
            },
            rest,
        )),
        None => Err(Stop::Fault(Kind::BadNumeral, text.len())),
    }
}

/// The greatest number that a numeral may write.
const GREATEST: i128 = 1 << 95;

// The number that the digits write, if they are digits and it isn't too large.
#[tactic(auto, using(crate::proofs::TextLemmas::number_grows, crate::proofs::TextLemmas::too_large))]
fn number(digits: &[Symbol]) -> Option<i128>
    ensures { MatchOption result (grammar.is_number digits.now ≡ false)
        (λ n. (n ≡ kinds.numeral (symbols.codes_of digits.now)) × (grammar.is_number digits.now ≡ true)) }
{
    let mut number = 0u128;
    for digit in digits {
        if number > GREATEST as u128 {
            return None;
        }
        if !digit.character.is_ascii_digit() {
            return None;
        }
        number = number * 10 + u128::from((digit.character as u32).saturating_sub(48));
    }
    if number > GREATEST as u128 {
        return None;
    }
    Some(number as i128)
}

/// Where the characters begin; 0 if there are none.
pub fn place(text: &[Symbol]) -> u32
    ensures { result ≡ symbols.place text.now }
{
    match text {
        [] => 0,
        [first, ..] => first.at,
    }
}

/// The text of the characters.
#[tactic(auto, using(crate::proofs::TextLemmas::spelled_next))]
pub fn spelled(alloc: Global, text: &[Symbol]) -> Result<String, AllocError>
    ensures { IfOk result (λ s. string_bytes s ≡ symbols.bytes_of text.now) }
{
    let mut spelled = String::new(alloc);
    for symbol in text {
        spelled.push(symbol.character)?;
    }
    Ok(spelled)
}

#[tactic(auto, unfolding(crate::specs::Reading::text))]
fn string(alloc: Global, text: &[Symbol]) -> Result<(Lexeme, &[Symbol]), Stop<Kind>>
    ensures { Reads (spec.text text.now) result }
{
    let (quote, rest) = one(text, Character::Is('"'))?;
    let (codes, rest) = inside(alloc, rest)?;
    let (_, rest) = one(rest, Character::Is('"'))?;
    Ok((
        Lexeme {
            kind: TokenKind::Text(Bytes::new(Vec::from_slice(alloc, codes.as_slice())?)),
            at: quote.at,
            more: Character::Nothing,
        },
        rest,
    ))
}

// The codes of a string.
#[tactic(auto, using(wy_reading::proofs::Turns::reader_steps), unfolding(crate::specs::Reading::inside))]
fn inside(alloc: Global, text: &[Symbol]) -> Result<(Items<u8>, &[Symbol]), Stop<Kind>>
    ensures { Reads (spec.inside text.now) result }
{
    let (mut codes, mut rest) = (Items::new(alloc), text);
    for _turn in 0..text.len() {
        if !next_is(rest, Character::Inside) {
            return Ok((codes, rest));
        }
        let (more, after) = further(codes, rest)?;
        codes = more;
        rest = after;
    }
    Ok((codes, rest))
}

fn further(mut codes: Items<u8>, text: &[Symbol]) -> Result<(Items<u8>, &[Symbol]), Stop<Kind>>
    ensures { Reads (spec.further codes text.now) result }
{
    let (code, rest) = unit(text)?;
    codes.push(code)?;
    Ok((codes, rest))
}

// A character of a string, by its code.
#[tactic(auto, unfolding(crate::specs::Reading::unit_of))]
fn unit(text: &[Symbol]) -> Result<(u8, &[Symbol]), Stop<Kind>>
    ensures { Reads (spec.unit_of text.now) result }
{
    if !next_is(text, Character::Plain) {
        return escape(text);
    }
    let (plain, rest) = one(text, Character::Plain)?;
    Ok((plain.character as u8, rest))
}

#[tactic(auto, unfolding(crate::specs::Reading::escape))]
fn escape(text: &[Symbol]) -> Result<(u8, &[Symbol]), Stop<Kind>>
    ensures { Reads (spec.escape text.now) result }
{
    let (_, behind) = one(text, Character::Is('\\'))?;
    match behind {
        [] => Err(Stop::Fault(Kind::BadEscape, text.len())),
        [first, rest @ ..] => match escaped(first.character) {
            Some(code) => Ok((code, rest)),
            None => Err(Stop::Fault(Kind::BadEscape, text.len())),
        },
    }
}

// A symbol, as long as it can be.
#[tactic(auto, unfolding(crate::specs::Reading::sign))]
fn sign(text: &[Symbol]) -> Result<(Lexeme, &[Symbol]), Stop<Kind>>
    ensures { Reads (spec.sign text.now) result }
{
    let (first, rest) = one(text, Character::Sign)?;
    let at = first.at;
    let (more, longest) = (second(first.character), third(first.character));
    if !next_is(rest, more) {
        let kind = single(first.character);
        return Ok((Lexeme { kind, at, more }, rest));
    }
    let (_, rest) = one(rest, more)?;
    if !next_is(rest, longest) {
        let kind = double(first.character);
        return Ok((
            Lexeme {
                kind,
                at,
                more: longest,
            },
            rest,
        ));
    }
    let (_, rest) = one(rest, longest)?;
    Ok((
        Lexeme {
            kind: TokenKind::Implies,
            at,
            more: Character::Nothing,
        },
        rest,
    ))
}
