//! What is read without brackets: spaces, numbers, words and names.
ghost use Rattle.std.specs.Prelude.{◌≡◌, ◌≤◌, ◌<◌, ℕ, true, false, pos, length, IfOk, MatchOption, string_bytes};
ghost use Rattle.std.specs.Str.{encode_utf8_all};
ghost use Rattle.wy_reading.specs.Reader.{Reads, ReadsPart};
ghost use Rattle.wy_value.specs.Grammar.{may_name};
ghost use Rattle.wy_value.specs.Numbers as numbers;
ghost use Rattle.wy_value.specs.Reading as spec;

use crate::bounds::{INT_MAX, INT_MIN};
use crate::character::Character;
use crate::fault::Kind;
use crate::fields::FieldMap;
use crate::value::Value;
use std::alloc::{AllocError, Global};
use wy_data::{Name, is_keyword};
use wy_reading::{Stop, next_is, one, skip, spelled, word};

/// The spaces that stand first.
#[tactic(auto, unfolding(crate::specs::Reading::spaces))]
pub fn spaces(text: &[char]) -> Result<((), &[char]), Stop<Kind>>
    ensures { Reads (spec.spaces text.now) result }
{
    skip(text, Character::Space)
}

/// The character, and the spaces behind it.
#[tactic(auto, unfolding(crate::specs::Reading::mark))]
pub fn mark(text: &[char], c: char) -> Result<((), &[char]), Stop<Kind>>
    ensures { Reads (spec.mark c text.now) result }
{
    let (_, rest) = one(text, Character::Is(c))?;
    spaces(rest)
}

/// A value without brackets.
#[tactic(auto, unfolding(crate::specs::Reading::flat))]
pub fn flat(text: &[char]) -> Result<(Value, &[char]), Stop<Kind>>
    ensures { Reads (spec.flat true text.now) result }
{
    if next_is(text, Character::Number) {
        let (number, rest) = int(text)?;
        return Ok((Value::Int(number), rest));
    }
    if next_is(text, Character::Is('n')) {
        return literal(text, ['n', 'u', 'l', 'l'].as_slice(), Value::Null);
    }
    if next_is(text, Character::Is('t')) {
        return literal(text, ['t', 'r', 'u', 'e'].as_slice(), Value::Bool(true));
    }
    literal(
        text,
        ['f', 'a', 'l', 's', 'e'].as_slice(),
        Value::Bool(false),
    )
}

#[tactic(auto, unfolding(crate::specs::Reading::literal))]
fn literal<'a>(
    text: &'a [char],
    word: &[char],
    value: Value,
) -> Result<(Value, &'a [char]), Stop<Kind>>
    ensures { Reads (spec.literal word.now value text.now) result }
{
    let (_, rest) = spelled(text, word)?;
    Ok((value, rest))
}

#[tactic(auto, unfolding(crate::specs::Reading::digits))]
fn digits(text: &[char]) -> Result<(&[char], &[char]), Stop<Kind>>
    ensures { ReadsPart (spec.digits text.now) result }
{
    word(text, Character::Digit, Character::Digit)
}

#[tactic(auto, unfolding(crate::specs::Reading::int, crate::specs::Reading::number))]
fn int(text: &[char]) -> Result<(i128, &[char]), Stop<Kind>>
    ensures { Reads (spec.int true text.now) result }
{
    if next_is(text, Character::Digit) {
        let (digits, rest) = digits(text)?;
        return match plain(digits) {
            Some(number) => Ok((number, rest)),
            None => Err(Stop::Fault(Kind::Range, text.len())),
        };
    }
    let (_, rest) = one(text, Character::Is('-'))?;
    let (digits, rest) = self::digits(rest)?;
    match negated(digits) {
        Some(number) => Ok((number, rest)),
        None => Err(Stop::Fault(Kind::Range, text.len())),
    }
}

fn plain(digits: &[char]) -> Option<i128>
    ensures { MatchOption result (numbers.is_int (numbers.plain digits.now) ≡ false)
        (λ n. (n ≡ numbers.plain digits.now) × (numbers.is_int (numbers.plain digits.now) ≡ true)) }
{
    match magnitude(digits) {
        Some(number) if number <= INT_MAX as u128 => Some(number as i128),
        _ => None,
    }
}

fn negated(digits: &[char]) -> Option<i128>
    ensures { MatchOption result (numbers.is_int (numbers.negated digits.now) ≡ false)
        (λ n. (n ≡ numbers.negated digits.now) × (numbers.is_int (numbers.negated digits.now) ≡ true)) }
{
    match magnitude(digits) {
        Some(number) => Some(-(number as i128)),
        None => None,
    }
}

/// How far an `int` is from 0 at most.
const FARTHEST: u128 = (-INT_MIN) as u128;

// The number that the digits write, where it is no farther.
#[tactic(auto, using(crate::proofs::NumberLemmas::number_grows))]
fn magnitude(digits: &[char]) -> Option<u128>
    ensures { MatchOption result (FARTHEST < numbers.number_from 0 digits.now)
        (λ n. (n ≡ numbers.number_from 0 digits.now) × (n ≤ FARTHEST)) }
{
    let mut number = 0u128;
    for digit in digits {
        if number > FARTHEST {
            return None;
        }
        number = number * 10 + u128::from((*digit as u32).saturating_sub(48));
    }
    if number > FARTHEST {
        return None;
    }
    Some(number)
}

/// A name that none of the fields has.
#[tactic(auto, unfolding(crate::specs::Reading::new_name, crate::specs::Reading::name))]
pub fn new_name<'a>(
    alloc: Global,
    text: &'a [char],
    fields: &FieldMap,
) -> Result<(Name, &'a [char]), Stop<Kind>>
    ensures { Reads (spec.new_name true fields.now text.now) result }
{
    let (word, rest) = word(text, Character::Start, Character::Part)?;
    let name = encoded(alloc, word)?;
    if is_keyword(name.as_bytes()) {
        return Err(Stop::Unexpected(rest.len()));
    }
    if fields.has(&name) {
        return Err(Stop::Fault(Kind::Twice, text.len()));
    }
    Ok((name, rest))
}

// The name with these characters.
#[tactic(auto, using(crate::proofs::OffsetLemmas::encoded_next))]
fn encoded(alloc: Global, word: &[char]) -> Result<Name, AllocError>
    ensures { IfOk result (λ name. name ≡ encode_utf8_all word.now) }
{
    let mut text = String::new(alloc);
    for c in word {
        text.push(*c)?;
    }
    Ok(Name::new(text))
}
