//! Sources.
ghost use Rattle.std.specs.Prelude.{◌≡◌, ◌≤◌, ◌<◌, ◌^◌, length, Ok, Err, IfOk, IfErr, true, ℕ, List};
ghost use Rattle.std.specs.Str.{IsValidUpTo, chars, encode_utf8_all};
ghost use Rattle.wy_lex.specs.declared.fault.LexFault.TheVariants.{BadChar, NotUtf8};
ghost use Rattle.wy_lex.specs.Lists.{EndsAt};
ghost use Rattle.wy_lex.specs.Reading as spec;
ghost use Rattle.wy_lex.specs.Source.{Answers, IsFirst, IsRefused, Leaves, Meets, MeetsNone, Tokens, answer, fault_at, fault_of, tokens_read};
ghost use Rattle.wy_lex.specs.Symbols as symbols;
ghost use Rattle.wy_reading.specs.Places as places;
ghost use Rattle.wy_reading.specs.Reader.{Reads, ReadsPart};

use crate::fault::{Kind, LexFault};
use crate::layout::{finished, first_state};
use crate::lexeme::{place, spelled};
use crate::pieces::{blanks, pieces};
use crate::symbol::Symbol;
use crate::token::Token;
use std::alloc::{AllocError, Global};
use wy_data::Bytes;
use wy_items::Items;
use wy_reading::Stop;

/// The tokens of a source, the last of which is `End`. Bytes that aren't UTF-8 are refused first, and of
/// the other faults the one that stands first is answered, at its place. Linear in the source.
pub fn tokens(alloc: Global, bytes: &[u8]) -> Result<Items<Token>, LexFault>
    requires { length bytes.now < 2 ^ 32 }
    ensures spells { IfOk result (λ ts. Tokens bytes.now ts) }
    ensures ended { IfOk result (λ ts. EndsAt (length bytes.now) ts) }
    ensures reads { (ts : List Token) → Tokens bytes.now ts → Answers (Ok ts) result }
    ensures fault { IfErr result (IsRefused bytes.now) }
    ensures first { IfErr result (IsFirst bytes.now) }
    ensures exact { (x : Kind) (at : ℕ) → Meets bytes.now x at → Answers (Err (fault_of x at)) result }
    ensures utf8 { (at : ℕ) → IsValidUpTo bytes.now at → Answers (Err (NotUtf8 at)) result }
    ensures bad_char { (at : ℕ) → Leaves bytes.now at → MeetsNone bytes.now → Answers (Err (BadChar at)) result }
{
    read(alloc, bytes)
}

// What the reader answers.
fn read(alloc: Global, bytes: &[u8]) -> Result<Items<Token>, LexFault>
    requires { length bytes.now < 2 ^ 32 }
    ensures value { Answers (tokens_read bytes.now) result }
{
    match str::from_utf8(bytes) {
        Ok(text) => match decoded(alloc, text) {
            Ok(symbols) => lexed(alloc, symbols.as_slice(), text.len() as u32),
            Err(_) => Err(LexFault::NoMemory),
        },
        Err(fault) => Err(LexFault::NotUtf8(fault.valid_up_to() as u32)),
    }
}

// The characters of the text, with their places.
#[tactic(auto, unfolding(crate::specs::Symbols::symbols))]
fn decoded(alloc: Global, text: &str) -> Result<Items<Symbol>, AllocError>
    requires { length text.now < 2 ^ 32 }
    ensures { IfOk result (λ s. s ≡ symbols.symbols text.now) }
{
    let characters = characters(alloc, text)?;
    with_places(alloc, characters.as_slice())
}

#[tactic(auto, using(std::proofs::lemmas::Str::chars_from_encodes))]
fn characters(alloc: Global, text: &str) -> Result<Items<char>, AllocError>
    ensures value { IfOk result (λ cs. cs ≡ chars text.now) }
    ensures bytes { IfOk result (λ cs. encode_utf8_all cs ≡ text.now) }
{
    let characters: Vec<char> = text.chars().collect(alloc)?;
    Ok(Items::from_vec(characters))
}

// The characters, the first of which stands at 0.
fn with_places(alloc: Global, characters: &[char]) -> Result<Items<Symbol>, AllocError>
    requires { length (encode_utf8_all characters.now) < 2 ^ 32 }
    ensures { IfOk result (λ s. s ≡ symbols.placed_from 0 characters.now) }
{
    let (mut symbols, mut at, mut rest) = (Items::new(alloc), 0u32, characters);
    for _turn in 0..characters.len() {
        let [first, behind @ ..] = rest else {
            return Ok(symbols);
        };
        let character = line_end(*first, behind);
        symbols.push(Symbol { character, at })?;
        at += first.len_utf8() as u32;
        rest = behind;
    }
    Ok(symbols)
}

// The character, and a line end for a carriage return that stands before a line feed.
fn line_end(c: char, behind: &[char]) -> char
    ensures { result ≡ symbols.line_end c behind.now }
{
    match behind {
        ['\n', ..] if c == '\r' => '\n',
        _ => c,
    }
}

// The tokens of the characters of a source of so many bytes.
fn lexed(alloc: Global, text: &[Symbol], size: u32) -> Result<Items<Token>, LexFault>
    ensures value { Answers (answer size text.now (spec.source size record { depth = 0; strict = true } text.now)) result }
{
    match source(alloc, text, size) {
        Ok((tokens, _)) => Ok(tokens),
        Err(stop) => Err(refusal(text, size, stop)),
    }
}

#[tactic(auto, unfolding(crate::specs::Reading::source))]
fn source(
    alloc: Global,
    text: &[Symbol],
    size: u32,
) -> Result<(Items<Token>, &[Symbol]), Stop<Kind>>
    ensures { Reads (spec.source size record { depth = 0; strict = true } text.now) result }
{
    let (indent, rest) = blanks(text)?;
    let indent = Bytes::new(spelled(alloc, indent)?.into_bytes());
    let (state, rest) = pieces(alloc, first_state(alloc, indent)?, rest)?;
    let tokens = finished(state, size)?;
    if !rest.is_empty() {
        return Err(Stop::Unexpected(rest.len()));
    }
    Ok((tokens, rest))
}

// The fault of a stop.
fn refusal(text: &[Symbol], size: u32, stop: Stop<Kind>) -> LexFault
    ensures { result ≡ fault_at size text.now stop }
{
    match stop {
        Stop::Unexpected(left) => LexFault::BadChar(offset(text, size, left)),
        Stop::Fault(Kind::BadEscape, left) => LexFault::BadChar(offset(text, size, left)),
        Stop::Fault(Kind::BadIndent, left) => LexFault::BadIndent(offset(text, size, left)),
        Stop::Fault(Kind::BadNumeral, left) => LexFault::BadNumeral(offset(text, size, left)),
        Stop::Fault(Kind::OpenComment, left) => LexFault::OpenComment(offset(text, size, left)),
        Stop::NoMemory => LexFault::NoMemory,
    }
}

// Where the last so many characters begin.
fn offset(text: &[Symbol], size: u32, left: usize) -> u32
    ensures { result ≡ symbols.offset size text.now left }
{
    match text.get(text.len().saturating_sub(left)) {
        Some(first) => first.at,
        None => size,
    }
}
