//! Names at the front of a text.
ghost use Rattle.std.specs.Prelude.{◌≡◌, IfOk, MatchOption, IsTrue, ◌↔◌, map, false};
ghost use Rattle.std.specs.Str.{chars};
ghost use Rattle.wy_data.specs.Words as words;
ghost use Rattle.wy_data.specs.Words.{IsName};
ghost use Rattle.wy_data.specs.scan.Front as front;
ghost use Rattle.wy_data.specs.scan.Words.{IsWord, IsWordAt, NoWord, IsNumberedAt, NoNumbered, AreFields, AreWords, rises};

use crate::scan::front::{behind, is_digit, run};
use crate::scan::numbers::natural;
use crate::{Name, is_keyword, is_part, is_start};
use std::alloc::{AllocError, Global};

// The characters of a text.
#[tactic(auto, using(std::proofs::lemmas::Str::chars_from_encodes))]
fn characters(alloc: Global, text: &str) -> Result<Vec<char>, AllocError>
    ensures value { IfOk result (λ cs. cs.items ≡ chars text.now) }
{
    text.chars().collect(alloc)
}

// Whether the bytes are those of a name of the language.
#[tactic(auto, using(crate::proofs::scan_lemmas::WordLemmas::name_steps))]
fn is_name(alloc: Global, word: &[u8]) -> Result<bool, AllocError>
    ensures value { IfOk result (λ b. IsTrue b ↔ IsName word.now) }
{
    if is_keyword(word) {
        return Ok(false);
    }
    match str::from_utf8(word) {
        Err(_) => Ok(false),
        Ok(text) => {
            let characters = characters(alloc, text)?;
            Ok(is_word(characters.as_slice()))
        }
    }
}

fn is_word(characters: &[char]) -> bool
    ensures value { result ≡ words.is_word characters.now }
{
    match characters {
        [] => false,
        [first, others @ ..] => is_start(*first) && all_parts(others),
    }
}

#[tactic(auto, using(crate::proofs::scan_lemmas::WordLemmas::part_steps))]
fn all_parts(characters: &[char]) -> bool
    ensures value { result ≡ words.all_parts characters.now }
{
    for c in characters {
        if !is_part(*c) {
            return false;
        }
    }
    true
}

fn starts_with_digit(text: &[u8]) -> bool
    ensures value { result ≡ front.heads front.is_digit text.now }
{
    match text {
        [] => false,
        [first, ..] => is_digit(*first),
    }
}

// Whether the bytes are a word.
#[tactic(auto, using(crate::proofs::scan_lemmas::WordLemmas::whole_word_steps))]
fn is_whole_word(alloc: Global, word: &[u8]) -> Result<bool, AllocError>
    ensures value { IfOk result (λ b. IsTrue b ↔ IsWord word.now) }
{
    if starts_with_digit(word) {
        return Ok(false);
    }
    let (_, rest) = run(word);
    if !rest.is_empty() {
        return Ok(false);
    }
    is_name(alloc, word)
}

/// The name that stands first, and what follows, in time linear in the bytes that could be its.
#[tactic(auto, using(crate::proofs::scan_lemmas::WordLemmas::word_steps))]
pub fn word(alloc: Global, text: &[u8]) -> Result<Option<(Name, &[u8])>, AllocError>
    ensures value { IfOk result (λ o. MatchOption o (NoWord text.now) (λ p. IsWordAt text.now p.0 p.1.now)) }
{
    let (front, rest) = run(text);
    if !is_whole_word(alloc, front)? {
        return Ok(None);
    }
    match str::from_utf8(front) {
        Ok(text) => Ok(Some((Name::new(String::from_str(alloc, text)?), rest))),
        Err(_) => Ok(None),
    }
}

/// The name, a sign and a number that stand first, and what follows.
#[tactic(auto, using(crate::proofs::scan_lemmas::WordLemmas::numbered_steps))]
pub fn numbered(
    alloc: Global,
    text: &[u8],
    sign: u8,
) -> Result<Option<(Name, u128, &[u8])>, AllocError>
    requires { front.is_word_byte sign ≡ false }
    ensures value { IfOk result (λ o. MatchOption o (NoNumbered sign text.now) (λ p. IsNumberedAt sign text.now p.0 p.1 p.2.now)) }
{
    match word(alloc, text)? {
        None => Ok(None),
        Some((word, rest)) => match behind(rest, &[sign]) {
            None => Ok(None),
            Some(rest) => match natural(alloc, rest)? {
                None => Ok(None),
                Some((number, rest)) => Ok(Some((word, number, rest))),
            },
        },
    }
}

/// Whether all are names of the language, and each stands before the next in the order of bytes, in time linear in their
/// bytes.
#[tactic(auto, using(crate::proofs::scan_lemmas::WordLemmas::field_steps))]
pub fn are_fields(alloc: Global, names: &[Name]) -> Result<bool, AllocError>
    ensures value { IfOk result (λ b. IsTrue b ↔ AreFields names.now) }
{
    if !rise(names) {
        return Ok(false);
    }
    are_words(alloc, names)
}

#[tactic(auto, using(crate::proofs::scan_lemmas::WordLemmas::list_steps))]
fn are_words(alloc: Global, names: &[Name]) -> Result<bool, AllocError>
    ensures value { IfOk result (λ b. IsTrue b ↔ AreWords names.now) }
{
    for name in names {
        if !is_whole_word(alloc, name.as_bytes())? {
            return Ok(false);
        }
    }
    Ok(true)
}

#[tactic(auto, using(crate::proofs::scan_lemmas::WordLemmas::rise_steps))]
fn rise(names: &[Name]) -> bool
    ensures value { result ≡ rises names.now }
{
    let last = names.len().saturating_sub(1);
    for k in 0..last {
        if !names[k].precedes(&names[k + 1]) {
            return false;
        }
    }
    true
}
