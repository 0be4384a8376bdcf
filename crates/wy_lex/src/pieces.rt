//! Pieces of a source: what is read at once.
ghost use Rattle.std.specs.Prelude.{◌≡◌, ◌≤◌, length, Ok, IfOk, true};
ghost use Rattle.wy_lex.specs.Reading as spec;
ghost use Rattle.wy_reading.specs.Reader.{Reads, ReadsPart};

use crate::comment::{Solidus, slash};
use crate::fault::Kind;
use crate::layout::{State, broken, may_stand, passed, placed};
use crate::lexeme::{other, place, spelled};
use crate::symbol::{Character, Symbol};
use crate::token::TokenKind;
use crate::words::{continues, word_kind};
use std::alloc::Global;
use wy_data::{Bytes, Name};
use wy_reading::{Class, Stop, next_is, one, skip, word};

/// All pieces that stand first.
#[tactic(auto, using(wy_reading::proofs::Turns::reader_steps), unfolding(crate::specs::Reading::pieces))]
pub fn pieces(
    alloc: Global,
    state: State,
    text: &[Symbol],
) -> Result<(State, &[Symbol]), Stop<Kind>>
    requires { state.depth ≤ length state.made }
    ensures { Reads (spec.pieces true state text.now) result }
{
    let (mut state, mut rest) = (state, text);
    for _turn in 0..text.len() {
        if !next_is(rest, Character::Piece) {
            return Ok((state, rest));
        }
        match piece(alloc, state, rest) {
            Ok((further, after)) => {
                state = further;
                rest = after;
            }
            Err(stop) => return Err(stop),
        }
    }
    Ok((state, rest))
}

#[tactic(auto, unfolding(crate::specs::Reading::piece, crate::specs::Reading::other_piece))]
fn piece(alloc: Global, state: State, text: &[Symbol]) -> Result<(State, &[Symbol]), Stop<Kind>>
    requires { state.depth ≤ length state.made }
    ensures reads { Reads (spec.piece true state text.now) result }
    ensures counted { IfOk result (λ r. r.0.depth ≤ length r.0.made) }
{
    if next_is(text, Character::Start) {
        return word_piece(alloc, state, text);
    }
    if next_is(text, Character::Other) {
        if !may_stand(&state) {
            return Err(Stop::Fault(Kind::BadIndent, text.len()));
        }
        let (lexeme, rest) = other(alloc, text)?;
        let state = placed(alloc, state, lexeme.kind, lexeme.at, lexeme.more)?;
        return Ok((state, rest));
    }
    if next_is(text, Character::Is('/')) {
        return slash_piece(alloc, state, text);
    }
    if next_is(text, Character::Blank) {
        return gap(state, text);
    }
    break_piece(alloc, state, text)
}

#[tactic(auto, unfolding(crate::specs::Reading::word_piece))]
fn word_piece(
    alloc: Global,
    state: State,
    text: &[Symbol],
) -> Result<(State, &[Symbol]), Stop<Kind>>
    requires { state.depth ≤ length state.made }
    ensures reads { Reads (spec.word_piece true state text.now) result }
    ensures counted { IfOk result (λ r. r.0.depth ≤ length r.0.made) }
{
    let (word, rest) = word(text, Character::Start, Character::Part)?;
    let kind = word_kind(Name::new(spelled(alloc, word)?));
    if !may_stand(&state) && !continues(&kind) {
        return Err(Stop::Fault(Kind::BadIndent, text.len()));
    }
    let state = placed(alloc, state, kind, place(word), Character::Part)?;
    Ok((state, rest))
}

#[tactic(auto, unfolding(crate::specs::Reading::slash_piece))]
fn slash_piece(
    alloc: Global,
    state: State,
    text: &[Symbol],
) -> Result<(State, &[Symbol]), Stop<Kind>>
    requires { state.depth ≤ length state.made }
    ensures reads { Reads (spec.slash_piece true state text.now) result }
    ensures counted { IfOk result (λ r. r.0.depth ≤ length r.0.made) }
{
    let ((what, at), rest) = slash(text)?;
    match what {
        Solidus::Sign => {
            if !may_stand(&state) {
                return Err(Stop::Fault(Kind::BadIndent, text.len()));
            }
            let state = placed(alloc, state, TokenKind::Slash, at, Character::Remark)?;
            Ok((state, rest))
        }
        Solidus::Line => Ok((passed(state, Character::NoLineEnd), rest)),
        Solidus::Block => Ok((passed(state, Character::Nothing), rest)),
        Solidus::Open => Ok((passed(state, Character::Any), rest)),
    }
}

#[tactic(auto, unfolding(crate::specs::Reading::gap))]
fn gap(state: State, text: &[Symbol]) -> Result<(State, &[Symbol]), Stop<Kind>>
    requires { state.depth ≤ length state.made }
    ensures reads { Reads (spec.gap state text.now) result }
    ensures counted { IfOk result (λ r. r.0.depth ≤ length r.0.made) }
{
    let (_, rest) = one(text, Character::Blank)?;
    let (_, rest) = skip(rest, Character::Blank)?;
    Ok((passed(state, Character::Blank), rest))
}

#[tactic(auto, unfolding(crate::specs::Reading::break_piece))]
fn break_piece(
    alloc: Global,
    state: State,
    text: &[Symbol],
) -> Result<(State, &[Symbol]), Stop<Kind>>
    requires { state.depth ≤ length state.made }
    ensures reads { Reads (spec.break_piece state text.now) result }
    ensures counted { IfOk result (λ r. r.0.depth ≤ length r.0.made) }
{
    let (end, rest) = one(text, Character::LineEnd)?;
    let (blanks, rest) = blanks(rest)?;
    let indent = Bytes::new(spelled(alloc, blanks)?.into_bytes());
    Ok((broken(state, end.at, indent), rest))
}

/// The blanks that stand first.
#[tactic(auto, using(wy_reading::proofs::Turns::word_steps), unfolding(crate::specs::Reading::blanks))]
pub fn blanks(text: &[Symbol]) -> Result<(&[Symbol], &[Symbol]), Stop<Kind>>
    ensures { ReadsPart (spec.blanks text.now) result }
{
    for end in 0..text.len() {
        if !Character::Blank.has(text[end]) {
            return Ok((&text[..end], &text[end..]));
        }
    }
    Ok((text, &text[text.len()..]))
}
