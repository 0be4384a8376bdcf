//! The slash, and comments.
ghost use Rattle.std.specs.Prelude.{◌≡◌, ◌≤◌, Some, None, MatchOption, true};
ghost use Rattle.wy_lex.specs.Reading as spec;
ghost use Rattle.wy_reading.specs.Reader.{Reads};

use crate::fault::Kind;
use crate::symbol::{Character, Symbol};
use wy_reading::{Stop, next_is, one, skip};

/// What a slash is.
#[derive(Clone, Copy, Debug, PartialEq, Eq)]
pub enum Solidus {
    /// A symbol by itself.
    Sign,
    /// The begin of a comment up to the line end.
    Line,
    /// The begin of a comment up to `*/`.
    Block,
    /// The begin of a comment whose `*/` is missing.
    Open,
}

/// A slash with the comment that it begins, and its place.
#[tactic(auto, unfolding(crate::specs::Reading::slash, crate::specs::Reading::stroke, crate::specs::Reading::closed))]
pub fn slash(text: &[Symbol]) -> Result<((Solidus, u32), &[Symbol]), Stop<Kind>>
    ensures { Reads (spec.slash text.now) result }
{
    let (first, rest) = one(text, Character::Is('/'))?;
    if next_is(rest, Character::Is('/')) {
        let (_, rest) = one(rest, Character::Is('/'))?;
        let (_, rest) = skip(rest, Character::NoLineEnd)?;
        return Ok(((Solidus::Line, first.at), rest));
    }
    if next_is(rest, Character::Is('*')) {
        let (_, body) = one(rest, Character::Is('*'))?;
        return match behind_close(body) {
            Some(rest) => Ok(((Solidus::Block, first.at), rest)),
            None => Err(Stop::Fault(Kind::OpenComment, text.len())),
        };
    }
    Ok(((Solidus::Sign, first.at), rest))
}

// What stands behind the first `*/`.
fn behind_close(text: &[Symbol]) -> Option<&[Symbol]>
    ensures { MatchOption result (spec.behind_close text.now ≡ None) (λ rest. spec.behind_close text.now ≡ Some rest.now) }
{
    for n in 0..text.len() {
        if text[n].character == '*' && next_is(&text[n + 1..], Character::Is('/')) {
            return Some(&text[n + 2..]);
        }
    }
    None
}
