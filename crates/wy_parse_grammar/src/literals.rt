//! Literals, and the words of quantifiers.
ghost use Rattle.std.specs.Prelude.{◌≡◌, [], ◌∷◌, IfOk};
ghost use Rattle.wy_reading.specs.Reader.{Reads};
ghost use Rattle.wy_reading.specs.Rule.{heads, among};
ghost use Rattle.wy_parse_grammar.specs.ExprGrammar as grammar;
ghost use Rattle.wy_parse_grammar.specs.ExprReading as spec;
ghost use Rattle.wy_parse_grammar.specs.Sorts as sorts;
ghost use Rattle.wy_parse_grammar.specs.LabelReading as labels;

use crate::cursor::Read;
use crate::expr_nodes::leaf;
use crate::measured::Measured;
use crate::sort::{BEYOND, Class, NUMERAL, has, sort};
use std::alloc::{AllocError, Global};
use wy_ast::{Expr, ExprKind};
use wy_lex::{Token, TokenKind};
use wy_reading::Stop;
use wy_value::INT_MAX;

/// A literal that is one token.
#[tactic(auto, unfolding(crate::specs::ExprReading::literal))]
pub fn literal(alloc: Global, tokens: &[Token]) -> Read<'_, Measured<Expr>>
    ensures { Reads (spec.literal tokens.now) result }
{
    match tokens {
        [first, rest @ ..] if has(Class::Literal, sort(&first.kind)) => {
            Ok((leaf(first.at, literal_kind(alloc, &first.kind)?), rest))
        }
        _ => Err(Stop::Unexpected(tokens.len())),
    }
}

/// What a literal of one token is.
pub fn literal_kind(alloc: Global, kind: &TokenKind) -> Result<ExprKind, AllocError>
    ensures { IfOk result (λ literal. literal ≡ grammar.literal_kind kind.now) }
{
    match kind {
        TokenKind::Numeral(number) => Ok(ExprKind::Int(*number)),
        TokenKind::Text(text) => Ok(ExprKind::Text(text.copy(alloc)?)),
        TokenKind::True => Ok(ExprKind::Bool(true)),
        TokenKind::False => Ok(ExprKind::Bool(false)),
        _ => Ok(ExprKind::Null),
    }
}

/// Whether a numeral stands first that touches a minus at the place.
pub fn next_is_glued(tokens: &[Token], minus: u32) -> bool
    ensures { result ≡ heads (grammar.touches minus) tokens.now }
{
    match tokens {
        [] => false,
        [first, ..] => is_glued(first, minus),
    }
}

fn is_glued(token: &Token, minus: u32) -> bool
    ensures { result ≡ grammar.touches minus token.now }
{
    is_numeral(sort(&token.kind)) && u64::from(token.at) == u64::from(minus) + 1
}

fn is_numeral(sort: u8) -> bool
    ensures { result ≡ among (sorts.NUMERAL ∷ sorts.BEYOND ∷ []) sort }
{
    sort == NUMERAL || sort == BEYOND
}

/// The number that a minus and a numeral that touches it write.
#[tactic(auto, unfolding(crate::specs::ExprReading::glued))]
pub fn glued(tokens: &[Token], minus: u32) -> Read<'_, i128>
    ensures { Reads (spec.glued minus tokens.now) result }
{
    match tokens {
        [first, rest @ ..] if is_glued(first, minus) => Ok((opposite(&first.kind), rest)),
        _ => Err(Stop::Unexpected(tokens.len())),
    }
}

/// The number that a minus and a numeral that needn't touch it write.
#[tactic(auto, unfolding(crate::specs::LabelReading::opposed))]
pub fn opposed(tokens: &[Token]) -> Read<'_, i128>
    ensures { Reads (labels.opposed tokens.now) result }
{
    match tokens {
        [first, rest @ ..] if sort(&first.kind) == NUMERAL => Ok((opposite(&first.kind), rest)),
        _ => Err(Stop::Unexpected(tokens.len())),
    }
}

// What is the opposite of a numeral, which is 2^95 at most.
fn opposite(kind: &TokenKind) -> i128
    ensures { result ≡ grammar.opposite kind.now }
{
    match kind {
        TokenKind::Numeral(number) if 0 <= *number && *number <= INT_MAX + 1 => -*number,
        _ => 0,
    }
}

/// The word of a quantifier with its place: true for `all`, false for `some`.
#[tactic(auto, unfolding(crate::specs::ExprReading::quantifier))]
pub fn quantifier(tokens: &[Token]) -> Read<'_, (u32, bool)>
    ensures { Reads (spec.quantifier tokens.now) result }
{
    match tokens {
        [first, rest @ ..] if has(Class::Quantifier, sort(&first.kind)) => {
            Ok(((first.at, is_all(&first.kind)), rest))
        }
        _ => Err(Stop::Unexpected(tokens.len())),
    }
}

fn is_all(kind: &TokenKind) -> bool
    ensures { result ≡ grammar.is_all kind.now }
{
    matches!(kind, TokenKind::All)
}
