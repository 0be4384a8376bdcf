//! Steps on single tokens.
ghost use Rattle.std.specs.Prelude.{◌≡◌, ◌≢◌, Ok, Err, IfOk, MatchResult};
ghost use Rattle.wy_reading.specs.Reader.{Reads, refused};
ghost use Rattle.wy_reading.specs.declared.stop.Stop.TheVariants.{NoMemory};
ghost use Rattle.wy_reading.specs.Rule.{heads};
ghost use Rattle.wy_parse_grammar.specs.Sorts as sorts;
ghost use Rattle.wy_parse_grammar.specs.Steps as steps;
ghost use Rattle.wy_parse_grammar.specs.declared.fault.Kind.TheVariants.{Deep};

use crate::fault::Kind;
use crate::sort::{Class, NAME, has, sort};
use std::alloc::Global;
use wy_ast::Op;
use wy_data::Name;
use wy_lex::{Token, TokenKind};
use wy_reading::Stop;

/// What was read and the tokens behind it, or why reading stops.
pub type Read<'a, T> = Result<(T, &'a [Token]), Stop<Kind>>;

/// Whether a token of the sort stands first.
pub fn next_is(tokens: &[Token], wanted: u8) -> bool
    ensures { result ≡ heads (sorts.is wanted) tokens.now }
{
    match tokens {
        [] => false,
        [first, ..] => sort(&first.kind) == wanted,
    }
}

/// Whether a token of the class stands first.
pub fn next_in(tokens: &[Token], class: Class) -> bool
    ensures { result ≡ heads (sorts.has class) tokens.now }
{
    match tokens {
        [] => false,
        [first, ..] => has(class, sort(&first.kind)),
    }
}

/// A token of the sort, by its place.
#[tactic(auto, unfolding(crate::specs::Steps::mark))]
pub fn mark(tokens: &[Token], wanted: u8) -> Read<'_, u32>
    ensures { Reads (steps.mark wanted tokens.now) result }
{
    match tokens {
        [first, rest @ ..] if sort(&first.kind) == wanted => Ok((first.at, rest)),
        _ => Err(Stop::Unexpected(tokens.len())),
    }
}

/// What was read, with the place of a token of the sort that stands behind it.
pub fn marked<T: Drop>(made: T, tokens: &[Token], wanted: u8) -> Read<'_, (T, u32)>
    ensures keeps { IfOk result (λ read. read.0.0 ≡ made) }
    ensures reads { MatchResult result (λ read. steps.mark wanted tokens.now ≡ Ok (read.0.1, read.1.now)) (λ stop. stop ≢ NoMemory → steps.mark wanted tokens.now ≡ Err stop) }
{
    let (at, rest) = mark(tokens, wanted)?;
    Ok(((made, at), rest))
}

/// A token of the sort that stands inside of a pair, as the bracket that closes it, where there are so
/// many levels inside. Where there are none it stands too deep.
#[tactic(auto, using(crate::proofs::StepLemmas::levels))]
pub fn inner(tokens: &[Token], wanted: u8, levels: usize) -> Read<'_, u32>
    ensures { Reads (steps.inner levels wanted tokens.now) result }
{
    if levels > 0 {
        return mark(tokens, wanted);
    }
    shut(tokens, wanted)
}

/// A name that stands inside of a pair, likewise.
#[tactic(auto, using(crate::proofs::StepLemmas::levels))]
pub fn inner_name(alloc: Global, tokens: &[Token], levels: usize) -> Read<'_, (u32, Name)>
    ensures { Reads (steps.inner_name levels tokens.now) result }
{
    if levels > 0 {
        return name(alloc, tokens);
    }
    shut(tokens, NAME)
}

/// How many levels there are inside of one of so many.
#[tactic(auto, using(crate::proofs::StepLemmas::levels))]
pub fn inside(levels: usize) -> usize
    ensures { result ≡ steps.inside levels }
{
    levels.saturating_sub(1)
}

/// What stands too deep if it begins with a token of the class.
pub fn too_deep<T>(tokens: &[Token], class: Class) -> Read<'_, T>
    ensures { Reads (refused (sorts.has class) Deep tokens.now) result }
{
    if next_in(tokens, class) {
        return Err(Stop::Fault(Kind::Deep, tokens.len()));
    }
    Err(Stop::Unexpected(tokens.len()))
}

/// What stands too deep if it begins with a token of the sort.
pub fn shut<T>(tokens: &[Token], wanted: u8) -> Read<'_, T>
    ensures { Reads (refused (sorts.is wanted) Deep tokens.now) result }
{
    if next_is(tokens, wanted) {
        return Err(Stop::Fault(Kind::Deep, tokens.len()));
    }
    Err(Stop::Unexpected(tokens.len()))
}

/// A name, with its place.
#[tactic(auto, unfolding(crate::specs::Steps::name))]
pub fn name(alloc: Global, tokens: &[Token]) -> Read<'_, (u32, Name)>
    ensures { Reads (steps.name tokens.now) result }
{
    match tokens {
        [first, rest @ ..] => match &first.kind {
            TokenKind::Name(name) => Ok(((first.at, name.copy(alloc)?), rest)),
            _ => Err(Stop::Unexpected(tokens.len())),
        },
        [] => Err(Stop::Unexpected(tokens.len())),
    }
}

/// What was read, with the name that stands behind it.
pub fn with_name<T: Drop>(alloc: Global, made: T, tokens: &[Token]) -> Read<'_, (T, (u32, Name))>
    ensures keeps { IfOk result (λ read. read.0.0 ≡ made) }
    ensures reads { MatchResult result (λ read. steps.name tokens.now ≡ Ok (read.0.1, read.1.now)) (λ stop. stop ≢ NoMemory → steps.name tokens.now ≡ Err stop) }
{
    let (name, rest) = name(alloc, tokens)?;
    Ok(((made, name), rest))
}

/// An operator of the class, with its place.
#[tactic(auto, unfolding(crate::specs::Steps::operator))]
pub fn operator(tokens: &[Token], class: Class) -> Read<'_, (u32, Op)>
    ensures { Reads (steps.operator class tokens.now) result }
{
    match tokens {
        [first, rest @ ..] if has(class, sort(&first.kind)) => {
            Ok(((first.at, op_of(&first.kind)), rest))
        }
        _ => Err(Stop::Unexpected(tokens.len())),
    }
}

fn op_of(kind: &TokenKind) -> Op
    ensures { result ≡ steps.op_of kind.now }
{
    match kind {
        TokenKind::Plus => Op::Add,
        TokenKind::Minus => Op::Sub,
        TokenKind::Star => Op::Mul,
        TokenKind::Slash => Op::Div,
        TokenKind::Percent => Op::Mod,
        TokenKind::Equal => Op::Equal,
        TokenKind::NotEqual => Op::NotEqual,
        TokenKind::Less => Op::Less,
        TokenKind::LessEqual => Op::LessEqual,
        TokenKind::Greater => Op::Greater,
        TokenKind::GreaterEqual => Op::GreaterEqual,
        TokenKind::And => Op::And,
        TokenKind::Or => Op::Or,
        _ => Op::Implies,
    }
}
