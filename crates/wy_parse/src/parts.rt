//! Expressions and types in boxes, as they are kept while what they stand in is read: a box is small
//! to hand on, however large its tree is.
ghost use Rattle.std.specs.Prelude.{◌≡◌};
ghost use Rattle.wy_reading.specs.Reader.{Reads};
ghost use Rattle.wy_parse_grammar.specs.ExprReading as exprs;
ghost use Rattle.wy_parse_grammar.specs.TypeReading as types;

use std::alloc::Global;
use wy_ast::{Expr, Ty};
use wy_items::Boxed;
use wy_lex::Token;
use wy_parse_grammar::cursor::Read;
use wy_parse_grammar::expressions::{expr, sum};
use wy_parse_grammar::measured::{Measured, boxed};
use wy_parse_grammar::types::{type_rest, type_term};

/// An expression as it is kept.
pub type ExprPart = Measured<Boxed<Expr>>;

/// A type as it is kept.
pub type TypePart = Measured<Boxed<Ty>>;

/// `expr`, where there are so many levels.
pub fn expr_part(alloc: Global, tokens: &[Token], levels: usize) -> Read<'_, ExprPart>
    ensures { Reads (exprs.expr levels tokens.now) result }
{
    let (tree, rest) = expr(alloc, tokens, levels)?;
    Ok((boxed(alloc, tree)?, rest))
}

/// `sum`, where there are so many levels.
pub fn sum_part(alloc: Global, tokens: &[Token], levels: usize) -> Read<'_, ExprPart>
    ensures { Reads (exprs.sum_in levels tokens.now) result }
{
    let (tree, rest) = sum(alloc, tokens, levels)?;
    Ok((boxed(alloc, tree)?, rest))
}

/// `type`, where there are so many levels.
pub fn type_part(alloc: Global, tokens: &[Token], levels: usize) -> Read<'_, TypePart>
    ensures { Reads (types.type_term levels tokens.now) result }
{
    let (tree, rest) = type_term(alloc, tokens, levels)?;
    Ok((boxed(alloc, tree)?, rest))
}

/// The rest of a type that begins with the one that was read, a `tight` or an array of it.
pub fn type_part_rest<'a>(
    alloc: Global,
    begun: TypePart,
    tokens: &'a [Token],
    levels: usize,
) -> Read<'a, TypePart>
    ensures { Reads (types.type_rest levels begun tokens.now) result }
{
    let (tree, rest) = type_rest(alloc, unboxed(begun), tokens, levels)?;
    Ok((boxed(alloc, tree)?, rest))
}

/// The part without its box.
pub fn unboxed<T: Drop>(part: Measured<Boxed<T>>) -> Measured<T>
    ensures { result ≡ part }
{
    match part {
        Measured::Low(part, height) => Measured::Low(part.into_inner(), height),
        Measured::High(at) => Measured::High(at),
    }
}
