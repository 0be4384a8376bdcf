//! The labels of cases. A label is one node.
ghost use Rattle.std.specs.Prelude.{◌≡◌};
ghost use Rattle.wy_reading.specs.Reader.{Reads};
ghost use Rattle.wy_parse_grammar.specs.LabelReading as spec;

use crate::cursor::{Read, mark, next_is};
use crate::literals::{glued, literal_kind, next_is_glued, opposed};
use crate::sort::{COMMA, Class, MINUS, has, sort};
use std::alloc::Global;
use wy_ast::{Expr, ExprKind};
use wy_items::Items;
use wy_lex::Token;
use wy_reading::Stop;

/// label { ',' label }
#[tactic(auto, using(wy_reading::proofs::Turns::reader_steps), unfolding(crate::specs::LabelReading::labels))]
pub fn labels(alloc: Global, tokens: &[Token]) -> Read<'_, Items<Expr>>
    ensures { Reads (spec.labels tokens.now) result }
{
    let (mut made, mut rest) = label(alloc, Items::new(alloc), tokens)?;
    for _turn in 0..rest.len() {
        if !next_is(rest, COMMA) {
            return Ok((made, rest));
        }
        let (more, after) = next_label(alloc, made, rest)?;
        made = more;
        rest = after;
    }
    Ok((made, rest))
}

fn next_label<'a>(alloc: Global, labels: Items<Expr>, tokens: &'a [Token]) -> Read<'a, Items<Expr>>
    ensures { Reads (spec.next_label labels tokens.now) result }
{
    let (_, rest) = mark(tokens, COMMA)?;
    label(alloc, labels, rest)
}

// label = 'null' | 'true' | 'false' | NUMERAL | '-' NUMERAL
#[tactic(auto, unfolding(crate::specs::LabelReading::label))]
fn label<'a>(alloc: Global, mut labels: Items<Expr>, tokens: &'a [Token]) -> Read<'a, Items<Expr>>
    ensures { Reads (spec.label labels tokens.now) result }
{
    if next_is(tokens, MINUS) {
        let (at, rest) = mark(tokens, MINUS)?;
        let (number, rest) = negative(at, rest)?;
        let kind = ExprKind::Int(number);
        labels.push(Expr { at, kind })?;
        return Ok((labels, rest));
    }
    let (word, rest) = label_word(alloc, tokens)?;
    labels.push(word)?;
    Ok((labels, rest))
}

// The numeral behind a minus. 2^95 must touch it.
#[tactic(auto, unfolding(crate::specs::LabelReading::negative))]
fn negative(at: u32, tokens: &[Token]) -> Read<'_, i128>
    ensures { Reads (spec.negative at tokens.now) result }
{
    if next_is_glued(tokens, at) {
        return glued(tokens, at);
    }
    opposed(tokens)
}

#[tactic(auto, unfolding(crate::specs::LabelReading::label_word))]
fn label_word(alloc: Global, tokens: &[Token]) -> Read<'_, Expr>
    ensures { Reads (spec.label_word tokens.now) result }
{
    match tokens {
        [first, rest @ ..] if has(Class::LabelWord, sort(&first.kind)) => {
            let kind = literal_kind(alloc, &first.kind)?;
            Ok((Expr { at: first.at, kind }, rest))
        }
        _ => Err(Stop::Unexpected(tokens.len())),
    }
}
