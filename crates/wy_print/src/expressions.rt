//! The text of expressions.
ghost use Rattle.std.specs.Prelude.{◌≡◌, ◌++◌, codes, OnOk};
ghost use Rattle.wy_print.specs.Pieces.{listed};
ghost use Rattle.wy_print.specs.ExprText as spec;

use crate::edges::{bracketed_begins, bracketed_ends, is_below, level};
use crate::levels::{POSTFIX, SUM, UNARY, needs_left, needs_right, symbol};
use crate::pieces::{
    quantifier_word, truth_word, write_bytes, write_name, write_number, write_quoted,
    write_space_if,
};
use crate::types::write_ty;
use std::alloc::Global;
use wy_ast::{Expr, ExprKind, NoMemory, Op};
use wy_data::Name;

/// Appends the expression, with no bracket that isn't needed.
#[cycle(expr)]
#[tactic(auto, using(std::proofs::lemmas::List::append_assoc))]
pub fn write_expr(alloc: Global, text: &mut Vec<u8>, expr: &Expr) -> Result<(), NoMemory>
    ensures { OnOk result (text.new.items ≡ text.old.items ++ spec.expr_text expr.now) }
{
    match &expr.kind {
        ExprKind::Null => write_bytes(text, b"null"),
        ExprKind::Bool(truth) => write_bytes(text, truth_word(*truth)),
        ExprKind::Int(number) => write_number(alloc, text, *number),
        ExprKind::Text(characters) => write_quoted(text, characters.as_slice()),
        ExprKind::Var(name) => write_name(text, name),
        ExprKind::Call(name, args) => {
            write_name(text, name)?;
            write_bytes(text, b"(")?;
            write_exprs(alloc, text, args.as_slice())?;
            write_bytes(text, b")")?;
            Ok(())
        }
        ExprKind::Neg(operand) => {
            write_bytes(text, b"- ")?;
            write_part(alloc, text, UNARY, operand.get())?;
            Ok(())
        }
        ExprKind::Not(operand) => {
            write_bytes(text, b"!")?;
            write_part(alloc, text, UNARY, operand.get())?;
            Ok(())
        }
        ExprKind::Len(operand) => write_length(alloc, text, operand.get()),
        ExprKind::Binary(op, left, right) => {
            let (left, right) = (left.get(), right.get());
            write_bracketed(alloc, text, needs_left(*op, level(left)), left)?;
            write_operator(text, *op)?;
            write_bracketed(alloc, text, needs_right(*op, level(right)), right)?;
            Ok(())
        }
        ExprKind::Is(operand, ty) => {
            write_part(alloc, text, SUM, operand.get())?;
            write_bytes(text, b" is ")?;
            write_ty(text, ty)?;
            Ok(())
        }
        ExprKind::Index(array, index) => {
            write_part(alloc, text, POSTFIX, array.get())?;
            write_bytes(text, b"[")?;
            write_expr(alloc, text, index.get())?;
            write_bytes(text, b"]")?;
            Ok(())
        }
        ExprKind::Field(whole, name) => {
            write_part(alloc, text, POSTFIX, whole.get())?;
            write_bytes(text, b".")?;
            write_name(text, name)?;
            Ok(())
        }
        ExprKind::List(items) => {
            write_bytes(text, b"[")?;
            write_exprs(alloc, text, items.as_slice())?;
            write_bytes(text, b"]")?;
            Ok(())
        }
        ExprKind::Repeat(item, count) => {
            write_bytes(text, b"[")?;
            write_expr(alloc, text, item.get())?;
            write_bytes(text, b"; ")?;
            write_expr(alloc, text, count.get())?;
            write_bytes(text, b"]")?;
            Ok(())
        }
        ExprKind::Record(fields) => {
            write_bytes(text, b"{")?;
            write_fields(alloc, text, fields.as_slice())?;
            write_bytes(text, b"}")?;
            Ok(())
        }
        ExprKind::Quant(all, ranges, body) => {
            write_bytes(text, quantifier_word(*all))?;
            write_bytes(text, b" { ")?;
            write_ranges(alloc, text, ranges.as_slice())?;
            write_bytes(text, b" | ")?;
            write_expr(alloc, text, body.get())?;
            write_bytes(text, b" }")?;
            Ok(())
        }
    }
}

// Where an expression of the level may stand: a lower one in brackets.
#[cycle(expr)]
fn write_part(alloc: Global, text: &mut Vec<u8>, lowest: u8, expr: &Expr) -> Result<(), NoMemory>
    ensures { OnOk result (text.new.items ≡ text.old.items ++ (spec.part lowest (spec.shown expr.now)).text) }
{
    write_bracketed(alloc, text, is_below(expr, lowest), expr)
}

// The expression, in brackets where there are to be some.
#[cycle(expr)]
#[tactic(auto, using(std::proofs::lemmas::List::append_assoc))]
fn write_bracketed(
    alloc: Global,
    text: &mut Vec<u8>,
    brackets: bool,
    expr: &Expr,
) -> Result<(), NoMemory>
    ensures { OnOk result (text.new.items ≡ text.old.items ++ (spec.bracketed brackets (spec.shown expr.now)).text) }
{
    if brackets {
        write_bytes(text, b"(")?;
        write_expr(alloc, text, expr)?;
        write_bytes(text, b")")?;
        return Ok(());
    }
    write_expr(alloc, text, expr)
}

// The length of the array.
#[cycle(expr)]
#[tactic(auto, using(std::proofs::lemmas::List::append_assoc))]
fn write_length(alloc: Global, text: &mut Vec<u8>, array: &Expr) -> Result<(), NoMemory>
    ensures { OnOk result (text.new.items ≡ text.old.items ++ (spec.measured (spec.part SUM (spec.shown array.now))).text) }
{
    let brackets = is_below(array, SUM);
    write_bytes(text, b"|")?;
    write_space_if(text, bracketed_begins(brackets, array))?;
    write_bracketed(alloc, text, brackets, array)?;
    write_space_if(text, bracketed_ends(brackets, array))?;
    write_bytes(text, b"|")?;
    Ok(())
}

/// Appends the expressions, with a comma and a space between them.
#[cycle(expr)]
#[tactic(auto, using(std::proofs::lemmas::List::append_assoc))]
pub fn write_exprs(alloc: Global, text: &mut Vec<u8>, exprs: &[Expr]) -> Result<(), NoMemory>
    ensures { OnOk result (text.new.items ≡ text.old.items ++ listed (spec.expr_texts exprs.now)) }
{
    let [first, rest @ ..] = exprs else {
        return Ok(());
    };
    write_expr(alloc, text, first)?;
    for expr in rest {
        write_bytes(text, b", ")?;
        write_expr(alloc, text, expr)?;
    }
    Ok(())
}

#[cycle(expr)]
#[tactic(auto, using(std::proofs::lemmas::List::append_assoc))]
fn write_fields(alloc: Global, text: &mut Vec<u8>, fields: &[(Name, Expr)]) -> Result<(), NoMemory>
    ensures { OnOk result (text.new.items ≡ text.old.items ++ listed (spec.shown_fields fields.now)) }
{
    let [first, rest @ ..] = fields else {
        return Ok(());
    };
    write_label(text, &first.0)?;
    write_expr(alloc, text, &first.1)?;
    for field in rest {
        write_bytes(text, b", ")?;
        write_label(text, &field.0)?;
        write_expr(alloc, text, &field.1)?;
    }
    Ok(())
}

#[cycle(expr)]
#[tactic(auto, using(std::proofs::lemmas::List::append_assoc))]
fn write_ranges(
    alloc: Global,
    text: &mut Vec<u8>,
    ranges: &[(Name, Expr, Expr)],
) -> Result<(), NoMemory>
    ensures { OnOk result (text.new.items ≡ text.old.items ++ listed (spec.shown_ranges ranges.now)) }
{
    let [first, rest @ ..] = ranges else {
        return Ok(());
    };
    write_variable(text, &first.0)?;
    write_part(alloc, text, SUM, &first.1)?;
    write_bytes(text, b"..")?;
    write_part(alloc, text, SUM, &first.2)?;
    for range in rest {
        write_bytes(text, b", ")?;
        write_variable(text, &range.0)?;
        write_part(alloc, text, SUM, &range.1)?;
        write_bytes(text, b"..")?;
        write_part(alloc, text, SUM, &range.2)?;
    }
    Ok(())
}

/// Appends the range of the variable, from one number to before the other.
#[tactic(auto, using(std::proofs::lemmas::List::append_assoc))]
pub fn write_range(
    alloc: Global,
    text: &mut Vec<u8>,
    name: &Name,
    from: &Expr,
    to: &Expr,
) -> Result<(), NoMemory>
    ensures { OnOk result (text.new.items ≡ text.old.items ++ spec.range_text name.now (spec.shown from.now) (spec.shown to.now)) }
{
    write_variable(text, name)?;
    write_part(alloc, text, SUM, from)?;
    write_bytes(text, b"..")?;
    write_part(alloc, text, SUM, to)?;
    Ok(())
}

// The variable of a range.
#[tactic(auto, using(std::proofs::lemmas::List::append_assoc))]
fn write_variable(text: &mut Vec<u8>, name: &Name) -> Result<(), NoMemory>
    ensures { OnOk result (text.new.items ≡ text.old.items ++ (name.now ++ codes " in ")) }
{
    write_name(text, name)?;
    write_bytes(text, b" in ")?;
    Ok(())
}

// The name of a field, with its colon.
#[tactic(auto, using(std::proofs::lemmas::List::append_assoc))]
fn write_label(text: &mut Vec<u8>, name: &Name) -> Result<(), NoMemory>
    ensures { OnOk result (text.new.items ≡ text.old.items ++ (name.now ++ codes ": ")) }
{
    write_name(text, name)?;
    write_bytes(text, b": ")?;
    Ok(())
}

// The operator, with a space on each side.
#[tactic(auto, using(std::proofs::lemmas::List::append_assoc))]
fn write_operator(text: &mut Vec<u8>, op: Op) -> Result<(), NoMemory>
    ensures { OnOk result (text.new.items ≡ text.old.items ++ spec.spaced op) }
{
    write_bytes(text, b" ")?;
    write_bytes(text, symbol(op))?;
    write_bytes(text, b" ")?;
    Ok(())
}
