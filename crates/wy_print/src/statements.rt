//! The text of statements.
//!
//! A statement is written behind its margin. The margin also stands before each of its further lines,
//! and four more spaces before those of a block in it.
ghost use Rattle.std.specs.Prelude.{◌≡◌, ◌++◌, codes, OnOk};
ghost use Rattle.wy_print.specs.ExprText.{called, expr_texts, expr_text};
ghost use Rattle.wy_print.specs.Pieces as pieces;
ghost use Rattle.wy_print.specs.StmtText as spec;
ghost use Rattle.wy_print.specs.TypeText as types;

use crate::clauses::write_where;
use crate::expressions::{write_expr, write_exprs, write_range};
use crate::pieces::{deeper, write_bytes, write_name};
use crate::types::write_typed;
use std::alloc::Global;
use wy_ast::{Case, Expr, NoMemory, Step, StepKind, Stmt, StmtKind, Ty};
use wy_data::Name;

// Appends the statement behind its margin.
#[cycle(stmt)]
#[tactic(auto, using(std::proofs::lemmas::List::append_assoc))]
fn write_stmt(alloc: Global, text: &mut Vec<u8>, margin: &[u8], stmt: &Stmt) -> Result<(), NoMemory>
    ensures { OnOk result (text.new.items ≡ text.old.items ++ spec.stmt_text margin.now stmt.now) }
{
    match &stmt.kind {
        StmtKind::Declare(ty, name, value) => write_declare(alloc, text, ty, name, value),
        StmtKind::Assign(name, path, value) => {
            write_assign(alloc, text, name, path.as_slice(), value)
        }
        StmtKind::Call(name, args) => write_call(alloc, text, name, args.as_slice()),
        StmtKind::Return(value) => write_return(alloc, text, value),
        StmtKind::Assert(test) => write_assert(alloc, text, test),
        StmtKind::Break => write_bytes(text, b"break\n"),
        StmtKind::Continue => write_bytes(text, b"continue\n"),
        StmtKind::Skip => write_bytes(text, b"skip\n"),
        StmtKind::Fail => write_bytes(text, b"fail\n"),
        StmtKind::If(test, first, second) => {
            write_bytes(text, b"if ")?;
            write_expr(alloc, text, test)?;
            write_block(alloc, text, margin, first.as_slice())?;
            write_otherwise(alloc, text, margin, second.as_slice())?;
            Ok(())
        }
        StmtKind::While(test, invariants, body) => {
            write_while(alloc, text, margin, test, invariants.as_slice())?;
            write_block(alloc, text, margin, body.as_slice())?;
            Ok(())
        }
        StmtKind::Do(body, test, invariants) => {
            write_bytes(text, b"do")?;
            write_block(alloc, text, margin, body.as_slice())?;
            write_bytes(text, margin)?;
            write_while(alloc, text, margin, test, invariants.as_slice())?;
            write_bytes(text, b"\n")?;
            Ok(())
        }
        StmtKind::For(name, from, to, invariants, body) => {
            write_for(alloc, text, margin, name, from, to, invariants.as_slice())?;
            write_block(alloc, text, margin, body.as_slice())?;
            Ok(())
        }
        StmtKind::Switch(value, cases, default) => {
            write_switch(alloc, text, value)?;
            let inner = deeper(alloc, margin)?;
            write_cases(alloc, text, inner.as_slice(), cases.as_slice())?;
            match default {
                None => Ok(()),
                Some(stmts) => {
                    write_default(alloc, text, inner.as_slice(), stmts.as_slice())?;
                    Ok(())
                }
            }
        }
    }
}

/// Appends the colon of a header and the block behind it, four spaces further than the header's margin.
#[cycle(stmt)]
#[tactic(auto, using(std::proofs::lemmas::List::append_assoc))]
pub fn write_block(
    alloc: Global,
    text: &mut Vec<u8>,
    margin: &[u8],
    stmts: &[Stmt],
) -> Result<(), NoMemory>
    ensures { OnOk result (text.new.items ≡ text.old.items ++ spec.block_text margin.now stmts.now) }
{
    let inner = deeper(alloc, margin)?;
    let further = inner.as_slice();
    write_bytes(text, b":\n")?;
    for stmt in stmts {
        write_bytes(text, further)?;
        write_stmt(alloc, text, further, stmt)?;
    }
    Ok(())
}

// Appends the block of an `else`, where there is one. An `if` alone stands on the line of its `else`.
#[cycle(stmt)]
#[tactic(auto, using(std::proofs::lemmas::List::append_assoc))]
fn write_otherwise(
    alloc: Global,
    text: &mut Vec<u8>,
    margin: &[u8],
    stmts: &[Stmt],
) -> Result<(), NoMemory>
    ensures { OnOk result (text.new.items ≡ text.old.items ++ spec.otherwise_text margin.now stmts.now) }
{
    let [first, rest @ ..] = stmts else {
        return Ok(());
    };
    write_bytes(text, margin)?;
    write_bytes(text, b"else")?;
    if is_if_alone(first, rest) {
        write_bytes(text, b" ")?;
        write_stmt(alloc, text, margin, first)?;
        return Ok(());
    }
    write_block(alloc, text, margin, stmts)?;
    Ok(())
}

#[cycle(stmt)]
#[tactic(auto, using(std::proofs::lemmas::List::append_assoc))]
fn write_cases(
    alloc: Global,
    text: &mut Vec<u8>,
    margin: &[u8],
    cases: &[Case],
) -> Result<(), NoMemory>
    ensures { OnOk result (text.new.items ≡ text.old.items ++ spec.case_lines margin.now (spec.shown_cases cases.now)) }
{
    for case in cases {
        write_bytes(text, margin)?;
        write_case(alloc, text, margin, case)?;
    }
    Ok(())
}

#[cycle(stmt)]
#[tactic(auto, using(std::proofs::lemmas::List::append_assoc))]
fn write_case(alloc: Global, text: &mut Vec<u8>, margin: &[u8], case: &Case) -> Result<(), NoMemory>
    ensures { OnOk result (text.new.items ≡ text.old.items ++ spec.shown_case case.now margin.now) }
{
    write_bytes(text, b"case ")?;
    write_exprs(alloc, text, case.labels.as_slice())?;
    write_block(alloc, text, margin, case.body.as_slice())?;
    Ok(())
}

// The default of a switch, behind its cases.
#[cycle(stmt)]
#[tactic(auto, using(std::proofs::lemmas::List::append_assoc))]
fn write_default(
    alloc: Global,
    text: &mut Vec<u8>,
    margin: &[u8],
    stmts: &[Stmt],
) -> Result<(), NoMemory>
    ensures { OnOk result (text.new.items ≡ text.old.items ++ spec.default_lines margin.now (spec.shown_stmts stmts.now)) }
{
    write_bytes(text, margin)?;
    write_bytes(text, b"default")?;
    write_block(alloc, text, margin, stmts)?;
    Ok(())
}

// The line of a switch.
#[tactic(auto, using(std::proofs::lemmas::List::append_assoc))]
fn write_switch(alloc: Global, text: &mut Vec<u8>, value: &Expr) -> Result<(), NoMemory>
    ensures { OnOk result (text.new.items ≡ text.old.items ++ spec.switch_line value.now) }
{
    write_bytes(text, b"switch ")?;
    write_expr(alloc, text, value)?;
    write_bytes(text, b":\n")?;
    Ok(())
}

// Whether the first is an `if` behind which nothing stands.
fn is_if_alone(first: &Stmt, rest: &[Stmt]) -> bool
    ensures value { result ≡ spec.is_if_alone (spec.shown_stmt first.now) (spec.shown_stmts rest.now) }
{
    match rest {
        [] => is_if(first),
        [_, ..] => false,
    }
}

// Whether the statement is an `if`.
fn is_if(stmt: &Stmt) -> bool
    ensures value { result ≡ (spec.shown_stmt stmt.now).is_if }
{
    match &stmt.kind {
        StmtKind::Declare(_, _, _) | StmtKind::Assign(_, _, _) | StmtKind::Call(_, _) => false,
        StmtKind::Return(_) | StmtKind::Assert(_) => false,
        StmtKind::Break | StmtKind::Continue | StmtKind::Skip | StmtKind::Fail => false,
        StmtKind::If(_, _, _) => true,
        StmtKind::While(_, _, _) | StmtKind::Do(_, _, _) => false,
        StmtKind::For(_, _, _, _, _) | StmtKind::Switch(_, _, _) => false,
    }
}

#[tactic(auto, using(std::proofs::lemmas::List::append_assoc))]
fn write_declare(
    alloc: Global,
    text: &mut Vec<u8>,
    ty: &Ty,
    name: &Name,
    value: &Option<Expr>,
) -> Result<(), NoMemory>
    ensures { OnOk result (text.new.items ≡ text.old.items ++ ((types.typed (types.shown_ty ty.now) name.now ++ spec.value_text value.now) ++ pieces.line_end)) }
{
    write_typed(text, ty, name)?;
    write_value(alloc, text, value)?;
    write_bytes(text, b"\n")?;
    Ok(())
}

#[tactic(auto, using(std::proofs::lemmas::List::append_assoc))]
fn write_value(alloc: Global, text: &mut Vec<u8>, value: &Option<Expr>) -> Result<(), NoMemory>
    ensures { OnOk result (text.new.items ≡ text.old.items ++ spec.value_text value.now) }
{
    match value {
        None => Ok(()),
        Some(value) => {
            write_bytes(text, b" = ")?;
            write_expr(alloc, text, value)?;
            Ok(())
        }
    }
}

#[tactic(auto, using(std::proofs::lemmas::List::append_assoc))]
fn write_assign(
    alloc: Global,
    text: &mut Vec<u8>,
    name: &Name,
    path: &[Step],
    value: &Expr,
) -> Result<(), NoMemory>
    ensures { OnOk result (text.new.items ≡ text.old.items ++ ((name.now ++ (spec.path_text path.now ++ (codes " = " ++ expr_text value.now))) ++ pieces.line_end)) }
{
    write_name(text, name)?;
    write_path(alloc, text, path)?;
    write_bytes(text, b" = ")?;
    write_expr(alloc, text, value)?;
    write_bytes(text, b"\n")?;
    Ok(())
}

#[tactic(auto, using(std::proofs::lemmas::List::append_assoc))]
fn write_path(alloc: Global, text: &mut Vec<u8>, path: &[Step]) -> Result<(), NoMemory>
    ensures { OnOk result (text.new.items ≡ text.old.items ++ spec.path_text path.now) }
{
    for step in path {
        write_step(alloc, text, step)?;
    }
    Ok(())
}

#[tactic(auto, using(std::proofs::lemmas::List::append_assoc))]
fn write_step(alloc: Global, text: &mut Vec<u8>, step: &Step) -> Result<(), NoMemory>
    ensures { OnOk result (text.new.items ≡ text.old.items ++ spec.step_text step.now.kind) }
{
    match &step.kind {
        StepKind::Index(index) => {
            write_bytes(text, b"[")?;
            write_expr(alloc, text, index)?;
            write_bytes(text, b"]")?;
            Ok(())
        }
        StepKind::Field(name) => {
            write_bytes(text, b".")?;
            write_name(text, name)?;
            Ok(())
        }
    }
}

#[tactic(auto, using(std::proofs::lemmas::List::append_assoc))]
fn write_call(alloc: Global, text: &mut Vec<u8>, name: &Name, args: &[Expr]) -> Result<(), NoMemory>
    ensures { OnOk result (text.new.items ≡ text.old.items ++ (called name.now (expr_texts args.now) ++ pieces.line_end)) }
{
    write_name(text, name)?;
    write_bytes(text, b"(")?;
    write_exprs(alloc, text, args)?;
    write_bytes(text, b")\n")?;
    Ok(())
}

#[tactic(auto, using(std::proofs::lemmas::List::append_assoc))]
fn write_return(alloc: Global, text: &mut Vec<u8>, value: &Option<Expr>) -> Result<(), NoMemory>
    ensures { OnOk result (text.new.items ≡ text.old.items ++ ((codes "return" ++ spec.returned_text value.now) ++ pieces.line_end)) }
{
    write_bytes(text, b"return")?;
    write_returned(alloc, text, value)?;
    write_bytes(text, b"\n")?;
    Ok(())
}

#[tactic(auto, using(std::proofs::lemmas::List::append_assoc))]
fn write_returned(alloc: Global, text: &mut Vec<u8>, value: &Option<Expr>) -> Result<(), NoMemory>
    ensures { OnOk result (text.new.items ≡ text.old.items ++ spec.returned_text value.now) }
{
    match value {
        None => Ok(()),
        Some(value) => {
            write_bytes(text, b" ")?;
            write_expr(alloc, text, value)?;
            Ok(())
        }
    }
}

#[tactic(auto, using(std::proofs::lemmas::List::append_assoc))]
fn write_assert(alloc: Global, text: &mut Vec<u8>, test: &Expr) -> Result<(), NoMemory>
    ensures { OnOk result (text.new.items ≡ text.old.items ++ ((codes "assert " ++ expr_text test.now) ++ pieces.line_end)) }
{
    write_bytes(text, b"assert ")?;
    write_expr(alloc, text, test)?;
    write_bytes(text, b"\n")?;
    Ok(())
}

#[tactic(auto, using(std::proofs::lemmas::List::append_assoc))]
fn write_while(
    alloc: Global,
    text: &mut Vec<u8>,
    margin: &[u8],
    test: &Expr,
    invariants: &[Expr],
) -> Result<(), NoMemory>
    ensures { OnOk result (text.new.items ≡ text.old.items ++ spec.while_text test.now invariants.now margin.now) }
{
    write_bytes(text, b"while ")?;
    write_expr(alloc, text, test)?;
    write_where(alloc, text, margin, invariants)?;
    Ok(())
}

#[tactic(auto, using(std::proofs::lemmas::List::append_assoc))]
fn write_for(
    alloc: Global,
    text: &mut Vec<u8>,
    margin: &[u8],
    name: &Name,
    from: &Expr,
    to: &Expr,
    invariants: &[Expr],
) -> Result<(), NoMemory>
    ensures { OnOk result (text.new.items ≡ text.old.items ++ spec.for_text name.now from.now to.now invariants.now margin.now) }
{
    write_bytes(text, b"for ")?;
    write_range(alloc, text, name, from, to)?;
    write_where(alloc, text, margin, invariants)?;
    Ok(())
}
