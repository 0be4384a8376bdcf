//! The text of clauses: each stands on a line of its own behind the margin of its header.
ghost use Rattle.std.specs.Prelude.{◌≡◌, ◌++◌, codes, OnOk};
ghost use Rattle.wy_print.specs.ExprText.{expr_texts};
ghost use Rattle.wy_print.specs.StmtText as spec;

use crate::expressions::write_expr;
use crate::pieces::write_bytes;
use std::alloc::Global;
use wy_ast::{Expr, NoMemory};

/// Appends the clauses, each behind a line end, the margin and the word.
#[tactic(auto, using(std::proofs::lemmas::List::append_assoc))]
pub fn write_clauses(
    alloc: Global,
    text: &mut Vec<u8>,
    margin: &[u8],
    word: &[u8],
    clauses: &[Expr],
) -> Result<(), NoMemory>
    ensures { OnOk result (text.new.items ≡ text.old.items ++ spec.clause_lines margin.now word.now (expr_texts clauses.now)) }
{
    for clause in clauses {
        write_bytes(text, b"\n")?;
        write_bytes(text, margin)?;
        write_bytes(text, word)?;
        write_expr(alloc, text, clause)?;
    }
    Ok(())
}

/// Appends the clauses behind `where`.
pub fn write_where(
    alloc: Global,
    text: &mut Vec<u8>,
    margin: &[u8],
    clauses: &[Expr],
) -> Result<(), NoMemory>
    ensures { OnOk result (text.new.items ≡ text.old.items ++ spec.where_lines margin.now clauses.now) }
{
    write_clauses(alloc, text, margin, b"where ", clauses)
}
