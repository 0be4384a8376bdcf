//! Statements of the core.
use crate::expressions::Expr;
use crate::types::Ty;
use wy_value::{Items, Name};

/// A statement, with the byte offset of its first token in the source. A statement that lowering
/// made has the place of the one for which it was made.
#[cycle(core_stmt)]
#[derive(Drop)]
pub struct Stmt {
    pub at: u32,
    pub kind: StmtKind,
}

/// What a statement is. A variable is its number.
#[cycle(core_stmt)]
#[derive(Drop)]
pub enum StmtKind {
    /// `int x` or `int x = 1`
    Declare(Ty, u32, Option<Expr>),
    /// `x = 1` or `x[i].f = 1`: the variable, the path into it and the value.
    Assign(u32, Items<Step>, Expr),
    /// `m(x, 1)`: the number of a function or method, and the arguments.
    Call(u32, Items<Expr>),
    /// `return` or `return x`
    Return(Option<Expr>),
    /// `assert x > 0`
    Assert(Expr),
    /// `break`
    Break,
    /// `continue`
    Continue,
    /// `skip`
    Skip,
    /// `fail`
    Fail,
    /// `if x > 0:`: the test, the first block and the one of `else`, which is empty where there is
    /// none.
    If(Expr, Items<Stmt>, Items<Stmt>),
    /// `while x > 0 where y > 0:`: the test, its invariants and the body.
    While(Expr, Items<Expr>, Items<Stmt>),
}

/// A step of the path into a variable, with the byte offset where it stands.
#[derive(Drop)]
pub struct Step {
    pub at: u32,
    pub kind: StepKind,
}

/// Which part a step takes.
#[derive(Drop)]
pub enum StepKind {
    /// `[i]`, at `[`.
    Index(Expr),
    /// `.f`, at the dot.
    Field(Name),
}
