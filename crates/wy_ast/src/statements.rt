//! Statements as they are written.
use crate::expressions::Expr;
use crate::types::Ty;
use wy_data::Name;
use wy_items::Items;

/// A statement, with the byte offset of its first token.
#[cycle(stmt)]
#[derive(Drop)]
pub struct Stmt {
    pub at: u32,
    pub kind: StmtKind,
}

/// What a statement is.
#[cycle(stmt)]
#[derive(Drop)]
pub enum StmtKind {
    /// `int x` or `int x = 1`
    Declare(Ty, Name, Option<Expr>),
    /// `x = 1` or `x[i].f = 1`: the variable, the path into it and the value.
    Assign(Name, Items<Step>, Expr),
    /// `m(x, 1)`
    Call(Name, Items<Expr>),
    /// `return` or `return x`
    Return(Option<Expr>),
    /// `assert x > 0`
    Assert(Expr),
    /// `break`
    Break,
    /// `continue`
    Continue,
    /// `skip`
    Skip,
    /// `fail`
    Fail,
    /// `if x > 0:`: the test, the first block and the one of `else`, which is empty where none is
    /// written. An `else if` is a block of that one `if`, which stands at its word `if`.
    If(Expr, Items<Stmt>, Items<Stmt>),
    /// `while x > 0 where y > 0:`: the test, its invariants and the body.
    While(Expr, Items<Expr>, Items<Stmt>),
    /// `do: .. while x > 0 where y > 0`: the body, the test and its invariants.
    Do(Items<Stmt>, Expr, Items<Expr>),
    /// `for i in 0..n where x > 0:`: the variable, its first number, the number behind its last,
    /// the invariants and the body.
    For(Name, Expr, Expr, Items<Expr>, Items<Stmt>),
    /// `switch x:`: the value, its cases, and the block of `default` where one is written.
    Switch(Expr, Items<Case>, Option<Items<Stmt>>),
}

/// `case 1, 2:` with its block.
#[cycle(stmt)]
#[derive(Drop)]
pub struct Case {
    pub labels: Items<Expr>,
    pub body: Items<Stmt>,
}

/// A step of the path into a variable, with the byte offset where it stands.
#[derive(Drop)]
pub struct Step {
    pub at: u32,
    pub kind: StepKind,
}

/// Which part a step takes.
#[derive(Drop)]
pub enum StepKind {
    /// `[i]`, at `[`.
    Index(Expr),
    /// `.f`, at the dot.
    Field(Name),
}
