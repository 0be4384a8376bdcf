//! Expressions as they are written.
use crate::types::Ty;
use wy_data::{Bytes, Name};
use wy_items::{Boxed, Items};

/// The operator of two operands.
#[derive(Clone, Copy, PartialEq, Eq)]
pub enum Op {
    /// `+`
    Add,
    /// `-`
    Sub,
    /// `*`
    Mul,
    /// `/`
    Div,
    /// `%`
    Mod,
    /// `==`
    Equal,
    /// `!=`
    NotEqual,
    /// `<`
    Less,
    /// `<=`
    LessEqual,
    /// `>`
    Greater,
    /// `>=`
    GreaterEqual,
    /// `&&`
    And,
    /// `||`
    Or,
    /// `==>`
    Implies,
}

/// An expression, with the byte offset where it stands.
#[cycle(expr)]
#[derive(Drop)]
pub struct Expr {
    pub at: u32,
    pub kind: ExprKind,
}

/// What an expression is. Brackets have no node.
#[cycle(expr)]
#[derive(Drop)]
pub enum ExprKind {
    /// `null`, at the word.
    Null,
    /// `true` or `false`, at the word.
    Bool(bool),
    /// `12` at its first digit, `-12` at the minus.
    Int(i128),
    /// `"hi"`, at the first quote: the bytes that it stands for.
    Text(Bytes),
    /// `x`, at the name.
    Var(Name),
    /// `f(x, 1)`, at the name of the function, method or property.
    Call(Name, Items<Expr>),
    /// `- x`, at the minus.
    Neg(Boxed<Expr>),
    /// `!x`, at `!`.
    Not(Boxed<Expr>),
    /// `|xs|`, at the first bar.
    Len(Boxed<Expr>),
    /// `x + y`, at the operator.
    Binary(Op, Boxed<Expr>, Boxed<Expr>),
    /// `x is int`, at the word `is`.
    Is(Boxed<Expr>, Ty),
    /// `xs[i]`, at `[`: the array and the index.
    Index(Boxed<Expr>, Boxed<Expr>),
    /// `p.x`, at the dot.
    Field(Boxed<Expr>, Name),
    /// `[1, x]`, at `[`.
    List(Items<Expr>),
    /// `[0; n]`, at `[`: the item and how often it stands.
    Repeat(Boxed<Expr>, Boxed<Expr>),
    /// `{x: 1, y: 2}`, at `{`: each field's name with its value, as they stand.
    Record(Items<(Name, Expr)>),
    /// `all { i in 0..n, j in 0..i | e }` at the word, true for `all` and false for `some`: each
    /// range's variable with its first number and the number behind its last, and the body.
    Quant(bool, Items<(Name, Expr, Expr)>, Boxed<Expr>),
}
