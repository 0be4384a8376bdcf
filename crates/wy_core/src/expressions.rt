//! Expressions of the core.
use crate::types::Ty;
use wy_value::{Boxed, Items, Name};

/// The operator of two operands.
#[derive(Clone, Copy, PartialEq, Eq)]
pub enum Op {
    /// `+`
    Add,
    /// `-`
    Sub,
    /// `*`
    Mul,
    /// `/`
    Div,
    /// `%`
    Mod,
    /// `==`
    Equal,
    /// `<`
    Less,
    /// `<=`
    LessEqual,
    /// `>`
    Greater,
    /// `>=`
    GreaterEqual,
    /// `&&`
    And,
    /// `||`
    Or,
}

/// An expression, with the byte offset where it stands in the source. A node that lowering made has
/// the place of the statement or operator for which it was made.
#[cycle(core_expr)]
#[derive(Drop)]
pub struct Expr {
    pub at: u32,
    pub kind: ExprKind,
}

/// What an expression is.
#[cycle(core_expr)]
#[derive(Drop)]
pub enum ExprKind {
    /// `null`, at the word.
    Null,
    /// `true` or `false`, at the word.
    Bool(bool),
    /// `12` at its first digit, `-12` at the minus.
    Int(i128),
    /// `x`, at the name: the number of a variable.
    Var(u32),
    /// `f(x, 1)`, at the name: the number of a function or method, and the arguments.
    Call(u32, Items<Expr>),
    /// `- x`, at the minus.
    Neg(Boxed<Expr>),
    /// `!x`, at `!`.
    Not(Boxed<Expr>),
    /// `|xs|`, at the first bar.
    Len(Boxed<Expr>),
    /// `x + y`, at the operator.
    Binary(Op, Boxed<Expr>, Boxed<Expr>),
    /// `x is int`, at the word `is`.
    Is(Boxed<Expr>, Ty),
    /// `xs[i]`, at `[`: the array and the index.
    Index(Boxed<Expr>, Boxed<Expr>),
    /// `p.x`, at the dot.
    Field(Boxed<Expr>, Name),
    /// `[1, x]` at `[`, or a text at its first quote: the items.
    List(Items<Expr>),
    /// `[0; n]`, at `[`: the item and how often it stands.
    Repeat(Boxed<Expr>, Boxed<Expr>),
    /// `{x: 1, y: 2}`, at `{`: each field's name with its value, by rising names.
    Record(Items<(Name, Expr)>),
    /// `all { i in 0..n | e }` at the word, true for `all` and false for `some`: the number of its
    /// variable, its first number, the number behind its last, and the body.
    Quant(bool, u32, Boxed<Expr>, Boxed<Expr>, Boxed<Expr>),
}
