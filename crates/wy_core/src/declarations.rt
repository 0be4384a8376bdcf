//! Declarations and whole programs of the core.
use crate::expressions::Expr;
use crate::statements::Stmt;
use crate::types::Ty;
use wy_value::{Items, Name};

/// A program: its declarations in the order of the source. The types have the numbers from 0 in
/// this order, and so have functions and methods together. `print` and `print_int` have the two
/// numbers behind the last of these.
#[derive(Drop)]
pub struct Core {
    pub decls: Items<Decl>,
}

/// A declaration. Its variables have numbers of their own, from 0.
#[derive(Drop)]
pub enum Decl {
    Alias(Alias),
    Routine(Routine),
}

/// `type nat is (int x) where x >= 0`, or `type point is {int x, int y}`.
#[derive(Drop)]
pub struct Alias {
    /// The byte offset of its first token.
    pub at: u32,
    pub name: Name,
    /// The names of its variables, by their numbers.
    pub variables: Items<Name>,
    pub ty: Ty,
    /// The variable of its clauses. None where the type has no clause.
    pub variable: Option<u32>,
    pub clauses: Items<Expr>,
}

/// A function or a method: `function f(int x) -> (int r) requires x > 0 ensures r > x:` with its
/// body, or the same with the word `method`.
#[derive(Drop)]
pub struct Routine {
    /// The byte offset of its first token.
    pub at: u32,
    pub name: Name,
    pub is_method: bool,
    /// The names of its variables, by their numbers.
    pub variables: Items<Name>,
    pub params: Items<Param>,
    /// None where nothing is given back, which a method alone may say.
    pub result: Option<Output>,
    pub preconditions: Items<Expr>,
    pub postconditions: Items<Expr>,
    pub body: Items<Stmt>,
}

/// `int x` in brackets, with the number of the variable.
#[derive(Drop)]
pub struct Param {
    pub ty: Ty,
    pub variable: u32,
}

/// The type of the result, and the number of its variable where it has a name.
#[derive(Drop)]
pub struct Output {
    pub ty: Ty,
    pub variable: Option<u32>,
}
