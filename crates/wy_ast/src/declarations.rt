//! Declarations and whole programs as they are written.
use crate::expressions::Expr;
use crate::statements::Stmt;
use crate::types::Ty;
use wy_data::Name;
use wy_items::Items;

/// A source file.
#[derive(Drop)]
pub struct Program {
    /// `import geo`: each name, with the byte offset of that name.
    pub imports: Items<(Name, u32)>,
    pub decls: Items<Decl>,
}

/// A declaration.
#[derive(Drop)]
pub enum Decl {
    Alias(Alias),
    Function(Function),
    Method(Method),
    Property(Property),
}

/// `type nat is (int x) where x >= 0`, or `type point is {int x, int y}`.
#[derive(Drop)]
pub struct Alias {
    /// The byte offset of its first token.
    pub at: u32,
    pub name: Name,
    pub ty: Ty,
    /// The variable of its clauses, where it has one.
    pub variable: Option<Name>,
    pub clauses: Items<Expr>,
}

/// `function f(int x) -> (int r) requires x > 0 ensures r > x:` with its body.
#[derive(Drop)]
pub struct Function {
    /// The byte offset of its first token.
    pub at: u32,
    pub name: Name,
    pub params: Items<Param>,
    pub result: Ty,
    /// The name of the result, where it has one.
    pub result_name: Option<Name>,
    pub preconditions: Items<Expr>,
    pub postconditions: Items<Expr>,
    pub body: Items<Stmt>,
}

/// `method m(int x) -> (int r) requires x > 0 ensures r > x:` with its body.
#[derive(Drop)]
pub struct Method {
    /// The byte offset of its first token.
    pub at: u32,
    pub name: Name,
    pub params: Items<Param>,
    /// The type of the result, and its name where it has one. None where nothing is given back.
    pub result: Option<(Ty, Option<Name>)>,
    pub preconditions: Items<Expr>,
    pub postconditions: Items<Expr>,
    pub body: Items<Stmt>,
}

/// `property p(int x) where x > 0`
#[derive(Drop)]
pub struct Property {
    /// The byte offset of its first token.
    pub at: u32,
    pub name: Name,
    pub params: Items<Param>,
    pub clauses: Items<Expr>,
}

/// `int x` in brackets.
#[derive(Drop)]
pub struct Param {
    pub ty: Ty,
    pub name: Name,
}
