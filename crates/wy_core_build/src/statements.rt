//! Statements of the core, made from their parts.
ghost use Rattle.std.specs.Prelude.{◌≡◌, map};
ghost use Rattle.wy_core.specs.CoreSeen.{seen_expr, seen_exprs, seen_ty, seen_stmt, seen_block, seen_step, seen_option};
ghost use Rattle.wy_core.specs.CoreTree as tree;

use wy_core::{Expr, Step, StepKind, Stmt, StmtKind, Ty};
use wy_data::Name;
use wy_items::Items;

/// A declaration of a variable.
pub fn declare(at: u32, ty: Ty, variable: u32, value: Option<Expr>) -> Stmt
    ensures value { seen_stmt result ≡ tree.DeclareStmt at (seen_ty ty) variable (seen_option value) }
{
    Stmt {
        at,
        kind: StmtKind::Declare(ty, variable, value),
    }
}

/// A value put at a path into a variable.
pub fn assign(at: u32, variable: u32, path: Items<Step>, value: Expr) -> Stmt
    ensures value { seen_stmt result ≡ tree.AssignStmt at variable (map seen_step path) (seen_expr value) }
{
    Stmt {
        at,
        kind: StmtKind::Assign(variable, path, value),
    }
}

/// A call of a function or method.
pub fn call_stmt(at: u32, routine: u32, args: Items<Expr>) -> Stmt
    ensures value { seen_stmt result ≡ tree.CallStmt at routine (tree.exprs_of (seen_exprs args)) }
{
    Stmt {
        at,
        kind: StmtKind::Call(routine, args),
    }
}

/// A return, with or without a result.
pub fn return_stmt(at: u32, value: Option<Expr>) -> Stmt
    ensures value { seen_stmt result ≡ tree.ReturnStmt at (seen_option value) }
{
    Stmt {
        at,
        kind: StmtKind::Return(value),
    }
}

/// An assertion.
pub fn assert_stmt(at: u32, test: Expr) -> Stmt
    ensures value { seen_stmt result ≡ tree.AssertStmt at (seen_expr test) }
{
    Stmt {
        at,
        kind: StmtKind::Assert(test),
    }
}

/// `break`
pub fn break_stmt(at: u32) -> Stmt
    ensures value { seen_stmt result ≡ tree.BreakStmt at }
{
    Stmt {
        at,
        kind: StmtKind::Break,
    }
}

/// `continue`
pub fn continue_stmt(at: u32) -> Stmt
    ensures value { seen_stmt result ≡ tree.ContinueStmt at }
{
    Stmt {
        at,
        kind: StmtKind::Continue,
    }
}

/// `skip`
pub fn skip_stmt(at: u32) -> Stmt
    ensures value { seen_stmt result ≡ tree.SkipStmt at }
{
    Stmt {
        at,
        kind: StmtKind::Skip,
    }
}

/// `fail`
pub fn fail_stmt(at: u32) -> Stmt
    ensures value { seen_stmt result ≡ tree.FailStmt at }
{
    Stmt {
        at,
        kind: StmtKind::Fail,
    }
}

/// A choice of two blocks.
pub fn if_stmt(at: u32, test: Expr, first: Items<Stmt>, second: Items<Stmt>) -> Stmt
    ensures value { seen_stmt result ≡ tree.IfStmt at (seen_expr test) (seen_block first) (seen_block second) }
{
    Stmt {
        at,
        kind: StmtKind::If(test, first, second),
    }
}

/// A loop, its test, its invariants and its block.
pub fn while_stmt(at: u32, test: Expr, invariants: Items<Expr>, body: Items<Stmt>) -> Stmt
    ensures value { seen_stmt result ≡ tree.WhileStmt at (seen_expr test) (seen_exprs invariants) (seen_block body) }
{
    Stmt {
        at,
        kind: StmtKind::While(test, invariants, body),
    }
}

/// A step of a path into an array.
pub fn index_step(at: u32, index: Expr) -> Step
    ensures value { seen_step result ≡ tree.IndexStep at (seen_expr index) }
{
    Step {
        at,
        kind: StepKind::Index(index),
    }
}

/// A step of a path into a record.
pub fn field_step(at: u32, name: Name) -> Step
    ensures value { seen_step result ≡ tree.FieldStep at name }
{
    Step {
        at,
        kind: StepKind::Field(name),
    }
}
