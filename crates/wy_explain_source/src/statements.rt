//! Statements in the list of nodes.
use crate::expressions::{put_all, put_expr};
use crate::marks::Marks;
use crate::nodes::{Class, Nodes, Role, Span};
use crate::types::{name_behind, put_type};
use wy_ast::{Case, NoMemory, Step, StepKind, Stmt, StmtKind};

/// Puts the statements of a block behind the nodes.
#[cycle(stmts)]
pub fn put_block(
    block: &[Stmt],
    marks: &Marks,
    nodes: &mut Nodes,
    role: Role,
    parent: usize,
) -> Result<(), NoMemory> {
    for stmt in block {
        put_stmt(stmt, marks, nodes, role, parent)?;
    }
    Ok(())
}

// Puts a statement behind the nodes. It takes the line that it begins.
#[cycle(stmts)]
fn put_stmt(
    stmt: &Stmt,
    marks: &Marks,
    nodes: &mut Nodes,
    role: Role,
    parent: usize,
) -> Result<(), NoMemory> {
    let at = stmt.at;
    let node = nodes.put(class_of(&stmt.kind), role, at, parent)?;
    nodes.spread(
        node,
        Span {
            from: at,
            to: marks.line_end(at),
        },
    );
    nodes.name(node, name_behind(marks, at));
    match &stmt.kind {
        StmtKind::Declare(ty, _, value) => {
            let ty = put_type(ty, marks, nodes, Role::Type, node)?;
            nodes.name(node, name_behind(marks, ty.to));
            put_option(value, marks, nodes, node)
        }
        StmtKind::Assign(_, path, value) => {
            put_path(path.as_slice(), marks, nodes, node)?;
            put_one(value, marks, nodes, Role::Value, node)
        }
        StmtKind::Call(_, args) => put_all(args.as_slice(), marks, nodes, Role::Argument, node),
        StmtKind::Return(value) => put_option(value, marks, nodes, node),
        StmtKind::Assert(test) => put_one(test, marks, nodes, Role::Test, node),
        StmtKind::Break | StmtKind::Continue | StmtKind::Skip | StmtKind::Fail => Ok(()),
        StmtKind::If(test, first, second) => {
            put_one(test, marks, nodes, Role::Test, node)?;
            put_block(first.as_slice(), marks, nodes, Role::Body, node)?;
            put_block(second.as_slice(), marks, nodes, Role::Else, node)
        }
        StmtKind::While(test, invariants, body) => {
            put_one(test, marks, nodes, Role::Test, node)?;
            put_all(invariants.as_slice(), marks, nodes, Role::Where, node)?;
            put_block(body.as_slice(), marks, nodes, Role::Body, node)
        }
        StmtKind::Do(body, test, invariants) => {
            put_block(body.as_slice(), marks, nodes, Role::Body, node)?;
            put_one(test, marks, nodes, Role::Test, node)?;
            put_all(invariants.as_slice(), marks, nodes, Role::Where, node)
        }
        StmtKind::For(_, from, to, invariants, body) => {
            nodes.name(node, name_behind(marks, at));
            put_one(from, marks, nodes, Role::From, node)?;
            put_one(to, marks, nodes, Role::To, node)?;
            put_all(invariants.as_slice(), marks, nodes, Role::Where, node)?;
            put_block(body.as_slice(), marks, nodes, Role::Body, node)
        }
        StmtKind::Switch(value, cases, otherwise) => {
            put_one(value, marks, nodes, Role::Value, node)?;
            put_cases(cases.as_slice(), marks, nodes, node)?;
            match otherwise {
                Some(block) => put_block(block.as_slice(), marks, nodes, Role::Else, node),
                None => Ok(()),
            }
        }
    }
}

#[cycle(stmts)]
fn put_cases(
    cases: &[Case],
    marks: &Marks,
    nodes: &mut Nodes,
    parent: usize,
) -> Result<(), NoMemory> {
    for case in cases {
        put_all(case.labels.as_slice(), marks, nodes, Role::Label, parent)?;
        put_block(case.body.as_slice(), marks, nodes, Role::Body, parent)?;
    }
    Ok(())
}

fn put_one(
    expr: &wy_ast::Expr,
    marks: &Marks,
    nodes: &mut Nodes,
    role: Role,
    parent: usize,
) -> Result<(), NoMemory> {
    let _span = put_expr(expr, marks, nodes, role, parent)?;
    Ok(())
}

fn put_option(
    expr: &Option<wy_ast::Expr>,
    marks: &Marks,
    nodes: &mut Nodes,
    parent: usize,
) -> Result<(), NoMemory> {
    match expr {
        Some(expr) => put_one(expr, marks, nodes, Role::Value, parent),
        None => Ok(()),
    }
}

fn put_path(
    path: &[Step],
    marks: &Marks,
    nodes: &mut Nodes,
    parent: usize,
) -> Result<(), NoMemory> {
    for step in path {
        let class = match &step.kind {
            StepKind::Index(_) => Class::Index,
            StepKind::Field(_) => Class::Field,
        };
        let node = nodes.put(class, Role::Step, step.at, parent)?;
        let to = match &step.kind {
            StepKind::Index(place) => {
                put_one(place, marks, nodes, Role::Right, node)?;
                marks.close_of(step.at)
            }
            StepKind::Field(_) => {
                let name = name_behind(marks, step.at);
                nodes.name(node, name);
                name.to
            }
        };
        nodes.spread(node, Span { from: step.at, to });
    }
    Ok(())
}

fn class_of(kind: &StmtKind) -> Class {
    match kind {
        StmtKind::Declare(_, _, _) => Class::Declare,
        StmtKind::Assign(_, _, _) => Class::Assign,
        StmtKind::Call(_, _) => Class::CallStmt,
        StmtKind::Return(_) => Class::Return,
        StmtKind::Assert(_) => Class::Assert,
        StmtKind::Break => Class::Break,
        StmtKind::Continue => Class::Continue,
        StmtKind::Skip => Class::Skip,
        StmtKind::Fail => Class::Fail,
        StmtKind::If(_, _, _) => Class::If,
        StmtKind::While(_, _, _) => Class::While,
        StmtKind::Do(_, _, _) => Class::Do,
        StmtKind::For(_, _, _, _, _) => Class::For,
        StmtKind::Switch(_, _, _) => Class::Switch,
    }
}
