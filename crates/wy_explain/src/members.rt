//! Which type a value has to be of.
use crate::places::{Wanted, node_there};
use std::alloc::Global;
use wy_explain_source::{Class, NoMemory, Node, Role, Seen, Span};
use wy_term::{Cond, CondKind};

/// The type that a member condition asks for, as it is written, with the place of its first clause; nothing where that isn't plain.
pub fn member_type(
    alloc: Global,
    seen: &Seen,
    conds: &[Cond],
    number: usize,
) -> Result<Option<(Node, u32)>, NoMemory> {
    let cond = match conds.get(number) {
        Some(cond) => cond,
        None => return Ok(None),
    };
    let stmt = match node_there(seen, cond.at, Wanted::Caller) {
        Some(stmt) => stmt,
        None => return Ok(None),
    };
    let node = match seen.nodes.get(stmt) {
        Some(node) => node,
        None => return Ok(None),
    };
    let ty = match node.class {
        Class::Return => seen.result_type(node.decl),
        Class::Declare => seen.child(stmt, Role::Type),
        Class::Assign => seen.declared(node.decl, seen.text(node.name)),
        Class::Call | Class::CallStmt => {
            return match seen.decl_named(seen.text(node.name)) {
                Some(callee) => argument_clause(alloc, seen, callee, earlier(conds, number)),
                None => Ok(None),
            };
        }
        _ => None,
    };
    match ty {
        Some(ty) => clause_of(alloc, seen, ty),
        None => Ok(None),
    }
}

// How many member conditions of the same place stand before this one.
fn earlier(conds: &[Cond], number: usize) -> usize {
    let at = match conds.get(number) {
        Some(cond) => cond.at,
        None => return 0,
    };
    let mut count = 0usize;
    let mut passed = 0usize;
    for cond in conds {
        if passed < number && cond.at == at && cond.kind == CondKind::Member {
            count = count.saturating_add(1);
        }
        passed = passed.saturating_add(1);
    }
    count
}

// The first clause of the type of the parameter that comes with this number among those with clauses.
fn argument_clause(
    alloc: Global,
    seen: &Seen,
    callee: usize,
    place: usize,
) -> Result<Option<(Node, u32)>, NoMemory> {
    let mut passed = 0usize;
    let mut number = 0usize;
    for node in seen.nodes.all() {
        if node.parent == callee && node.class == Class::Param {
            let clause = match seen.child(number, Role::Type) {
                Some(ty) => clause_of(alloc, seen, ty)?,
                None => None,
            };
            if clause.is_some() {
                if passed == place {
                    return Ok(clause);
                }
                passed = passed.saturating_add(1);
            }
        }
        number = number.saturating_add(1);
    }
    Ok(None)
}

// The first clause of the types that are mentioned in a type, and of those that they mention.
fn clause_of(alloc: Global, seen: &Seen, ty: Node) -> Result<Option<(Node, u32)>, NoMemory> {
    let mut reached: Vec<usize> = Vec::new(alloc);
    put_mentioned(seen, ty.span, &mut reached)?;
    let mut next = 0usize;
    for _ in 0..4096 {
        let alias = match reached.get(next) {
            Some(alias) => *alias,
            None => break,
        };
        match seen.child(alias, Role::Where) {
            Some(clause) => return Ok(Some((ty, clause.at))),
            None => {}
        }
        match seen.nodes.get(alias) {
            Some(node) => put_mentioned(seen, node.span, &mut reached)?,
            None => {}
        }
        next = next.saturating_add(1);
    }
    Ok(None)
}

// Puts the declarations of the types that a stretch mentions behind the others, each once.
fn put_mentioned(seen: &Seen, span: Span, reached: &mut Vec<usize>) -> Result<(), NoMemory> {
    for node in seen.nodes.all() {
        if node.class == Class::NamedType && span.holds(node.at) {
            match seen.decl_named(seen.text(node.name)) {
                Some(alias) => {
                    if !reached.iter().any(|other| *other == alias) {
                        reached.push(alias)?;
                    }
                }
                None => {}
            }
        }
    }
    Ok(())
}
