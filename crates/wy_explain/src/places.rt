//! The node at a place.
use wy_explain_source::{Class, Seen};

/// What is looked for at a place.
#[derive(Clone, Copy)]
pub enum Wanted {
    Expr,
    Stmt,
    Loop,
    Variable,
    /// An expression or a statement.
    Either,
    /// A statement or a call.
    Caller,
    /// A statement or a declaration.
    Owner,
    /// An index, a field or a length.
    Part,
}

/// The number of the first node at the place that is such a one.
pub fn node_there(seen: &Seen, at: u32, wanted: Wanted) -> Option<usize> {
    let mut number = 0usize;
    for node in seen.nodes.all() {
        if node.at == at && fits(node.class, wanted) {
            return Some(number);
        }
        number = number.saturating_add(1);
    }
    None
}

fn fits(class: Class, wanted: Wanted) -> bool {
    match wanted {
        Wanted::Expr => class.is_expr(),
        Wanted::Stmt => class.is_stmt(),
        Wanted::Loop => class.is_loop(),
        Wanted::Variable => class == Class::Var,
        Wanted::Either => class.is_expr() || class.is_stmt(),
        Wanted::Caller => class.is_stmt() || class == Class::Call,
        Wanted::Owner => class.is_stmt() || class.is_decl(),
        Wanted::Part => class == Class::Index || class == Class::Field || class == Class::Len,
    }
}
