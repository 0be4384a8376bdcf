//! Expressions in the list of nodes.
use crate::marks::{Marks, Sort};
use crate::nodes::{Class, Nodes, Role, Span};
use crate::types::{name_behind, put_type};
use wy_ast::{Expr, ExprKind, NoMemory, Op};
use wy_data::Name;

/// Puts an expression behind the nodes; the stretch that it takes.
#[cycle(exprs)]
pub fn put_expr(
    expr: &Expr,
    marks: &Marks,
    nodes: &mut Nodes,
    role: Role,
    parent: usize,
) -> Result<Span, NoMemory> {
    let at = expr.at;
    let node = nodes.put(class_of(&expr.kind), role, at, parent)?;
    nodes.name(
        node,
        Span {
            from: at,
            to: marks.end_of(at),
        },
    );
    let span = match &expr.kind {
        ExprKind::Null
        | ExprKind::Bool(_)
        | ExprKind::Text(_)
        | ExprKind::Var(_)
        | ExprKind::Int(_) => literal(marks, at),
        ExprKind::Call(_, args) => {
            put_all(args.as_slice(), marks, nodes, Role::Argument, node)?;
            Span {
                from: at,
                to: marks.close_of(marks.end_of(at)),
            }
        }
        ExprKind::Neg(operand) | ExprKind::Not(operand) => {
            let operand = put_expr(operand.get(), marks, nodes, Role::Operand, node)?;
            Span {
                from: at,
                to: marks.widened_right(operand.to, at),
            }
        }
        ExprKind::Len(operand) => {
            let operand = put_expr(operand.get(), marks, nodes, Role::Operand, node)?;
            Span {
                from: at,
                to: marks.end_of(marks.widened_right(operand.to, at)),
            }
        }
        ExprKind::Binary(_, left, right) => {
            let left = put_expr(left.get(), marks, nodes, Role::Left, node)?;
            let right = put_expr(right.get(), marks, nodes, Role::Right, node)?;
            Span {
                from: marks.widened_left(left.from, at),
                to: marks.widened_right(right.to, at),
            }
        }
        ExprKind::Is(operand, ty) => {
            let operand = put_expr(operand.get(), marks, nodes, Role::Left, node)?;
            let ty = put_type(ty, marks, nodes, Role::Type, node)?;
            Span {
                from: marks.widened_left(operand.from, at),
                to: marks.widened_right(ty.to, at),
            }
        }
        ExprKind::Index(array, place) => {
            let array = put_expr(array.get(), marks, nodes, Role::Left, node)?;
            let _place = put_expr(place.get(), marks, nodes, Role::Right, node)?;
            Span {
                from: marks.widened_left(array.from, at),
                to: marks.close_of(at),
            }
        }
        ExprKind::Field(whole, _) => {
            let whole = put_expr(whole.get(), marks, nodes, Role::Left, node)?;
            let name = name_behind(marks, at);
            nodes.name(node, name);
            Span {
                from: marks.widened_left(whole.from, at),
                to: name.to,
            }
        }
        ExprKind::List(items) => {
            put_all(items.as_slice(), marks, nodes, Role::Operand, node)?;
            bracket(marks, at)
        }
        ExprKind::Repeat(item, count) => {
            let _item = put_expr(item.get(), marks, nodes, Role::Left, node)?;
            let _count = put_expr(count.get(), marks, nodes, Role::Right, node)?;
            bracket(marks, at)
        }
        ExprKind::Record(fields) => {
            put_fields(fields.as_slice(), marks, nodes, node)?;
            bracket(marks, at)
        }
        ExprKind::Quant(_, ranges, body) => {
            put_ranges(ranges.as_slice(), marks, nodes, node)?;
            let _body = put_expr(body.get(), marks, nodes, Role::Body, node)?;
            Span {
                from: at,
                to: marks.close_of(marks.end_of(at)),
            }
        }
    };
    nodes.spread(node, span);
    Ok(span)
}

/// Puts expressions behind the nodes.
#[cycle(exprs)]
pub fn put_all(
    exprs: &[Expr],
    marks: &Marks,
    nodes: &mut Nodes,
    role: Role,
    parent: usize,
) -> Result<(), NoMemory> {
    for expr in exprs {
        let _span = put_expr(expr, marks, nodes, role, parent)?;
    }
    Ok(())
}

// The fields of a record, each at its value with its name before.
#[cycle(exprs)]
fn put_fields(
    fields: &[(Name, Expr)],
    marks: &Marks,
    nodes: &mut Nodes,
    parent: usize,
) -> Result<(), NoMemory> {
    for field in fields {
        let node = nodes.put(Class::RecordField, Role::Operand, field.1.at, parent)?;
        let value = put_expr(&field.1, marks, nodes, Role::Value, node)?;
        let name = field_before(marks, value.from);
        nodes.spread(
            node,
            Span {
                from: name.from,
                to: value.to,
            },
        );
        nodes.name(node, name);
    }
    Ok(())
}

// The ranges of a quantifier, each at the quantifier.
#[cycle(exprs)]
fn put_ranges(
    ranges: &[(Name, Expr, Expr)],
    marks: &Marks,
    nodes: &mut Nodes,
    parent: usize,
) -> Result<(), NoMemory> {
    let at = match nodes.get(parent) {
        Some(quantifier) => quantifier.at,
        None => 0,
    };
    let mut behind = marks.end_of(at);
    for range in ranges {
        let node = nodes.put(Class::Range, Role::Operand, at, parent)?;
        let name = name_behind(marks, behind);
        let _from = put_expr(&range.1, marks, nodes, Role::From, node)?;
        let to = put_expr(&range.2, marks, nodes, Role::To, node)?;
        nodes.spread(
            node,
            Span {
                from: name.from,
                to: to.to,
            },
        );
        nodes.name(node, name);
        behind = to.to;
    }
    Ok(())
}

// The name before the colon that stands before the offset.
fn field_before(marks: &Marks, at: u32) -> Span {
    let mut at = at;
    for _ in 0..128 {
        let mark = match marks.before(at) {
            Some(mark) => mark,
            None => break,
        };
        at = mark.span.from;
        if mark.sort == Sort::Name {
            return mark.span;
        }
    }
    Span::at(at)
}

// A token, with the minus that a literal may have before it.
fn literal(marks: &Marks, at: u32) -> Span {
    let first = marks.end_of(at);
    let to = match marks.at(at) {
        Some(mark) => {
            if mark.sort == Sort::Sign {
                marks.end_of(first)
            } else {
                first
            }
        }
        None => first,
    };
    Span { from: at, to }
}

fn bracket(marks: &Marks, at: u32) -> Span {
    Span {
        from: at,
        to: marks.close_of(at),
    }
}

fn class_of(kind: &ExprKind) -> Class {
    match kind {
        ExprKind::Null => Class::Null,
        ExprKind::Bool(_) => Class::Bool,
        ExprKind::Int(_) => Class::Int,
        ExprKind::Text(_) => Class::Text,
        ExprKind::Var(_) => Class::Var,
        ExprKind::Call(_, _) => Class::Call,
        ExprKind::Neg(_) => Class::Neg,
        ExprKind::Not(_) => Class::Not,
        ExprKind::Len(_) => Class::Len,
        ExprKind::Binary(op, _, _) => binary(*op),
        ExprKind::Is(_, _) => Class::Is,
        ExprKind::Index(_, _) => Class::Index,
        ExprKind::Field(_, _) => Class::Field,
        ExprKind::List(_) => Class::List,
        ExprKind::Repeat(_, _) => Class::Repeat,
        ExprKind::Record(_) => Class::Record,
        ExprKind::Quant(_, _, _) => Class::Quant,
    }
}

fn binary(op: Op) -> Class {
    match op {
        Op::Add | Op::Sub | Op::Mul => Class::Arithmetic,
        Op::Div | Op::Mod => Class::Divide,
        Op::Equal | Op::NotEqual => Class::Equality,
        Op::Less | Op::LessEqual | Op::Greater | Op::GreaterEqual => Class::Comparison,
        Op::And => Class::And,
        Op::Or => Class::Or,
        Op::Implies => Class::Implies,
    }
}
