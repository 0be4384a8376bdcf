//! Types in the list of nodes.
use crate::marks::Marks;
use crate::nodes::{Class, Nodes, Role, Span};
use wy_ast::{NoMemory, Ty, TyKind};
use wy_data::Name;

/// Puts a type behind the nodes; the stretch that it takes.
#[cycle(types)]
pub fn put_type(
    ty: &Ty,
    marks: &Marks,
    nodes: &mut Nodes,
    role: Role,
    parent: usize,
) -> Result<Span, NoMemory> {
    let at = ty.at;
    let node = nodes.put(class_of(&ty.kind), role, at, parent)?;
    let span = match &ty.kind {
        TyKind::Record(fields) => {
            put_fields(fields.as_slice(), marks, nodes, node)?;
            Span {
                from: at,
                to: marks.close_of(at),
            }
        }
        TyKind::Array(item) => {
            let item = put_type(item.get(), marks, nodes, Role::Operand, node)?;
            Span {
                from: marks.widened_left(item.from, at),
                to: marks.close_of(at),
            }
        }
        TyKind::Union(left, right) | TyKind::Inter(left, right) => {
            let left = put_type(left.get(), marks, nodes, Role::Left, node)?;
            let right = put_type(right.get(), marks, nodes, Role::Right, node)?;
            Span {
                from: marks.widened_left(left.from, at),
                to: marks.widened_right(right.to, at),
            }
        }
        TyKind::Not(operand) => {
            let operand = put_type(operand.get(), marks, nodes, Role::Operand, node)?;
            Span {
                from: at,
                to: marks.widened_right(operand.to, at),
            }
        }
        TyKind::Null | TyKind::Bool | TyKind::Int | TyKind::Any | TyKind::Void | TyKind::Named(_) =>
            Span {
                from: at,
                to: marks.end_of(at),
            },
    };
    nodes.spread(node, span);
    nodes.name(node, span);
    Ok(span)
}

// The fields of a record type, each at its type with its name behind.
#[cycle(types)]
fn put_fields(
    fields: &[(Name, Ty)],
    marks: &Marks,
    nodes: &mut Nodes,
    parent: usize,
) -> Result<(), NoMemory> {
    for field in fields {
        let node = nodes.put(Class::FieldType, Role::Operand, field.1.at, parent)?;
        let ty = put_type(&field.1, marks, nodes, Role::Type, node)?;
        let name = name_behind(marks, ty.to);
        nodes.spread(
            node,
            Span {
                from: ty.from,
                to: name.to,
            },
        );
        nodes.name(node, name);
    }
    Ok(())
}

/// The first name at or behind the offset.
pub fn name_behind(marks: &Marks, at: u32) -> Span {
    let mut at = at;
    for _ in 0..128 {
        let mark = match marks.at(at) {
            Some(mark) => mark,
            None => break,
        };
        if mark.sort == crate::marks::Sort::Name {
            return mark.span;
        }
        at = mark.span.to.max(at.saturating_add(1));
    }
    Span::at(at)
}

fn class_of(kind: &TyKind) -> Class {
    match kind {
        TyKind::Null | TyKind::Bool | TyKind::Int | TyKind::Any | TyKind::Void => Class::PlainType,
        TyKind::Record(_) => Class::RecordType,
        TyKind::Array(_) => Class::ArrayType,
        TyKind::Union(_, _) => Class::UnionType,
        TyKind::Inter(_, _) => Class::InterType,
        TyKind::Not(_) => Class::NotType,
        TyKind::Named(_) => Class::NamedType,
    }
}
