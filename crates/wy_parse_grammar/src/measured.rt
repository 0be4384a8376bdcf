//! Trees with their heights. A tree that grows too high is let go at once, so that what is kept of a
//! text is never higher than the limit, however long its chains of operators are.
ghost use Rattle.std.specs.Prelude.{◌≡◌, IfOk};
ghost use Rattle.wy_parse_grammar.specs.Trees as trees;

use std::alloc::{AllocError, Global};
use wy_ast::{Expr, ExprKind, Ty, TyKind};
use wy_items::{Boxed, Items};

/// How high an expression or a type may be. A node without parts has the height 1.
pub const HIGHEST: u32 = 100;

/// A part of a tree.
#[derive(Drop)]
pub enum Measured<T> {
    /// The part, and the height of the highest node in it, or 0 where it has none.
    Low(T, u32),
    /// The part is too high, and of its nodes that are just one too high the first in the text stands
    /// at this offset.
    High(u32),
}

/// Two parts, one beside the other.
pub fn both<A: Drop, B: Drop>(a: Measured<A>, b: Measured<B>) -> Measured<(A, B)>
    ensures { result ≡ trees.both a b }
{
    match (a, b) {
        (Measured::Low(a, h), Measured::Low(b, k)) => Measured::Low((a, b), h.max(k)),
        (Measured::Low(_, _), Measured::High(at)) => Measured::High(at),
        (Measured::High(at), Measured::Low(_, _)) => Measured::High(at),
        (Measured::High(at), Measured::High(other)) => Measured::High(at.min(other)),
    }
}

/// The list with one part more.
pub fn pushed<T: Drop>(
    list: Measured<Items<T>>,
    part: Measured<T>,
) -> Result<Measured<Items<T>>, AllocError>
    ensures { IfOk result (λ all. all ≡ trees.pushed list part) }
{
    match both(list, part) {
        Measured::Low((mut list, part), height) => {
            list.push(part)?;
            Ok(Measured::Low(list, height))
        }
        Measured::High(at) => Ok(Measured::High(at)),
    }
}

/// The part with a name.
pub fn named<N: Drop, T: Drop>(name: N, part: Measured<T>) -> Measured<(N, T)>
    ensures { result ≡ trees.named name part }
{
    match part {
        Measured::Low(part, height) => Measured::Low((name, part), height),
        Measured::High(at) => Measured::High(at),
    }
}

/// The part, there.
pub fn some<T: Drop>(part: Measured<T>) -> Measured<Option<T>>
    ensures { result ≡ trees.some part }
{
    match part {
        Measured::Low(part, height) => Measured::Low(Some(part), height),
        Measured::High(at) => Measured::High(at),
    }
}

/// The part in a box.
pub fn boxed<T: Drop>(alloc: Global, part: Measured<T>) -> Result<Measured<Boxed<T>>, AllocError>
    ensures { IfOk result (λ all. all ≡ part) }
{
    match part {
        Measured::Low(part, height) => Ok(Measured::Low(Boxed::new(alloc, part)?, height)),
        Measured::High(at) => Ok(Measured::High(at)),
    }
}

/// The node of an expression with these parts.
pub fn expr_node(at: u32, kind: Measured<ExprKind>) -> Measured<Expr>
    ensures { result ≡ trees.expr_node at kind }
{
    match kind {
        Measured::Low(kind, height) => {
            if height < HIGHEST {
                return Measured::Low(Expr { at, kind }, height + 1);
            }
            drop(kind);
            Measured::High(at)
        }
        Measured::High(at) => Measured::High(at),
    }
}

/// The node of a type with these parts.
pub fn ty_node(at: u32, kind: Measured<TyKind>) -> Measured<Ty>
    ensures { result ≡ trees.ty_node at kind }
{
    match kind {
        Measured::Low(kind, height) => {
            if height < HIGHEST {
                return Measured::Low(Ty { at, kind }, height + 1);
            }
            drop(kind);
            Measured::High(at)
        }
        Measured::High(at) => Measured::High(at),
    }
}
