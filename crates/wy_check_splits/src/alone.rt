//! Whether a literal alone can't be.
ghost use Rattle.std.specs.Prelude.{◌≡◌, ◌<◌, ◌||◌, length, IfOk};
ghost use Rattle.wy_check_nodes.specs.wy_term.Nodes.{tree_at};
ghost use Rattle.wy_check_nodes.specs.wy_term.Rewriting.{as_constant, kind_given};
ghost use Rattle.wy_check_nodes.specs.wy_check_spec.valid.Kinds.{are_apart, of_two_kinds, clashes_with};

use crate::constants::{are_apart, constant_at};
use crate::kinds::{kind_given, of_two_kinds};
use wy_check_nodes::{NoMemory, Node, Terms};

// Whether an equation can't be, by constants or by kinds.
fn sides_differ(terms: &Terms, v: u32, w: u32) -> Result<bool, NoMemory>
    requires first { v < length terms.now }
    requires second { w < length terms.now }
    ensures { IfOk result (λ yes. yes ≡ (are_apart (as_constant (tree_at terms.now v)) (as_constant (tree_at terms.now w)) || of_two_kinds (kind_given (tree_at terms.now v)) (kind_given (tree_at terms.now w)))) }
{
    let first = constant_at(terms, v);
    let second = constant_at(terms, w);
    if are_apart(first, second) {
        return Ok(true);
    }
    let one = kind_given(terms, v)?;
    let other = kind_given(terms, w)?;
    Ok(of_two_kinds(&one, &other))
}

/// Whether an atom with this sign can't be: it denies that a term is itself, or it equates two different constants, or
/// constants or data that are written out of different kinds. It takes time linear in the size of a record's names.
pub fn clashes_with(terms: &Terms, atom: u32, holds: bool) -> Result<bool, NoMemory>
    requires { atom < length terms.now }
    ensures { IfOk result (λ yes. yes ≡ clashes_with holds (tree_at terms.now atom)) }
{
    match terms.node(atom) {
        Node::Equal(v, w) => {
            if holds {
                sides_differ(terms, *v, *w)
            } else {
                Ok(terms.same(*v, *w))
            }
        }
        _ => Ok(false),
    }
}
