//! The data of constants.
ghost use Rattle.std.specs.Prelude.{◌≡◌, ◌<◌, length, option_map};
ghost use Rattle.wy_check_nodes.specs.wy_term.Nodes.{tree_at};
ghost use Rattle.wy_check_nodes.specs.wy_term.Data.{same_datum};
ghost use Rattle.wy_check_nodes.specs.wy_term.Rewriting.{as_number, as_constant};
ghost use Rattle.wy_check_nodes.specs.wy_check_spec.valid.Kinds.{are_apart};
ghost use Rattle.wy_check_splits.specs.Constants.{datum_of};

use wy_check_nodes::{Node, Terms};

/// A datum that a term is.
#[derive(Clone, Copy, Debug, PartialEq, Eq)]
pub enum Constant {
    Null,
    Bool(bool),
    Int(i128),
}

// The number that a term is, if it is one.
fn number_at(terms: &Terms, t: u32) -> Option<i128>
    requires { t < length terms.now }
    ensures { result ≡ as_number (tree_at terms.now t) }
{
    match terms.node(t) {
        Node::Number(number) => Some(*number),
        _ => None,
    }
}

/// The datum of a constant, `null`, a truth value or a number, in constant time.
pub fn constant_at(terms: &Terms, v: u32) -> Option<Constant>
    requires { v < length terms.now }
    ensures { option_map datum_of result ≡ as_constant (tree_at terms.now v) }
{
    match terms.node(v) {
        Node::Null => Some(Constant::Null),
        Node::Bool(b) => Some(Constant::Bool(*b)),
        Node::Int(s) => match number_at(terms, *s) {
            Some(number) => Some(Constant::Int(number)),
            None => None,
        },
        _ => None,
    }
}

fn same_constant(c: Constant, d: Constant) -> bool
    ensures { result ≡ same_datum (datum_of c) (datum_of d) }
{
    match (c, d) {
        (Constant::Null, Constant::Null) => true,
        (Constant::Bool(a), Constant::Bool(b)) => a == b,
        (Constant::Int(a), Constant::Int(b)) => a == b,
        _ => false,
    }
}

/// Whether these are two different data.
pub fn are_apart(c: Option<Constant>, d: Option<Constant>) -> bool
    ensures { result ≡ are_apart (option_map datum_of c) (option_map datum_of d) }
{
    match (c, d) {
        (Some(a), Some(b)) => !same_constant(a, b),
        (Some(_), None) => false,
        (None, _) => false,
    }
}
