//! Which formulas are made of others.
ghost use Rattle.std.specs.Prelude.{◌≡◌, ◌<◌, length};
ghost use Rattle.wy_check_spec.specs.wy_term.Nodes.{tree_at};
ghost use Rattle.wy_check_spec.specs.judge.Node.{is_atom};
ghost use Rattle.wy_check_nodes.specs.Judged.{is_connective};

use wy_check_spec::{Node, Terms};

/// Whether a formula is an atom, in constant time.
pub fn is_atom(terms: &Terms, f: u32) -> bool
    requires { f < length terms.now }
    ensures { result ≡ is_atom (tree_at terms.now f) }
{
    match terms.node(f) {
        Node::AtMost(_, _) | Node::Equal(_, _) | Node::Kind(_, _) => true,
        Node::In(_, _) | Node::All(_) | Node::Some(_) => true,
        _ => false,
    }
}

/// Whether a formula is a denial, an `and` or an `or`, in constant time.
pub fn is_connective(terms: &Terms, f: u32) -> bool
    requires { f < length terms.now }
    ensures { result ≡ is_connective (tree_at terms.now f) }
{
    match terms.node(f) {
        Node::Not(_) | Node::And(_) | Node::Or(_) => true,
        _ => false,
    }
}
