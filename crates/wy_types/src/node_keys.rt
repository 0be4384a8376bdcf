//! Which nodes are the same, and their hashes.
ghost use Rattle.std.specs.Prelude.{◌≡◌};
ghost use Rattle.std.specs.Cmp.{partial_equiv_from_equiv};
ghost use Rattle.wy_types.specs.Nodes as nodes;
ghost use Rattle.wy_types.specs.NodeLaws.{node_equiv, one_hash};

use crate::conjuncts::Conjunct;
use crate::sameness::same_conjuncts;
use crate::table::Node;
use std::hash::{Hash, Hasher};
use wy_core::Name;

// Which form the node has, in the order of the enum.
fn form_of(node: &Node) -> u32
    ensures value { result ≡ nodes.form_of node.now }
{
    match node {
        Node::Null => 0,
        Node::Bool => 1,
        Node::Int => 2,
        Node::Any => 3,
        Node::Void => 4,
        Node::Record(_) => 5,
        Node::Array(_) => 6,
        Node::Union(_, _) => 7,
        Node::Inter(_, _) => 8,
        Node::Not(_) => 9,
        Node::Named(_) => 10,
        Node::Normal(_) => 11,
    }
}

fn left_of(node: &Node) -> u32
    ensures value { result ≡ nodes.left_of node.now }
{
    match node {
        Node::Array(item) => *item,
        Node::Union(left, _) => *left,
        Node::Inter(left, _) => *left,
        Node::Not(term) => *term,
        Node::Named(number) => *number,
        _ => 0,
    }
}

fn right_of(node: &Node) -> u32
    ensures value { result ≡ nodes.right_of node.now }
{
    match node {
        Node::Union(_, right) => *right,
        Node::Inter(_, right) => *right,
        _ => 0,
    }
}

fn fields_of(node: &Node) -> &[(Name, u32)]
    ensures value { result.now ≡ nodes.fields_of node.now }
{
    match node {
        Node::Record(fields) => fields.as_slice(),
        _ => &[],
    }
}

fn conjuncts_of(node: &Node) -> &[Conjunct<u32>]
    ensures value { result.now ≡ nodes.conjuncts_of node.now }
{
    match node {
        Node::Normal(conjuncts) => conjuncts.as_slice(),
        _ => &[],
    }
}

// Whether both lists have the same names with the same numbers.
fn same_numbers(a: &[(Name, u32)], b: &[(Name, u32)]) -> bool
    ensures value { result ≡ nodes.same_numbers a.now b.now }
{
    let mut rest = b;
    for x in a {
        match rest {
            [] => return false,
            [y, others @ ..] => {
                if !x.0.is(&y.0) || x.1 != y.1 {
                    return false;
                }
                rest = others;
            }
        }
    }
    rest.is_empty()
}

impl PartialEq for Node {
    ghost eq = { nodes.same_node };

    ghost laws = { partial_equiv_from_equiv node_equiv };

    fn eq(&self, other: &Node) -> bool {
        form_of(self) == form_of(other)
            && left_of(self) == left_of(other)
            && right_of(self) == right_of(other)
            && same_numbers(fields_of(self), fields_of(other))
            && same_conjuncts(conjuncts_of(self), conjuncts_of(other))
    }
}

impl Eq for Node {
    ghost laws = { node_equiv };
}

impl Hash for Node {
    ghost hash_input = { nodes.hash_input };

    ghost respects_eq = { one_hash };

    fn hash<H: Hasher>(&self, state: &mut H) {
        form_of(self).hash(state);
        left_of(self).hash(state);
        right_of(self).hash(state);
        fields_of(self).hash(state);
        conjuncts_of(self).len().hash(state);
    }
}
