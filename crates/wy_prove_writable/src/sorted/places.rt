//! What each form of term wants of its parts.
ghost use Rattle.std.specs.Prelude.{◌↔◌, length, IsTrue};
ghost use Rattle.wy_term_subst.specs.sorted.Sorted.{places, AreSorted};
ghost use Rattle.wy_term.specs.Nodes.{parts_at, plain, tree_at, HasPartsBelow};
ghost use Rattle.wy_prove_writable.specs.sorted.Sorts.{MarkSorted};

use crate::sorted::parts::{have_sort, have_sorts, is_record};
use crate::sorted::sorts::Sort;
use wy_term::{Node, Terms};

/// Whether the parts of a node are sorted throughout and of the sorts that its form wants, in time linear in their number.
pub fn are_parts_sorted(terms: &Terms, marks: &[bool], node: &Node) -> bool
    requires parts { HasPartsBelow (length marks.now) (plain node.now) }
    requires marks { MarkSorted terms.now marks.now }
    ensures exactly { IsTrue result ↔ AreSorted (parts_at (tree_at terms.now) (plain node.now).parts) (places (plain node.now).symbol) }
{
    match node {
        Node::Number(_) | Node::IntName(_, _) | Node::ValName(_, _) | Node::Null | Node::Bool(_) =>
            { true }
        Node::Add(s, t) | Node::Sub(s, t) | Node::Mul(s, t) | Node::Div(s, t) | Node::Mod(s, t) => {
            have_sorts(terms, marks, &[(*s, Sort::Int), (*t, Sort::Int)])
        }
        Node::AtMost(s, t) => have_sorts(terms, marks, &[(*s, Sort::Int), (*t, Sort::Int)]),
        Node::Neg(s) | Node::Int(s) => have_sorts(terms, marks, &[(*s, Sort::Int)]),
        Node::Num(v) | Node::Len(v) | Node::Field(v, _) | Node::Kind(v, _) | Node::In(v, _) => {
            have_sorts(terms, marks, &[(*v, Sort::Val)])
        }
        Node::Truth(f) | Node::Not(f) => have_sorts(terms, marks, &[(*f, Sort::Formula)]),
        Node::Repeat(v, s) | Node::Get(v, s) => {
            have_sorts(terms, marks, &[(*v, Sort::Val), (*s, Sort::Int)])
        }
        Node::Update(v, s, w) => {
            have_sorts(
                terms,
                marks,
                &[(*v, Sort::Val), (*s, Sort::Int), (*w, Sort::Val)],
            )
        }
        Node::SetField(v, _, w) | Node::Equal(v, w) => {
            have_sorts(terms, marks, &[(*v, Sort::Val), (*w, Sort::Val)])
        }
        Node::Array(vs) => have_sort(terms, marks, vs, Sort::Val),
        Node::Record(fields) => is_record(terms, marks, fields),
        Node::And(fs) => have_sort(terms, marks, fs, Sort::Formula),
        Node::Or(fs) => have_sort(terms, marks, fs, Sort::Formula),
        Node::All(q) | Node::Some(q) => {
            have_sorts(
                terms,
                marks,
                &[
                    (q.from, Sort::Int),
                    (q.below, Sort::Int),
                    (q.body, Sort::Formula),
                ],
            )
        }
    }
}
