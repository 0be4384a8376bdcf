//! Terms of one head, whose arguments are pairwise in one class.
ghost use Rattle.std.specs.Prelude.{◌≡◌, ◌<◌, [], true, false, length, IfOk, IfSome};
ghost use Rattle.wy_cong.specs.Heads.{tag_of, BeginsWith};
ghost use Rattle.wy_cong.specs.Seen.{terms_of, IsPresent};
ghost use Rattle.wy_cong.specs.Signatures.{is_leaf};
ghost use Rattle.wy_check_splits.specs.wy_check_nodes.Seen.{AreBelow};
ghost use Rattle.wy_search_spec.specs.Classes as classes;
ghost use Rattle.wy_term_subst.specs.Substitution.{renumbered};
ghost use Rattle.wy_term.specs.Nodes.{plain, tree_at, parts_at};
ghost use Rattle.wy_term.specs.Same.{same_symbol};

use crate::places::in_one_class;
use crate::present::Present;
use wy_term::{NoMemory, Node, Terms};
use wy_term_subst::{parts_of, with_parts};

/// A number for each kind of node; nodes of one head have one.
pub fn tag(node: &Node) -> u8
    ensures { result ≡ tag_of (plain node.now).symbol }
{
    match node {
        Node::Number(_) => 0,
        Node::IntName(_, _) => 1,
        Node::Add(_, _) => 2,
        Node::Sub(_, _) => 3,
        Node::Neg(_) => 4,
        Node::Mul(_, _) => 5,
        Node::Div(_, _) => 6,
        Node::Mod(_, _) => 7,
        Node::Num(_) => 8,
        Node::Len(_) => 9,
        Node::ValName(_, _) => 10,
        Node::Null => 11,
        Node::Bool(_) => 12,
        Node::Int(_) => 13,
        Node::Truth(_) => 14,
        Node::Array(_) => 15,
        Node::Repeat(_, _) => 16,
        Node::Update(_, _, _) => 17,
        Node::Get(_, _) => 18,
        Node::Record(_) => 19,
        Node::Field(_, _) => 20,
        Node::SetField(_, _, _) => 21,
        _ => 22,
    }
}

/// Whether a node is seen to have no parts.
pub fn is_bare(node: &Node) -> bool
    ensures value { result ≡ is_leaf (plain node.now).symbol }
    ensures parts { result ≡ true → (plain node.now).parts ≡ [] }
{
    match node {
        Node::Number(_) | Node::IntName(_, _) | Node::ValName(_, _) => true,
        Node::Null | Node::Bool(_) => true,
        _ => false,
    }
}

// The first part of a node, where it is an operation.
fn first_part(node: &Node) -> Option<u32>
    ensures { IfSome result (BeginsWith (plain node.now).parts) }
{
    match node {
        Node::Add(s, _) | Node::Sub(s, _) | Node::Mul(s, _) => Some(*s),
        Node::Div(s, _) | Node::Mod(s, _) | Node::Neg(s) => Some(*s),
        Node::Num(v) | Node::Len(v) | Node::Int(v) => Some(*v),
        Node::Repeat(v, _) | Node::Get(v, _) | Node::Update(v, _, _) => Some(*v),
        Node::Field(v, _) | Node::SetField(v, _, _) => Some(*v),
        _ => None,
    }
}

// The number of the name that a node binds, or 0.
fn bound_number(node: &Node) -> u128
    ensures { renumbered (plain node.now).symbol result ≡ (plain node.now).symbol }
{
    match node {
        Node::All(q) | Node::Some(q) => q.number,
        _ => 0,
    }
}

// Whether two nodes have one symbol, where the parts of the second are these, as many as the first has.
fn same_head(terms: &Terms, s: &Node, t: &Node, parts: &[u32]) -> Result<bool, NoMemory>
    requires many { length parts.now ≡ length (plain s.now).parts }
    requires parts { parts.now ≡ (plain t.now).parts }
    ensures { IfOk result (λ yes. yes ≡ same_symbol (plain s.now).symbol (plain t.now).symbol) }
{
    let node = with_parts(terms.allocator(), s, bound_number(s), parts)?;
    Ok(node == *t)
}

// Whether the terms are pairwise in one class, where there are as many of both.
fn arguments_equal(terms: &Terms, present: &Present, labels: &[u32], ss: &[u32], ts: &[u32]) -> bool
    requires first { AreBelow (length terms.now) ss.now }
    requires second { AreBelow (length terms.now) ts.now }
    requires many { length ss.now ≡ length ts.now }
    requires present { IsPresent terms.now present.now }
    ensures { result ≡ classes.arguments_equal (terms_of (tree_at terms.now) present.now) labels.now (parts_at (tree_at terms.now) ss.now) (parts_at (tree_at terms.now) ts.now) }
{
    for i in 0..ss.len() {
        if !in_one_class(terms, present, labels, ss[i], ts[i]) {
            return false;
        }
    }
    true
}

// The same of two terms whose nodes are of one kind.
fn alike(terms: &Terms, present: &Present, labels: &[u32], s: u32, t: u32) -> Result<bool, NoMemory>
    requires first { s < length terms.now }
    requires second { t < length terms.now }
    requires present { IsPresent terms.now present.now }
    ensures { IfOk result (λ yes. yes ≡ classes.are_congruent (terms_of (tree_at terms.now) present.now) labels.now (tree_at terms.now s) (tree_at terms.now t)) }
{
    let alloc = terms.allocator();
    let ss = parts_of(alloc, terms.node(s))?;
    let ts = parts_of(alloc, terms.node(t))?;
    if ss.len() != ts.len() {
        return Ok(false);
    }
    if !same_head(terms, terms.node(s), terms.node(t), &ts)? {
        return Ok(false);
    }
    Ok(arguments_equal(terms, present, labels, &ss, &ts))
}

// Whether the first arguments of two terms are seen to be in two classes.
fn are_parted(terms: &Terms, present: &Present, labels: &[u32], s: u32, t: u32) -> bool
    requires first { s < length terms.now }
    requires second { t < length terms.now }
    requires present { IsPresent terms.now present.now }
    ensures { result ≡ true → classes.are_congruent (terms_of (tree_at terms.now) present.now) labels.now (tree_at terms.now s) (tree_at terms.now t) ≡ false }
{
    match (first_part(terms.node(s)), first_part(terms.node(t))) {
        (Some(p), Some(q)) => !in_one_class(terms, present, labels, p, q),
        (Some(_), None) => false,
        (None, _) => false,
    }
}

/// Whether two terms have one head, and arguments that are pairwise in one class, in time linear in how many these are. It
/// takes constant time on average, and no memory, where their nodes are of two kinds or the first arguments of operations
/// are in two classes.
pub fn are_congruent(
    terms: &Terms,
    present: &Present,
    labels: &[u32],
    s: u32,
    t: u32,
) -> Result<bool, NoMemory>
    requires first { s < length terms.now }
    requires second { t < length terms.now }
    requires present { IsPresent terms.now present.now }
    ensures { IfOk result (λ yes. yes ≡ classes.are_congruent (terms_of (tree_at terms.now) present.now) labels.now (tree_at terms.now s) (tree_at terms.now t)) }
{
    if tag(terms.node(s)) != tag(terms.node(t)) {
        return Ok(false);
    }
    if are_parted(terms, present, labels, s, t) {
        return Ok(false);
    }
    alike(terms, present, labels, s, t)
}
