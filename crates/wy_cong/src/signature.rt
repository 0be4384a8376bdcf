//! Numbers that are equal for congruent terms.
ghost use Rattle.std.specs.Prelude.{◌≡◌, ◌<◌, ◌∷◌, [], length, map, IfOk};
ghost use Rattle.wy_cong.specs.Seen.{terms_of, IsPresent};
ghost use Rattle.wy_cong.specs.Signatures.{class_at, head_number as head_number_of, mixed as mixed_with, mixed_all, mixed_names, signature as signature_of};
ghost use Rattle.wy_check_splits.specs.wy_check_nodes.Seen.{AreBelow};
ghost use Rattle.wy_term.specs.Nodes.{plain, node_at, tree_at};

use crate::congruent::tag;
use crate::places::class_number;
use crate::present::Present;
use wy_data::Name;
use wy_term::{NoMemory, Node, Terms};
use wy_term_subst::parts_of;

/// An odd number whose bits have no pattern.
const FACTOR: u64 = 11400714819323198485;

// A number that hangs on two.
fn mixed(key: u64, n: u64) -> u64
    ensures { result ≡ mixed_with key n }
{
    key.wrapping_mul(FACTOR).wrapping_add(n)
}

fn mixed_name(key: u64, name: &Name) -> u64
    ensures { result ≡ mixed_all key name.now }
{
    mixed_bytes(key, name.as_bytes())
}

fn mixed_bytes(key: u64, bytes: &[u8]) -> u64
    ensures { result ≡ mixed_all key bytes.now }
{
    let mut key = key;
    for byte in bytes {
        key = mixed(key, u64::from(*byte));
    }
    key
}

fn mixed_fields(key: u64, fields: &[(Name, u32)]) -> u64
    ensures { result ≡ mixed_names key (map (λ p. p.0) fields.now) }
{
    let mut key = key;
    for field in fields {
        key = mixed_name(key, &field.0);
    }
    key
}

// A number for the head of a term with this node.
fn head_number(node: &Node) -> u64
    ensures { result ≡ head_number_of (plain node.now).symbol }
{
    let key = u64::from(tag(node));
    match node {
        Node::Record(fields) => mixed_fields(key, fields),
        Node::Field(_, name) => mixed_name(key, name),
        Node::SetField(_, name, _) => mixed_name(key, name),
        _ => key,
    }
}

fn mixed_classes(terms: &Terms, present: &Present, labels: &[u32], key: u64, parts: &[u32]) -> u64
    requires parts { AreBelow (length terms.now) parts.now }
    requires present { IsPresent terms.now present.now }
    ensures { result ≡ mixed_all key (map (class_at (terms_of (tree_at terms.now) present.now) labels.now (tree_at terms.now)) parts.now) }
{
    let mut key = key;
    for i in 0..parts.len() {
        key = mixed(key, class_number(terms, present, labels, parts[i]));
    }
    key
}

// A part's class besides.
fn mixed_class(terms: &Terms, present: &Present, labels: &[u32], key: u64, part: u32) -> u64
    requires part { part < length terms.now }
    requires present { IsPresent terms.now present.now }
    ensures { result ≡ mixed_all key (map (class_at (terms_of (tree_at terms.now) present.now) labels.now (tree_at terms.now)) (part ∷ [])) }
{
    mixed(key, class_number(terms, present, labels, part))
}

// The classes of two parts besides.
fn mixed_two(
    terms: &Terms,
    present: &Present,
    labels: &[u32],
    key: u64,
    first: u32,
    second: u32,
) -> u64
    requires first { first < length terms.now }
    requires second { second < length terms.now }
    requires present { IsPresent terms.now present.now }
    ensures { result ≡ mixed_all key (map (class_at (terms_of (tree_at terms.now) present.now) labels.now (tree_at terms.now)) (first ∷ second ∷ [])) }
{
    let key = mixed_class(terms, present, labels, key, first);
    mixed_class(terms, present, labels, key, second)
}

/// A number for a term's head and the classes of its arguments, in time linear in their number: congruent terms have one
/// signature. Of one or two arguments it makes no list.
pub fn signature(terms: &Terms, present: &Present, labels: &[u32], s: u32) -> Result<u64, NoMemory>
    requires term { s < length terms.now }
    requires present { IsPresent terms.now present.now }
    ensures { IfOk result (λ key. key ≡ signature_of (terms_of (tree_at terms.now) present.now) labels.now (tree_at terms.now) (node_at terms.now s)) }
{
    let node = terms.node(s);
    match node {
        Node::Neg(t) | Node::Num(t) | Node::Len(t) | Node::Int(t) => Ok(mixed_class(
            terms,
            present,
            labels,
            head_number(node),
            *t,
        )),
        Node::Add(t, u) | Node::Sub(t, u) | Node::Mul(t, u) | Node::Get(t, u) => Ok(mixed_two(
            terms,
            present,
            labels,
            head_number(node),
            *t,
            *u,
        )),
        _ => {
            let parts = parts_of(terms.allocator(), node)?;
            Ok(mixed_classes(terms, present, labels, head_number(node), &parts))
        }
    }
}
