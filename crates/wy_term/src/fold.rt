//! Which term a node is folded to: another term of the list, or the term of a node.
ghost use Rattle.std.specs.Prelude.{◌≡◌, ◌<◌, ℕ, All, List, length, map, option_map, IfOk, neg_ℤ, ◌+ℤ◌, ◌-ℤ◌, ◌*ℤ◌};
ghost use Rattle.wy_term.specs.Term.{Term, DataKind, null_kind, bool_kind, int_kind, array_kind, record_kind, one, two, add, sub, neg, mul, num, len, get, field, at_most, equal, of_kind, denied};
ghost use Rattle.wy_term.specs.Nodes.{plain, plain_kind, grown, HasPartsBelow, tree_at, parts_at};
ghost use Rattle.wy_term.specs.Data.{same_datum};
ghost use Rattle.wy_term.specs.Same.{same_kind, same_names};
ghost use Rattle.wy_term.specs.Rewriting.{as_number, as_int, as_bool, as_array, as_denied, as_record, as_constant, is_true, is_false, is_truth, on_one, on_two, number_or, decided, fold_num, fold_len, fold_get, fold_field, fold_kind, kind_given, fold_at_most, fold_equal, fold_bool, fold_not, fold_and, fold_or, has_true, has_false, without_true, without_false, part_at, field_part, rewritten};
ghost use Rattle.wy_term.specs.FoldingView.{folded_to, IsFoldedBelow, constant_of};

use crate::node::{Kind, Node};
use crate::terms::Terms;
use std::alloc::Global;
use wy_value::{Name, NoMemory};

/// What a node is folded to.
#[derive(Drop)]
pub enum Folded {
    /// The term with this number.
    Term(u32),
    /// The term of this node.
    Node(Node),
}

/// A datum that a term is.
#[derive(Clone, Copy, Debug, PartialEq, Eq)]
pub enum Constant {
    Null,
    Bool(bool),
    Int(i128),
}

// ---- numbers

fn plus(a: Option<i128>, b: Option<i128>) -> Option<i128>
    ensures { result ≡ on_two (λ a b. a +ℤ b) a b }
{
    a?.checked_add(b?)
}

fn minus(a: Option<i128>, b: Option<i128>) -> Option<i128>
    ensures { result ≡ on_two (λ a b. a -ℤ b) a b }
{
    a?.checked_sub(b?)
}

fn times(a: Option<i128>, b: Option<i128>) -> Option<i128>
    ensures { result ≡ on_two (λ a b. a *ℤ b) a b }
{
    a?.checked_mul(b?)
}

fn opposite(a: Option<i128>) -> Option<i128>
    ensures { result ≡ on_one neg_ℤ a }
{
    a?.checked_neg()
}

/// The number that a term is, if it is one.
pub fn number_at(terms: &Terms, t: u32) -> Option<i128>
    requires { t < length terms.now }
    ensures { result ≡ as_number (tree_at terms.now t) }
{
    match terms.node(t) {
        Node::Number(number) => Some(*number),
        _ => None,
    }
}

fn sum(terms: &Terms, s: u32, t: u32) -> Folded
    requires first { s < length terms.now }
    requires second { t < length terms.now }
    ensures value { folded_to (tree_at terms.now) result ≡ rewritten (two add (tree_at terms.now s) (tree_at terms.now t)) }
    ensures within { IsFoldedBelow (length terms.now) result }
{
    match plus(number_at(terms, s), number_at(terms, t)) {
        Some(number) => Folded::Node(Node::Number(number)),
        None => Folded::Node(Node::Add(s, t)),
    }
}

fn difference(terms: &Terms, s: u32, t: u32) -> Folded
    requires first { s < length terms.now }
    requires second { t < length terms.now }
    ensures value { folded_to (tree_at terms.now) result ≡ rewritten (two sub (tree_at terms.now s) (tree_at terms.now t)) }
    ensures within { IsFoldedBelow (length terms.now) result }
{
    match minus(number_at(terms, s), number_at(terms, t)) {
        Some(number) => Folded::Node(Node::Number(number)),
        None => Folded::Node(Node::Sub(s, t)),
    }
}

fn product(terms: &Terms, s: u32, t: u32) -> Folded
    requires first { s < length terms.now }
    requires second { t < length terms.now }
    ensures value { folded_to (tree_at terms.now) result ≡ rewritten (two mul (tree_at terms.now s) (tree_at terms.now t)) }
    ensures within { IsFoldedBelow (length terms.now) result }
{
    match times(number_at(terms, s), number_at(terms, t)) {
        Some(number) => Folded::Node(Node::Number(number)),
        None => Folded::Node(Node::Mul(s, t)),
    }
}

fn negated(terms: &Terms, s: u32) -> Folded
    requires { s < length terms.now }
    ensures value { folded_to (tree_at terms.now) result ≡ rewritten (one neg (tree_at terms.now s)) }
    ensures within { IsFoldedBelow (length terms.now) result }
{
    match opposite(number_at(terms, s)) {
        Some(number) => Folded::Node(Node::Number(number)),
        None => Folded::Node(Node::Neg(s)),
    }
}

fn number_in(terms: &Terms, v: u32) -> Folded
    requires { v < length terms.now }
    ensures value { folded_to (tree_at terms.now) result ≡ rewritten (one num (tree_at terms.now v)) }
    ensures within { IsFoldedBelow (length terms.now) result }
{
    match terms.node(v) {
        Node::Int(s) => Folded::Term(*s),
        _ => Folded::Node(Node::Num(v)),
    }
}

// ---- arrays and records

#[tactic(auto, using(crate::proofs::FoldLemmas::count_parts_at))]
fn length_of(terms: &Terms, v: u32) -> Folded
    requires { v < length terms.now }
    ensures value { folded_to (tree_at terms.now) result ≡ rewritten (one len (tree_at terms.now v)) }
    ensures within { IsFoldedBelow (length terms.now) result }
{
    match terms.node(v) {
        Node::Array(elements) => Folded::Node(Node::Number(elements.len() as i128)),
        _ => Folded::Node(Node::Len(v)),
    }
}

// An element of an array that is written out, or null.
fn element(_terms: &Terms, elements: &[u32], place: i128) -> Folded
    requires { All (λ k. k < length _terms.now) elements.now }
    ensures value { folded_to (tree_at _terms.now) result ≡ part_at (parts_at (tree_at _terms.now) elements.now) place }
    ensures within { IsFoldedBelow (length _terms.now) result }
{
    if place < 0 {
        return Folded::Node(Node::Null);
    }
    if elements.len() as i128 <= place {
        return Folded::Node(Node::Null);
    }
    Folded::Term(elements[place as usize])
}

fn element_at(terms: &Terms, v: u32, s: u32) -> Folded
    requires first { v < length terms.now }
    requires second { s < length terms.now }
    ensures value { folded_to (tree_at terms.now) result ≡ rewritten (two get (tree_at terms.now v) (tree_at terms.now s)) }
    ensures within { IsFoldedBelow (length terms.now) result }
{
    match terms.node(v) {
        Node::Array(elements) => match number_at(terms, s) {
            Some(place) => element(terms, elements, place),
            None => Folded::Node(Node::Get(v, s)),
        },
        _ => Folded::Node(Node::Get(v, s)),
    }
}

// The part of this name in a record that is written out, or null.
fn part_of(_terms: &Terms, fields: &[(Name, u32)], name: &Name) -> Folded
    requires { All (λ k. k < length _terms.now) (map (λ p. p.1) fields.now) }
    ensures value { folded_to (tree_at _terms.now) result ≡ field_part (map (λ p. p.0) fields.now) (parts_at (tree_at _terms.now) (map (λ p. p.1) fields.now)) name.now }
    ensures within { IsFoldedBelow (length _terms.now) result }
{
    for (field, part) in fields {
        if field.is(name) {
            return Folded::Term(*part);
        }
    }
    Folded::Node(Node::Null)
}

fn part_named(terms: &Terms, v: u32, name: Name) -> Folded
    requires { v < length terms.now }
    ensures value { folded_to (tree_at terms.now) result ≡ rewritten (one (field name) (tree_at terms.now v)) }
    ensures within { IsFoldedBelow (length terms.now) result }
{
    match terms.node(v) {
        Node::Record(fields) => part_of(terms, fields, &name),
        _ => Folded::Node(Node::Field(v, name)),
    }
}

// ---- formulas

// The formula `true` or `false`.
fn truth(terms: &Terms, holds: bool) -> Folded
    ensures value { folded_to (tree_at terms.now) result ≡ decided holds }
    ensures within { IsFoldedBelow (length terms.now) result }
{
    if holds {
        Folded::Node(Node::And(Vec::new(terms.allocator())))
    } else {
        Folded::Node(Node::Or(Vec::new(terms.allocator())))
    }
}

fn comparison(terms: &Terms, s: u32, t: u32) -> Folded
    requires first { s < length terms.now }
    requires second { t < length terms.now }
    ensures value { folded_to (tree_at terms.now) result ≡ rewritten (two at_most (tree_at terms.now s) (tree_at terms.now t)) }
    ensures within { IsFoldedBelow (length terms.now) result }
{
    if terms.same(s, t) {
        return truth(terms, true);
    }
    match (number_at(terms, s), number_at(terms, t)) {
        (Some(a), Some(b)) => truth(terms, a <= b),
        (Some(_), None) => Folded::Node(Node::AtMost(s, t)),
        (None, _) => Folded::Node(Node::AtMost(s, t)),
    }
}

fn denial(terms: &Terms, f: u32) -> Folded
    requires { f < length terms.now }
    ensures value { folded_to (tree_at terms.now) result ≡ rewritten (one denied (tree_at terms.now f)) }
    ensures within { IsFoldedBelow (length terms.now) result }
{
    match terms.node(f) {
        Node::Not(g) => Folded::Term(*g),
        _ => Folded::Node(Node::Not(f)),
    }
}

// ---- kinds

// Whether a record with these fields has exactly these names.
fn has_names(fields: &[(Name, u32)], names: &[Name]) -> bool
    ensures { result ≡ same_names (map (λ p. p.0) fields.now) names.now }
{
    for (k, field) in fields.iter().enumerate() {
        match names.get(k) {
            Some(name) => {
                if !field.0.is(name) {
                    return false;
                }
            }
            None => return false,
        }
    }
    fields.len() == names.len()
}

fn is_null(kind: &Kind) -> bool
    ensures { result ≡ same_kind null_kind (plain_kind kind.now) }
{
    matches!(kind, Kind::Null)
}

fn is_bool(kind: &Kind) -> bool
    ensures { result ≡ same_kind bool_kind (plain_kind kind.now) }
{
    matches!(kind, Kind::Bool)
}

fn is_int(kind: &Kind) -> bool
    ensures { result ≡ same_kind int_kind (plain_kind kind.now) }
{
    matches!(kind, Kind::Int)
}

fn is_array(kind: &Kind) -> bool
    ensures { result ≡ same_kind array_kind (plain_kind kind.now) }
{
    matches!(kind, Kind::Array)
}

fn is_record(fields: &[(Name, u32)], kind: &Kind) -> bool
    ensures { result ≡ same_kind (record_kind (map (λ p. p.0) fields.now)) (plain_kind kind.now) }
{
    match kind {
        Kind::Record(names) => has_names(fields, names),
        _ => false,
    }
}

#[tactic(auto, using(crate::proofs::FoldLemmas::names_for_parts_at))]
fn kind_test(terms: &Terms, v: u32, kind: Kind) -> Folded
    requires { v < length terms.now }
    ensures value { folded_to (tree_at terms.now) result ≡ rewritten (one (of_kind (plain_kind kind)) (tree_at terms.now v)) }
    ensures within { IsFoldedBelow (length terms.now) result }
{
    match terms.node(v) {
        Node::Null => truth(terms, is_null(&kind)),
        Node::Bool(_) => truth(terms, is_bool(&kind)),
        Node::Int(_) => truth(terms, is_int(&kind)),
        Node::Truth(_) => truth(terms, is_bool(&kind)),
        Node::Array(_) => truth(terms, is_array(&kind)),
        Node::Repeat(_, _) => truth(terms, is_array(&kind)),
        Node::Record(fields) => truth(terms, is_record(fields, &kind)),
        _ => Folded::Node(Node::Kind(v, kind)),
    }
}

// ---- equations

fn constant_at(terms: &Terms, v: u32) -> Option<Constant>
    requires { v < length terms.now }
    ensures { option_map constant_of result ≡ as_constant (tree_at terms.now v) }
{
    match terms.node(v) {
        Node::Null => Some(Constant::Null),
        Node::Bool(b) => Some(Constant::Bool(*b)),
        Node::Int(s) => match number_at(terms, *s) {
            Some(number) => Some(Constant::Int(number)),
            None => None,
        },
        _ => None,
    }
}

fn same_constant(c: Constant, d: Constant) -> bool
    ensures { result ≡ same_datum (constant_of c) (constant_of d) }
{
    match (c, d) {
        (Constant::Null, Constant::Null) => true,
        (Constant::Bool(a), Constant::Bool(b)) => a == b,
        (Constant::Int(a), Constant::Int(b)) => a == b,
        _ => false,
    }
}

// Whether a term is the datum `true`.
fn is_truth(terms: &Terms, w: u32) -> bool
    requires { w < length terms.now }
    ensures { result ≡ is_truth (tree_at terms.now w) }
{
    match terms.node(w) {
        Node::Bool(b) => *b,
        _ => false,
    }
}

// An equation of two different terms that aren't both constants.
fn truth_equation(terms: &Terms, v: u32, w: u32) -> Folded
    requires first { v < length terms.now }
    requires second { w < length terms.now }
    ensures value { folded_to (tree_at terms.now) result ≡ fold_bool (two equal (tree_at terms.now v) (tree_at terms.now w)) (as_bool (tree_at terms.now v)) (is_truth (tree_at terms.now w)) }
    ensures within { IsFoldedBelow (length terms.now) result }
{
    match terms.node(v) {
        Node::Truth(f) => {
            if is_truth(terms, w) {
                Folded::Term(*f)
            } else {
                Folded::Node(Node::Equal(v, w))
            }
        }
        _ => Folded::Node(Node::Equal(v, w)),
    }
}

fn equation(terms: &Terms, v: u32, w: u32) -> Folded
    requires first { v < length terms.now }
    requires second { w < length terms.now }
    ensures value { folded_to (tree_at terms.now) result ≡ rewritten (two equal (tree_at terms.now v) (tree_at terms.now w)) }
    ensures within { IsFoldedBelow (length terms.now) result }
{
    if terms.same(v, w) {
        return truth(terms, true);
    }
    match (constant_at(terms, v), constant_at(terms, w)) {
        (Some(c), Some(d)) => truth(terms, same_constant(c, d)),
        (Some(_), None) => Folded::Node(Node::Equal(v, w)),
        (None, _) => truth_equation(terms, v, w),
    }
}

// ---- connectives

// Whether a term is the formula `true`.
#[tactic(auto, using(crate::proofs::FoldLemmas::is_true_members))]
fn is_true(terms: &Terms, f: u32) -> bool
    requires { f < length terms.now }
    ensures { result ≡ is_true (tree_at terms.now f) }
{
    match terms.node(f) {
        Node::And(members) => members.is_empty(),
        _ => false,
    }
}

// Whether a term is the formula `false`.
#[tactic(auto, using(crate::proofs::FoldLemmas::is_false_members))]
fn is_false(terms: &Terms, f: u32) -> bool
    requires { f < length terms.now }
    ensures { result ≡ is_false (tree_at terms.now f) }
{
    match terms.node(f) {
        Node::Or(members) => members.is_empty(),
        _ => false,
    }
}

fn has_true(terms: &Terms, members: &[u32]) -> bool
    requires { All (λ k. k < length terms.now) members.now }
    ensures { result ≡ has_true (parts_at (tree_at terms.now) members.now) }
{
    for member in members {
        if is_true(terms, *member) {
            return true;
        }
    }
    false
}

fn has_false(terms: &Terms, members: &[u32]) -> bool
    requires { All (λ k. k < length terms.now) members.now }
    ensures { result ≡ has_false (parts_at (tree_at terms.now) members.now) }
{
    for member in members {
        if is_false(terms, *member) {
            return true;
        }
    }
    false
}

// The members but `true`.
#[tactic(auto, using(crate::proofs::FoldLemmas::keep_but_true, crate::proofs::FoldLemmas::skip_the_true, crate::proofs::FoldLemmas::end_but_true))]
fn without_true(terms: &Terms, members: &[u32]) -> Result<Vec<u32>, NoMemory>
    requires { All (λ k. k < length terms.now) members.now }
    ensures value { IfOk result (λ rest. parts_at (tree_at terms.now) rest.items ≡ without_true (parts_at (tree_at terms.now) members.now)) }
    ensures within { IfOk result (λ rest. All (λ k. k < length terms.now) rest.items) }
{
    let mut rest = Vec::new(terms.allocator());
    for member in members {
        if is_true(terms, *member) {
            continue;
        }
        rest.push(*member)?;
    }
    Ok(rest)
}

// The members but `false`.
#[tactic(auto, using(crate::proofs::FoldLemmas::keep_but_false, crate::proofs::FoldLemmas::skip_the_false, crate::proofs::FoldLemmas::end_but_false))]
fn without_false(terms: &Terms, members: &[u32]) -> Result<Vec<u32>, NoMemory>
    requires { All (λ k. k < length terms.now) members.now }
    ensures value { IfOk result (λ rest. parts_at (tree_at terms.now) rest.items ≡ without_false (parts_at (tree_at terms.now) members.now)) }
    ensures within { IfOk result (λ rest. All (λ k. k < length terms.now) rest.items) }
{
    let mut rest = Vec::new(terms.allocator());
    for member in members {
        if is_false(terms, *member) {
            continue;
        }
        rest.push(*member)?;
    }
    Ok(rest)
}

#[tactic(auto, using(crate::proofs::FoldLemmas::joined_parts_at))]
pub fn conjunction(terms: &Terms, members: &[u32]) -> Result<Folded, NoMemory>
    requires { All (λ k. k < length terms.now) members.now }
    ensures value { IfOk result (λ f. folded_to (tree_at terms.now) f ≡ fold_and (parts_at (tree_at terms.now) members.now)) }
    ensures within { IfOk result (IsFoldedBelow (length terms.now)) }
{
    if has_false(terms, members) {
        return Ok(truth(terms, false));
    }
    let rest = without_true(terms, members)?;
    match rest.as_slice() {
        [only] => Ok(Folded::Term(*only)),
        _ => Ok(Folded::Node(Node::And(rest))),
    }
}

#[tactic(auto, using(crate::proofs::FoldLemmas::joined_parts_at))]
pub fn disjunction(terms: &Terms, members: &[u32]) -> Result<Folded, NoMemory>
    requires { All (λ k. k < length terms.now) members.now }
    ensures value { IfOk result (λ f. folded_to (tree_at terms.now) f ≡ fold_or (parts_at (tree_at terms.now) members.now)) }
    ensures within { IfOk result (IsFoldedBelow (length terms.now)) }
{
    if has_true(terms, members) {
        return Ok(truth(terms, true));
    }
    let rest = without_false(terms, members)?;
    match rest.as_slice() {
        [only] => Ok(Folded::Term(*only)),
        _ => Ok(Folded::Node(Node::Or(rest))),
    }
}

/// What a node is folded to. It takes time linear in the number of the node's parts.
pub fn fold(terms: &Terms, node: Node) -> Result<Folded, NoMemory>
    requires { HasPartsBelow (length terms.now) (plain node) }
    ensures value { IfOk result (λ f. folded_to (tree_at terms.now) f ≡ rewritten (grown (tree_at terms.now) (plain node))) }
    ensures within { IfOk result (IsFoldedBelow (length terms.now)) }
{
    match node {
        Node::Add(s, t) => Ok(sum(terms, s, t)),
        Node::Sub(s, t) => Ok(difference(terms, s, t)),
        Node::Neg(s) => Ok(negated(terms, s)),
        Node::Mul(s, t) => Ok(product(terms, s, t)),
        Node::Num(v) => Ok(number_in(terms, v)),
        Node::Len(v) => Ok(length_of(terms, v)),
        Node::Get(v, s) => Ok(element_at(terms, v, s)),
        Node::Field(v, name) => Ok(part_named(terms, v, name)),
        Node::AtMost(s, t) => Ok(comparison(terms, s, t)),
        Node::Equal(v, w) => Ok(equation(terms, v, w)),
        Node::Kind(v, kind) => Ok(kind_test(terms, v, kind)),
        Node::Not(f) => Ok(denial(terms, f)),
        Node::And(members) => conjunction(terms, &members),
        Node::Or(members) => disjunction(terms, &members),
        node => Ok(Folded::Node(node)),
    }
}
