//! Terms where names stand for other terms, and quantifiers over short ranges.
ghost use Rattle.std.specs.Prelude.{nat_eq, if◌then◌else◌, ◌≡◌, ◌<◌, ◌≤◌, ◌^◌, ℕ, All, length, option_map, IfOk, IfSome, OnOk, ℤ, pos, ◌+ℤ◌, ◌-ℤ◌, ◌<ℤ◌, [], ◌∷◌};
ghost use Rattle.std.specs.HashMap.{get};
ghost use Rattle.wy_term.specs.Term.{Of, leaf, int_name, Number};
ghost use Rattle.wy_term.specs.Nodes.{plain, grown, tree_at, parts_at, HasPartsBelow};
ghost use Rattle.wy_term.specs.Rewriting.{as_number};
ghost use Rattle.wy_term.specs.Folding.{found, hidden, span, span_of, binder, instances, joined_by, quantified, replaced, folded};
ghost use Rattle.wy_term.specs.Numbers.{IsAt, Keeps};
ghost use Rattle.wy_term.specs.ReplacingView.{seen_pairs, AreBelow, image_at, AreMade, bound_by, IsName, IsOther, IsWithin, IsShape, IsSpan};

use crate::copy::{image_of, looked_up, note, nothing_made};
use crate::fold::{Folded, conjunction, disjunction, number_at};
use crate::node::{Node, Quantifier};
use crate::parts::{parts_of, with_parts};
use crate::terms::Terms;
use std::alloc::Global;
use std::collections::HashMap;
use wy_value::NoMemory;

/// How many quantifiers over short ranges, or that hide a name, are gone into one in another. Beyond it, memory is
/// taken to be spent.
const DEPTH: u32 = 1000;

// ---- what names stand for

// The term that a name stands for, if there is one.
fn found(terms: &Terms, pairs: &[(u32, u32)], name: u32) -> Option<u32>
    requires within { name < length terms.now }
    requires pairs { AreBelow (length terms.now) pairs.now }
    ensures value { option_map (tree_at terms.now) result ≡ found (seen_pairs (tree_at terms.now) pairs.now) (tree_at terms.now name) }
    ensures below { IfSome result (λ r. r < length terms.now) }
{
    for pair in pairs {
        if terms.same(pair.0, name) {
            return Some(pair.1);
        }
    }
    None
}

// Whether a name stands for another term.
fn is_hidden(terms: &Terms, pairs: &[(u32, u32)], name: u32) -> bool
    requires within { name < length terms.now }
    requires pairs { AreBelow (length terms.now) pairs.now }
    ensures { hidden (found (seen_pairs (tree_at terms.now) pairs.now) (tree_at terms.now name)) (tree_at terms.now name) (seen_pairs (tree_at terms.now) pairs.now) ≡ (if result then (tree_at terms.now name, tree_at terms.now name) ∷ seen_pairs (tree_at terms.now) pairs.now else seen_pairs (tree_at terms.now) pairs.now) }
{
    match found(terms, pairs, name) {
        Some(r) => !terms.same(r, name),
        None => false,
    }
}

// The pairs, and before them one of a name.
fn with_pair(
    alloc: Global,
    pair: (u32, u32),
    pairs: &[(u32, u32)],
) -> Result<Vec<(u32, u32)>, NoMemory>
    ensures value { IfOk result (λ all. all.items ≡ pair ∷ pairs.now) }
{
    let mut all = Vec::new(alloc);
    all.push(pair)?;
    all.extend_from_slice(pairs)?;
    Ok(all)
}

// ---- ranges

// How many numbers there are from one on and below another, where the two are at most 256 apart.
fn span(from: i128, below: i128) -> Option<u32>
    ensures value { result ≡ span (below -ℤ from) }
    ensures fits { IfSome result (λ n. (from +ℤ pos n) <ℤ pos (2 ^ 127)) }
{
    let distance = below.checked_sub(from)?;
    if distance > 256 || distance < -256 {
        return None;
    }
    if distance < 0 {
        return Some(0);
    }
    Some(distance as u32)
}

// The first number of a quantifier's range and how many there are, where they are few.
fn span_at(terms: &Terms, from: u32, below: u32) -> Option<(i128, u32)>
    requires from { from < length terms.now }
    requires below { below < length terms.now }
    ensures value { IsSpan (as_number (tree_at terms.now from)) (as_number (tree_at terms.now below)) result }
{
    match (number_at(terms, from), number_at(terms, below)) {
        (Some(a), Some(b)) => match span(a, b) {
            Some(count) => Some((a, count)),
            None => None,
        },
        (Some(_), None) => None,
        (None, _) => None,
    }
}

// ---- what a term is

// What a term is, as far as names go.
#[derive(Drop)]
enum Shape {
    Name,
    // `all` or else `some`
    Quantifier(bool, Quantifier),
    Other,
}

fn copied_quantifier(alloc: Global, q: &Quantifier) -> Result<Quantifier, NoMemory>
    ensures { IfOk result (λ r. r ≡ q.now) }
{
    Ok(Quantifier {
        word: q.word.copy(alloc)?,
        number: q.number,
        from: q.from,
        below: q.below,
        body: q.body,
    })
}

fn shape_at(terms: &Terms, t: u32) -> Result<Shape, NoMemory>
    requires { t < length terms.now }
    ensures { IfOk result (IsShape terms.now t) }
{
    match terms.node(t) {
        Node::IntName(_, _) | Node::ValName(_, _) => Ok(Shape::Name),
        Node::All(q) => Ok(Shape::Quantifier(true, copied_quantifier(terms.allocator(), q)?)),
        Node::Some(q) => Ok(Shape::Quantifier(false, copied_quantifier(terms.allocator(), q)?)),
        _ => Ok(Shape::Other),
    }
}

// ---- terms that are made

// The formulas joined by `and` or by `or`.
fn joined(terms: &mut Terms, all: bool, members: &[u32]) -> Result<u32, NoMemory>
    requires { All (λ k. k < length terms.old) members.now }
    ensures value { IfOk result (λ r. IsAt terms.new r (joined_by all (parts_at (tree_at terms.old) members.now))) }
    ensures keeps { Keeps terms.old terms.new }
{
    let folded = if all {
        conjunction(terms, members)?
    } else {
        disjunction(terms, members)?
    };
    match folded {
        Folded::Term(t) => Ok(t),
        Folded::Node(node) => terms.put(node),
    }
}

// A quantifier of this name with other bounds and another body.
fn put_quantifier(
    terms: &mut Terms,
    all: bool,
    q: &Quantifier,
    bounds: (u32, u32),
    body: u32,
) -> Result<u32, NoMemory>
    requires from { bounds.0 < length terms.old }
    requires below { bounds.1 < length terms.old }
    requires body { body < length terms.old }
    ensures value { IfOk result (λ r. IsAt terms.new r (Of (binder all q.now.word q.now.number) (parts_at (tree_at terms.old) (bounds.0 ∷ bounds.1 ∷ body ∷ [])))) }
    ensures keeps { Keeps terms.old terms.new }
{
    let quantifier = Quantifier {
        word: q.word.copy(terms.allocator())?,
        number: q.number,
        from: bounds.0,
        below: bounds.1,
        body,
    };
    if all {
        terms.put(Node::All(quantifier))
    } else {
        terms.put(Node::Some(quantifier))
    }
}

// The name that a quantifier binds.
fn bound_name(terms: &mut Terms, q: &Quantifier) -> Result<u32, NoMemory>
    ensures value { IfOk result (λ r. IsAt terms.new r (leaf (int_name q.now.word q.now.number))) }
    ensures keeps { Keeps terms.old terms.new }
{
    let word = q.word.copy(terms.allocator())?;
    terms.put(Node::IntName(word, q.number))
}

// ---- passes

// A name, or what it stands for.
fn name_or(terms: &Terms, pairs: &[(u32, u32)], t: u32) -> u32
    requires within { t < length terms.now }
    requires name { IsName (tree_at terms.now t) }
    requires pairs { AreBelow (length terms.now) pairs.now }
    ensures value { IsAt terms.now result (image_at terms.now pairs.now t) }
{
    match found(terms, pairs, t) {
        Some(r) => r,
        None => t,
    }
}

// A term that has no name of its own, made anew from its parts where all of them are there already.
fn from_parts(
    terms: &mut Terms,
    _pairs: &[(u32, u32)],
    made: &HashMap<u32, u32>,
    todo: &mut Vec<u32>,
    t: u32,
) -> Result<Option<u32>, NoMemory>
    requires within { t < length terms.old }
    requires other { IsOther (tree_at terms.old t) }
    requires todo { All (λ k. k < length terms.old) todo.old.items }
    requires made { AreMade terms.old _pairs.now (get nat_eq made.now) }
    ensures value { IfOk result (λ o. IfSome o (λ r. IsAt terms.new r (image_at terms.old _pairs.now t))) }
    ensures keeps { Keeps terms.old terms.new }
    ensures todo { All (λ k. k < length terms.new) todo.new.items }
{
    let alloc = terms.allocator();
    let parts = parts_of(alloc, terms.node(t))?;
    match looked_up(made, &parts, todo, t)? {
        None => Ok(None),
        Some(images) => {
            let node = with_parts(alloc, terms.node(t), &images)?;
            match terms.make(node) {
                Ok(r) => Ok(Some(r)),
                Err(e) => Err(e),
            }
        }
    }
}

// Notes what a term became.
fn note_image(
    _terms: &Terms,
    _pairs: &[(u32, u32)],
    made: &mut HashMap<u32, u32>,
    t: u32,
    r: u32,
) -> Result<(), NoMemory>
    requires within { t < length _terms.now }
    requires image { IsAt _terms.now r (image_at _terms.now _pairs.now t) }
    requires made { AreMade _terms.now _pairs.now (get nat_eq made.old) }
    ensures made { OnOk result (AreMade _terms.now _pairs.now (get nat_eq made.new)) }
{
    note(made, t, r)
}

/// A term where names stand for other terms. It works on a list of what is to be made and makes each term that it visits
/// once; a call of itself goes into the instances of a quantifier over a short range, and into the body of one that
/// hides a name, `depth` of them at most.
#[cycle(replacing)]
pub fn replaced(
    terms: &mut Terms,
    pairs: &[(u32, u32)],
    root: u32,
    depth: u32,
) -> Result<u32, NoMemory>
    requires within { root < length terms.old }
    requires pairs { AreBelow (length terms.old) pairs.now }
    ensures value { IfOk result (λ r. IsAt terms.new r (image_at terms.old pairs.now root)) }
    ensures keeps { Keeps terms.old terms.new }
{
    if depth == 0 {
        return Err(NoMemory);
    }
    let alloc = terms.allocator();
    let mut made = nothing_made(alloc);
    let mut todo = Vec::new(alloc);
    for _turn in 0..u64::MAX {
        let t = todo.pop().unwrap_or(root);
        if made.contains_key(&t) {
            continue;
        }
        if let Some(r) = step(terms, pairs, &made, &mut todo, t, depth - 1)? {
            if t == root {
                return Ok(r);
            }
            note_image(terms, pairs, &mut made, t, r)?;
        }
    }
    Err(NoMemory)
}

// A term, made where all that it needs is there already.
#[cycle(replacing)]
fn step(
    terms: &mut Terms,
    pairs: &[(u32, u32)],
    made: &HashMap<u32, u32>,
    todo: &mut Vec<u32>,
    t: u32,
    depth: u32,
) -> Result<Option<u32>, NoMemory>
    requires within { t < length terms.old }
    requires pairs { AreBelow (length terms.old) pairs.now }
    requires todo { All (λ k. k < length terms.old) todo.old.items }
    requires made { AreMade terms.old pairs.now (get nat_eq made.now) }
    ensures value { IfOk result (λ o. IfSome o (λ r. IsAt terms.new r (image_at terms.old pairs.now t))) }
    ensures keeps { Keeps terms.old terms.new }
    ensures todo { All (λ k. k < length terms.new) todo.new.items }
{
    match shape_at(terms, t)? {
        Shape::Name => Ok(Some(name_or(terms, pairs, t))),
        Shape::Quantifier(all, q) => quantified(terms, pairs, made, todo, all, &q, t, depth),
        Shape::Other => from_parts(terms, pairs, made, todo, t),
    }
}

// A quantifier, made where all that it needs is there already.
#[cycle(replacing)]
fn quantified(
    terms: &mut Terms,
    pairs: &[(u32, u32)],
    made: &HashMap<u32, u32>,
    todo: &mut Vec<u32>,
    all: bool,
    q: &Quantifier,
    t: u32,
    depth: u32,
) -> Result<Option<u32>, NoMemory>
    requires within { t < length terms.old }
    requires tree { tree_at terms.old t ≡ bound_by (tree_at terms.old) all q.now }
    requires parts { IsWithin t q.now }
    requires pairs { AreBelow (length terms.old) pairs.now }
    requires todo { All (λ k. k < length terms.old) todo.old.items }
    requires made { AreMade terms.old pairs.now (get nat_eq made.now) }
    ensures value { IfOk result (λ o. IfSome o (λ r. IsAt terms.new r (image_at terms.old pairs.now t))) }
    ensures keeps { Keeps terms.old terms.new }
    ensures todo { All (λ k. k < length terms.new) todo.new.items }
{
    match looked_up(made, &[q.from, q.below], todo, t)? {
        None => Ok(None),
        Some(bounds) => {
            let bounds = (bounds[0], bounds[1]);
            with_bounds(terms, pairs, made, todo, all, q, bounds, t, depth)
        }
    }
}

// A quantifier with these bounds: where its range is short, its instances.
#[cycle(replacing)]
fn with_bounds(
    terms: &mut Terms,
    pairs: &[(u32, u32)],
    made: &HashMap<u32, u32>,
    todo: &mut Vec<u32>,
    all: bool,
    q: &Quantifier,
    bounds: (u32, u32),
    t: u32,
    depth: u32,
) -> Result<Option<u32>, NoMemory>
    requires within { t < length terms.old }
    requires body { q.now.body < length terms.old }
    requires from { bounds.0 < length terms.old }
    requires below { bounds.1 < length terms.old }
    requires pairs { AreBelow (length terms.old) pairs.now }
    requires todo { All (λ k. k < length terms.old) todo.old.items }
    requires made { AreMade terms.old pairs.now (get nat_eq made.now) }
    ensures value { IfOk result (λ o. IfSome o (λ r. IsAt terms.new r (quantified all q.now.word q.now.number (replaced (tree_at terms.old q.now.body)) (seen_pairs (tree_at terms.old) pairs.now) (tree_at terms.old bounds.0) (tree_at terms.old bounds.1) (span_of (as_number (tree_at terms.old bounds.0)) (as_number (tree_at terms.old bounds.1)))))) }
    ensures keeps { Keeps terms.old terms.new }
    ensures todo { All (λ k. k < length terms.new) todo.new.items }
{
    match span_at(terms, bounds.0, bounds.1) {
        None => with_body(terms, pairs, made, todo, all, q, bounds, t, depth),
        Some(range) => {
            let members = instances(terms, pairs, q, range, depth)?;
            match joined(terms, all, &members) {
                Ok(r) => Ok(Some(r)),
                Err(e) => Err(e),
            }
        }
    }
}

// A quantifier with these bounds over no short range.
#[cycle(replacing)]
fn with_body(
    terms: &mut Terms,
    pairs: &[(u32, u32)],
    made: &HashMap<u32, u32>,
    todo: &mut Vec<u32>,
    all: bool,
    q: &Quantifier,
    bounds: (u32, u32),
    t: u32,
    depth: u32,
) -> Result<Option<u32>, NoMemory>
    requires within { t < length terms.old }
    requires body { q.now.body < length terms.old }
    requires from { bounds.0 < length terms.old }
    requires below { bounds.1 < length terms.old }
    requires pairs { AreBelow (length terms.old) pairs.now }
    requires todo { All (λ k. k < length terms.old) todo.old.items }
    requires made { AreMade terms.old pairs.now (get nat_eq made.now) }
    ensures value { IfOk result (λ o. IfSome o (λ r. IsAt terms.new r (quantified all q.now.word q.now.number (replaced (tree_at terms.old q.now.body)) (seen_pairs (tree_at terms.old) pairs.now) (tree_at terms.old bounds.0) (tree_at terms.old bounds.1) None))) }
    ensures keeps { Keeps terms.old terms.new }
    ensures todo { All (λ k. k < length terms.new) todo.new.items }
{
    match body_under(terms, pairs, made, q, depth)? {
        None => {
            todo.push(t)?;
            todo.push(q.body)?;
            Ok(None)
        }
        Some(body) => match put_quantifier(terms, all, q, bounds, body) {
            Ok(r) => Ok(Some(r)),
            Err(e) => Err(e),
        },
    }
}

// The body of a quantifier, in which its name stands for itself, where it is there already or the name was hidden.
#[cycle(replacing)]
fn body_under(
    terms: &mut Terms,
    pairs: &[(u32, u32)],
    made: &HashMap<u32, u32>,
    q: &Quantifier,
    depth: u32,
) -> Result<Option<u32>, NoMemory>
    requires body { q.now.body < length terms.old }
    requires pairs { AreBelow (length terms.old) pairs.now }
    requires made { AreMade terms.old pairs.now (get nat_eq made.now) }
    ensures value { IfOk result (λ o. IfSome o (λ r. IsAt terms.new r (replaced (tree_at terms.old q.now.body) (hidden (found (seen_pairs (tree_at terms.old) pairs.now) (leaf (int_name q.now.word q.now.number))) (leaf (int_name q.now.word q.now.number)) (seen_pairs (tree_at terms.old) pairs.now))))) }
    ensures keeps { Keeps terms.old terms.new }
{
    let name = bound_name(terms, q)?;
    if is_hidden(terms, pairs, name) {
        let inner = with_pair(terms.allocator(), (name, name), pairs)?;
        match replaced(terms, &inner, q.body, depth) {
            Ok(body) => Ok(Some(body)),
            Err(e) => Err(e),
        }
    } else {
        match image_of(made, q.body) {
            Some(body) => Ok(Some(body)),
            None => Ok(None),
        }
    }
}

// The body of a quantifier at each of so many numbers from one on.
#[cycle(replacing)]
fn instances(
    terms: &mut Terms,
    pairs: &[(u32, u32)],
    q: &Quantifier,
    range: (i128, u32),
    depth: u32,
) -> Result<Vec<u32>, NoMemory>
    requires body { q.now.body < length terms.old }
    requires fits { (range.0 +ℤ pos range.1) <ℤ pos (2 ^ 127) }
    requires pairs { AreBelow (length terms.old) pairs.now }
    ensures value { IfOk result (λ ks. parts_at (tree_at terms.new) ks.items ≡ instances (replaced (tree_at terms.old q.now.body)) (leaf (int_name q.now.word q.now.number)) (seen_pairs (tree_at terms.old) pairs.now) range.0 range.1) }
    ensures below { IfOk result (λ ks. All (λ k. k < length terms.new) ks.items) }
    ensures keeps { Keeps terms.old terms.new }
{
    let mut members = Vec::new(terms.allocator());
    for k in 0..range.1 {
        let member = instance(terms, pairs, q, range.0 + i128::from(k), depth)?;
        members.push(member)?;
    }
    Ok(members)
}

// The body of a quantifier at a number.
#[cycle(replacing)]
fn instance(
    terms: &mut Terms,
    pairs: &[(u32, u32)],
    q: &Quantifier,
    number: i128,
    depth: u32,
) -> Result<u32, NoMemory>
    requires body { q.now.body < length terms.old }
    requires pairs { AreBelow (length terms.old) pairs.now }
    ensures value { IfOk result (λ r. IsAt terms.new r (replaced (tree_at terms.old q.now.body) ((leaf (int_name q.now.word q.now.number), Number number) ∷ seen_pairs (tree_at terms.old) pairs.now))) }
    ensures keeps { Keeps terms.old terms.new }
{
    let name = bound_name(terms, q)?;
    let value = terms.put(Node::Number(number))?;
    let inner = with_pair(terms.allocator(), (name, value), pairs)?;
    replaced(terms, &inner, q.body, depth)
}

// ---- folding

// What a quantifier is folded to.
fn folded_quantifier(terms: &mut Terms, all: bool, q: Quantifier) -> Result<u32, NoMemory>
    requires { IsWithin (length terms.old) q }
    ensures value { IfOk result (λ r. IsAt terms.new r (folded (bound_by (tree_at terms.old) all q))) }
    ensures keeps { Keeps terms.old terms.new }
{
    match span_at(terms, q.from, q.below) {
        None => put_quantifier(terms, all, &q, (q.from, q.below), q.body),
        Some(range) => {
            let members = instances(terms, &[], &q, range, DEPTH)?;
            joined(terms, all, &members)
        }
    }
}

/// The number of the term that a node's term is folded to.
pub fn made(terms: &mut Terms, node: Node) -> Result<u32, NoMemory>
    requires { HasPartsBelow (length terms.old) (plain node) }
    ensures value { IfOk result (λ r. IsAt terms.new r (folded (grown (tree_at terms.old) (plain node)))) }
    ensures keeps { Keeps terms.old terms.new }
{
    match node {
        Node::All(q) => folded_quantifier(terms, true, q),
        Node::Some(q) => folded_quantifier(terms, false, q),
        node => terms.make(node),
    }
}
