//! Nodes of what stands at their root and their parts.
ghost use Rattle.std.specs.Prelude.{◌≡◌, ◌<◌, ◌≤◌, ◌↔◌, ◌++◌, ◌∷◌, [], ℕ, All, IsTrue, true, false, IfOk, OnErr, length, map, take, drop, slice_index};
ghost use Rattle.wy_term.specs.Nodes.{plain, tree_at, of};
ghost use Rattle.wy_term_text.specs.spell.Todo as todo;
ghost use Rattle.wy_term_text.specs.spell.Todo.{Has};
ghost use Rattle.wy_term_text.specs.spell.Done.{trees, IsMade, CannotBe};
ghost use Rattle.wy_term_text.specs.spell.View.{symbol_of};

use crate::spell::work::Root;
use std::alloc::Global;
use wy_term::{Name, NoMemory, Node, Quantifier, Terms};

// How many parts there are, where this doesn't vary.
fn arity(root: &Root) -> Option<usize>
    ensures value { result ≡ todo.arity (symbol_of root.now) }
{
    match root {
        Root::Number(_) | Root::IntName(_, _) | Root::ValName(_, _) => Some(0),
        Root::Null | Root::Bool(_) => Some(0),
        Root::Neg | Root::Num | Root::Len | Root::Int | Root::Truth | Root::Not => Some(1),
        Root::Field(_) | Root::Kind(_) | Root::In(_) => Some(1),
        Root::Add | Root::Sub | Root::Mul | Root::Div | Root::Mod => Some(2),
        Root::Repeat | Root::Get | Root::SetField(_) | Root::AtMost | Root::Equal => Some(2),
        Root::Update | Root::All(_, _) | Root::Some(_, _) => Some(3),
        Root::Record(names) => Some(names.len()),
        Root::Array | Root::And | Root::Or => None,
    }
}

fn fits(root: &Root, parts: usize) -> bool
    ensures value { IsTrue result ↔ Has (todo.arity (symbol_of root.now)) parts }
{
    match arity(root) {
        None => true,
        Some(n) => n == parts,
    }
}

fn quantifier(word: Name, number: u128, parts: &[u32]) -> Quantifier
    requires { length parts.now ≡ 3 }
    ensures value { result ≡ record { word = word; number = number; from = slice_index parts.now 0; below = slice_index parts.now 1; body = slice_index parts.now 2 } }
{
    Quantifier {
        word,
        number,
        from: parts[0],
        below: parts[1],
        body: parts[2],
    }
}

fn fields(alloc: Global, names: &[Name], parts: &[u32]) -> Result<Vec<(Name, u32)>, NoMemory>
    requires { length parts.now ≡ length names.now }
    ensures names { IfOk result (λ fs. map (λ p. p.0) fs.items ≡ names.now) }
    ensures parts { IfOk result (λ fs. map (λ p. p.1) fs.items ≡ parts.now) }
{
    let mut fields = Vec::new(alloc);
    for k in 0..names.len() {
        fields.push((names[k].copy(alloc)?, parts[k]))?;
    }
    Ok(fields)
}

// The node of these parts.
fn node_of(alloc: Global, root: Root, parts: &[u32]) -> Result<Node, NoMemory>
    requires { Has (todo.arity (symbol_of root)) (length parts.now) }
    ensures value { IfOk result (λ n. plain n ≡ of (symbol_of root) parts.now) }
{
    match root {
        Root::Number(z) => Ok(Node::Number(z)),
        Root::IntName(word, n) => Ok(Node::IntName(word, n)),
        Root::Add => Ok(Node::Add(parts[0], parts[1])),
        Root::Sub => Ok(Node::Sub(parts[0], parts[1])),
        Root::Neg => Ok(Node::Neg(parts[0])),
        Root::Mul => Ok(Node::Mul(parts[0], parts[1])),
        Root::Div => Ok(Node::Div(parts[0], parts[1])),
        Root::Mod => Ok(Node::Mod(parts[0], parts[1])),
        Root::Num => Ok(Node::Num(parts[0])),
        Root::Len => Ok(Node::Len(parts[0])),
        Root::ValName(word, n) => Ok(Node::ValName(word, n)),
        Root::Null => Ok(Node::Null),
        Root::Bool(b) => Ok(Node::Bool(b)),
        Root::Int => Ok(Node::Int(parts[0])),
        Root::Truth => Ok(Node::Truth(parts[0])),
        Root::Array => Ok(Node::Array(Vec::from_slice(alloc, parts)?)),
        Root::Repeat => Ok(Node::Repeat(parts[0], parts[1])),
        Root::Update => Ok(Node::Update(parts[0], parts[1], parts[2])),
        Root::Get => Ok(Node::Get(parts[0], parts[1])),
        Root::Record(names) => Ok(Node::Record(fields(alloc, &names, parts)?)),
        Root::Field(name) => Ok(Node::Field(parts[0], name)),
        Root::SetField(name) => Ok(Node::SetField(parts[0], name, parts[1])),
        Root::AtMost => Ok(Node::AtMost(parts[0], parts[1])),
        Root::Equal => Ok(Node::Equal(parts[0], parts[1])),
        Root::Kind(kind) => Ok(Node::Kind(parts[0], kind)),
        Root::In(n) => Ok(Node::In(parts[0], n)),
        Root::All(word, n) => Ok(Node::All(quantifier(word, n, parts))),
        Root::Some(word, n) => Ok(Node::Some(quantifier(word, n, parts))),
        Root::Not => Ok(Node::Not(parts[0])),
        Root::And => Ok(Node::And(Vec::from_slice(alloc, parts)?)),
        Root::Or => Ok(Node::Or(Vec::from_slice(alloc, parts)?)),
    }
}

/// Makes a node of the terms that are done from a place on, and puts it in their place. False where it would have another
/// number of parts.
#[tactic(auto, using(crate::proofs::spell_lemmas::DoneLemmas::make_steps, crate::proofs::spell_lemmas::DoneLemmas::make_covers))]
pub(crate) fn make(
    terms: &mut Terms,
    done: &mut Vec<u32>,
    root: Root,
    base: usize,
) -> Result<bool, NoMemory>
    requires below { All (λ k. k < length terms.old) done.old.items }
    ensures value { IfOk result (λ b. b ≡ true → IsMade (symbol_of root) base (trees terms.old done.old.items) (trees terms.new done.new.items)) }
    ensures refused { IfOk result (λ b. b ≡ false → CannotBe (symbol_of root) base (trees terms.old done.old.items)) }
    ensures below { IfOk result (λ b. b ≡ true → All (λ k. k < length terms.new) done.new.items) }
    ensures kept { (t : ℕ) → t < length terms.old → tree_at terms.new t ≡ tree_at terms.old t }
    ensures grows { length terms.old ≤ length terms.new }
{
    let alloc = terms.allocator();
    if done.len() < base {
        return Ok(false);
    }
    if !fits(&root, done.len() - base) {
        return Ok(false);
    }
    let node = node_of(alloc, root, &done[base..])?;
    let term = terms.intern(node)?;
    done.truncate(base);
    done.push(term)?;
    Ok(true)
}
