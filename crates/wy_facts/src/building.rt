//! A formula, made of the parts of an instance by a list of instructions.
ghost use Rattle.std.specs.Prelude.{◌≡◌, ◌<◌, ◌-◌, ◌∷◌, [], ℕ, length, option_map, slice_index_or, IfOk, IfSome};
ghost use Rattle.wy_term_subst.specs.wy_term.Term.{Term, all_of};
ghost use Rattle.wy_facts.specs.declared.program.Instruction.TheVariants.{Part};
ghost use Rattle.wy_term_subst.specs.wy_term.Folding.{folded};
ghost use Rattle.wy_term_subst.specs.wy_term.Nodes.{of, plain, grown, tree_at, HasPartsBelow};
ghost use Rattle.wy_facts.specs.Program.{term_of_leaf, symbol_of_one, symbol_of_two, with_one, with_two, with_three, with_four, connective, after, ran};
ghost use Rattle.wy_facts.specs.Seen.{terms_at, AreBelow, Stays};

use crate::program::{Binary, Instruction, Leaf, Unary};
use std::alloc::{AllocError, Global};
use std::collections::VecDeque;
use wy_term_subst::{Kind, NoMemory, Node, Terms};

fn leaf_node(leaf: Leaf) -> Node
    ensures tree { (at : ℕ → Term) → folded (grown at (plain result)) ≡ term_of_leaf leaf }
    ensures within { (n : ℕ) → HasPartsBelow n (plain result) }
{
    match leaf {
        Leaf::Zero => Node::Number(0),
        Leaf::Null => Node::Null,
        Leaf::True => Node::Bool(true),
        Leaf::False => Node::Bool(false),
    }
}

fn unary_node(form: Unary, s: u32) -> Node
    ensures value { plain result ≡ of (symbol_of_one form) (s ∷ []) }
{
    match form {
        Unary::Neg => Node::Neg(s),
        Unary::Num => Node::Num(s),
        Unary::Len => Node::Len(s),
        Unary::Int => Node::Int(s),
        Unary::IsNull => Node::Kind(s, Kind::Null),
        Unary::IsBool => Node::Kind(s, Kind::Bool),
        Unary::IsInt => Node::Kind(s, Kind::Int),
        Unary::Not => Node::Not(s),
    }
}

fn binary_node(alloc: Global, form: Binary, s: u32, t: u32) -> Result<Node, AllocError>
    ensures value { IfOk result (λ n. plain n ≡ of (symbol_of_two form) (s ∷ t ∷ [])) }
{
    match form {
        Binary::Add => Ok(Node::Add(s, t)),
        Binary::Mul => Ok(Node::Mul(s, t)),
        Binary::Get => Ok(Node::Get(s, t)),
        Binary::AtMost => Ok(Node::AtMost(s, t)),
        Binary::Equal => Ok(Node::Equal(s, t)),
        Binary::And => Ok(Node::And(Vec::from_slice(alloc, &[s, t])?)),
        Binary::Or => Ok(Node::Or(Vec::from_slice(alloc, &[s, t])?)),
    }
}

// A conjunction, or else a disjunction.
fn connective(all: bool, members: Vec<u32>) -> Node
    ensures value { plain result ≡ of (connective all) members.items }
{
    if all {
        Node::And(members)
    } else {
        Node::Or(members)
    }
}

// The terms, and in front of them the term of a node.
fn with_node(terms: &mut Terms, made: VecDeque<u32>, node: Node) -> Result<VecDeque<u32>, NoMemory>
    requires node { HasPartsBelow (length terms.old) (plain node) }
    requires made { AreBelow (length terms.old) made.items }
    ensures value { IfOk result (λ m. terms_at terms.new m.items ≡ folded (grown (tree_at terms.old) (plain node)) ∷ terms_at terms.old made.items) }
    ensures within { IfOk result (λ m. AreBelow (length terms.new) m.items) }
    ensures stays { Stays terms.old terms.new }
{
    let mut made = made;
    let t = terms.intern(node)?;
    made.push_front(t)?;
    Ok(made)
}

// A term of the one that was made last, in its place.
fn with_unary(
    terms: &mut Terms,
    made: VecDeque<u32>,
    form: Unary,
) -> Result<Option<VecDeque<u32>>, NoMemory>
    requires made { AreBelow (length terms.old) made.items }
    ensures value { IfOk result (λ o. option_map (λ m. terms_at terms.new m.items) o ≡ with_one form (terms_at terms.old made.items)) }
    ensures within { IfOk result (λ o. IfSome o (λ m. AreBelow (length terms.new) m.items)) }
    ensures stays { Stays terms.old terms.new }
{
    let mut made = made;
    let Some(s) = made.pop_front() else {
        return Ok(None);
    };
    match with_node(terms, made, unary_node(form, s)) {
        Ok(made) => Ok(Some(made)),
        Err(e) => Err(e),
    }
}

// A term of the two that were made last, in their place.
fn with_binary(
    terms: &mut Terms,
    made: VecDeque<u32>,
    form: Binary,
) -> Result<Option<VecDeque<u32>>, NoMemory>
    requires made { AreBelow (length terms.old) made.items }
    ensures value { IfOk result (λ o. option_map (λ m. terms_at terms.new m.items) o ≡ with_two form (terms_at terms.old made.items)) }
    ensures within { IfOk result (λ o. IfSome o (λ m. AreBelow (length terms.new) m.items)) }
    ensures stays { Stays terms.old terms.new }
{
    let mut made = made;
    let Some(s) = made.pop_front() else {
        return Ok(None);
    };
    let Some(t) = made.pop_front() else {
        return Ok(None);
    };
    let node = binary_node(terms.allocator(), form, s, t)?;
    match with_node(terms, made, node) {
        Ok(made) => Ok(Some(made)),
        Err(e) => Err(e),
    }
}

// A conjunction, or else a disjunction, of the three formulas that were made last, in their place.
fn with_three_members(
    terms: &mut Terms,
    made: VecDeque<u32>,
    all: bool,
) -> Result<Option<VecDeque<u32>>, NoMemory>
    requires made { AreBelow (length terms.old) made.items }
    ensures value { IfOk result (λ o. option_map (λ m. terms_at terms.new m.items) o ≡ with_three (connective all) (terms_at terms.old made.items)) }
    ensures within { IfOk result (λ o. IfSome o (λ m. AreBelow (length terms.new) m.items)) }
    ensures stays { Stays terms.old terms.new }
{
    let mut made = made;
    let Some(s) = made.pop_front() else {
        return Ok(None);
    };
    let Some(t) = made.pop_front() else {
        return Ok(None);
    };
    let Some(u) = made.pop_front() else {
        return Ok(None);
    };
    let node = connective(all, Vec::from_slice(terms.allocator(), &[s, t, u])?);
    match with_node(terms, made, node) {
        Ok(made) => Ok(Some(made)),
        Err(e) => Err(e),
    }
}

// The conjunction of the four formulas that were made last, in their place.
fn with_four_members(
    terms: &mut Terms,
    made: VecDeque<u32>,
) -> Result<Option<VecDeque<u32>>, NoMemory>
    requires made { AreBelow (length terms.old) made.items }
    ensures value { IfOk result (λ o. option_map (λ m. terms_at terms.new m.items) o ≡ with_four all_of (terms_at terms.old made.items)) }
    ensures within { IfOk result (λ o. IfSome o (λ m. AreBelow (length terms.new) m.items)) }
    ensures stays { Stays terms.old terms.new }
{
    let mut made = made;
    let Some(s) = made.pop_front() else {
        return Ok(None);
    };
    let Some(t) = made.pop_front() else {
        return Ok(None);
    };
    let Some(u) = made.pop_front() else {
        return Ok(None);
    };
    let Some(v) = made.pop_front() else {
        return Ok(None);
    };
    let node = connective(true, Vec::from_slice(terms.allocator(), &[s, t, u, v])?);
    match with_node(terms, made, node) {
        Ok(made) => Ok(Some(made)),
        Err(e) => Err(e),
    }
}

// The part with a number, in front of the terms that were made.
fn with_part(
    terms: &Terms,
    parts: &[u32],
    made: VecDeque<u32>,
    k: usize,
) -> Result<Option<VecDeque<u32>>, NoMemory>
    requires parts { AreBelow (length terms.now) parts.now }
    requires made { AreBelow (length terms.now) made.items }
    ensures value { IfOk result (λ o. option_map (λ m. terms_at terms.now m.items) o ≡ after (terms_at terms.now parts.now) (Part k) (terms_at terms.now made.items)) }
    ensures within { IfOk result (λ o. IfSome o (λ m. AreBelow (length terms.now) m.items)) }
{
    let _terms = terms;
    let mut made = made;
    if k >= parts.len() {
        return Ok(None);
    }
    made.push_front(parts[k])?;
    Ok(Some(made))
}

// One instruction.
fn step(
    terms: &mut Terms,
    parts: &[u32],
    made: VecDeque<u32>,
    i: Instruction,
) -> Result<Option<VecDeque<u32>>, NoMemory>
    requires parts { AreBelow (length terms.old) parts.now }
    requires made { AreBelow (length terms.old) made.items }
    ensures value { IfOk result (λ o. option_map (λ m. terms_at terms.new m.items) o ≡ after (terms_at terms.old parts.now) i (terms_at terms.old made.items)) }
    ensures within { IfOk result (λ o. IfSome o (λ m. AreBelow (length terms.new) m.items)) }
    ensures stays { Stays terms.old terms.new }
{
    match i {
        Instruction::Part(k) => with_part(terms, parts, made, k),
        Instruction::Leaf(leaf) => match with_node(terms, made, leaf_node(leaf)) {
            Ok(made) => Ok(Some(made)),
            Err(e) => Err(e),
        },
        Instruction::Unary(form) => with_unary(terms, made, form),
        Instruction::Binary(form) => with_binary(terms, made, form),
        Instruction::AndThree => with_three_members(terms, made, true),
        Instruction::OrThree => with_three_members(terms, made, false),
        Instruction::AndFour => with_four_members(terms, made),
    }
}

// The instruction with a number, from 0, counted from the end.
fn instruction_at(program: &[Instruction], k: usize) -> Instruction
    requires { k < length program.now }
    ensures value { result ≡ slice_index_or program.now (length program.now - 1 - k) result }
{
    program[program.len() - 1 - k]
}

/// What a list of instructions, which is read from its end, makes of these parts. It takes the time of as many calls of
/// `intern` as there are instructions.
pub fn made_of(
    terms: &mut Terms,
    parts: &[u32],
    program: &[Instruction],
) -> Result<Option<VecDeque<u32>>, NoMemory>
    requires parts { AreBelow (length terms.old) parts.now }
    ensures value { IfOk result (λ o. option_map (λ m. terms_at terms.new m.items) o ≡ ran (terms_at terms.old parts.now) program.now) }
    ensures within { IfOk result (λ o. IfSome o (λ m. AreBelow (length terms.new) m.items)) }
    ensures stays { Stays terms.old terms.new }
{
    let mut made = VecDeque::new(terms.allocator());
    for k in 0..program.len() {
        match step(terms, parts, made, instruction_at(program, k))? {
            Some(more) => {
                made = more;
            }
            None => return Ok(None),
        }
    }
    Ok(Some(made))
}
