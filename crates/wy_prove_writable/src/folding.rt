//! Terms that are made once more.
ghost use Rattle.std.specs.Prelude.{◌≡◌, ◌<◌, ◌≤◌, ℕ, length, All, IfOk};
ghost use Rattle.wy_term_subst.specs.Substitution.{renumbered};
ghost use Rattle.wy_term.specs.Folding.{folded};
ghost use Rattle.wy_term.specs.Nodes.{grown, of, plain, tree_at, HasPartsBelow};
ghost use Rattle.wy_prove_writable.specs.Listed.{IsFoldedThere};

use std::alloc::Global;
use wy_term::{NoMemory, Node, Terms};
use wy_term_subst::with_parts;

// The number of the name that a node binds, or 0.
fn bound_number(node: &Node) -> u128
    ensures { renumbered (plain node.now).symbol result ≡ (plain node.now).symbol }
{
    match node {
        Node::All(q) | Node::Some(q) => q.number,
        _ => 0,
    }
}

// The same node with other parts.
fn copy_of(alloc: Global, node: &Node, parts: &[u32]) -> Result<Node, NoMemory>
    requires { length parts.now ≡ length (plain node.now).parts }
    ensures { IfOk result (λ copy. plain copy ≡ of (plain node.now).symbol parts.now) }
{
    Ok(with_parts(alloc, node, bound_number(node), parts)?)
}

// The number of the term with this node, if the term is folded to itself, where a term has the number that it was folded to.
fn folded_to_itself(again: &Terms, node: &Node, number: u32) -> Option<u32>
    requires parts { HasPartsBelow (length again.now) (plain node.now) }
    requires within { number < length again.now }
    requires value { tree_at again.now number ≡ folded (grown (tree_at again.now) (plain node.now)) }
    ensures value { IsFoldedThere again.now (grown (tree_at again.now) (plain node.now)) result }
{
    again.one_number_for_each_term();
    if *again.node(number) == *node {
        Some(number)
    } else {
        None
    }
}

/// The number in a list of the term that is made of a node's symbol and these parts, if it is folded to itself. It takes the time
/// to look at the node and, where it is a quantifier over a short range, to make its instances.
pub fn made_again(again: &mut Terms, node: &Node, parts: &[u32]) -> Result<Option<u32>, NoMemory>
    requires many { length parts.now ≡ length (plain node.now).parts }
    requires parts { All (λ k. k < length again.old) parts.now }
    ensures value { IfOk result (IsFoldedThere again.new (grown (tree_at again.old) (of (plain node.now).symbol parts.now))) }
    ensures kept { (t : ℕ) → t < length again.old → tree_at again.new t ≡ tree_at again.old t }
    ensures grows { length again.old ≤ length again.new }
{
    let alloc = again.allocator();
    let copy = copy_of(alloc, node, parts)?;
    let number = again.intern(copy_of(alloc, node, parts)?)?;
    Ok(folded_to_itself(again, &copy, number))
}
