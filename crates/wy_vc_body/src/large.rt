//! Terms that are too large to stand for a variable.
ghost use Rattle.std.specs.Prelude.{◌≡◌, ◌<◌, ◌&&◌, ◌||◌, nat_lt, length as count_of, IfOk};
ghost use Rattle.wy_vc_exprs.specs.wy_vc_spec.Large as spec;
ghost use Rattle.wy_term.specs.Nodes.{plain, tree_at};
ghost use Rattle.wy_term.specs.ReplacingView as symbols;

use std::alloc::Global;
use wy_term::{NoMemory, Node, Terms};
use wy_term_subst::parts_of;

/// The most nodes of a term that stands for a variable.
const MOST_NODES: usize = 1024;
/// The most nodes of one with a name in it.
const MOST_NAMED_NODES: usize = 64;

// Whether the term is a name itself.
fn is_name(node: &Node) -> bool
    ensures value { result ≡ symbols.is_name (plain node.now).symbol }
{
    match node {
        Node::IntName(_, _) => true,
        Node::ValName(_, _) => true,
        _ => false,
    }
}

fn either(a: bool, b: bool) -> bool
    ensures value { result ≡ a || b }
{
    a || b
}

// Whether so many nodes, with a name among them or not, are too many.
fn is_past(count: usize, named: bool) -> bool
    ensures value { result ≡ nat_lt 1024 count || (named && nat_lt 64 count) }
{
    count > MOST_NODES || (named && count > MOST_NAMED_NODES)
}

/// Whether a term is too large to stand for a variable: it has more than 1,024 nodes as a tree, or a name in it and more than 64. It looks
/// at no more nodes than a term that isn't too large may have, and takes the time to list the parts of each.
pub fn is_large(alloc: Global, terms: &Terms, term: u32) -> Result<bool, NoMemory>
    requires { term < count_of terms.now }
    ensures value { IfOk result (λ b. b ≡ spec.is_large (tree_at terms.now term)) }
{
    let mut left = Vec::from_slice(alloc, &[term])?;
    let mut count: usize = 0;
    let mut named = false;
    while let Some(next) = left.pop() {
        let node = terms.node(next);
        let parts = parts_of(alloc, node)?;
        left.extend_from_slice(parts.as_slice())?;
        count += 1;
        named = either(named, is_name(node));
        let pending = left.as_slice().len();
        if pending > MOST_NODES {
            return Ok(true);
        }
        if is_past(count + pending, named) {
            return Ok(true);
        }
    }
    Ok(false)
}
