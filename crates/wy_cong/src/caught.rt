//! Whether a name that stands free in a term is bound around it.
ghost use Rattle.std.specs.Prelude.{◌≡◌, ◌<◌, length, map, slice_index_or, IfOk};
ghost use Rattle.wy_check_splits.specs.wy_check_nodes.Seen.{AreBelow};
ghost use Rattle.wy_cong.specs.Marks.{binds_one, is_any_bound};
ghost use Rattle.wy_term.specs.Nodes.{tree_at};
ghost use Rattle.wy_term.specs.Scope.{free_names};

use wy_check_splits::is_free;
use wy_term::{NoMemory, Node, Terms};

// Whether the quantifier binds a name that stands free in the term; nothing else does.
fn binds_one(terms: &Terms, q: u32, t: u32) -> Result<bool, NoMemory>
    requires quantifier { q < length terms.now }
    requires term { t < length terms.now }
    ensures value { IfOk result (λ yes. yes ≡ binds_one (tree_at terms.now q) (free_names (tree_at terms.now t))) }
{
    match terms.node(q) {
        Node::All(by) => is_free(terms, t, &by.word, by.number),
        Node::Some(by) => is_free(terms, t, &by.word, by.number),
        _ => Ok(false),
    }
}

// The quantifier with a place in the list.
fn quantifier_at(around: &[u32], i: usize) -> u32
    requires { i < length around.now }
    ensures { result ≡ slice_index_or around.now i result }
{
    around[i]
}

/// Whether one of these quantifiers binds a name that stands free in the term. For each of them it takes the time to look for
/// its name in the term, and where there are none, constant time.
pub fn is_caught(terms: &Terms, around: &[u32], t: u32) -> Result<bool, NoMemory>
    requires quantifiers { AreBelow (length terms.now) around.now }
    requires term { t < length terms.now }
    ensures value { IfOk result (λ yes. yes ≡ is_any_bound (map (tree_at terms.now) around.now) (free_names (tree_at terms.now t))) }
{
    for i in 0..around.len() {
        let q = quantifier_at(around, i);
        if binds_one(terms, q, t)? {
            return Ok(true);
        }
    }
    Ok(false)
}
