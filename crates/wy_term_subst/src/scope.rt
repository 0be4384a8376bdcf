//! What names stand for within quantifiers.
ghost use Rattle.std.specs.Prelude.{◌≡◌, ◌<◌, ◌∷◌, if◌then◌else◌, All, length, option_map, IfOk, IfSome};
ghost use Rattle.wy_term.specs.Nodes.{tree_at};
ghost use Rattle.wy_term.specs.Folding.{found, hidden};
ghost use Rattle.wy_term.specs.ReplacingView.{seen_pairs, AreBelow};

use std::alloc::Global;
use wy_term::{NoMemory, Terms};

/// What names stand for: pairs of a name and a term, of which the first one of a name counts.
#[derive(Drop)]
pub struct Scope {
    pub pairs: Vec<(u32, u32)>,
}

/// The term that a name stands for, if there is one.
pub fn found(terms: &Terms, pairs: &[(u32, u32)], name: u32) -> Option<u32>
    requires within { name < length terms.now }
    requires pairs { AreBelow (length terms.now) pairs.now }
    ensures value { option_map (tree_at terms.now) result ≡ found (seen_pairs (tree_at terms.now) pairs.now) (tree_at terms.now name) }
    ensures below { IfSome result (λ r. r < length terms.now) }
{
    for pair in pairs {
        if terms.same(pair.0, name) {
            return Some(pair.1);
        }
    }
    None
}

/// Whether a name stands for another term.
pub fn is_hidden(terms: &Terms, pairs: &[(u32, u32)], name: u32) -> bool
    requires within { name < length terms.now }
    requires pairs { AreBelow (length terms.now) pairs.now }
    ensures { hidden (found (seen_pairs (tree_at terms.now) pairs.now) (tree_at terms.now name)) (tree_at terms.now name) (seen_pairs (tree_at terms.now) pairs.now) ≡ (if result then (tree_at terms.now name, tree_at terms.now name) ∷ seen_pairs (tree_at terms.now) pairs.now else seen_pairs (tree_at terms.now) pairs.now) }
{
    match found(terms, pairs, name) {
        Some(r) => !terms.same(r, name),
        None => false,
    }
}

/// The pairs, and before them another.
pub fn with_pair(alloc: Global, pair: (u32, u32), pairs: &[(u32, u32)]) -> Result<Scope, NoMemory>
    ensures value { IfOk result (λ scope. scope.pairs.items ≡ pair ∷ pairs.now) }
{
    let mut all = Vec::new(alloc);
    all.push(pair)?;
    all.extend_from_slice(pairs)?;
    Ok(Scope { pairs: all })
}
