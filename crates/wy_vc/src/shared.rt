//! The terms that others are made of, by a list of what is still to be listed.
ghost use Rattle.std.specs.Prelude.{◌≡◌, ◌<◌, ◌++◌, ◌∷◌, [], ℕ, List, nat_eq, length, map, true, IfOk, OnOk};
ghost use Rattle.std.specs.HashSet.{contains};
ghost use Rattle.wy_term.specs.Term.{Term};
ghost use Rattle.wy_term.specs.Nodes.{Plain, tree_at};
ghost use Rattle.wy_vc_spec.specs.Limits.{different, has_term, is_among, terms_in_all};
ghost use Rattle.wy_vc.specs.Gathered.{AreGathered, Grown};
ghost use Rattle.wy_vc.specs.Shared.{AreUnder, IsListed, IsNamed};

use std::alloc::Global;
use std::collections::HashSet;
use wy_term::{NoMemory, Terms};
use wy_term_subst::parts_of;

/// Terms, by their numbers, one behind the other, each once.
#[derive(Drop)]
pub struct Gathered {
    pub all: Vec<u32>,
    noted: HashSet<u32>,
}

/// No terms.
pub fn nothing_gathered(alloc: Global) -> Gathered
    ensures gathered { (nodes : List Plain) → AreGathered nodes [] result }
{
    let all = Vec::new(alloc);
    let noted = HashSet::new(alloc);
    Gathered { all, noted }
}

// Lists a term that isn't listed yet; what it is made of is to be listed.
fn list(terms: &Terms, t: u32, gathered: &mut Gathered, todo: &mut Vec<u32>) -> Result<(), NoMemory>
    requires within { t < length terms.now }
    ensures listed { (roots : List ℕ) → IsListed terms.now roots gathered.old.all.items (contains nat_eq gathered.old.noted) (todo.old.items ++ t ∷ []) → OnOk result (IsListed terms.now roots gathered.new.all.items (contains nat_eq gathered.new.noted) todo.new.items) }
    ensures under { AreUnder (length terms.now) todo.old.items → OnOk result (AreUnder (length terms.now) todo.new.items) }
    ensures grows { OnOk result (Grown gathered.old.all.items gathered.new.all.items) }
{
    if gathered.noted.contains(&t) {
        return Ok(());
    }
    let parts = parts_of(terms.allocator(), terms.node(t))?;
    gathered.noted.insert(t)?;
    gathered.all.push(t)?;
    todo.extend_from_slice(&parts)?;
    Ok(())
}

/// Puts what these terms are made of, themselves among it, behind what was gathered. Linear in how many terms are new, and in their parts.
pub fn gather(terms: &Terms, gathered: &mut Gathered, more: &[u32]) -> Result<(), NoMemory>
    requires within { (r : ℕ) → is_among more.now r ≡ true → r < length terms.now }
    ensures gathered { (roots : List ℕ) → AreGathered terms.now roots gathered.old → OnOk result (AreGathered terms.now (roots ++ more.now) gathered.new) }
    ensures grows { OnOk result (Grown gathered.old.all.items gathered.new.all.items) }
{
    let mut todo = Vec::from_slice(terms.allocator(), more)?;
    for _turn in 0..u64::MAX {
        match todo.pop() {
            None => return Ok(()),
            Some(t) => list(terms, t, gathered, &mut todo)?,
        }
    }
    Err(NoMemory)
}

/// The numbers of the terms that these are made of, themselves among them, each once. Linear in how many they are and their parts.
pub fn made_of_all(terms: &Terms, roots: &[u32]) -> Result<Vec<u32>, NoMemory>
    requires { (r : ℕ) → is_among roots.now r ≡ true → r < length terms.now }
    ensures count { IfOk result (λ ks. length ks.items ≡ different (terms_in_all (map (tree_at terms.now) roots.now))) }
    ensures whole { IfOk result (λ ks. (t : Term) → has_term (terms_in_all (map (tree_at terms.now) roots.now)) t ≡ true → IsNamed terms.now ks.items t) }
    ensures below { IfOk result (λ ks. (k : ℕ) → is_among ks.items k ≡ true → k < length terms.now) }
    ensures value { IfOk result (λ ks. (k : ℕ) → k < length terms.now → is_among ks.items k ≡ has_term (terms_in_all (map (tree_at terms.now) roots.now)) (tree_at terms.now k)) }
{
    terms.one_number_for_each_term();
    let mut gathered = nothing_gathered(terms.allocator());
    gather(terms, &mut gathered, roots)?;
    let Gathered { all, .. } = gathered;
    Ok(all)
}
