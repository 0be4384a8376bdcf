//! What a term is made of.
ghost use Rattle.std.specs.Prelude.{nat_eq, ◌≡◌, ◌<◌, All, Bool, true, length, IfOk, OnOk};
ghost use Rattle.std.specs.HashSet.{contains};
ghost use Rattle.wy_term.specs.Term.{Symbol};
ghost use Rattle.wy_term.specs.Nodes.{tree_at};
ghost use Rattle.wy_term_subst.specs.Names.{any_symbol};
ghost use Rattle.wy_term_subst.specs.View.{any_at, all_noted, IsListed};

use crate::parts::parts_of;
use std::alloc::Global;
use std::collections::HashSet;
use wy_term::{NoMemory, Terms};

// Whether each of these numbers is noted.
fn all_noted(noted: &HashSet<u32>, parts: &[u32]) -> bool
    ensures { result ≡ all_noted (contains nat_eq noted.now) parts.now }
{
    for part in parts {
        if !noted.contains(part) {
            return false;
        }
    }
    true
}

// Lists a term whose parts are listed already; another is put back, and its parts before it.
fn list(
    terms: &Terms,
    _root: u32,
    t: u32,
    all: &mut Vec<u32>,
    noted: &mut HashSet<u32>,
    todo: &mut Vec<u32>,
) -> Result<(), NoMemory>
    requires within { t < length terms.now }
    requires inside { (test : Symbol → Bool) → any_symbol test (tree_at terms.now t) ≡ true → any_symbol test (tree_at terms.now _root) ≡ true }
    requires listed { IsListed terms.now _root all.old.items (contains nat_eq noted.old) todo.old.items }
    ensures listed { OnOk result (IsListed terms.now _root all.new.items (contains nat_eq noted.new) todo.new.items) }
{
    let parts = parts_of(terms.allocator(), terms.node(t))?;
    if !all_noted(noted, &parts) {
        todo.push(t)?;
        todo.extend_from_slice(&parts)?;
        return Ok(());
    }
    all.push(t)?;
    noted.insert(t)?;
    Ok(())
}

/// The numbers of the terms that a term is made of, itself among them, each once. It works on a list of what is still to be
/// listed, and takes time linear in how many they are and their parts.
pub fn made_of(terms: &Terms, root: u32) -> Result<Vec<u32>, NoMemory>
    requires { root < length terms.now }
    ensures below { IfOk result (λ ks. All (λ k. k < length terms.now) ks.items) }
    ensures value { IfOk result (λ ks. (test : Symbol → Bool) → any_at terms.now test ks.items ≡ any_symbol test (tree_at terms.now root)) }
{
    let alloc = terms.allocator();
    let mut all = Vec::new(alloc);
    let mut noted = HashSet::new(alloc);
    let mut todo = Vec::new(alloc);
    for _turn in 0..u64::MAX {
        if noted.contains(&root) {
            return Ok(all);
        }
        let t = todo.pop().unwrap_or(root);
        if noted.contains(&t) {
            continue;
        }
        list(terms, root, t, &mut all, &mut noted, &mut todo)?;
    }
    Err(NoMemory)
}
