//! The atoms of formulas.
ghost use Rattle.std.specs.Prelude.{◌≡◌, ◌<◌, ◌++◌, ℕ, [], ◌∷◌, Some, map, length, slice_get, nat_eq, IfOk, OnOk};
ghost use Rattle.std.specs.HashMap.{get};
ghost use Rattle.wy_items.specs.few.Places.{number_place, ArePlaced};
ghost use Rattle.wy_check_splits.specs.wy_check_nodes.Seen.{AreBelow, AreOver, seen_formula};
ghost use Rattle.wy_search_spec.specs.Splitting.{atoms_in, atoms_of};
ghost use Rattle.wy_cong.specs.Atoms.{AreAtoms};
ghost use Rattle.wy_cong.specs.Once.{atoms_at, once};
ghost use Rattle.wy_term.specs.Nodes.{tree_at};

use std::alloc::Global;
use std::collections::{HashMap, VecDeque};
use wy_items::few::{place_among, push_number};
use wy_term::{NoMemory, Node, Terms};

/// The atoms that were met, by first appearance, and where each stands.
#[derive(Drop)]
pub struct Atoms {
    pub list: Vec<u32>,
    pub places: HashMap<u32, u32>,
}

/// No atom was met yet. It takes no memory.
pub fn no_atoms(alloc: Global) -> Atoms
    ensures list { result.list.items ≡ [] }
    ensures atoms { (n : ℕ) → AreAtoms n result }
{
    let list = Vec::new(alloc);
    let places = HashMap::new(alloc);
    Atoms { list, places }
}

/// The place of an atom in the list, from 0, if it is there. Few are looked through, and of more a table tells it in constant time
/// on average.
pub fn place_of_atom(found: &Atoms, a: u32) -> Option<u32>
    requires { ArePlaced found.now.list.items (get nat_eq found.now.places) }
    ensures { result ≡ number_place found.now.list.items a 0 }
{
    place_among(&found.list, &found.places, a)
}

// Formulas whose atoms are still to be listed, next first.
type Tasks = VecDeque<u32>;

// These formulas first.
fn with_members(tasks: Tasks, members: &[u32]) -> Result<Tasks, NoMemory>
    ensures { IfOk result (λ ts. ts.items ≡ members.now ++ tasks.items) }
{
    let mut tasks = tasks;
    let mut left = members.len();
    while left > 0 {
        left -= 1;
        tasks.push_front(members[left])?;
    }
    Ok(tasks)
}

fn with_task(tasks: Tasks, f: u32) -> Result<Tasks, NoMemory>
    ensures { IfOk result (λ ts. ts.items ≡ f ∷ tasks.items) }
{
    let mut tasks = tasks;
    tasks.push_front(f)?;
    Ok(tasks)
}

// An atom more, unless it is there.
fn note(terms: &Terms, found: &mut Atoms, f: u32) -> Result<(), NoMemory>
    requires formula { f < length terms.now }
    requires found { AreAtoms (length terms.now) found.old }
    ensures value { OnOk result (map (tree_at terms.now) found.new.list.items ≡ once (map (tree_at terms.now) found.old.list.items) (tree_at terms.now f ∷ [])) }
    ensures found { OnOk result (AreAtoms (length terms.now) found.new) }
{
    terms.one_number_for_each_term();
    if place_of_atom(found, f).is_some() {
        return Ok(());
    }
    push_number(&mut found.list, &mut found.places, f)?;
    Ok(())
}

// One formula: its members first, or else itself noted.
fn take(terms: &Terms, found: &mut Atoms, tasks: Tasks, f: u32) -> Result<Tasks, NoMemory>
    requires formula { f < length terms.now }
    requires found { AreAtoms (length terms.now) found.old }
    requires tasks { AreBelow (length terms.now) tasks.items }
    ensures value { IfOk result (λ ts. once (map (tree_at terms.now) found.new.list.items) (atoms_at (tree_at terms.now) ts.items) ≡ once (map (tree_at terms.now) found.old.list.items) (atoms_at (tree_at terms.now) (f ∷ tasks.items))) }
    ensures found { OnOk result (AreAtoms (length terms.now) found.new) }
    ensures tasks { IfOk result (λ ts. AreBelow (length terms.now) ts.items) }
{
    match terms.node(f) {
        Node::And(members) => with_members(tasks, members),
        Node::Or(members) => with_members(tasks, members),
        Node::Not(g) => with_task(tasks, *g),
        _ => {
            note(terms, found, f)?;
            Ok(tasks)
        }
    }
}

/// Lists the atoms of a formula behind those that are listed, each once. It works on a list of what is still to be taken
/// apart, and takes time linear in the size of what is taken apart, as a tree.
pub fn list_atoms(terms: &Terms, found: &mut Atoms, f: u32) -> Result<(), NoMemory>
    requires formula { f < length terms.now }
    requires found { AreAtoms (length terms.now) found.old }
    ensures value { OnOk result (map (tree_at terms.now) found.new.list.items ≡ once (map (tree_at terms.now) found.old.list.items) (atoms_in (tree_at terms.now f))) }
    ensures found { OnOk result (AreAtoms (length terms.now) found.new) }
{
    let mut tasks = with_task(VecDeque::new(terms.allocator()), f)?;
    for _turn in 0..u64::MAX {
        match tasks.pop_front() {
            Some(g) => {
                tasks = take(terms, found, tasks, g)?;
            }
            None => return Ok(()),
        }
    }
    Err(NoMemory)
}

/// The atom with a place in the list, in constant time.
pub fn atom_at(found: &Atoms, i: usize) -> u32
    requires { i < length found.now.list.items }
    ensures { slice_get found.now.list.items i ≡ Some result }
{
    found.list[i]
}

/// The atom with a place in the list, if there are so many, in constant time.
pub fn atom_if_there(found: &Atoms, i: usize) -> Option<u32>
    ensures { result ≡ slice_get found.now.list.items i }
{
    found.list.get(i).copied()
}
