//! Which names stand in a term, and which numbers are taken.
ghost use Rattle.std.specs.Prelude.{[], nat_eq, bytes_eq, ◌≡◌, ◌<◌, ◌+◌, ◌∷◌, ◌++◌, ◌&&◌, ◌||◌, ℕ, List, All, length, option_to_list, IfOk, OnOk};
ghost use Rattle.std.specs.HashSet.{contains};
ghost use Rattle.wy_term.specs.Nodes.{plain, tree_at};
ghost use Rattle.wy_term_subst.specs.Names.{names_it, numbers_by, top, first_free, new_number};
ghost use Rattle.wy_term_subst.specs.View.{any_at, symbol_at, noted_numbers, Counts, same_name};

use std::alloc::Global;
use std::collections::HashSet;
use wy_term::{Name, NoMemory, Node, Terms};

/// The greatest number that a name can have.
const GREATEST: u128 = (1 << 127) - 1;

// ---- numbers

/// The numbers of names, and the greatest of them.
#[derive(Drop)]
pub struct Taken {
    numbers: HashSet<u128>,
    greatest: u128,
}

/// None yet.
pub fn none_taken(alloc: Global) -> Taken
    ensures { Counts result [] }
{
    Taken {
        numbers: HashSet::new(alloc),
        greatest: 0,
    }
}

// Notes a number.
fn take_number(taken: &mut Taken, number: u128) -> Result<(), NoMemory>
    ensures { (ns : List ℕ) → Counts taken.old ns → OnOk result (Counts taken.new (number ∷ ns)) }
{
    taken.numbers.insert(number)?;
    if taken.greatest < number {
        taken.greatest = number;
    }
    Ok(())
}

// The number of the name that a node is, or binds.
fn number_in(node: &Node) -> Option<u128>
    ensures { numbers_by (plain node.now).symbol ≡ option_to_list result }
{
    match node {
        Node::IntName(_, n) | Node::ValName(_, n) => Some(*n),
        Node::All(q) | Node::Some(q) => Some(q.number),
        _ => None,
    }
}

// Notes the number of the name that a term is, or binds.
fn take_number_at(terms: &Terms, k: u32, taken: &mut Taken) -> Result<(), NoMemory>
    requires { k < length terms.now }
    ensures { (ns : List ℕ) → Counts taken.old ns → OnOk result (Counts taken.new (numbers_by (symbol_at terms.now k) ++ ns)) }
{
    match number_in(terms.node(k)) {
        Some(number) => take_number(taken, number),
        None => Ok(()),
    }
}

/// Notes the numbers of the names that these terms are, or bind, in time linear in how many they are.
pub fn take_numbers(terms: &Terms, all: &[u32], taken: &mut Taken) -> Result<(), NoMemory>
    requires { All (λ k. k < length terms.now) all.now }
    ensures { (ns : List ℕ) → Counts taken.old ns → OnOk result (Counts taken.new (noted_numbers terms.now all.now ns)) }
{
    for k in all {
        take_number_at(terms, *k, taken)?;
    }
    Ok(())
}

// The least number that isn't taken.
fn first_free(taken: &Taken) -> Result<u128, NoMemory>
    ensures { (ns : List ℕ) → Counts taken.now ns → IfOk result (λ n. n ≡ first_free (top ns + 1) 0 ns) }
{
    for least in 0..u64::MAX {
        let number = u128::from(least);
        if !taken.numbers.contains(&number) {
            return Ok(number);
        }
    }
    Err(NoMemory)
}

/// The number of a new name, which is taken from then on. It takes constant time, but where the greatest number that a name
/// can have is taken it takes time linear in how many are.
pub fn new_number(taken: &mut Taken) -> Result<u128, NoMemory>
    ensures { (ns : List ℕ) → Counts taken.old ns → IfOk result (λ n. (n ≡ new_number ns) × Counts taken.new (n ∷ ns)) }
{
    let number = if taken.greatest < GREATEST {
        taken.greatest + 1
    } else {
        first_free(taken)?
    };
    take_number(taken, number)?;
    Ok(number)
}

// ---- names

/// Int names, by word and number.
#[derive(Drop)]
pub struct IntNames {
    names: HashSet<(Name, u128)>,
}

fn add_name(names: &mut IntNames, word: Name, number: u128) -> Result<(), NoMemory>
    ensures { OnOk result ((w : List ℕ) (n : ℕ) → contains same_name names.new.names (w, n) ≡ ((bytes_eq word w && nat_eq number n) || contains same_name names.old.names (w, n))) }
{
    names.names.insert((word, number))?;
    Ok(())
}

// Notes the Int name that a term is, or binds.
fn add_name_at(terms: &Terms, k: u32, names: &mut IntNames) -> Result<(), NoMemory>
    requires { k < length terms.now }
    ensures { OnOk result ((w : List ℕ) (n : ℕ) → contains same_name names.new.names (w, n) ≡ (names_it w n (symbol_at terms.now k) || contains same_name names.old.names (w, n))) }
{
    match terms.node(k) {
        Node::IntName(word, number) => add_name(names, word.copy(terms.allocator())?, *number),
        Node::All(q) => add_name(names, q.word.copy(terms.allocator())?, q.number),
        Node::Some(q) => add_name(names, q.word.copy(terms.allocator())?, q.number),
        _ => Ok(()),
    }
}

/// The Int names that these terms are, or bind, in time linear in how many they are.
pub fn int_names(terms: &Terms, all: &[u32]) -> Result<IntNames, NoMemory>
    requires { All (λ k. k < length terms.now) all.now }
    ensures { IfOk result (λ names. (w : List ℕ) (n : ℕ) → contains same_name names.names (w, n) ≡ any_at terms.now (names_it w n) all.now) }
{
    let mut names = IntNames {
        names: HashSet::new(terms.allocator()),
    };
    for k in all {
        add_name_at(terms, *k, &mut names)?;
    }
    Ok(names)
}

/// Whether an Int name is one of these.
pub fn is_among(names: &IntNames, word: Name, number: u128) -> bool
    ensures { result ≡ contains same_name names.now.names (word, number) }
{
    names.names.contains(&(word, number))
}
