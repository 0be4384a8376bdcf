//! The named types that terms test.
ghost use Rattle.std.specs.Prelude.{◌≡◌, ◌<◌, ◌++◌, ℕ, length, map, true, IfOk, OnOk};
ghost use Rattle.wy_term.specs.Nodes.{plain, tree_at};
ghost use Rattle.wy_vc_spec.specs.Limits.{is_among, tests_in_all};
ghost use Rattle.wy_vc.specs.Tested as spec;

use crate::shared::made_of_all;
use wy_term::{NoMemory, Node, Terms};

/// The named type that a term tests itself.
pub fn type_of(node: &Node) -> Option<u32>
    ensures value { result ≡ spec.type_of (plain node.now).symbol }
{
    match node {
        Node::In(_, number) => Some(*number),
        _ => None,
    }
}

// Puts the named type that this term tests behind the others, if it tests one.
fn put_type(terms: &Terms, term: u32, types: &mut Vec<u32>) -> Result<(), NoMemory>
    requires { term < length terms.now }
    ensures value { OnOk result (types.new.items ≡ types.old.items ++ spec.listed_if (spec.type_of (spec.symbol_of (tree_at terms.now term)))) }
{
    match type_of(terms.node(term)) {
        None => Ok(()),
        Some(number) => {
            types.push(number)?;
            Ok(())
        }
    }
}

// The named types that the terms with these numbers test.
fn types_at(terms: &Terms, all: &[u32]) -> Result<Vec<u32>, NoMemory>
    requires { (k : ℕ) → is_among all.now k ≡ true → k < length terms.now }
    ensures value { IfOk result (λ ns. ns.items ≡ spec.types_at terms.now all.now) }
{
    let mut types = Vec::new(terms.allocator());
    for k in all {
        put_type(terms, *k, &mut types)?;
    }
    Ok(types)
}

/// The numbers of the named types that these terms test, or terms that they are made of. Linear in how many terms they are made of.
pub fn types_tested(terms: &Terms, roots: &[u32]) -> Result<Vec<u32>, NoMemory>
    requires { (r : ℕ) → is_among roots.now r ≡ true → r < length terms.now }
    ensures value { IfOk result (λ ns. (n : ℕ) → is_among ns.items n ≡ is_among (tests_in_all (map (tree_at terms.now) roots.now)) n) }
{
    let all = made_of_all(terms, roots)?;
    types_at(terms, all.as_slice())
}
