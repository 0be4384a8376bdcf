//! Which terms the literals join.
ghost use Rattle.std.specs.Prelude.{◌<◌, length, IfOk, OnOk};
ghost use Rattle.wy_check_nodes.specs.wy_term.Nodes.{tree_at};
ghost use Rattle.wy_check_nodes.specs.Seen.{seen_branch, IsBranch};
ghost use Rattle.wy_check_splits.specs.Joined.{Notes, NotesBehind};

use std::collections::HashSet;
use wy_check_nodes::{Branch, NoMemory, Node, Terms, nth_literal};

/// The pairs of terms of which an equation is a true literal, and those of which the first is at most the second by one.
#[derive(Drop)]
pub struct Joined {
    pub equations: HashSet<(u32, u32)>,
    pub bounds: HashSet<(u32, u32)>,
}

// Notes what a true literal joins.
fn note(terms: &Terms, joined: &mut Joined, atom: u32) -> Result<(), NoMemory>
    requires { atom < length terms.now }
    ensures { OnOk result (NotesBehind (tree_at terms.now) (length terms.now) joined.old joined.new (tree_at terms.now atom)) }
{
    terms.one_number_for_each_term();
    match terms.node(atom) {
        Node::Equal(v, w) => {
            joined.equations.insert((*v, *w))?;
            Ok(())
        }
        Node::AtMost(s, t) => {
            joined.bounds.insert((*s, *t))?;
            Ok(())
        }
        _ => Ok(()),
    }
}

/// The pairs that the literals of a node join, in time linear in the number of literals.
pub fn joined_by(terms: &Terms, branch: &Branch) -> Result<Joined, NoMemory>
    requires { IsBranch terms.now branch.now }
    ensures { IfOk result (λ j. Notes (tree_at terms.now) (length terms.now) (seen_branch (tree_at terms.now) branch.now).literals j) }
{
    let alloc = terms.allocator();
    let mut joined = Joined {
        equations: HashSet::new(alloc),
        bounds: HashSet::new(alloc),
    };
    for i in 0..branch.literals.len() {
        let (atom, holds) = nth_literal(terms, branch, i);
        if holds {
            note(terms, &mut joined, atom)?;
        }
    }
    Ok(joined)
}
