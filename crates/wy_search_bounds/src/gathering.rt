//! What is left of the forms of a node's literals.
ghost use Rattle.std.specs.Prelude.{◌≡◌, ◌<◌, ◌++◌, [], ◌∷◌, List, length, IfOk, OnOk};
ghost use Rattle.wy_search_bounds.specs.Firsts.{AreFirsts};
ghost use Rattle.wy_search_bounds.specs.Gathered.{Gathers, TakesLiteral};
ghost use Rattle.wy_search_bounds.specs.Known.{AreKnown};
ghost use Rattle.wy_search_bounds.specs.Seen.{seen_replaced};
ghost use Rattle.wy_cong.specs.Seen.{terms_of, IsPresent};
ghost use Rattle.wy_cong.specs.wy_facts.Seen.{Stays};
ghost use Rattle.wy_cong.specs.wy_check_nodes.Seen.{IsBranch, seen_branch};
ghost use Rattle.wy_cong.specs.wy_search_spec.Bounds as bounds;
ghost use Rattle.wy_term.specs.Nodes.{tree_at};

use crate::firsts::first_places;
use crate::forms::numbered;
use crate::known::{KnownForms, known_form, place_of_form};
use crate::replacing::{Replaced, replace_by};
use std::alloc::Global;
use wy_cong::{Branch, Present};
use wy_lin::Form;
use wy_term::{NoMemory, Terms};

/// Whether a form refutes, whether a number leaves 128 bits, and the forms that are left.
#[derive(Drop)]
pub struct Gathered {
    pub refutes: bool,
    pub leaves: bool,
    pub forms: Vec<Form>,
}

// Nothing yet, and room for as many forms.
fn nothing(alloc: Global, room: usize) -> Result<Gathered, NoMemory>
    ensures { IfOk result (λ g. Gathers g []) }
{
    Ok(Gathered {
        refutes: false,
        leaves: false,
        forms: Vec::with_capacity(alloc, room)?,
    })
}

// What is left of one form more.
fn take(gathered: &mut Gathered, one: Replaced) -> Result<(), NoMemory>
    ensures { (rs : List bounds.Replaced) → Gathers gathered.old rs → OnOk result (Gathers gathered.new (rs ++ seen_replaced one ∷ [])) }
{
    match one {
        Replaced::Gone => {}
        Replaced::Given(form) => gathered.forms.push(form)?,
        Replaced::Refutes => gathered.refutes = true,
        Replaced::Leaves => gathered.leaves = true,
    }
    Ok(())
}

// What is left of the form of the literal with a place, if it has one.
fn take_literal(
    terms: &mut Terms,
    known: &mut KnownForms,
    branch: &Branch,
    present: &Present,
    labels: &[u32],
    firsts: &[u32],
    i: usize,
    gathered: &mut Gathered,
) -> Result<(), NoMemory>
    requires branch { IsBranch terms.old branch.now }
    requires known { AreKnown terms.old known.old }
    requires present { IsPresent terms.old present.now }
    requires firsts { AreFirsts labels.now firsts.now }
    requires place { i < length branch.now.literals.keys }
    ensures value { (rs : List bounds.Replaced) → Gathers gathered.old rs → OnOk result (TakesLiteral (terms_of (tree_at terms.old) present.now) labels.now (seen_branch (tree_at terms.old) branch.now).literals i rs gathered.new) }
    ensures known { OnOk result (AreKnown terms.new known.new) }
    ensures stays { Stays terms.old terms.new }
{
    match place_of_form(terms, known, branch, i)? {
        Some(place) => {
            let placed = numbered(terms, present, known_form(known, place))?;
            let one = replace_by(terms.allocator(), labels, firsts, placed)?;
            take(gathered, one)
        }
        None => Ok(()),
    }
}

/// What is left of the forms of the node's literals, in order. Older numbers name what they named.
pub fn gather(
    terms: &mut Terms,
    known: &mut KnownForms,
    branch: &Branch,
    present: &Present,
    labels: &[u32],
) -> Result<Gathered, NoMemory>
    requires branch { IsBranch terms.old branch.now }
    requires known { AreKnown terms.old known.old }
    requires present { IsPresent terms.old present.now }
    ensures value { IfOk result (λ g. Gathers g (bounds.replaced_forms (terms_of (tree_at terms.old) present.now) labels.now (seen_branch (tree_at terms.old) branch.now).literals)) }
    ensures known { OnOk result (AreKnown terms.new known.new) }
    ensures stays { Stays terms.old terms.new }
{
    let firsts = first_places(terms.allocator(), labels)?;
    let mut gathered = nothing(terms.allocator(), branch.literals.len())?;
    for i in 0..branch.literals.len() {
        take_literal(
            terms,
            known,
            branch,
            present,
            labels,
            &firsts,
            i,
            &mut gathered,
        )?;
    }
    Ok(gathered)
}
