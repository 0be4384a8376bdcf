//! Facts of one argument.
ghost use Rattle.std.specs.Prelude.{◌≡◌, ◌<◌, [], ◌∷◌, length, map, option_map, IfSome, OnOk};
ghost use Rattle.std.specs.Option.{option_to_list};
ghost use Rattle.wy_facts.specs.Membership.{AreTypesBelow};
ghost use Rattle.wy_facts.specs.Seen.{AreBelow, Stays};
ghost use Rattle.wy_check_nodes.specs.Seen.{seen_formula, IsBranch};
ghost use Rattle.wy_cong.specs.wy_search_spec.Expansion as search;
ghost use Rattle.wy_search_facts.specs.Adding.{Leads};
ghost use Rattle.wy_term.specs.Condition.{condition_of};
ghost use Rattle.wy_term.specs.Nodes.{tree_at};
ghost use Rattle.wy_cong.specs.wy_check_spec.valid.Membership.{fact_among};

use crate::made::push_fact;
use wy_check_nodes::{Branch, pending_at};
use wy_term::{Cond, NoMemory, Node, Terms};

// What a schema states of a term; of a denial none states anything.
fn push_one(
    terms: &mut Terms,
    cond: &Cond,
    facts: &mut Vec<u32>,
    schema: u32,
    t: u32,
    holds: bool,
) -> Result<(), NoMemory>
    requires term { t < length terms.old }
    requires types { AreTypesBelow (length terms.old) cond.now }
    requires facts { AreBelow (length terms.old) facts.old.items }
    ensures value { OnOk result (Leads terms.old facts.old.items terms.new facts.new.items (λ node. search.with_some node (fact_among (condition_of terms.old cond.now).types schema (seen_formula (tree_at terms.old) (t, holds) ∷ [])))) }
    ensures stays { Stays terms.old terms.new }
{
    if holds {
        push_fact(terms, cond, facts, schema, &[t])
    } else {
        Ok(())
    }
}

/// What a schema states of each of these terms.
pub fn push_plain(
    terms: &mut Terms,
    cond: &Cond,
    facts: &mut Vec<u32>,
    schema: u32,
    found: &Branch,
) -> Result<(), NoMemory>
    requires found { IsBranch terms.old found.now }
    requires types { AreTypesBelow (length terms.old) cond.now }
    requires facts { AreBelow (length terms.old) facts.old.items }
    ensures value { OnOk result (Leads terms.old facts.old.items terms.new facts.new.items (λ node. search.with_facts_of_one (condition_of terms.old cond.now).types schema node (map (seen_formula (tree_at terms.old)) found.now.pending.keys))) }
    ensures stays { Stays terms.old terms.new }
{
    for i in 0..found.pending.len() {
        let (t, holds) = pending_at(found, i);
        push_one(terms, cond, facts, schema, t, holds)?;
    }
    Ok(())
}

/// Of what a term is the length.
pub fn measured(terms: &Terms, t: u32) -> Option<u32>
    requires { t < length terms.now }
    ensures value { search.measured (tree_at terms.now t) ≡ option_to_list (option_map (tree_at terms.now) result) }
    ensures within { IfSome result (λ v. v < length terms.now) }
{
    match terms.node(t) {
        Node::Len(v) => Some(*v),
        _ => None,
    }
}

// That a length is at least 0.
fn push_length(
    terms: &mut Terms,
    cond: &Cond,
    facts: &mut Vec<u32>,
    t: u32,
    holds: bool,
) -> Result<(), NoMemory>
    requires term { t < length terms.old }
    requires types { AreTypesBelow (length terms.old) cond.now }
    requires facts { AreBelow (length terms.old) facts.old.items }
    ensures value { OnOk result (Leads terms.old facts.old.items terms.new facts.new.items (λ node. search.with_facts_of_one (condition_of terms.old cond.now).types 1 node (search.measured (seen_formula (tree_at terms.old) (t, holds))))) }
    ensures stays { Stays terms.old terms.new }
{
    if !holds {
        return Ok(());
    }
    match measured(terms, t) {
        Some(v) => push_fact(terms, cond, facts, 1, &[v]),
        None => Ok(()),
    }
}

/// That each length is at least 0.
pub fn push_lengths(
    terms: &mut Terms,
    cond: &Cond,
    facts: &mut Vec<u32>,
    found: &Branch,
) -> Result<(), NoMemory>
    requires found { IsBranch terms.old found.now }
    requires types { AreTypesBelow (length terms.old) cond.now }
    requires facts { AreBelow (length terms.old) facts.old.items }
    ensures value { OnOk result (Leads terms.old facts.old.items terms.new facts.new.items (λ node. search.with_facts_of_one (condition_of terms.old cond.now).types 1 node (search.all_measured (map (seen_formula (tree_at terms.old)) found.now.pending.keys)))) }
    ensures stays { Stays terms.old terms.new }
{
    for i in 0..found.pending.len() {
        let (t, holds) = pending_at(found, i);
        push_length(terms, cond, facts, t, holds)?;
    }
    Ok(())
}
