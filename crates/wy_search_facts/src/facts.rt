//! The facts of all schemas.
ghost use Rattle.std.specs.Prelude.{◌≡◌, length, map, IfOk, OnOk};
ghost use Rattle.wy_facts.specs.Membership.{AreTypesBelow};
ghost use Rattle.wy_facts.specs.Seen.{terms_at, AreBelow, Stays};
ghost use Rattle.wy_cong.specs.wy_check_spec.judge.Node.{with_formulas};
ghost use Rattle.wy_check_nodes.specs.Seen.{seen_branch, seen_formula, IsBranch};
ghost use Rattle.wy_cong.specs.wy_search_spec.Expansion as search;
ghost use Rattle.wy_search_facts.specs.Adding.{Leads};
ghost use Rattle.wy_term.specs.Condition.{condition_of};
ghost use Rattle.wy_term.specs.Nodes.{tree_at};

use crate::elements::{push_elements, push_pairs};
use crate::kinds::push_kind_facts;
use crate::plain::{push_lengths, push_plain};
use wy_check_nodes::Branch;
use wy_cong::standing;
use wy_term::{Cond, NoMemory, Terms};

// The facts of one schema.
fn push_schema(
    terms: &mut Terms,
    cond: &Cond,
    branch: &Branch,
    facts: &mut Vec<u32>,
    schema: u32,
    found: &Branch,
) -> Result<(), NoMemory>
    requires branch { IsBranch terms.old branch.now }
    requires found { IsBranch terms.old found.now }
    requires types { AreTypesBelow (length terms.old) cond.now }
    requires facts { AreBelow (length terms.old) facts.old.items }
    ensures value { OnOk result (Leads terms.old facts.old.items terms.new facts.new.items (λ done. search.with_facts_by (condition_of terms.old cond.now).types (seen_branch (tree_at terms.old) branch.now) (map (seen_formula (tree_at terms.old)) found.now.pending.keys) schema done)) }
    ensures stays { Stays terms.old terms.new }
{
    if schema == 1 {
        return push_lengths(terms, cond, facts, found);
    }
    if schema == 4 {
        return push_elements(terms, cond, facts, found);
    }
    if schema == 8 {
        return push_pairs(terms, cond, facts, found);
    }
    if schema == 14 {
        return push_kind_facts(terms, cond, branch, facts, found);
    }
    push_plain(terms, cond, facts, schema, found)
}

/// The facts of all schemas, in their order, of what stands in the node. It goes through what stands in the node once for
/// each schema, and for pairs of elements once for each element. Older numbers name what they named.
pub fn facts_of(terms: &mut Terms, cond: &Cond, branch: &Branch) -> Result<Vec<u32>, NoMemory>
    requires branch { IsBranch terms.old branch.now }
    requires types { AreTypesBelow (length terms.old) cond.now }
    ensures value { IfOk result (λ fs. with_formulas (seen_branch (tree_at terms.old) branch.now) (terms_at terms.new fs.items) ≡ search.with_facts (condition_of terms.old cond.now).types (seen_branch (tree_at terms.old) branch.now)) }
    ensures below { IfOk result (λ fs. AreBelow (length terms.new) fs.items) }
    ensures stays { Stays terms.old terms.new }
{
    let found = standing(terms, branch)?;
    let mut facts = Vec::new(terms.allocator());
    for schema in 1..17 {
        push_schema(terms, cond, branch, &mut facts, schema, &found)?;
    }
    Ok(facts)
}
