//! One fact more.
ghost use Rattle.std.specs.Prelude.{◌≡◌, ◌<◌, ℕ, length, map, option_map, IfOk, IfSome, OnOk};
ghost use Rattle.wy_facts.specs.Membership.{AreTypesBelow};
ghost use Rattle.wy_facts.specs.Seen.{terms_at, AreBelow, Stays};
ghost use Rattle.wy_cong.specs.wy_check_spec.judge.Node.{Node, with_formulas};
ghost use Rattle.wy_cong.specs.wy_search_spec.Expansion as search;
ghost use Rattle.wy_search_facts.specs.Adding.{Leads};
ghost use Rattle.wy_term.specs.Condition.{condition_of};
ghost use Rattle.wy_term.specs.Nodes.{tree_at};
ghost use Rattle.wy_term.specs.Term.{Term};
ghost use Rattle.wy_cong.specs.wy_check_spec.valid.Membership.{fact_among};

use wy_facts::fact;
use wy_term::{Cond, NoMemory, Terms};

// The formula that a schema states of these arguments, where they are such as it takes.
fn fact_stated(
    terms: &mut Terms,
    cond: &Cond,
    schema: u32,
    arguments: &[u32],
) -> Result<Option<u32>, NoMemory>
    requires arguments { AreBelow (length terms.old) arguments.now }
    requires types { AreTypesBelow (length terms.old) cond.now }
    ensures value { IfOk result (λ o. option_map (tree_at terms.new) o ≡ fact_among (condition_of terms.old cond.now).types schema (terms_at terms.old arguments.now)) }
    ensures within { IfOk result (λ o. IfSome o (λ f. f < length terms.new)) }
    ensures stays { Stays terms.old terms.new }
{
    match fact(terms, cond, schema, arguments) {
        Ok(made) => Ok(made),
        Err(_) => Err(NoMemory),
    }
}

/// A formula behind the others, if there is one.
pub fn push_some(facts: &mut Vec<u32>, made: Option<u32>) -> Result<(), NoMemory>
    ensures value { (at : ℕ → Term) (start : Node) → OnOk result (with_formulas start (map at facts.new.items) ≡ search.with_some (with_formulas start (map at facts.old.items)) (option_map at made)) }
    ensures below { (n : ℕ) → AreBelow n facts.old.items → IfSome made (λ f. f < n) → OnOk result (AreBelow n facts.new.items) }
{
    match made {
        Some(f) => {
            facts.push(f)?;
            Ok(())
        }
        None => Ok(()),
    }
}

/// What a schema states of these arguments, behind the other facts, where they are such as it takes.
pub fn push_fact(
    terms: &mut Terms,
    cond: &Cond,
    facts: &mut Vec<u32>,
    schema: u32,
    arguments: &[u32],
) -> Result<(), NoMemory>
    requires arguments { AreBelow (length terms.old) arguments.now }
    requires types { AreTypesBelow (length terms.old) cond.now }
    requires facts { AreBelow (length terms.old) facts.old.items }
    ensures value { OnOk result (Leads terms.old facts.old.items terms.new facts.new.items (λ node. search.with_some node (fact_among (condition_of terms.old cond.now).types schema (terms_at terms.old arguments.now)))) }
    ensures stays { Stays terms.old terms.new }
{
    let made = fact_stated(terms, cond, schema, arguments)?;
    push_some(facts, made)
}
