//! What is stated of tests of named types.
ghost use Rattle.std.specs.Prelude.{◌≡◌, ◌<◌, ◌∷◌, [], ℕ, List, All, length, map, option_map, IfOk, IfSome};
ghost use Rattle.wy_term_subst.specs.wy_term.Condition.{entry_of, condition_of};
ghost use Rattle.wy_term_subst.specs.wy_term.Nodes.{Plain, tree_at};
ghost use Rattle.wy_facts.specs.Made.{exactly_where};
ghost use Rattle.wy_facts.specs.Membership.{as_membership, entry_for, unfolded, membership, AreTypesBelow};
ghost use Rattle.wy_facts.specs.Seen.{Stays};

use crate::schema::{Instance, Schema};
use crate::stating::stated_of;
use wy_term_subst::{Cond, NoMemory, Node, Terms, subst};

// The datum and the type's number of a test of a named type.
fn membership_at(terms: &Terms, t: u32) -> Option<(u32, u32)>
    requires { t < length terms.now }
    ensures value { option_map (λ m. (tree_at terms.now m.0, m.1)) result ≡ as_membership (tree_at terms.now t) }
    ensures within { IfSome result (λ m. m.0 < length terms.now) }
{
    match terms.node(t) {
        Node::In(v, n) => Some((*v, *n)),
        _ => None,
    }
}

// The name and the formula of the first entry of a type.
fn entry_for(list: &[(u32, u32, u32)], n: u32) -> Option<(u32, u32, u32)>
    ensures value { (nodes : List Plain) → option_map (entry_of nodes) result ≡ entry_for (map (entry_of nodes) list.now) n }
    ensures within { (m : ℕ) → All (λ (e : ℕ × ℕ × ℕ). (e.1 < m) × (e.2 < m)) list.now → IfSome result (λ e. (e.1 < m) × (e.2 < m)) }
{
    for e in list {
        if e.0 == n {
            return Some(*e);
        }
    }
    None
}

// The formula that says of a test's datum whether it is of the test's type.
fn unfolded(terms: &mut Terms, cond: &Cond, t: u32) -> Result<Option<u32>, NoMemory>
    requires term { t < length terms.old }
    requires types { AreTypesBelow (length terms.old) cond.now }
    ensures value { IfOk result (λ o. option_map (tree_at terms.new) o ≡ unfolded (condition_of terms.old cond.now).types (tree_at terms.old t)) }
    ensures within { IfOk result (λ o. IfSome o (λ f. f < length terms.new)) }
    ensures stays { Stays terms.old terms.new }
{
    let Some((v, n)) = membership_at(terms, t) else {
        return Ok(None);
    };
    match entry_for(&cond.unfold.list, n) {
        None => Ok(None),
        Some((_, name, formula)) => match subst(terms, formula, name, v) {
            Ok(f) => Ok(Some(f)),
            Err(_) => Err(NoMemory),
        },
    }
}

// That two formulas hold at one time; of other formulas the schema on kinds states the same.
fn exactly_where(terms: &mut Terms, f: u32, g: u32) -> Result<u32, NoMemory>
    requires first { f < length terms.old }
    requires second { g < length terms.old }
    ensures value { IfOk result (λ h. tree_at terms.new h ≡ exactly_where (tree_at terms.old f) (tree_at terms.old g)) }
    ensures within { IfOk result (λ h. h < length terms.new) }
    ensures stays { Stays terms.old terms.new }
{
    let instance = Instance {
        schema: Schema::KindOfUpdated,
        parts: Vec::from_slice(terms.allocator(), &[f, g])?,
    };
    stated_of(terms, &instance)
}

/// That a test of a named type holds exactly where the type's formula holds of the datum; none where the term is no such
/// test, or the condition has no such type.
pub fn membership(terms: &mut Terms, cond: &Cond, t: u32) -> Result<Option<u32>, NoMemory>
    requires term { t < length terms.old }
    requires types { AreTypesBelow (length terms.old) cond.now }
    ensures value { IfOk result (λ o. option_map (tree_at terms.new) o ≡ membership (condition_of terms.old cond.now).types (tree_at terms.old t)) }
    ensures within { IfOk result (λ o. IfSome o (λ f. f < length terms.new)) }
    ensures stays { Stays terms.old terms.new }
{
    match unfolded(terms, cond, t)? {
        None => Ok(None),
        Some(f) => match exactly_where(terms, t, f) {
            Ok(g) => Ok(Some(g)),
            Err(e) => Err(e),
        },
    }
}
