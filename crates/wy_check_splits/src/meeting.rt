//! Whether groups of terms have a term in common.
ghost use Rattle.std.specs.Prelude.{◌≡◌, ℕ, nat_eq, length, IfOk};
ghost use Rattle.std.specs.HashSet.{contains};
ghost use Rattle.wy_check_nodes.specs.wy_term_subst.Names.{is_in};
ghost use Rattle.wy_check_nodes.specs.wy_term.Nodes.{plain_kind, tree_at};
ghost use Rattle.wy_check_nodes.specs.wy_term.Same.{same_kind};
ghost use Rattle.wy_check_nodes.specs.wy_facts.Seen.{terms_at, AreBelow};
ghost use Rattle.wy_check_nodes.specs.wy_check_spec.valid.Kinds.{any_pair};
ghost use Rattle.wy_check_splits.specs.Groups.{of_group, kinded, AreGroups, have_common, as_wanted, in_kinds};

use crate::given::{Group, Groups};
use crate::kinds::same_kind;
use std::alloc::Global;
use std::collections::HashSet;
use wy_check_nodes::{Kind, NoMemory, Terms};

// The set of these numbers.
fn set_of(alloc: Global, ts: &[u32]) -> Result<HashSet<u32>, NoMemory>
    ensures { IfOk result (λ s. (t : ℕ) → contains nat_eq s t ≡ is_in t ts.now) }
{
    let mut set = HashSet::new(alloc);
    for t in ts {
        set.insert(*t)?;
    }
    Ok(set)
}

// Whether one of these terms is one of those, in time linear in how many both are.
fn have_common(terms: &Terms, ts: &[u32], us: &[u32]) -> Result<bool, NoMemory>
    requires first { AreBelow (length terms.now) ts.now }
    requires second { AreBelow (length terms.now) us.now }
    ensures { IfOk result (λ yes. yes ≡ have_common (terms_at terms.now ts.now) (terms_at terms.now us.now)) }
{
    terms.one_number_for_each_term();
    let set = set_of(terms.allocator(), us)?;
    for t in ts {
        if set.contains(t) {
            return Ok(true);
        }
    }
    Ok(false)
}

// Whether two kinds are the same, or whether they aren't, as is wanted.
fn kinds_are(k: &Kind, l: &Kind, same: bool) -> bool
    ensures { result ≡ as_wanted same (same_kind (plain_kind k.now) (plain_kind l.now)) }
{
    if same {
        same_kind(k, l)
    } else {
        !same_kind(k, l)
    }
}

// Whether a term stands in both groups, whose kinds are the same or aren't, as is wanted.
fn group_meets(terms: &Terms, g: &Group, h: &Group, same: bool) -> Result<bool, NoMemory>
    requires first { AreBelow (length terms.now) g.now.terms.items }
    requires second { AreBelow (length terms.now) h.now.terms.items }
    ensures { IfOk result (λ yes. yes ≡ any_pair (in_kinds same) (of_group (tree_at terms.now) g.now) (of_group (tree_at terms.now) h.now)) }
{
    if !kinds_are(&g.kind, &h.kind, same) {
        return Ok(false);
    }
    have_common(terms, &g.terms, &h.terms)
}

// The same of a group and two others.
fn meets_groups(terms: &Terms, g: &Group, hs: &Groups, same: bool) -> Result<bool, NoMemory>
    requires first { AreBelow (length terms.now) g.now.terms.items }
    requires second { AreGroups (length terms.now) hs.now }
    ensures { IfOk result (λ yes. yes ≡ any_pair (in_kinds same) (of_group (tree_at terms.now) g.now) (kinded (tree_at terms.now) hs.now)) }
{
    if group_meets(terms, g, &hs.first, same)? {
        return Ok(true);
    }
    group_meets(terms, g, &hs.second, same)
}

/// Whether a term stands in one of these groups and in one of those, whose kinds are the same or aren't, as is wanted. It
/// takes time linear in how many terms are in them.
pub fn groups_meet(terms: &Terms, gs: &Groups, hs: &Groups, same: bool) -> Result<bool, NoMemory>
    requires first { AreGroups (length terms.now) gs.now }
    requires second { AreGroups (length terms.now) hs.now }
    ensures { IfOk result (λ yes. yes ≡ any_pair (in_kinds same) (kinded (tree_at terms.now) gs.now) (kinded (tree_at terms.now) hs.now)) }
{
    if meets_groups(terms, &gs.first, hs, same)? {
        return Ok(true);
    }
    meets_groups(terms, &gs.second, hs, same)
}
