//! Kinds that can't be in one class.
ghost use Rattle.std.specs.Prelude.{◌≡◌, ◌<◌, length};
ghost use Rattle.wy_cong.specs.Seen.{terms_of, IsPresent};
ghost use Rattle.wy_check_splits.specs.Groups.{as_wanted, in_kinds};
ghost use Rattle.wy_cong.specs.Kinded.{kinded, seen_kinded, AreKinded};
ghost use Rattle.wy_cong.specs.Pairs.{meets};
ghost use Rattle.wy_search_spec.specs.Classes as classes;
ghost use Rattle.wy_term.specs.Nodes.{plain_kind, tree_at};
ghost use Rattle.wy_term.specs.Same.{same_kind};

use crate::kinds::Kinded;
use crate::places::in_one_class;
use crate::present::Present;
use wy_check_splits::same_kind;
use wy_term::{Kind, Terms};

// Whether two kinds are the same, or whether they aren't, as is wanted.
fn kinds_are(k: &Kind, l: &Kind, same: bool) -> bool
    ensures { result ≡ as_wanted same (same_kind (plain_kind k.now) (plain_kind l.now)) }
{
    if same {
        same_kind(k, l)
    } else {
        !same_kind(k, l)
    }
}

// Whether two terms in one class have kinds that are the same or aren't, as is wanted.
fn meet(
    terms: &Terms,
    present: &Present,
    labels: &[u32],
    p: &Kinded,
    q: &Kinded,
    same: bool,
) -> bool
    requires first { p.now.term < length terms.now }
    requires second { q.now.term < length terms.now }
    requires present { IsPresent terms.now present.now }
    ensures { result ≡ meets (in_kinds same) (terms_of (tree_at terms.now) present.now) labels.now (seen_kinded (tree_at terms.now) p.now) (seen_kinded (tree_at terms.now) q.now) }
{
    if !kinds_are(&p.kind, &q.kind, same) {
        return false;
    }
    in_one_class(terms, present, labels, p.term, q.term)
}

// So of one and one of these.
fn kinds_with(
    terms: &Terms,
    present: &Present,
    labels: &[u32],
    p: &Kinded,
    qs: &[Kinded],
    same: bool,
) -> bool
    requires first { p.now.term < length terms.now }
    requires second { AreKinded (length terms.now) qs.now }
    requires present { IsPresent terms.now present.now }
    ensures { result ≡ classes.kinds_with (in_kinds same) (terms_of (tree_at terms.now) present.now) labels.now (seen_kinded (tree_at terms.now) p.now) (kinded (tree_at terms.now) qs.now) }
{
    for q in qs {
        if meet(terms, present, labels, p, q, same) {
            return true;
        }
    }
    false
}

/// Whether one of the first and one of the second are in one class, and their kinds are the same or aren't, as is wanted. It
/// compares each of the first with each of the second.
pub fn any_kinds(
    terms: &Terms,
    present: &Present,
    labels: &[u32],
    ps: &[Kinded],
    qs: &[Kinded],
    same: bool,
) -> bool
    requires first { AreKinded (length terms.now) ps.now }
    requires second { AreKinded (length terms.now) qs.now }
    requires present { IsPresent terms.now present.now }
    ensures { result ≡ classes.any_kinds (in_kinds same) (terms_of (tree_at terms.now) present.now) labels.now (kinded (tree_at terms.now) ps.now) (kinded (tree_at terms.now) qs.now) }
{
    for p in ps {
        if kinds_with(terms, present, labels, p, qs, same) {
            return true;
        }
    }
    false
}
