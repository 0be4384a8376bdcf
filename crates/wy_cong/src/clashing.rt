//! Whether classes clash.
ghost use Rattle.std.specs.Prelude.{◌≡◌, length, IfOk};
ghost use Rattle.wy_cong.specs.Seen.{terms_of, IsPresent};
ghost use Rattle.wy_cong.specs.Pairs.{kinds_clash};
ghost use Rattle.wy_check_splits.specs.wy_check_nodes.Seen.{IsBranch, seen_branch};
ghost use Rattle.wy_search_spec.specs.Classes as classes;
ghost use Rattle.wy_term.specs.Nodes.{tree_at};

use crate::denials::{any_apart, any_denies};
use crate::firsts::kinds_agree;
use crate::kinds::{kinds_by, with_own_kinds};
use crate::meeting::any_kinds;
use crate::present::Present;
use wy_check_splits::Branch;
use wy_term::{NoMemory, Terms};

// Whether a class has two kinds, or a kind and its denial. Where no kind is given, none has, and none that is denied is listed.
fn kinds_clash(
    terms: &Terms,
    branch: &Branch,
    present: &Present,
    labels: &[u32],
) -> Result<bool, NoMemory>
    requires branch { IsBranch terms.now branch.now }
    requires present { IsPresent terms.now present.now }
    ensures { IfOk result (λ yes. yes ≡ kinds_clash (terms_of (tree_at terms.now) present.now) labels.now (seen_branch (tree_at terms.now) branch.now).literals) }
{
    let literals = kinds_by(terms, branch, true)?;
    let given = with_own_kinds(terms, present, literals)?;
    if given.is_empty() {
        return Ok(false);
    }
    let denied = kinds_by(terms, branch, false)?;
    if kinds_agree(terms, present, labels, &given, &denied)? {
        return Ok(false);
    }
    if any_kinds(terms, present, labels, &given, &given, false) {
        return Ok(true);
    }
    Ok(any_kinds(terms, present, labels, &given, &denied, true))
}

/// Whether a denied equation stands inside a class, or a class has two different constants, two kinds, or a kind and its
/// denial. Where the classes don't clash it takes time linear in the number of literals and of terms present on average, but
/// for the kinds of records, whose names are compared; else it compares terms with each other until it comes to two that clash.
pub fn classes_clash(
    terms: &Terms,
    branch: &Branch,
    present: &Present,
    labels: &[u32],
) -> Result<bool, NoMemory>
    requires branch { IsBranch terms.now branch.now }
    requires present { IsPresent terms.now present.now }
    ensures { IfOk result (λ yes. yes ≡ classes.classes_clash (terms_of (tree_at terms.now) present.now) labels.now (seen_branch (tree_at terms.now) branch.now).literals) }
{
    if any_denies(terms, branch, present, labels) {
        return Ok(true);
    }
    if any_apart(terms, present, labels)? {
        return Ok(true);
    }
    kinds_clash(terms, branch, present, labels)
}
