//! Whether literals can't be.
ghost use Rattle.std.specs.Prelude.{◌≡◌, ◌<◌, length, IfOk};
ghost use Rattle.wy_check_nodes.specs.wy_term.Nodes.{tree_at};
ghost use Rattle.wy_check_nodes.specs.Seen.{seen_branch, seen_literal, IsBranch};
ghost use Rattle.wy_check_nodes.specs.wy_check_spec.valid.Kinds.{clash_together};
ghost use Rattle.wy_check_nodes.specs.wy_check_spec.valid.Validity.{is_clash};

use crate::alone::clashes_with;
use crate::given::{kinds_denied, kinds_given};
use crate::meeting::groups_meet;
use wy_check_nodes::{Branch, NoMemory, Terms, literal_at};

// Whether two literals give one term two kinds, or one gives a kind that the other denies.
fn clash_together(
    terms: &Terms,
    branch: &Branch,
    first: (u32, bool),
    second: (u32, bool),
) -> Result<bool, NoMemory>
    requires branch { IsBranch terms.now branch.now }
    requires first { first.0 < length terms.now }
    requires second { second.0 < length terms.now }
    ensures { IfOk result (λ yes. yes ≡ clash_together (seen_branch (tree_at terms.now) branch.now).literals (seen_literal (tree_at terms.now) first) (seen_literal (tree_at terms.now) second)) }
{
    let given = kinds_given(terms, branch, first.0, first.1)?;
    let also = kinds_given(terms, branch, second.0, second.1)?;
    if groups_meet(terms, &given, &also, false)? {
        return Ok(true);
    }
    let denied = kinds_denied(terms, branch, second.0, second.1)?;
    if groups_meet(terms, &given, &denied, true)? {
        return Ok(true);
    }
    let denied = kinds_denied(terms, branch, first.0, first.1)?;
    groups_meet(terms, &denied, &also, true)
}

/// Whether a literal with this number can't be, or, where two are named, whether these two can't be together: an equation of
/// different constants or of data of different kinds, a term that isn't itself, a term in two kinds, or in one that is denied
/// to it. It is `None` where no literal has the number. It takes time linear in the number of literals and in the size of the
/// records that they equate.
pub fn is_clash(
    terms: &Terms,
    branch: &Branch,
    i: u32,
    other: Option<u32>,
) -> Result<Option<bool>, NoMemory>
    requires { IsBranch terms.now branch.now }
    ensures { IfOk result (λ o. o ≡ is_clash (seen_branch (tree_at terms.now) branch.now).literals i other) }
{
    let Some(first) = literal_at(terms, branch, i) else {
        return Ok(None);
    };
    let Some(j) = other else {
        return Ok(Some(clashes_with(terms, first.0, first.1)?));
    };
    let Some(second) = literal_at(terms, branch, j) else {
        return Ok(None);
    };
    Ok(Some(clash_together(terms, branch, first, second)?))
}
