//! The numbers of literals.
ghost use Rattle.std.specs.Prelude.{◌≡◌, ◌<◌, false, IfOk, IfNone, IfSome, Some, length};
ghost use Rattle.wy_search_laws.specs.wy_check_spec.judge.Node.{has_literal};
ghost use Rattle.wy_check_nodes.specs.Seen.{seen_branch, seen_literal, IsBranch};
ghost use Rattle.wy_term.specs.Nodes.{tree_at};
ghost use Rattle.wy_search_laws.specs.wy_check_spec.valid.Literals.{literal_at};

use wy_check_nodes::Branch;
use wy_term::{NoMemory, Terms};

/// The number, from 1, that a literal has in a node, if it stands there, in constant time. More than 2^32 - 1 literals are
/// answered as want of memory.
pub fn literal_number(
    terms: &Terms,
    branch: &Branch,
    atom: u32,
    holds: bool,
) -> Result<Option<u32>, NoMemory>
    requires atom { atom < length terms.now }
    requires branch { IsBranch terms.now branch.now }
    ensures there { IfOk result (λ o. IfSome o (λ k. literal_at (seen_branch (tree_at terms.now) branch.now).literals k ≡ Some (seen_literal (tree_at terms.now) (atom, holds)))) }
    ensures lacking { IfOk result (λ o. IfNone o (has_literal (seen_branch (tree_at terms.now) branch.now).literals (seen_literal (tree_at terms.now) (atom, holds)) ≡ false)) }
{
    terms.one_number_for_each_term();
    match branch.literals.get_index_of(&(atom, holds)) {
        Some(i) => match u32::try_from(i) {
            Ok(k) => match k.checked_add(1) {
                Some(number) => Ok(Some(number)),
                None => Err(NoMemory),
            },
            Err(_) => Err(NoMemory),
        },
        None => Ok(None),
    }
}
