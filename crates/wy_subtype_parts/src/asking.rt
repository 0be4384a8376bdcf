//! The part that a question about one type is, and a normal type of conjuncts.
ghost use Rattle.std.specs.Prelude.{◌≡◌, IfOk};
ghost use Rattle.wy_subtype.specs.wy_core.CoreSeen.{seen_ty};
ghost use Rattle.wy_subtype.specs.wy_core.Types.{NormalTy};
ghost use Rattle.wy_subtype.specs.wy_types.Questions as questions;
ghost use Rattle.wy_subtype.specs.wy_types.SeenTypes.{seen_conjuncts, seen_kind};

use std::alloc::{AllocError, Global};
use wy_items::Items;
use wy_subtype::{Question, Signed, with_sides, wy_core as tree};

/// What is in the first type of the question.
pub fn first_part(alloc: Global, question: &Question) -> Result<Items<Signed<u32>>, AllocError>
    ensures value { IfOk result (λ part. part ≡ questions.first_part question.now) }
{
    let nothing = Items::new(alloc);
    with_sides(
        &question.table,
        question.depth,
        nothing,
        true,
        true,
        question.first,
    )
}

fn normal_kind(made: Items<tree::Conjunct>) -> tree::TyKind
    ensures value { seen_kind result ≡ NormalTy (seen_conjuncts made) }
{
    tree::TyKind::Normal(made)
}

/// The union of the conjuncts, at this place.
pub fn normal_type(at: u32, made: Items<tree::Conjunct>) -> tree::Ty
    ensures value { seen_ty result ≡ NormalTy (seen_conjuncts made) }
{
    tree::Ty {
        at,
        kind: normal_kind(made),
    }
}
