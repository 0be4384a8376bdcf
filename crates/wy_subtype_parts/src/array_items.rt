//! The items of arrays.
ghost use Rattle.std.specs.Prelude.{◌≡◌, ◌↔◌, [], true, IfOk, OnOk};
ghost use Rattle.wy_subtype.specs.wy_canon.Width.{Exactly};
ghost use Rattle.wy_subtype.specs.wy_core.CoreSeen.{seen_ty};
ghost use Rattle.wy_subtype_parts.specs.Items as items;
ghost use Rattle.wy_subtype_parts.specs.Items.{IsElement, IsElements, IsItemIn, IsWideElement, IsWideItems};
ghost use Rattle.wy_subtype.specs.Known.{WideOnly};
ghost use Rattle.wy_subtype.specs.wy_types.Names.{Up, types_of};
ghost use Rattle.wy_subtype.specs.wy_types.Questions.{IsOver, IsWideAbout};
ghost use Rattle.wy_subtype.specs.wy_types.Recursion.{RecurThroughParts};
ghost use Rattle.wy_subtype.specs.wy_value.Datum.{Datum};

use crate::asking::{first_part, normal_type};
use crate::norms::norm_in;
use std::alloc::Global;
use wy_items::Items;
use wy_subtype::{
    Atom, Conjunct, Names, Question, Table, TypeFault, conjuncts_at, dnf_part, united_conjuncts,
    valued_conjuncts, wy_core as tree,
};

// The list, and the conjuncts of the part of an array.
fn with_items(
    alloc: Global,
    table: &Table,
    depth: u32,
    made: Items<Conjunct<u32>>,
    atom: &Atom<u32>,
) -> Result<Items<Conjunct<u32>>, TypeFault>
    ensures value { IfOk result (λ all. all ≡ items.with_items table.now depth made atom.now) }
    ensures width { Exactly result (items.narrow_items table.now depth atom.now) }
{
    match atom {
        Atom::Array(part) => {
            let more = dnf_part(alloc, table, depth, part.terms.as_slice())?;
            let all = united_conjuncts(alloc, made, more.as_slice())?;
            Ok(all)
        }
        _ => Ok(made),
    }
}

// The union of the parts of the arrays among the conjuncts.
fn elements(
    alloc: Global,
    table: &Table,
    depth: u32,
    conjuncts: &[Conjunct<u32>],
) -> Result<Items<Conjunct<u32>>, TypeFault>
    ensures value { IfOk result (λ all. all ≡ items.elements table.now depth [] conjuncts.now) }
    ensures width { Exactly result (items.narrow_elements table.now depth conjuncts.now) }
{
    let mut all = Items::new(alloc);
    for conjunct in conjuncts {
        all = with_items(alloc, table, depth, all, &conjunct.positive)?;
    }
    Ok(all)
}

// The union of the parts of the arrays in the type.
fn item_union(
    alloc: Global,
    names: &Names,
    question: &mut Question,
    ty: &tree::Ty,
) -> Result<tree::Ty, TypeFault>
    requires recursion { RecurThroughParts (types_of names.now) }
    requires over { IsOver (types_of names.now) question.old }
    ensures value { IfOk result (λ made. IsElements (types_of names.now) (seen_ty ty.now) (seen_ty made)) }
    ensures set { IfOk result (λ made. (d : Datum) → (Up (types_of names.now) d (seen_ty made) ≡ true) ↔ IsItemIn (types_of names.now) (seen_ty ty.now) d) }
    ensures wide { WideOnly result (IsWideItems (types_of names.now) (seen_ty ty.now)) }
    ensures narrow { IfOk result (λ made. IsWideItems (types_of names.now) (seen_ty ty.now) → ⊥) }
    ensures over { OnOk result (IsOver (types_of names.now) question.new) }
{
    question.ask(alloc, names, ty, ty)?;
    let part = first_part(alloc, question)?;
    let table = &question.table;
    let list = valued_conjuncts(alloc, table, question.depth, part.as_slice())?;
    let all = match elements(alloc, table, question.depth, list.as_slice()) {
        Ok(all) => all,
        Err(fault) => return Err(fault),
    };
    let made = conjuncts_at(alloc, table, question.depth, ty.at, all.as_slice())?;
    Ok(normal_type(ty.at, made))
}

/// What the items of arrays in the type may be, by its upward reading: exactly the data that are
/// items of some array in it, as a normal type. Each node stands where the type does. Wide exactly
/// where the question about the type is, or that about the items. The question becomes that about the
/// items: beside what both reach, the cost is linear in the type and in the union of the items.
pub fn element_in(
    alloc: Global,
    names: &Names,
    question: &mut Question,
    ty: &tree::Ty,
) -> Result<tree::Ty, TypeFault>
    requires recursion { RecurThroughParts (types_of names.now) }
    requires over { IsOver (types_of names.now) question.old }
    ensures value { IfOk result (λ made. IsElement (types_of names.now) (seen_ty ty.now) (seen_ty made)) }
    ensures set { IfOk result (λ made. (d : Datum) → (Up (types_of names.now) d (seen_ty made) ≡ true) ↔ IsItemIn (types_of names.now) (seen_ty ty.now) d) }
    ensures wide { WideOnly result (IsWideElement (types_of names.now) (seen_ty ty.now)) }
    ensures narrow { IfOk result (λ made. IsWideElement (types_of names.now) (seen_ty ty.now) → ⊥) }
    ensures over { OnOk result (IsOver (types_of names.now) question.new) }
{
    let union = item_union(alloc, names, question, ty)?;
    match norm_in(alloc, names, question, &union) {
        Ok(made) => Ok(made),
        Err(fault) => Err(fault),
    }
}

/// The same for one type alone: the table is made for it, in time linear in the declared types.
pub fn element(alloc: Global, names: &Names, ty: &tree::Ty) -> Result<tree::Ty, TypeFault>
    requires recursion { RecurThroughParts (types_of names.now) }
    ensures value { IfOk result (λ made. IsElement (types_of names.now) (seen_ty ty.now) (seen_ty made)) }
    ensures set { IfOk result (λ made. (d : Datum) → (Up (types_of names.now) d (seen_ty made) ≡ true) ↔ IsItemIn (types_of names.now) (seen_ty ty.now) d) }
    ensures wide { WideOnly result (IsWideElement (types_of names.now) (seen_ty ty.now)) }
    ensures narrow { IfOk result (λ made. IsWideElement (types_of names.now) (seen_ty ty.now) → ⊥) }
{
    let mut question = names.question(alloc)?;
    element_in(alloc, names, &mut question, ty)
}
