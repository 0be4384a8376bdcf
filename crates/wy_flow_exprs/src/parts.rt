//! Arrays and records.
ghost use Rattle.std.specs.Prelude.{◌≡◌, IfOk, OnOk};
ghost use Rattle.wy_core.specs.CoreSeen.{seen_ty};
ghost use Rattle.wy_flow_exprs.specs.Seen.{seen_all, seen_all_fields, seen_flow, seen_found, seen_types};
ghost use Rattle.wy_types.specs.Names.{types_of};
ghost use Rattle.wy_types.specs.Questions.{IsOver};
ghost use Rattle.wy_types.specs.Recursion.{RecurThroughParts};
ghost use Rattle.wy_flow_spec.specs.typing.Outcomes.{Meets};
ghost use Rattle.wy_core.specs.Types.{UnionTy};
ghost use Rattle.wy_flow_spec.specs.typing.Parts as rule;

use crate::checks::{
    array_of, element_at, field_at, is_array, is_bool, is_int, norm_at, plain, record_of,
};
use crate::walk::{Found, Program, Walk, of_type, truth};
use std::alloc::{AllocError, Global};
use wy_core::{Ty, TyKind};
use wy_data::Name;
use wy_flow_spec::environment::Shared;
use wy_flow_spec::typing::FlowFault;
use wy_items::{Boxed, Items};

// The union of the types, from left to right; `void` where there is none.
fn union_all(alloc: Global, at: u32, items: &[Shared]) -> Result<Ty, AllocError>
    ensures value { IfOk result (λ t. seen_ty t ≡ rule.union_all (seen_types items.now)) }
{
    match items {
        [] => Ok(plain(at, TyKind::Void)),
        [first, rest @ ..] => union_behind(alloc, at, first.get().copy(alloc)?, rest),
    }
}

// The union of the type and of the others behind it.
fn union_behind(alloc: Global, at: u32, first: Ty, rest: &[Shared]) -> Result<Ty, AllocError>
    ensures value { IfOk result (λ t. seen_ty t ≡ rule.union_with (seen_ty first) (seen_types rest.now)) }
{
    let mut union = first;
    for item in rest {
        union = joined_with(alloc, at, union, item)?;
    }
    Ok(union)
}

fn joined_with(alloc: Global, at: u32, union: Ty, item: &Shared) -> Result<Ty, AllocError>
    ensures value { IfOk result (λ t. seen_ty t ≡ UnionTy (seen_ty union) (seen_ty item.now)) }
{
    let left = Boxed::new(alloc, union)?;
    let right = Boxed::new(alloc, item.get().copy(alloc)?)?;
    Ok(Ty {
        at,
        kind: TyKind::Union(left, right),
    })
}

/// `[1, x]`
pub fn list(
    alloc: Global,
    program: &Program,
    walk: &mut Walk,
    at: u32,
    items: Items<Shared>,
) -> Result<Found, FlowFault>
    requires recursion { RecurThroughParts (types_of program.now.names) }
    requires over { IsOver (types_of program.now.names) walk.old.question }
    ensures value { Meets (rule.ListOf (types_of program.now.names) at (seen_all (seen_flow walk.old) items)) (seen_found (seen_flow walk.new)) result }
    ensures over { OnOk result (IsOver (types_of program.now.names) walk.new.question) }
{
    let union = union_all(alloc, at, items.as_slice())?;
    let arrays = array_of(alloc, at, union)?;
    let ty = norm_at(alloc, &program.names, &mut walk.question, at, &arrays)?;
    of_type(alloc, walk, ty)
}

/// `[x; n]`
pub fn repeat(
    alloc: Global,
    program: &Program,
    walk: &mut Walk,
    at: u32,
    item: Found,
    count: Found,
) -> Result<Found, FlowFault>
    requires recursion { RecurThroughParts (types_of program.now.names) }
    requires over { IsOver (types_of program.now.names) walk.old.question }
    ensures value { Meets (rule.RepeatOf (types_of program.now.names) at (seen_found (seen_flow walk.old) item) (seen_found (seen_flow walk.old) count)) (seen_found (seen_flow walk.new)) result }
    ensures over { OnOk result (IsOver (types_of program.now.names) walk.new.question) }
{
    is_int(
        alloc,
        &program.names,
        &mut walk.question,
        at,
        count.ty.get(),
    )?;
    let arrays = array_of(alloc, at, item.ty.get().copy(alloc)?)?;
    let ty = norm_at(alloc, &program.names, &mut walk.question, at, &arrays)?;
    of_type(alloc, walk, ty)
}

/// `{x: 1, y: 2}`
pub fn record(
    alloc: Global,
    program: &Program,
    walk: &mut Walk,
    at: u32,
    fields: Items<(Name, Shared)>,
) -> Result<Found, FlowFault>
    requires recursion { RecurThroughParts (types_of program.now.names) }
    requires over { IsOver (types_of program.now.names) walk.old.question }
    ensures value { Meets (rule.RecordOf (types_of program.now.names) at (seen_all_fields (seen_flow walk.old) fields)) (seen_found (seen_flow walk.new)) result }
    ensures over { OnOk result (IsOver (types_of program.now.names) walk.new.question) }
{
    let records = record_of(alloc, at, fields.as_slice())?;
    let ty = norm_at(alloc, &program.names, &mut walk.question, at, &records)?;
    of_type(alloc, walk, ty)
}

/// The items of an array at an index: the array's check, the index's, and the items. The same for a
/// step of a path.
pub fn item_of(
    alloc: Global,
    program: &Program,
    walk: &mut Walk,
    at: u32,
    array: &Shared,
    index: &Shared,
) -> Result<Shared, FlowFault>
    requires recursion { RecurThroughParts (types_of program.now.names) }
    requires over { IsOver (types_of program.now.names) walk.old.question }
    ensures value { Meets (rule.ItemOf (types_of program.now.names) at (seen_ty array.now) (seen_ty index.now)) seen_ty result }
    ensures over { OnOk result (IsOver (types_of program.now.names) walk.new.question) }
    ensures flow { OnOk result (seen_flow walk.new ≡ seen_flow walk.old) }
{
    is_array(alloc, &program.names, &mut walk.question, at, array.get())?;
    is_int(alloc, &program.names, &mut walk.question, at, index.get())?;
    element_at(alloc, &program.names, &mut walk.question, at, array.get())
}

/// `xs[i]`
pub fn index(
    alloc: Global,
    program: &Program,
    walk: &mut Walk,
    at: u32,
    array: Found,
    index: Found,
) -> Result<Found, FlowFault>
    requires recursion { RecurThroughParts (types_of program.now.names) }
    requires over { IsOver (types_of program.now.names) walk.old.question }
    ensures value { Meets (rule.IndexOf (types_of program.now.names) at (seen_found (seen_flow walk.old) array) (seen_found (seen_flow walk.old) index)) (seen_found (seen_flow walk.new)) result }
    ensures over { OnOk result (IsOver (types_of program.now.names) walk.new.question) }
{
    let ty = item_of(alloc, program, walk, at, &array.ty, &index.ty)?;
    of_type(alloc, walk, ty)
}

/// `p.x`
pub fn field(
    alloc: Global,
    program: &Program,
    walk: &mut Walk,
    at: u32,
    whole: Found,
    name: &Name,
) -> Result<Found, FlowFault>
    requires recursion { RecurThroughParts (types_of program.now.names) }
    requires over { IsOver (types_of program.now.names) walk.old.question }
    ensures value { Meets (rule.FieldOf (types_of program.now.names) at (seen_found (seen_flow walk.old) whole) name.now) (seen_found (seen_flow walk.new)) result }
    ensures over { OnOk result (IsOver (types_of program.now.names) walk.new.question) }
{
    let ty = field_at(
        alloc,
        &program.names,
        &mut walk.question,
        at,
        whole.ty.get(),
        name,
    )?;
    of_type(alloc, walk, ty)
}

/// `all { i in a..b | e }` and `some`: the body's check, and those of both bounds.
pub fn quant(
    alloc: Global,
    program: &Program,
    walk: &mut Walk,
    at: u32,
    from: Found,
    to: Found,
    body: Found,
) -> Result<Found, FlowFault>
    requires recursion { RecurThroughParts (types_of program.now.names) }
    requires over { IsOver (types_of program.now.names) walk.old.question }
    ensures value { Meets (rule.QuantOf (types_of program.now.names) at (seen_found (seen_flow walk.old) from) (seen_found (seen_flow walk.old) to) (seen_found (seen_flow walk.old) body)) (seen_found (seen_flow walk.new)) result }
    ensures over { OnOk result (IsOver (types_of program.now.names) walk.new.question) }
{
    is_bool(alloc, &program.names, &mut walk.question, at, body.ty.get())?;
    is_int(alloc, &program.names, &mut walk.question, at, from.ty.get())?;
    is_int(alloc, &program.names, &mut walk.question, at, to.ty.get())?;
    truth(alloc, walk, at, Items::new(alloc), Items::new(alloc))
}
