//! The code of tests of types.
ghost use Rattle.std.specs.Prelude.{◌≡◌, ◌∷◌, [], ◌++◌, suc, IfOk, List, length, map};
ghost use Rattle.wy_core.specs.CoreSeen.{seen_ty, field_tys_of};
ghost use Rattle.wy_code_spec.specs.compiled.TypeTests as spec;
ghost use Rattle.wy_code.specs.pieces.Steps as pieces;
ghost use Rattle.wy_code.specs.declared.pieces.steps.Step.{Step};
ghost use Rattle.wy_code_spec.specs.tables.Tables as tables;

use std::alloc::Global;
use wy_code::pieces::{
    NoMemory, Step, Steps, begin_turns, does, dropped, end_turns, fork, jump_over, leave_turns,
    next, prepend, where_true,
};
use wy_code::{Arithmetic, Comparison, Instr, Kind, Scalar};
use wy_code_spec::tables::{Context, name_number, shape_number};
use wy_core::{Ty, TyKind};
use wy_data::Name;
use wy_items::Items;

/// Whether the value in `value`, which stays there, is in the type comes into `answer`; the registers
/// from `free` on are free. It recurses as deep as the type nests, and goes through each node once.
#[cycle(type_test)]
pub fn test(
    alloc: Global,
    context: &Context,
    ty: &Ty,
    value: u32,
    answer: u32,
    free: u32,
    steps: Steps,
) -> Result<Steps, NoMemory>
    ensures value { IfOk result (λ s. s ≡ spec.test context.now (seen_ty ty.now) value answer free ++ steps) }
{
    match &ty.kind {
        TyKind::Null => does(Instr::Kind(answer, value, Kind::Null), steps),
        TyKind::Bool => does(Instr::Kind(answer, value, Kind::Bool), steps),
        TyKind::Int => does(Instr::Kind(answer, value, Kind::Int), steps),
        TyKind::Any => does(Instr::Const(answer, Scalar::Bool(true)), steps),
        TyKind::Void => does(Instr::Const(answer, Scalar::Bool(false)), steps),
        TyKind::Record(fields) => {
            let fields = fields.as_slice();
            let end = steps.len();
            let steps = test_fields(alloc, context, fields, value, answer, free, steps)?;
            begin_record(alloc, context, fields, value, answer, end, steps)
        }
        TyKind::Array(item) => {
            let end = steps.len();
            let steps = test_items(alloc, context, item.get(), value, answer, free, steps)?;
            begin_array(value, answer, free, end, steps)
        }
        TyKind::Union(left, right) => {
            let end = steps.len();
            let steps = test(alloc, context, right.get(), value, answer, free, steps)?;
            let steps = where_false(answer, end, steps)?;
            test(alloc, context, left.get(), value, answer, free, steps)
        }
        TyKind::Inter(left, right) => {
            let end = steps.len();
            let steps = test(alloc, context, right.get(), value, answer, free, steps)?;
            let steps = where_true(answer, end, steps)?;
            test(alloc, context, left.get(), value, answer, free, steps)
        }
        TyKind::Not(ty) => {
            let steps = does(Instr::Not(answer, answer), steps)?;
            test(alloc, context, ty.get(), value, answer, free, steps)
        }
        TyKind::Named(number) => test_named(alloc, context, *number, value, answer, free, steps),
        TyKind::Normal(_) => does(Instr::Const(answer, Scalar::Bool(false)), steps),
    }
}

/// Whether the test of a type begins with an instruction that reads the value: the answers for any
/// value and for none are constants.
pub fn looks(ty: &Ty) -> bool
    ensures value { result ≡ spec.looks (seen_ty ty.now) }
{
    match &ty.kind {
        TyKind::Null => true,
        TyKind::Bool => true,
        TyKind::Int => true,
        TyKind::Any => false,
        TyKind::Void => false,
        TyKind::Record(_) => true,
        TyKind::Array(_) => true,
        TyKind::Union(first, _) => looks(first.get()),
        TyKind::Inter(first, _) => looks(first.get()),
        TyKind::Not(ty) => looks(ty.get()),
        TyKind::Named(_) => true,
        TyKind::Normal(_) => false,
    }
}

/// The code behind so many others is run where the register is false.
fn where_false(register: u32, end: usize, steps: Steps) -> Result<Steps, NoMemory>
    ensures value { (second old : List Step) → steps ≡ second ++ old → length old ≡ end → IfOk result (λ s. s ≡ pieces.fork register [] second ++ old) }
{
    let steps = jump_over(end, steps)?;
    let mid = steps.len();
    fork(register, end, mid, steps)
}

/// The routine of a declared type is called on the value.
fn test_named(
    alloc: Global,
    context: &Context,
    number: u32,
    value: u32,
    answer: u32,
    free: u32,
    steps: Steps,
) -> Result<Steps, NoMemory>
    ensures value { IfOk result (λ s. s ≡ spec.named_test context.now number value answer free ++ steps) }
{
    let Ok(routines) = u32::try_from(context.results.len()) else {
        return Err(NoMemory);
    };
    let Some(routine) = routines.checked_add(number) else {
        return Err(NoMemory);
    };
    let mut arguments = Items::new(alloc);
    arguments.push(free)?;
    let steps = does(Instr::Call(answer, routine, arguments), steps)?;
    does(Instr::Share(free, value), steps)
}

/// The fields of a record, from left to right up to the first whose value isn't in its type.
#[cycle(type_test)]
fn test_fields(
    alloc: Global,
    context: &Context,
    fields: &[(Name, Ty)],
    value: u32,
    answer: u32,
    free: u32,
    steps: Steps,
) -> Result<Steps, NoMemory>
    ensures value { IfOk result (λ s. s ≡ spec.fields_test context.now (field_tys_of (map (λ f. (f.0, seen_ty f.1)) fields.now)) value answer free ++ steps) }
{
    let end = steps.len();
    let inner = next(free)?;
    let mut steps = steps;
    let mut left = fields.len();
    while left > 0 {
        left -= 1;
        let field = &fields[left];
        steps = field_end(alloc, answer, free, end, steps)?;
        steps = test(alloc, context, &field.1, free, answer, inner, steps)?;
        let number = name_number(&field.0, &context.table)?;
        steps = does(Instr::Field(free, value, number), steps)?;
    }
    Ok(steps)
}

/// Behind the test of a field it is released, and where it is in its type the next ones are tested.
fn field_end(
    alloc: Global,
    answer: u32,
    free: u32,
    end: usize,
    steps: Steps,
) -> Result<Steps, NoMemory>
    ensures value { (rest old : List Step) → steps ≡ rest ++ old → length old ≡ end → IfOk result (λ s. s ≡ spec.field_end answer free rest ++ old) }
{
    let inner = next(free)?;
    let steps = where_true(answer, end, steps)?;
    dropped(alloc, free, inner, steps)
}

/// A record has the shape of the type, and then its fields are tested.
fn begin_record(
    alloc: Global,
    context: &Context,
    fields: &[(Name, Ty)],
    value: u32,
    answer: u32,
    end: usize,
    steps: Steps,
) -> Result<Steps, NoMemory>
    ensures value { (parts old : List Step) → steps ≡ parts ++ old → length old ≡ end → IfOk result (λ s. s ≡ spec.record_test (tables.shape_number context.now.table (map (λ f. f.0) fields.now)) value answer parts ++ old) }
{
    let steps = where_true(answer, end, steps)?;
    let shape = shape_number(alloc, fields, &context.table)?;
    does(Instr::Kind(answer, value, Kind::Shape(shape)), steps)
}

/// An array is one, and then its items are tested.
fn begin_array(
    value: u32,
    answer: u32,
    free: u32,
    end: usize,
    steps: Steps,
) -> Result<Steps, NoMemory>
    ensures value { (items old : List Step) → steps ≡ items ++ old → length old ≡ end → IfOk result (λ s. s ≡ spec.array_test value answer free items ++ old) }
{
    let index = next(free)?;
    let steps = does(Instr::Const(index, Scalar::Int(0)), steps)?;
    let steps = does(Instr::Len(free, value), steps)?;
    let steps = where_true(answer, end, steps)?;
    does(Instr::Kind(answer, value, Kind::Array), steps)
}

/// The turns over the items of an array, behind which the answer is yes.
#[cycle(type_test)]
fn test_items(
    alloc: Global,
    context: &Context,
    item: &Ty,
    value: u32,
    answer: u32,
    free: u32,
    steps: Steps,
) -> Result<Steps, NoMemory>
    ensures value { IfOk result (λ s. s ≡ spec.items_test value answer free (spec.test context.now (seen_ty item.now) (suc (suc free)) answer (suc (suc (suc free)))) ++ steps) }
{
    let part = next(next(free)?)?;
    let inner = next(part)?;
    let steps = does(Instr::Const(answer, Scalar::Bool(true)), steps)?;
    let done = steps.len();
    let steps = item_end(alloc, answer, free, begin_turns(steps)?)?;
    let steps = test(alloc, context, item, part, answer, inner, steps)?;
    item_turns(value, answer, free, done, steps)
}

/// Behind the test of an item: where it isn't in, the code behind the test of the array is next; else
/// the next item.
fn item_end(alloc: Global, answer: u32, free: u32, steps: Steps) -> Result<Steps, NoMemory>
    ensures value { IfOk result (λ s. s ≡ spec.item_end answer free ++ steps) }
{
    let index = next(free)?;
    let part = next(index)?;
    let inner = next(part)?;
    let steps = does(Instr::Arith(index, Arithmetic::Add, index, part), steps)?;
    let steps = does(Instr::Const(part, Scalar::Int(1)), steps)?;
    let steps = prepend(Step::GoesOnUnless(answer, 4), steps)?;
    dropped(alloc, part, inner, steps)
}

/// What stands before the test of an item, behind whose turns `done` steps stand.
fn item_turns(
    value: u32,
    answer: u32,
    free: u32,
    done: usize,
    steps: Steps,
) -> Result<Steps, NoMemory>
    ensures value { (rest old : List Step) → steps ≡ rest ++ Step.GoesBack 0 ∷ old → length old ≡ done → IfOk result (λ s. s ≡ spec.item_turns value answer free rest ++ old) }
{
    let index = next(free)?;
    let part = next(index)?;
    let steps = does(Instr::Get(part, value, index), steps)?;
    let steps = leave_turns(answer, done, steps)?;
    let steps = does(Instr::Compare(answer, Comparison::Less, index, free), steps)?;
    end_turns(done, steps)
}
