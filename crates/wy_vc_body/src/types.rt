//! The declared types of a body's variables.
ghost use Rattle.std.specs.Prelude.{◌≡◌, ℕ, IfOk, OnOk, map};
ghost use Rattle.std.specs.Option.{option_copied};
ghost use Rattle.wy_core.specs.CoreSeen.{seen_block, seen_param, seen_routine, seen_stmt, seen_ty};
ghost use Rattle.wy_sem.specs.Evaluation as spec;
ghost use Rattle.wy_sem.specs.Statements.{type_at};
ghost use Rattle.wy_vc_body.specs.Types.{or_any, types_in};

use std::alloc::{AllocError, Global};
use wy_core::{Param, Routine, Stmt, StmtKind, Ty};
use wy_data::Name;
use wy_flow_spec::environment::Shared;
use wy_items::{Items, at};

// The variable, if there is one with this number, has this type.
fn declare(
    alloc: Global,
    types: &mut Items<Option<Shared>>,
    variable: u32,
    ty: &Ty,
) -> Result<(), AllocError>
    ensures value { OnOk result (types_in types.new ≡ spec.set_type (types_in types.old) variable (seen_ty ty.now)) }
{
    let index = variable as usize;
    let ty = Shared::new(alloc, ty.copy(alloc)?)?;
    if index < types.len() {
        types.set(index, Some(ty));
    }
    Ok(())
}

// None of these variables has a type yet.
fn undeclared(alloc: Global, words: &[Name]) -> Result<Items<Option<Shared>>, AllocError>
    ensures value { IfOk result (λ ts. types_in ts ≡ spec.any_types words.now) }
{
    let mut types = Items::new(alloc);
    for _word in words {
        types.push(None)?;
    }
    Ok(types)
}

// The parameters have their types.
fn declare_params(
    alloc: Global,
    types: &mut Items<Option<Shared>>,
    params: &[Param],
) -> Result<(), AllocError>
    ensures value { OnOk result (types_in types.new ≡ spec.param_types (map seen_param params.now) (types_in types.old)) }
{
    for param in params {
        declare(alloc, types, param.variable, &param.ty)?;
    }
    Ok(())
}

#[cycle(declared)]
fn declare_in(
    alloc: Global,
    types: &mut Items<Option<Shared>>,
    stmt: &Stmt,
) -> Result<(), AllocError>
    ensures value { OnOk result (types_in types.new ≡ spec.declared_in (seen_stmt stmt.now) (types_in types.old)) }
{
    match &stmt.kind {
        StmtKind::Declare(ty, variable, _) => declare(alloc, types, *variable, ty),
        StmtKind::If(_, first, second) => {
            declare_all(alloc, types, first.as_slice())?;
            declare_all(alloc, types, second.as_slice())
        }
        StmtKind::While(_, _, body) => declare_all(alloc, types, body.as_slice()),
        _ => Ok(()),
    }
}

// The variables that a block declares have their types.
#[cycle(declared)]
fn declare_all(
    alloc: Global,
    types: &mut Items<Option<Shared>>,
    block: &[Stmt],
) -> Result<(), AllocError>
    ensures value { OnOk result (types_in types.new ≡ spec.declared_in_all (seen_block block.now) (types_in types.old)) }
{
    for stmt in block {
        declare_in(alloc, types, stmt)?;
    }
    Ok(())
}

/// The declared types of the variables of a function or method, by the variables' numbers; one that isn't declared has none. Linear in
/// the body and in the types.
pub fn declared_types(alloc: Global, routine: &Routine) -> Result<Items<Option<Shared>>, AllocError>
    ensures value { IfOk result (λ ts. types_in ts ≡ spec.types_of (seen_routine routine.now)) }
{
    let mut types = undeclared(alloc, routine.variables.as_slice())?;
    declare_params(alloc, &mut types, routine.params.as_slice())?;
    declare_all(alloc, &mut types, routine.body.as_slice())?;
    Ok(types)
}

/// The declared type of the variable; where it has none, it is of any. Constant time.
pub fn type_of(types: &[Option<Shared>], variable: u32) -> Option<&Ty>
    ensures value { or_any (option_copied result) ≡ type_at (types_in types.now) variable }
{
    match at(types, variable as usize) {
        None => None,
        Some(slot) => match slot {
            None => None,
            Some(ty) => Some(ty.get()),
        },
    }
}
