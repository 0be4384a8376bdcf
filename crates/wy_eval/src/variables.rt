//! The declared types of a function's or method's variables.
ghost use Rattle.std.specs.Prelude.{◌≡◌, IfOk, MatchOption, OnOk, map};
ghost use Rattle.wy_core.specs.CoreSeen.{seen_block, seen_param, seen_routine, seen_stmt, seen_ty};
ghost use Rattle.wy_core.specs.Types.{AnyTy};
ghost use Rattle.wy_sem.specs.Evaluation.{any_types as spec_any_types, declared_in as spec_declared_in, declared_in_all as spec_declared_in_all, param_types as spec_param_types, set_type as spec_set_type, types_of as spec_types_of};
ghost use Rattle.wy_sem.specs.Statements.{type_at as spec_type_at};

use std::alloc::{AllocError, Global};
use wy_core::{Param, Routine, Stmt, StmtKind, Ty, TyKind};
use wy_data::Name;
use wy_items::{Items, at};

/// The declared type of each variable, by its number, copied; `any` where nothing declares it. It takes
/// time linear in the declaration.
pub fn types_of(alloc: Global, routine: &Routine) -> Result<Items<Ty>, AllocError>
    ensures value { IfOk result (λ types. map seen_ty types ≡ spec_types_of (seen_routine routine.now)) }
{
    let mut types = any_types(alloc, routine.variables.as_slice())?;
    param_types(alloc, &mut types, routine.params.as_slice())?;
    declared_in_all(alloc, &mut types, routine.body.as_slice())?;
    Ok(types)
}

// `any` for each variable.
fn any_types(alloc: Global, variables: &[Name]) -> Result<Items<Ty>, AllocError>
    ensures value { IfOk result (λ types. map seen_ty types ≡ spec_any_types variables.now) }
{
    let mut types = Items::new(alloc);
    for name in variables {
        let _each = name;
        types.push(Ty {
            at: 0,
            kind: TyKind::Any,
        })?;
    }
    Ok(types)
}

// The types with this for the variable; a variable that they don't have is left out.
fn set_type(types: &mut Items<Ty>, variable: u32, ty: Ty)
    ensures value { map seen_ty types.new ≡ spec_set_type (map seen_ty types.old) variable (seen_ty ty) }
{
    let variable = variable as usize;
    if variable >= types.len() {
        return;
    }
    types.set(variable, ty);
}

// The types of the parameters.
fn param_types(alloc: Global, types: &mut Items<Ty>, params: &[Param]) -> Result<(), AllocError>
    ensures value { OnOk result (map seen_ty types.new ≡ spec_param_types (map seen_param params.now) (map seen_ty types.old)) }
{
    for param in params {
        let ty = param.ty.copy(alloc)?;
        set_type(types, param.variable, ty);
    }
    Ok(())
}

// The types of the variables that a statement declares.
#[cycle(declared_in)]
fn declared_in(alloc: Global, types: &mut Items<Ty>, stmt: &Stmt) -> Result<(), AllocError>
    ensures value { OnOk result (map seen_ty types.new ≡ spec_declared_in (seen_stmt stmt.now) (map seen_ty types.old)) }
{
    match &stmt.kind {
        StmtKind::Declare(ty, variable, _) => {
            let ty = ty.copy(alloc)?;
            set_type(types, *variable, ty);
            Ok(())
        }
        StmtKind::If(_, first, second) => {
            let first = first.as_slice();
            let second = second.as_slice();
            declared_in_all(alloc, types, first)?;
            declared_in_all(alloc, types, second)
        }
        StmtKind::While(_, _, body) => {
            let body = body.as_slice();
            declared_in_all(alloc, types, body)
        }
        StmtKind::Assign(_, _, _) => Ok(()),
        StmtKind::Call(_, _) => Ok(()),
        StmtKind::Return(_) => Ok(()),
        StmtKind::Assert(_) => Ok(()),
        StmtKind::Break => Ok(()),
        StmtKind::Continue => Ok(()),
        StmtKind::Skip => Ok(()),
        StmtKind::Fail => Ok(()),
    }
}

// The types of the variables that a block declares.
#[cycle(declared_in)]
fn declared_in_all(alloc: Global, types: &mut Items<Ty>, stmts: &[Stmt]) -> Result<(), AllocError>
    ensures value { OnOk result (map seen_ty types.new ≡ spec_declared_in_all (seen_block stmts.now) (map seen_ty types.old)) }
{
    for stmt in stmts {
        declared_in(alloc, types, stmt)?;
    }
    Ok(())
}

/// The declared type of a variable. None where it has none, and so takes any value.
pub fn type_at(types: &[Ty], variable: u32) -> Option<&Ty>
    ensures value { MatchOption result (spec_type_at (map seen_ty types.now) variable ≡ AnyTy) (λ ty. spec_type_at (map seen_ty types.now) variable ≡ seen_ty ty.now) }
{
    at(types, variable as usize)
}
