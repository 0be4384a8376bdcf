//! What a call must meet, and what it gives.
ghost use Rattle.std.specs.Prelude.{◌≡◌, ◌∷◌, [], None, map, IfOk};
ghost use Rattle.wy_core.specs.CoreSeen.{seen_core, seen_decl, seen_output, seen_param, seen_routine, seen_ty};
ghost use Rattle.wy_core.specs.CoreTree.{routines_of};
ghost use Rattle.wy_flow_exprs.specs.Seen.{seen_result, seen_signature, seen_types};
ghost use Rattle.wy_flow_spec.specs.typing.Programs as spec;

use crate::checks::{array_of, plain};
use std::alloc::{AllocError, Global};
use wy_core::{Core, Decl, Output, Param, Routine, Ty, TyKind};
use wy_items::Items;

/// The types of the parameters of a function or method, and that of its result where it has one.
#[derive(Drop)]
pub struct Signature {
    pub params: Items<Ty>,
    pub result: Option<Ty>,
}

/// The functions and methods of a program by their numbers, `print` and `print_int` last. Linear in
/// the declarations.
pub fn signatures_of(alloc: Global, core: &Core) -> Result<Items<Signature>, AllocError>
    ensures value { IfOk result (λ made. map seen_signature made ≡ (spec.program_of (seen_core core.now)).signatures) }
{
    let mut made = signatures_in(alloc, core.decls.as_slice())?;
    made.append(built_in(alloc)?)?;
    Ok(made)
}

fn signatures_in(alloc: Global, decls: &[Decl]) -> Result<Items<Signature>, AllocError>
    ensures value { IfOk result (λ made. map seen_signature made ≡ spec.signatures_in (routines_of (map seen_decl decls.now))) }
{
    let mut made = Items::new(alloc);
    for decl in decls {
        match decl {
            Decl::Alias(_) => {}
            Decl::Routine(routine) => made.push(signature_of(alloc, routine)?)?,
        }
    }
    Ok(made)
}

// `print` and `print_int`.
fn built_in(alloc: Global) -> Result<Items<Signature>, AllocError>
    ensures value { IfOk result (λ made. map seen_signature made ≡ spec.built_in) }
{
    let text = array_of(alloc, 0, plain(0, TyKind::Int))?;
    let mut made = Items::new(alloc);
    made.push(takes(alloc, text)?)?;
    made.push(takes(alloc, plain(0, TyKind::Int))?)?;
    Ok(made)
}

// It takes one value and gives none.
fn takes(alloc: Global, param: Ty) -> Result<Signature, AllocError>
    ensures value { IfOk result (λ s. seen_signature s ≡ record { params = seen_ty param ∷ []; result = None }) }
{
    let mut params = Items::new(alloc);
    params.push(param)?;
    Ok(Signature {
        params,
        result: None,
    })
}

fn signature_of(alloc: Global, routine: &Routine) -> Result<Signature, AllocError>
    ensures value { IfOk result (λ s. seen_signature s ≡ spec.signature_of (seen_routine routine.now)) }
{
    Ok(Signature {
        params: types_of(alloc, routine.params.as_slice())?,
        result: result_of(alloc, &routine.result)?,
    })
}

fn types_of(alloc: Global, params: &[Param]) -> Result<Items<Ty>, AllocError>
    ensures value { IfOk result (λ made. seen_types made ≡ spec.types_of (map seen_param params.now)) }
{
    let mut made = Items::new(alloc);
    for param in params {
        made.push(param.ty.copy(alloc)?)?;
    }
    Ok(made)
}

/// The type of the result, where there is one.
pub fn result_of(alloc: Global, output: &Option<Output>) -> Result<Option<Ty>, AllocError>
    ensures value { IfOk result (λ t. seen_result t ≡ spec.result_type (seen_output output.now)) }
{
    match output {
        None => Ok(None),
        Some(output) => Ok(Some(output.ty.copy(alloc)?)),
    }
}
