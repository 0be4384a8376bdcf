//! Copies of types.
ghost use Rattle.std.specs.Prelude.{◌≡◌, IfOk};

use crate::types::{Atom, Conjunct, Part, Signed, Ty, TyKind};
use std::alloc::{AllocError, Global};
use wy_value::{Boxed, Items, Name};

impl Ty {
    /// The same once more, places included, in time linear in its size.
    #[cycle(copy_ty)]
    pub fn copy(&self, alloc: Global) -> Result<Ty, AllocError>
        ensures value { IfOk result (λ copy. copy ≡ self.now) }
    {
        Ok(Ty {
            at: self.at,
            kind: self.kind.copy(alloc)?,
        })
    }
}

impl TyKind {
    #[cycle(copy_ty)]
    fn copy(&self, alloc: Global) -> Result<TyKind, AllocError>
        ensures value { IfOk result (λ copy. copy ≡ self.now) }
    {
        match self {
            TyKind::Null => Ok(TyKind::Null),
            TyKind::Bool => Ok(TyKind::Bool),
            TyKind::Int => Ok(TyKind::Int),
            TyKind::Any => Ok(TyKind::Any),
            TyKind::Void => Ok(TyKind::Void),
            TyKind::Record(fields) => Ok(TyKind::Record(copy_fields(alloc, fields.as_slice())?)),
            TyKind::Array(item) => Ok(TyKind::Array(copy_boxed(alloc, item)?)),
            TyKind::Union(left, right) => Ok(TyKind::Union(
                copy_boxed(alloc, left)?,
                copy_boxed(alloc, right)?,
            )),
            TyKind::Inter(left, right) => Ok(TyKind::Inter(
                copy_boxed(alloc, left)?,
                copy_boxed(alloc, right)?,
            )),
            TyKind::Not(ty) => Ok(TyKind::Not(copy_boxed(alloc, ty)?)),
            TyKind::Named(number) => Ok(TyKind::Named(*number)),
            TyKind::Normal(conjuncts) => Ok(TyKind::Normal(copy_conjuncts(
                alloc,
                conjuncts.as_slice(),
            )?)),
        }
    }
}

#[cycle(copy_ty)]
fn copy_boxed(alloc: Global, ty: &Boxed<Ty>) -> Result<Boxed<Ty>, AllocError>
    ensures value { IfOk result (λ copy. copy ≡ ty.now) }
{
    Boxed::new(alloc, ty.get().copy(alloc)?)
}

#[cycle(copy_ty)]
fn copy_fields(alloc: Global, all: &[(Name, Ty)]) -> Result<Items<(Name, Ty)>, AllocError>
    ensures value { IfOk result (λ made. made ≡ all.now) }
{
    let mut made = Items::new(alloc);
    for field in all {
        made.push((field.0.copy(alloc)?, field.1.copy(alloc)?))?;
    }
    Ok(made)
}

impl Conjunct {
    /// The same once more, in time linear in its size.
    #[cycle(copy_ty)]
    pub fn copy(&self, alloc: Global) -> Result<Conjunct, AllocError>
        ensures value { IfOk result (λ copy. copy ≡ self.now) }
    {
        Ok(Conjunct {
            positive: self.positive.copy(alloc)?,
            negatives: copy_atoms(alloc, self.negatives.as_slice())?,
        })
    }
}

impl Atom {
    /// The same once more, in time linear in its size.
    #[cycle(copy_ty)]
    pub fn copy(&self, alloc: Global) -> Result<Atom, AllocError>
        ensures value { IfOk result (λ copy. copy ≡ self.now) }
    {
        match self {
            Atom::Null => Ok(Atom::Null),
            Atom::Bool => Ok(Atom::Bool),
            Atom::Int => Ok(Atom::Int),
            Atom::Array(part) => Ok(Atom::Array(part.copy(alloc)?)),
            Atom::Record(parts) => Ok(Atom::Record(copy_parts(alloc, parts.as_slice())?)),
            Atom::AnyRecord => Ok(Atom::AnyRecord),
        }
    }
}

impl Part {
    /// The same once more, in time linear in its size.
    #[cycle(copy_ty)]
    pub fn copy(&self, alloc: Global) -> Result<Part, AllocError>
        ensures value { IfOk result (λ copy. copy ≡ self.now) }
    {
        Ok(Part {
            terms: copy_terms(alloc, self.terms.as_slice())?,
        })
    }
}

impl Signed {
    /// The same once more, in time linear in its size.
    #[cycle(copy_ty)]
    pub fn copy(&self, alloc: Global) -> Result<Signed, AllocError>
        ensures value { IfOk result (λ copy. copy ≡ self.now) }
    {
        Ok(Signed {
            term: self.term.copy(alloc)?,
            up: self.up,
            inside: self.inside,
        })
    }
}

/// The same list once more, in time linear in its size.
#[cycle(copy_ty)]
pub fn copy_conjuncts(alloc: Global, all: &[Conjunct]) -> Result<Items<Conjunct>, AllocError>
    ensures value { IfOk result (λ made. made ≡ all.now) }
{
    let mut made = Items::new(alloc);
    for conjunct in all {
        made.push(conjunct.copy(alloc)?)?;
    }
    Ok(made)
}

#[cycle(copy_ty)]
fn copy_atoms(alloc: Global, all: &[Atom]) -> Result<Items<Atom>, AllocError>
    ensures value { IfOk result (λ made. made ≡ all.now) }
{
    let mut made = Items::new(alloc);
    for atom in all {
        made.push(atom.copy(alloc)?)?;
    }
    Ok(made)
}

#[cycle(copy_ty)]
fn copy_parts(alloc: Global, all: &[(Name, Part)]) -> Result<Items<(Name, Part)>, AllocError>
    ensures value { IfOk result (λ made. made ≡ all.now) }
{
    let mut made = Items::new(alloc);
    for part in all {
        made.push((part.0.copy(alloc)?, part.1.copy(alloc)?))?;
    }
    Ok(made)
}

#[cycle(copy_ty)]
fn copy_terms(alloc: Global, all: &[Signed]) -> Result<Items<Signed>, AllocError>
    ensures value { IfOk result (λ made. made ≡ all.now) }
{
    let mut made = Items::new(alloc);
    for term in all {
        made.push(term.copy(alloc)?)?;
    }
    Ok(made)
}
