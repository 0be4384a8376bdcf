//! Copies of declared types.
ghost use Rattle.std.specs.Prelude.{◌≡◌, IfOk};

use crate::copies::expr_copies::copy_exprs;
use crate::declarations::Alias;
use std::alloc::{AllocError, Global};
use wy_value::{Items, Name};

impl Alias {
    /// The same once more, places included, in time linear in its size.
    pub fn copy(&self, alloc: Global) -> Result<Alias, AllocError>
        ensures value { IfOk result (λ copy. copy ≡ self.now) }
    {
        Ok(Alias {
            at: self.at,
            name: self.name.copy(alloc)?,
            variables: copy_names(alloc, self.variables.as_slice())?,
            ty: self.ty.copy(alloc)?,
            variable: self.variable,
            clauses: copy_exprs(alloc, self.clauses.as_slice())?,
        })
    }
}

fn copy_names(alloc: Global, all: &[Name]) -> Result<Items<Name>, AllocError>
    ensures value { IfOk result (λ made. made ≡ all.now) }
{
    let mut made = Items::new(alloc);
    for name in all {
        made.push(name.copy(alloc)?)?;
    }
    Ok(made)
}
