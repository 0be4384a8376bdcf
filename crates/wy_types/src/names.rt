//! The declared types of a program.
ghost use Rattle.std.specs.Prelude.{◌≡◌, map, slice_get, IfOk};
ghost use Rattle.std.specs.Option.{option_copied};
ghost use Rattle.wy_core.specs.CoreSeen.{seen_core, seen_decl};
ghost use Rattle.wy_types.specs.Names.{names_in, seen_declared, types_of};

use std::alloc::{AllocError, Global};
use wy_core::{Core, Decl, Ty};
use wy_items::Items;

/// What a declared type stands for.
#[derive(Drop)]
pub struct Declared {
    pub ty: Ty,
    /// Whether it has a clause, so that nothing is surely in it.
    pub constrained: bool,
}

/// The declared types of a program, by their numbers.
#[derive(Drop)]
pub struct Names {
    pub declared: Items<Declared>,
}

impl Names {
    /// The declared types of the core, in time linear in their size.
    pub fn of(alloc: Global, core: &Core) -> Result<Names, AllocError>
        ensures value { IfOk result (λ names. types_of names ≡ names_in (seen_core core.now)) }
    {
        Ok(Names {
            declared: declared_in(alloc, core.decls.as_slice())?,
        })
    }

    /// The type with this number. It takes no memory.
    pub fn get(&self, number: u32) -> Option<&Declared>
        ensures value { option_copied result ≡ slice_get self.now.declared number }
    {
        self.declared.get(number as usize)
    }
}

fn declared_in(alloc: Global, decls: &[Decl]) -> Result<Items<Declared>, AllocError>
    ensures value { IfOk result (λ made. map seen_declared made ≡ names_in (map seen_decl decls.now)) }
{
    let mut made = Items::new(alloc);
    for decl in decls {
        match decl {
            Decl::Alias(alias) => made.push(Declared {
                ty: alias.ty.copy(alloc)?,
                constrained: alias.variable.is_some(),
            })?,
            Decl::Routine(_) => {}
        }
    }
    Ok(made)
}
