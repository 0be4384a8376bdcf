//! The function or method of a name.
ghost use Rattle.std.specs.Prelude.{◌≡◌, ◌↔◌, ℕ, List, map, IsTrue, MatchResult};
ghost use Rattle.wy_core.specs.CoreSeen.{seen_decl, seen_routine};
ghost use Rattle.wy_core.specs.CoreTree as tree;
ghost use Rattle.wy_core.specs.CoreTree.{routines_of};
ghost use Rattle.wy_mach_run.specs.Entries.{HasEntry, IsFirst, LacksEntry};

use crate::fault::StartFault;
use wy_core::{Decl, Routine};

/// An entry: its number among the functions and methods of a program, from 0, how many parameters it has, and whether
/// it gives a result.
#[derive(Clone, Copy, Debug)]
pub struct Entry {
    pub number: u32,
    pub count: u32,
    pub has_result: bool,
}

/// The first function or method of this name, in time linear in the declarations and their names. Want of memory comes
/// where its number, or that of its parameters, passes 2^32 - 1.
pub fn entry_of(decls: &[Decl], name: &str) -> Result<Entry, StartFault>
    ensures found { MatchResult result (HasEntry (routines_of (map seen_decl decls.now)) name.now) (LacksEntry (routines_of (map seen_decl decls.now)) name.now) }
{
    let mut number = 0u32;
    for decl in decls {
        match decl {
            Decl::Alias(_) => {}
            Decl::Routine(routine) => {
                if is_named(routine, name) {
                    return entry_at(number, routine);
                }
                if number == u32::MAX {
                    return Err(StartFault::NoMemory);
                }
                number += 1;
            }
        }
    }
    Err(StartFault::NoEntry)
}

// Whether this is the name of the function or method.
fn is_named(routine: &Routine, name: &str) -> bool
    ensures value { IsTrue result ↔ ((seen_routine routine.now).name ≡ name.now) }
{
    routine.name.as_str() == name
}

// The entry with this number.
fn entry_at(number: u32, routine: &Routine) -> Result<Entry, StartFault>
    ensures found { (routines : List (tree.Routine ℕ)) → (name : List ℕ) → IsFirst routines name number (seen_routine routine.now) → MatchResult result (HasEntry routines name) (LacksEntry routines name) }
{
    match u32::try_from(routine.params.len()) {
        Ok(count) => Ok(Entry {
            number,
            count,
            has_result: routine.result.is_some(),
        }),
        Err(_) => Err(StartFault::NoMemory),
    }
}
