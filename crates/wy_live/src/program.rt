//! The walk through declarations, and the marks of a program.
ghost use Rattle.std.specs.Prelude.{◌≡◌, List, Bool, IfOk, map};
ghost use Rattle.wy_core.specs.CoreSeen.{seen_alias, seen_core, seen_decl, seen_routine};
ghost use Rattle.wy_live.specs.LastUses.{AreLast};
ghost use Rattle.wy_live.specs.Walks as spec;

use crate::sets::Variables;
use crate::statements::walk_block;
use crate::uses::{mark_all, skip_clauses};
use crate::walk::{Marks, Walk, nothing};
use std::alloc::{AllocError, Global};
use wy_core::{Alias, Core, Decl, Routine};
use wy_items::{Items, NoMemory};

/// The marks of a program's uses.
#[derive(Drop)]
pub struct Uses {
    /// For each variable in an expression whether it is a use and the last on every path from there.
    /// They stand in the order of the source, but the test of a loop stands before its invariants.
    pub last: Items<bool>,
}

/// Which uses of variables are the last on every path: no path through the syntax from there uses
/// the variable before it assigns it.
///
/// A path takes either block of an `if` and either way at `&&` and `||`, and the body of a loop or of
/// a quantifier any number of times. An update of a part of a variable uses the variable once its
/// indices and its value are evaluated, and doesn't assign it; a declaration without a value assigns
/// nothing. What the machine doesn't run is no use, and its marks are false: requires and ensures
/// clauses, invariants and the tests of `assert`. The clauses of a type run, one behind the other.
///
/// It goes through each node once, and once more for each loop or quantifier around it; each `if`,
/// each loop and each quantifier copies or joins the words of what is live.
pub fn last_uses(alloc: Global, core: &Core) -> Result<Uses, NoMemory>
    ensures sound { IfOk result (λ u. AreLast (seen_core core.now) u.last) }
    ensures complete { IfOk result (λ u. (marks : List Bool) → AreLast (seen_core core.now) marks → marks ≡ u.last) }
{
    let last = marks_of(alloc, core)?;
    Ok(Uses { last })
}

/// The same by the plain function alone.
fn marks_of(alloc: Global, core: &Core) -> Result<Items<bool>, AllocError>
    ensures value { IfOk result (λ m. m ≡ spec.last_of (seen_core core.now)) }
{
    let marks = walk_decls(alloc, core.decls.as_slice(), Marks::none(alloc))?;
    Ok(marks.into_items())
}

fn walk_decls(alloc: Global, decls: &[Decl], marks: Marks) -> Result<Marks, AllocError>
    ensures value { IfOk result (λ m. m ≡ spec.decls_walked (map seen_decl decls.now) marks) }
{
    let mut marks = marks;
    let mut left = decls.len();
    while left > 0 {
        left -= 1;
        marks = walk_decl(alloc, &decls[left], marks)?;
    }
    Ok(marks)
}

fn walk_decl(alloc: Global, decl: &Decl, marks: Marks) -> Result<Marks, AllocError>
    ensures value { IfOk result (λ m. m ≡ spec.decl_walked (seen_decl decl.now) marks) }
{
    match decl {
        Decl::Alias(alias) => walk_alias(alloc, alias, marks),
        Decl::Routine(routine) => walk_routine(alloc, routine, marks),
    }
}

/// The clauses of a type, behind which nothing is live.
fn walk_alias(alloc: Global, alias: &Alias, marks: Marks) -> Result<Marks, AllocError>
    ensures value { IfOk result (λ m. m ≡ spec.alias_walked (seen_alias alias.now) marks) }
{
    let end = Walk {
        live: Variables::none(alloc),
        marks,
    };
    let start = mark_all(alloc, alias.clauses.as_slice(), end)?;
    Ok(start.marks)
}

/// A function or method, behind whose body nothing is live.
fn walk_routine(alloc: Global, routine: &Routine, marks: Marks) -> Result<Marks, AllocError>
    ensures value { IfOk result (λ m. m ≡ spec.routine_walked (seen_routine routine.now) marks) }
{
    let end = Walk {
        live: Variables::none(alloc),
        marks,
    };
    let start = walk_block(alloc, routine.body.as_slice(), &nothing(alloc), end)?;
    let marks = skip_clauses(routine.postconditions.as_slice(), start.marks)?;
    skip_clauses(routine.preconditions.as_slice(), marks)
}
