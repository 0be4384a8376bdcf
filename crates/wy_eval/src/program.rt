//! What evaluations of code go by.
ghost use Rattle.std.specs.Prelude.{◌≡◌, IfOk, length, map, suc};
ghost use Rattle.wy_core.specs.CoreSeen.{seen_alias, seen_core};
ghost use Rattle.wy_core.specs.CoreTree.{aliases_of};
ghost use Rattle.wy_eval.specs.Marks.{rounds};

use crate::constrained::constrained_names;
use std::alloc::{AllocError, Global};
use wy_core::Core;
use wy_eval_exprs::Declared;

/// The declared types of a program, how many turns contracts may spend, and for each declared type, by
/// its number, whether one with clauses is reached from it.
#[derive(Drop)]
pub struct Program {
    pub declared: Declared,
    pub marks: Vec<bool>,
    pub ghost marked: { marks.items ≡ rounds (map seen_alias declared.types) (suc (length declared.types)) },
}

impl Program {
    /// What evaluations of this program go by. The declared types are copied, in time linear in them; the
    /// marks take a walk over them for each step of the longest chain of names to a clause.
    pub fn of(alloc: Global, core: &Core, limit: u64) -> Result<Program, AllocError>
        ensures types { IfOk result (λ made. map seen_alias made.declared.types ≡ aliases_of (seen_core core.now)) }
        ensures limit { IfOk result (λ made. made.declared.limit ≡ limit) }
    {
        let declared = Declared::of(alloc, core, limit)?;
        let marks = constrained_names(alloc, declared.types.as_slice())?;
        Ok(Program { declared, marks })
    }
}
