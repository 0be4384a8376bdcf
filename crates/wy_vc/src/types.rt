//! What the clauses of a type owe.
ghost use Rattle.std.specs.Prelude.{Some, OnOk};
ghost use Rattle.wy_vc_spec.specs.Numbered.{numbered_alias};
ghost use Rattle.wy_vc_spec.specs.Programs as spec;
ghost use Rattle.wy_core.specs.CoreSeen.{seen_alias};
ghost use Rattle.wy_vc_body.specs.Frames.{program_of};
ghost use Rattle.wy_vc.specs.Entering.{Owes};
ghost use Rattle.wy_vc_tables.specs.program_names.Described.{IsDescribed};
ghost use Rattle.wy_vc_body.specs.wy_vc_exprs.State.{IsSound};

use crate::begin::begin;
use std::alloc::Global;
use wy_core::{Alias, Core};
use wy_term::NoMemory;
use wy_vc_body::{Walk, assume_in_type, new_name, put, walk_clauses};
use wy_vc_tables::program_names::Program;

// What the clauses owe, the first of whose expressions has this number: of a name that is in the type's definition.
fn owe_type_clauses(
    alloc: Global,
    core: &Core,
    program: &Program,
    walk: &mut Walk,
    alias: &Alias,
    variable: u32,
    first: usize,
) -> Result<(), NoMemory>
    requires described { IsDescribed core.now program.now }
    requires sound { IsSound walk.old }
    ensures value { OnOk result (Owes walk.old walk.new (spec.alias_conditions (program_of core.now program.now) (numbered_alias (seen_alias alias.now) first) (Some variable))) }
{
    begin(walk, first);
    let words = alias.variables.as_slice();
    let name = new_name(alloc, &mut walk.maker, words, variable)?;
    assume_in_type(alloc, core, program, walk, name, &alias.ty)?;
    let mut vars = Vec::new(alloc);
    put(&mut vars, variable, name)?;
    let clauses = alias.clauses.as_slice();
    walk_clauses(alloc, core, program, words, walk, vars.as_slice(), clauses)
}

/// What a declared type owes, the first of whose expressions has this number: where it has clauses, what these owe of a name that is in
/// its definition, each assumed by the next.
pub fn owe_type(
    alloc: Global,
    core: &Core,
    program: &Program,
    walk: &mut Walk,
    alias: &Alias,
    first: usize,
) -> Result<(), NoMemory>
    requires described { IsDescribed core.now program.now }
    requires sound { IsSound walk.old }
    ensures value { OnOk result (Owes walk.old walk.new (spec.alias_conditions (program_of core.now program.now) (numbered_alias (seen_alias alias.now) first) alias.now.variable)) }
{
    match alias.variable {
        None => Ok(()),
        Some(variable) => owe_type_clauses(alloc, core, program, walk, alias, variable, first),
    }
}
