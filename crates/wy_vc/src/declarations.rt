//! What the declarations of a program owe.
ghost use Rattle.std.specs.Prelude.{◌≡◌, ◌+◌, length as count_of, map, nat_lt, IfOk, OnOk};
ghost use Rattle.wy_vc_spec.specs.Numbered.{exprs_in_decl, numbered_core, numbered_decl, numbered_decls, numbered_routine};
ghost use Rattle.wy_vc_spec.specs.Programs as spec;
ghost use Rattle.wy_core.specs.CoreSeen.{seen_alias, seen_core, seen_decl, seen_routine};
ghost use Rattle.wy_core.specs.CoreTree as tree;
ghost use Rattle.wy_vc_body.specs.Frames.{program_of};
ghost use Rattle.wy_vc.specs.Entering.{Owes, OwesFirst};
ghost use Rattle.wy_vc_tables.specs.program_names.Described.{IsCalled, IsDescribed};
ghost use Rattle.wy_vc_body.specs.wy_vc_exprs.State.{IsSound};

use crate::bodies::owe_body;
use crate::contracts::owe_contract;
use crate::types::owe_type;
use std::alloc::{AllocError, Global};
use wy_core::{Alias, Core, Decl, Routine};
use wy_term::NoMemory;
use wy_vc_body::Walk;
use wy_vc_tables::program_names::{Called, Program};
use wy_vc_tables::sizes::{exprs_in_block, exprs_in_list, total};

// The numbers of the first expressions of a function's or method's parts, of which the very first has this number.
fn called_at(routine: &Routine, decl: usize, first: usize) -> Result<Called, AllocError>
    ensures called { IfOk result (λ c. IsCalled (numbered_routine (seen_routine routine.now) first) routine.now c) }
    ensures first { IfOk result (λ c. c.preconditions ≡ first) }
{
    let before = exprs_in_list(routine.preconditions.as_slice())?;
    let postconditions = total(first, before)?;
    let between = exprs_in_list(routine.postconditions.as_slice())?;
    let body = total(postconditions, between)?;
    Ok(Called {
        decl,
        preconditions: first,
        postconditions,
        body,
    })
}

// What a declared type owes, and the number of the first expression behind it.
fn owe_alias(
    alloc: Global,
    core: &Core,
    program: &Program,
    walk: &mut Walk,
    alias: &Alias,
    first: usize,
) -> Result<usize, NoMemory>
    requires described { IsDescribed core.now program.now }
    requires sound { IsSound walk.old }
    ensures value { OnOk result (Owes walk.old walk.new (spec.decl_conditions (program_of core.now program.now) (numbered_decl (tree.AliasDecl (seen_alias alias.now)) first))) }
    ensures next { IfOk result (λ n. n ≡ first + exprs_in_decl (tree.AliasDecl (seen_alias alias.now))) }
{
    owe_type(alloc, core, program, walk, alias, first)?;
    let inside = exprs_in_list(alias.clauses.as_slice())?;
    let next = total(first, inside)?;
    Ok(next)
}

// What a function or method owes, and the number of the first expression behind it.
fn owe_routine(
    alloc: Global,
    core: &Core,
    program: &Program,
    walk: &mut Walk,
    routine: &Routine,
    decl: usize,
    first: usize,
) -> Result<usize, NoMemory>
    requires described { IsDescribed core.now program.now }
    requires sound { IsSound walk.old }
    ensures value { OnOk result (Owes walk.old walk.new (spec.decl_conditions (program_of core.now program.now) (numbered_decl (tree.RoutineDecl (seen_routine routine.now)) first))) }
    ensures next { IfOk result (λ n. n ≡ first + exprs_in_decl (tree.RoutineDecl (seen_routine routine.now))) }
{
    let called = called_at(routine, decl, first)?;
    owe_contract(alloc, core, program, walk, routine, first)?;
    owe_body(alloc, core, program, walk, routine, called)?;
    let inside = exprs_in_block(routine.body.as_slice())?;
    let next = total(called.body, inside)?;
    Ok(next)
}

// What a declaration owes, and the number of the first expression behind it.
fn owe_declaration(
    alloc: Global,
    core: &Core,
    program: &Program,
    walk: &mut Walk,
    decl: &Decl,
    number: usize,
    first: usize,
) -> Result<usize, NoMemory>
    requires described { IsDescribed core.now program.now }
    requires sound { IsSound walk.old }
    ensures value { OnOk result (Owes walk.old walk.new (spec.decl_conditions (program_of core.now program.now) (numbered_decl (seen_decl decl.now) first))) }
    ensures next { IfOk result (λ n. n ≡ first + exprs_in_decl (seen_decl decl.now)) }
{
    match decl {
        Decl::Alias(alias) => owe_alias(alloc, core, program, walk, alias, first),
        Decl::Routine(routine) => {
            owe_routine(alloc, core, program, walk, routine, number, first)
        }
    }
}

// Whether more than so many are owed.
fn are_past(walk: &Walk, most: usize) -> bool
    ensures value { result ≡ nat_lt most (count_of walk.now.owed.items) }
{
    walk.owed.len() > most
}

// What the first of these declarations owe, the first of whose expressions has the number 0: of all, or until more than so many are owed.
fn owe_all(
    alloc: Global,
    core: &Core,
    program: &Program,
    walk: &mut Walk,
    decls: &[Decl],
    most: usize,
) -> Result<(), NoMemory>
    requires described { IsDescribed core.now program.now }
    requires sound { IsSound walk.old }
    ensures value { OnOk result (OwesFirst most walk.old walk.new (spec.decls_conditions (program_of core.now program.now) (numbered_decls (map seen_decl decls.now) 0))) }
{
    let mut first = 0;
    for (number, decl) in decls.iter().enumerate() {
        let past = are_past(walk, most);
        if past {
            return Ok(());
        }
        first = owe_declaration(alloc, core, program, walk, decl, number, first)?;
    }
    Ok(())
}

/// What the declarations of a program owe, behind what is owed already: of each in order of the source what its clauses owe, and then its
/// body. Where more than `most` are owed behind a declaration, those behind it are not walked. Hypotheses of a goal are those of the path
/// to it, and are copied for each; all else is linear in the declarations that are walked, in what the clauses come to where these use
/// them, and in the terms made.
pub fn owe_declarations(
    alloc: Global,
    core: &Core,
    program: &Program,
    walk: &mut Walk,
    most: usize,
) -> Result<(), NoMemory>
    requires described { IsDescribed core.now program.now }
    requires sound { IsSound walk.old }
    ensures value { OnOk result (OwesFirst most walk.old walk.new (spec.decls_conditions (program_of core.now program.now) (numbered_core (seen_core core.now)))) }
{
    owe_all(alloc, core, program, walk, core.decls.as_slice(), most)
}
