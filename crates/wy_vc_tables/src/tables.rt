//! What is known of each declaration.
ghost use Rattle.std.specs.Prelude.{◌≡◌, ◌+◌, ◌++◌, IfOk, OnOk};
ghost use Rattle.wy_core.specs.CoreSeen.{seen_alias, seen_exprs};
ghost use Rattle.wy_vc_spec.specs.wy_sem.TypeTests as tests;
ghost use Rattle.wy_vc_tables.specs.Mentions.{entry_of};
ghost use Rattle.wy_vc_tables.specs.Tables as spec;

use crate::names::names_in_alias;
use crate::nodes::nodes_in_alias;
use crate::program_names::Called;
use crate::sizes::{exprs_in_block, exprs_in_list, total};
use std::alloc::{AllocError, Global};
use wy_core::{Alias, Decl, Expr, Routine};
use wy_graph::reach::Entry;

/// The number of a declaration, and of the first expression of its clauses in the walk of flow typing.
#[derive(Clone, Copy)]
pub struct Place {
    pub decl: usize,
    pub first: usize,
}

/// What is known of the declarations so far: the named types, what each mentions, the functions and methods, and the number of the first
/// expression behind them.
#[derive(Drop)]
pub struct Tables {
    pub places: Vec<Place>,
    pub entries: Vec<Entry>,
    pub routines: Vec<Called>,
    pub next: usize,
}

// Whether there are clauses.
fn any_clause(clauses: &[Expr]) -> bool
    ensures value { result ≡ tests.has_clauses (seen_exprs clauses.now) }
{
    !clauses.is_empty()
}

// What a named type says of others.
fn entry_in(alloc: Global, alias: &Alias) -> Result<Entry, AllocError>
    ensures value { IfOk result (λ e. e ≡ entry_of (seen_alias alias.now)) }
{
    let names = names_in_alias(alloc, alias)?;
    let own = nodes_in_alias(alias)?;
    let has_clauses = any_clause(alias.clauses.as_slice());
    Ok(Entry {
        names,
        own,
        has_clauses,
    })
}

// The numbers of the first expressions of a function's or method's parts.
fn called_at(routine: &Routine, decl: usize, first: usize) -> Result<Called, AllocError>
    ensures value { IfOk result (λ c. c ≡ spec.called_at routine.now decl first) }
{
    let before = exprs_in_list(routine.preconditions.as_slice())?;
    let postconditions = total(first, before)?;
    let between = exprs_in_list(routine.postconditions.as_slice())?;
    let body = total(postconditions, between)?;
    Ok(Called {
        decl,
        preconditions: first,
        postconditions,
        body,
    })
}

impl Tables {
    // One more named type.
    fn add_alias(&mut self, alloc: Global, decl: usize, alias: &Alias) -> Result<(), AllocError>
        ensures places { OnOk result (self.new.places.items ≡ self.old.places.items ++ spec.place decl self.old.next) }
        ensures entries { OnOk result (self.new.entries.items ≡ self.old.entries.items ++ spec.entry (seen_alias alias.now)) }
        ensures routines { OnOk result (self.new.routines.items ≡ self.old.routines.items) }
        ensures next { OnOk result (self.new.next ≡ self.old.next + spec.alias_exprs alias.now) }
    {
        let entry = entry_in(alloc, alias)?;
        let clauses = exprs_in_list(alias.clauses.as_slice())?;
        let next = total(self.next, clauses)?;
        self.places.push(Place {
            decl,
            first: self.next,
        })?;
        self.entries.push(entry)?;
        self.next = next;
        Ok(())
    }

    // One more function or method.
    fn add_routine(&mut self, decl: usize, routine: &Routine) -> Result<(), AllocError>
        ensures places { OnOk result (self.new.places.items ≡ self.old.places.items) }
        ensures entries { OnOk result (self.new.entries.items ≡ self.old.entries.items) }
        ensures routines { OnOk result (self.new.routines.items ≡ self.old.routines.items ++ spec.called routine.now decl self.old.next) }
        ensures next { OnOk result (self.new.next ≡ self.old.next + spec.routine_exprs routine.now) }
    {
        let called = called_at(routine, decl, self.next)?;
        let inside = exprs_in_block(routine.body.as_slice())?;
        let next = total(called.body, inside)?;
        self.routines.push(called)?;
        self.next = next;
        Ok(())
    }

    // One more declaration.
    fn add(&mut self, alloc: Global, number: usize, decl: &Decl) -> Result<(), AllocError>
        ensures value { OnOk result (spec.IsAdded self.old self.new number decl.now) }
    {
        match decl {
            Decl::Alias(alias) => self.add_alias(alloc, number, alias),
            Decl::Routine(routine) => self.add_routine(number, routine),
        }
    }
}

/// What is known of these declarations. Linear in them.
pub fn tables_of(alloc: Global, decls: &[Decl]) -> Result<Tables, AllocError>
    ensures places { IfOk result (λ t. t.places.items ≡ spec.places_of decls.now 0 0) }
    ensures entries { IfOk result (λ t. t.entries.items ≡ spec.entries_of decls.now) }
    ensures routines { IfOk result (λ t. t.routines.items ≡ spec.called_of decls.now 0 0) }
{
    let mut tables = Tables {
        places: Vec::new(alloc),
        entries: Vec::new(alloc),
        routines: Vec::new(alloc),
        next: 0,
    };
    for (number, decl) in decls.iter().enumerate() {
        tables.add(alloc, number, decl)?;
    }
    Ok(tables)
}
