//! The tables put together.
ghost use Rattle.std.specs.Prelude.{◌≡◌, slice_index_or, false, IfOk};
ghost use Rattle.wy_vc_tables.specs.program_names.Described.{IsDescribed};
ghost use Rattle.wy_vc_tables.specs.Tables as spec;

use crate::program_names::{Declared, Program};
use crate::tables::{Place, Tables, tables_of};
use std::alloc::{AllocError, Global};
use wy_core::Core;
use wy_graph::reach::{constrained, written};

// Whether a name is marked; one without a mark isn't.
fn is_marked(marks: &[bool], number: usize) -> bool
    ensures value { result ≡ slice_index_or marks.now number false }
{
    match marks.get(number) {
        None => false,
        Some(mark) => *mark,
    }
}

// The named types, with a mark where they are written out.
fn declared(alloc: Global, places: &[Place], marks: &[bool]) -> Result<Vec<Declared>, AllocError>
    ensures value { IfOk result (λ made. made.items ≡ spec.declared_of places.now marks.now 0) }
{
    let mut made = Vec::new(alloc);
    for (number, place) in places.iter().enumerate() {
        let is_written = is_marked(marks, number);
        made.push(Declared {
            decl: place.decl,
            first: place.first,
            is_written,
        })?;
    }
    Ok(made)
}

/// What the conditions of a program ask of its declarations: where each named type and each function or method stands, the numbers of
/// their expressions in the walk of flow typing, which names are written out, and from which clauses are reached. `is_number` tells of
/// each expression whether it is a number. Linear in the program, but for a sort of its named types and for what
/// `wy_graph::cycles::components` says.
pub fn program_of(alloc: Global, core: &Core, is_number: Vec<bool>) -> Result<Program, AllocError>
    ensures described { IfOk result (λ p. IsDescribed core.now p) }
    ensures numbers { IfOk result (λ p. p.is_number.items ≡ is_number.items) }
{
    let tables = tables_of(alloc, core.decls.as_slice())?;
    let marks = written(alloc, tables.entries.as_slice())?;
    let reached = constrained(alloc, tables.entries.as_slice())?;
    let types = declared(alloc, tables.places.as_slice(), marks.as_slice())?;
    let Tables { routines, .. } = tables;
    Ok(Program {
        types,
        routines,
        constrained: reached.into_vec(),
        is_number,
    })
}
