//! Faults of a source, pass by pass.
use crate::checker::{Checker, Fault, Pass};
use crate::holes::{Hole, fill, hole_for};
use crate::json::{Style, put_styled};
use crate::text_faults::text_fault;
use crate::type_faults::type_fault;
use std::alloc::Global;
use wy_explain_source::{Finding, NoMemory, Page, Seen, Source, name_fault, path_fault};

/// How many faults are told.
const MOST: usize = 8;

/// Writes what is told of the first fault, which is one of this pass, and of further ones of the same pass that don't follow from it:
/// those that come where what has the faults before is left out.
pub fn put_faults<C: Checker>(
    alloc: Global,
    page: &mut Page,
    seen: &Seen,
    checker: &C,
    pass: Pass,
    style: Style,
) -> Result<(), NoMemory> {
    let mut left: Vec<u8> = Vec::from_slice(alloc, seen.source.bytes)?;
    let mut last: Option<u32> = None;
    for _ in 0..MOST {
        let fault = match checker.fault(alloc, left.as_slice())? {
            Some(fault) => fault,
            None => break,
        };
        if fault.pass != pass || last == Some(fault.at) {
            break;
        }
        last = Some(fault.at);
        let name = seen.source.name;
        let (finding, hole) = told(alloc, name, left.as_slice(), checker, fault)?;
        put_styled(page, &seen.source, &finding, style)?;
        match hole {
            Some(hole) => fill(left.as_mut_slice(), hole),
            None => break,
        }
    }
    Ok(())
}

// What is told of the first fault of these bytes, and what is left out then.
fn told<C: Checker>(
    alloc: Global,
    name: &str,
    bytes: &[u8],
    checker: &C,
    fault: Fault,
) -> Result<(Finding, Option<Hole>), NoMemory> {
    let program = checker.program(alloc, bytes)?;
    let seen = Seen::of(alloc, Source { name, bytes }, program.as_ref())?;
    let finding = finding_of(alloc, &seen, checker, fault)?;
    let hole = hole_for(&seen, fault);
    Ok((finding, hole))
}

fn finding_of<C: Checker>(
    alloc: Global,
    seen: &Seen,
    checker: &C,
    fault: Fault,
) -> Result<Finding, NoMemory> {
    match fault.pass {
        Pass::Text => text_fault(alloc, seen, checker, fault.word, fault.at),
        Pass::Names => name_fault(alloc, seen, fault.word, fault.at),
        Pass::Types => type_fault(alloc, seen, checker, fault.word, fault.at),
        Pass::Paths => path_fault(alloc, seen, fault.word, fault.at),
    }
}
