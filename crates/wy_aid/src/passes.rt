//! The passes from the bytes of a source to its typed and assigned program.
use std::alloc::Global;
use wy_assign::AssignFault;
use wy_assign::typed::assigned;
use wy_explain::{Checker, Fault, NoMemory, Page, Pass, Program, put_ty};
use wy_flow::{FlowFault, Typed, check};
use wy_names::{NameFault, resolve};
use wy_parse_front::{SourceFault, is_no_memory, offset, read, word};

/// Why a source has no such program.
#[derive(Clone, Copy)]
pub enum Refused {
    /// The first fault, in the order of the passes.
    Fault(Fault),
    NoMemory,
}

/// The program that the bytes spell with its flow types, where no pass has a fault. They are fewer than 2^32.
pub fn typed_program(alloc: Global, bytes: &[u8]) -> Result<Typed, Refused> {
    let typed = checked_program(alloc, bytes)?;
    match assigned(alloc, &typed) {
        Ok(()) => Ok(typed),
        Err(fault) => Err(of_paths(fault)),
    }
}

// The same up to its flow types: whether each use follows an assignment isn't asked.
fn checked_program(alloc: Global, bytes: &[u8]) -> Result<Typed, Refused> {
    if bytes.len() >= u32::MAX as usize {
        return Err(Refused::NoMemory);
    }
    let program = match read(alloc, bytes) {
        Ok(program) => program,
        Err(fault) => return Err(of_text(fault)),
    };
    let core = match resolve(alloc, &program) {
        Ok(core) => core,
        Err(fault) => return Err(of_names(fault)),
    };
    match check(alloc, core) {
        Ok(typed) => Ok(typed),
        Err(fault) => Err(of_types(fault)),
    }
}

fn fault_of(pass: Pass, word: &'static str, at: u32) -> Refused {
    Refused::Fault(Fault { pass, word, at })
}

fn of_text(fault: SourceFault) -> Refused {
    if is_no_memory(fault) {
        return Refused::NoMemory;
    }
    fault_of(Pass::Text, word(fault), offset(fault))
}

fn of_names(fault: NameFault) -> Refused {
    let (word, at) = match fault {
        NameFault::Unknown(at) => ("Unknown", at),
        NameFault::Twice(at) => ("Twice", at),
        NameFault::BareRecursion(at) => ("BareRecursion", at),
        NameFault::PropertyLoop(at) => ("PropertyLoop", at),
        NameFault::CallInContract(at) => ("CallInContract", at),
        NameFault::MethodInFunction(at) => ("MethodInFunction", at),
        NameFault::Arity(at) => ("Arity", at),
        NameFault::OutsideLoop(at) => ("OutsideLoop", at),
        NameFault::TooLarge(at) => ("TooLarge", at),
        NameFault::NoMemory => return Refused::NoMemory,
    };
    fault_of(Pass::Names, word, at)
}

fn of_types(fault: FlowFault) -> Refused {
    let (word, at) = match fault {
        FlowFault::NotSubtype(at) => ("NotSubtype", at),
        FlowFault::NotArray(at) => ("NotArray", at),
        FlowFault::NoField(at) => ("NoField", at),
        FlowFault::NotBool(at) => ("NotBool", at),
        FlowFault::NotInt(at) => ("NotInt", at),
        FlowFault::TypeWide(at) => ("TypeWide", at),
        FlowFault::NoMemory => return Refused::NoMemory,
    };
    fault_of(Pass::Types, word, at)
}

fn of_paths(fault: AssignFault) -> Refused {
    match fault {
        AssignFault::Unset(at) => fault_of(Pass::Paths, "Unset", at),
        AssignFault::NoReturn(at) => fault_of(Pass::Paths, "NoReturn", at),
        AssignFault::NoMemory => Refused::NoMemory,
    }
}

/// The passes, asked.
#[derive(Clone, Copy)]
pub struct Passes;

impl Checker for Passes {
    fn unread(&self, alloc: Global, bytes: &[u8]) -> Result<Option<u32>, NoMemory> {
        if bytes.len() >= u32::MAX as usize {
            return Err(NoMemory);
        }
        match read(alloc, bytes) {
            Ok(_) => Ok(None),
            Err(fault) => {
                if is_no_memory(fault) {
                    return Err(NoMemory);
                }
                Ok(Some(offset(fault)))
            }
        }
    }

    fn program(&self, alloc: Global, bytes: &[u8]) -> Result<Option<Program>, NoMemory> {
        if bytes.len() >= u32::MAX as usize {
            return Err(NoMemory);
        }
        match read(alloc, bytes) {
            Ok(program) => Ok(Some(program)),
            Err(fault) => {
                if is_no_memory(fault) {
                    return Err(NoMemory);
                }
                Ok(None)
            }
        }
    }

    fn fault(&self, alloc: Global, bytes: &[u8]) -> Result<Option<Fault>, NoMemory> {
        match typed_program(alloc, bytes) {
            Ok(_) => Ok(None),
            Err(Refused::Fault(fault)) => Ok(Some(fault)),
            Err(Refused::NoMemory) => Err(NoMemory),
        }
    }

    fn type_before(
        &self,
        alloc: Global,
        bytes: &[u8],
        behind: usize,
    ) -> Result<Option<Page>, NoMemory> {
        match checked_program(alloc, bytes) {
            Ok(typed) => type_of(alloc, &typed, behind),
            Err(Refused::Fault(_)) => Ok(None),
            Err(Refused::NoMemory) => Err(NoMemory),
        }
    }
}

// The type of the expression behind which so many others stand.
fn type_of(alloc: Global, typed: &Typed, behind: usize) -> Result<Option<Page>, NoMemory> {
    let behind = behind.saturating_add(1);
    if behind > typed.len() {
        return Ok(None);
    }
    let mut page = Page::new(alloc);
    put_ty(
        typed.flow(typed.len() - behind),
        typed.core(),
        &mut page,
        false,
    )?;
    Ok(Some(page))
}
