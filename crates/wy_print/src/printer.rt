//! The text of a whole program.
ghost use Rattle.std.specs.Prelude.{◌≡◌, ◌++◌, OnOk, IfOk};
ghost use Rattle.wy_print.specs.ProgramText as spec;

use crate::declarations::write_decl;
use crate::pieces::{write_bytes, write_name};
use std::alloc::Global;
use wy_ast::{Decl, NoMemory, Program};
use wy_data::Name;

/// The text of the program.
pub fn print(alloc: Global, program: &Program) -> Result<Vec<u8>, NoMemory>
    ensures value { IfOk result (λ text. text.items ≡ spec.program_text program.now) }
{
    let mut text = Vec::new(alloc);
    write_program(alloc, &mut text, program)?;
    Ok(text)
}

fn write_program(alloc: Global, text: &mut Vec<u8>, program: &Program) -> Result<(), NoMemory>
    ensures { OnOk result (text.new.items ≡ text.old.items ++ spec.program_text program.now) }
{
    write_parts(
        alloc,
        text,
        program.imports.as_slice(),
        program.decls.as_slice(),
    )
}

#[tactic(auto, using(std::proofs::lemmas::List::append_assoc))]
fn write_parts(
    alloc: Global,
    text: &mut Vec<u8>,
    imports: &[(Name, u32)],
    decls: &[Decl],
) -> Result<(), NoMemory>
    ensures { OnOk result (text.new.items ≡ text.old.items ++ spec.parts imports.now decls.now) }
{
    let [first, rest @ ..] = imports else {
        return write_decls(alloc, text, decls);
    };
    write_import(text, first)?;
    write_imports(text, rest)?;
    write_more_decls(alloc, text, decls)?;
    Ok(())
}

#[tactic(auto, using(std::proofs::lemmas::List::append_assoc))]
fn write_imports(text: &mut Vec<u8>, imports: &[(Name, u32)]) -> Result<(), NoMemory>
    ensures { OnOk result (text.new.items ≡ text.old.items ++ spec.import_lines imports.now) }
{
    for import in imports {
        write_import(text, import)?;
    }
    Ok(())
}

#[tactic(auto, using(std::proofs::lemmas::List::append_assoc))]
fn write_import(text: &mut Vec<u8>, import: &(Name, u32)) -> Result<(), NoMemory>
    ensures { OnOk result (text.new.items ≡ text.old.items ++ spec.import_line import.now) }
{
    write_bytes(text, b"import ")?;
    write_name(text, &import.0)?;
    write_bytes(text, b"\n")?;
    Ok(())
}

#[tactic(auto, using(std::proofs::lemmas::List::append_assoc))]
fn write_decls(alloc: Global, text: &mut Vec<u8>, decls: &[Decl]) -> Result<(), NoMemory>
    ensures { OnOk result (text.new.items ≡ text.old.items ++ spec.decl_lines decls.now) }
{
    let [first, rest @ ..] = decls else {
        return Ok(());
    };
    write_decl(alloc, text, first)?;
    write_more_decls(alloc, text, rest)?;
    Ok(())
}

// Each declaration behind a blank line.
#[tactic(auto, using(std::proofs::lemmas::List::append_assoc))]
fn write_more_decls(alloc: Global, text: &mut Vec<u8>, decls: &[Decl]) -> Result<(), NoMemory>
    ensures { OnOk result (text.new.items ≡ text.old.items ++ spec.more_decls decls.now) }
{
    for decl in decls {
        write_bytes(text, b"\n")?;
        write_decl(alloc, text, decl)?;
    }
    Ok(())
}
