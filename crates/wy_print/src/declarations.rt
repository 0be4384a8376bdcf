//! The text of declarations.
ghost use Rattle.std.specs.Prelude.{◌≡◌, ◌++◌, codes, OnOk};
ghost use Rattle.wy_print.specs.Pieces.{listed, line_end};
ghost use Rattle.wy_print.specs.ProgramText as spec;
ghost use Rattle.wy_print.specs.StmtText.{where_lines};

use crate::clauses::{write_clauses, write_where};
use crate::pieces::{write_bytes, write_name};
use crate::statements::write_block;
use crate::types::{write_ty, write_typed};
use std::alloc::Global;
use wy_ast::{Alias, Decl, Expr, Function, Method, NoMemory, Param, Property, Ty};
use wy_data::Name;

/// The margin of a declaration.
const NO_MARGIN: &[u8] = b"";

/// Appends the declaration.
pub fn write_decl(alloc: Global, text: &mut Vec<u8>, decl: &Decl) -> Result<(), NoMemory>
    ensures { OnOk result (text.new.items ≡ text.old.items ++ spec.decl_text decl.now) }
{
    match decl {
        Decl::Alias(alias) => write_alias(alloc, text, alias),
        Decl::Function(function) => write_function(alloc, text, function),
        Decl::Method(method) => write_method(alloc, text, method),
        Decl::Property(property) => write_property(alloc, text, property),
    }
}

#[tactic(auto, using(std::proofs::lemmas::List::append_assoc))]
fn write_alias(alloc: Global, text: &mut Vec<u8>, alias: &Alias) -> Result<(), NoMemory>
    ensures { OnOk result (text.new.items ≡ text.old.items ++ spec.alias_text alias.now) }
{
    write_bytes(text, b"type ")?;
    write_name(text, &alias.name)?;
    write_bytes(text, b" is ")?;
    write_named_type(text, &alias.ty, &alias.variable)?;
    write_where(alloc, text, NO_MARGIN, alias.clauses.as_slice())?;
    write_bytes(text, b"\n")?;
    Ok(())
}

#[tactic(auto, using(std::proofs::lemmas::List::append_assoc))]
fn write_function(alloc: Global, text: &mut Vec<u8>, function: &Function) -> Result<(), NoMemory>
    ensures { OnOk result (text.new.items ≡ text.old.items ++ spec.function_text function.now) }
{
    write_signature(
        text,
        b"function ",
        &function.name,
        function.params.as_slice(),
    )?;
    write_bytes(text, b" -> ")?;
    write_named_type(text, &function.result, &function.result_name)?;
    let preconditions = function.preconditions.as_slice();
    write_contract(
        alloc,
        text,
        preconditions,
        function.postconditions.as_slice(),
    )?;
    write_block(alloc, text, NO_MARGIN, function.body.as_slice())?;
    Ok(())
}

#[tactic(auto, using(std::proofs::lemmas::List::append_assoc))]
fn write_method(alloc: Global, text: &mut Vec<u8>, method: &Method) -> Result<(), NoMemory>
    ensures { OnOk result (text.new.items ≡ text.old.items ++ spec.method_text method.now) }
{
    write_signature(text, b"method ", &method.name, method.params.as_slice())?;
    write_result(text, &method.result)?;
    let preconditions = method.preconditions.as_slice();
    write_contract(alloc, text, preconditions, method.postconditions.as_slice())?;
    write_block(alloc, text, NO_MARGIN, method.body.as_slice())?;
    Ok(())
}

#[tactic(auto, using(std::proofs::lemmas::List::append_assoc))]
fn write_property(alloc: Global, text: &mut Vec<u8>, property: &Property) -> Result<(), NoMemory>
    ensures { OnOk result (text.new.items ≡ text.old.items ++ spec.property_text property.now) }
{
    write_signature(
        text,
        b"property ",
        &property.name,
        property.params.as_slice(),
    )?;
    write_where(alloc, text, NO_MARGIN, property.clauses.as_slice())?;
    write_bytes(text, b"\n")?;
    Ok(())
}

// A type with a name in brackets, or by itself.
#[tactic(auto, using(std::proofs::lemmas::List::append_assoc))]
fn write_named_type(text: &mut Vec<u8>, ty: &Ty, name: &Option<Name>) -> Result<(), NoMemory>
    ensures { OnOk result (text.new.items ≡ text.old.items ++ spec.named_type ty.now name.now) }
{
    match name {
        None => write_ty(text, ty),
        Some(name) => {
            write_bytes(text, b"(")?;
            write_typed(text, ty, name)?;
            write_bytes(text, b")")?;
            Ok(())
        }
    }
}

// The result of a method, where it has one.
#[tactic(auto, using(std::proofs::lemmas::List::append_assoc))]
fn write_result(text: &mut Vec<u8>, result_of: &Option<(Ty, Option<Name>)>) -> Result<(), NoMemory>
    ensures { OnOk result (text.new.items ≡ text.old.items ++ spec.result_text result_of.now) }
{
    match result_of {
        None => Ok(()),
        Some(given) => {
            write_bytes(text, b" -> ")?;
            write_named_type(text, &given.0, &given.1)?;
            Ok(())
        }
    }
}

// A name and its parameters, behind the word.
#[tactic(auto, using(std::proofs::lemmas::List::append_assoc))]
fn write_signature(
    text: &mut Vec<u8>,
    word: &[u8],
    name: &Name,
    params: &[Param],
) -> Result<(), NoMemory>
    ensures { OnOk result (text.new.items ≡ text.old.items ++ spec.signature word.now name.now params.now) }
{
    write_bytes(text, word)?;
    write_name(text, name)?;
    write_bytes(text, b"(")?;
    write_params(text, params)?;
    write_bytes(text, b")")?;
    Ok(())
}

#[tactic(auto, using(std::proofs::lemmas::List::append_assoc))]
fn write_params(text: &mut Vec<u8>, params: &[Param]) -> Result<(), NoMemory>
    ensures { OnOk result (text.new.items ≡ text.old.items ++ listed (spec.param_texts params.now)) }
{
    let [first, rest @ ..] = params else {
        return Ok(());
    };
    write_typed(text, &first.ty, &first.name)?;
    for param in rest {
        write_bytes(text, b", ")?;
        write_typed(text, &param.ty, &param.name)?;
    }
    Ok(())
}

// The clauses of a contract, those before a call first.
#[tactic(auto, using(std::proofs::lemmas::List::append_assoc))]
fn write_contract(
    alloc: Global,
    text: &mut Vec<u8>,
    preconditions: &[Expr],
    postconditions: &[Expr],
) -> Result<(), NoMemory>
    ensures { OnOk result (text.new.items ≡ text.old.items ++ spec.contract_text preconditions.now postconditions.now) }
{
    write_clauses(alloc, text, NO_MARGIN, b"requires ", preconditions)?;
    write_clauses(alloc, text, NO_MARGIN, b"ensures ", postconditions)?;
    Ok(())
}
