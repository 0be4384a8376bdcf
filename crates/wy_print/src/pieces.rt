//! Pieces that texts are made of.
ghost use Rattle.std.specs.Prelude.{◌≡◌, ◌++◌, ◌∷◌, [], codes, IfOk, OnOk};
ghost use Rattle.std.specs.Fmt.{signed_decimal};
ghost use Rattle.wy_print.specs.Pieces as pieces;

use std::alloc::Global;
use wy_ast::NoMemory;
use wy_data::Name;

/// Appends the bytes.
pub fn write_bytes(text: &mut Vec<u8>, bytes: &[u8]) -> Result<(), NoMemory>
    ensures { OnOk result (text.new.items ≡ text.old.items ++ bytes.now) }
{
    text.extend_from_slice(bytes)?;
    Ok(())
}

/// Appends the name.
pub fn write_name(text: &mut Vec<u8>, name: &Name) -> Result<(), NoMemory>
    ensures { OnOk result (text.new.items ≡ text.old.items ++ name.now) }
{
    write_bytes(text, name.as_bytes())
}

/// Appends the number in decimal.
pub fn write_number(alloc: Global, text: &mut Vec<u8>, number: i128) -> Result<(), NoMemory>
    ensures { OnOk result (text.new.items ≡ text.old.items ++ signed_decimal number) }
{
    let digits = format!(in alloc; "{number}")?;
    write_bytes(text, digits.as_bytes())
}

/// Appends a string that stands for the characters.
pub fn write_quoted(text: &mut Vec<u8>, characters: &[u8]) -> Result<(), NoMemory>
    ensures { OnOk result (text.new.items ≡ text.old.items ++ pieces.quoted characters.now) }
{
    write_bytes(text, b"\"")?;
    for character in characters {
        write_escaped(text, *character)?;
    }
    write_bytes(text, b"\"")?;
    Ok(())
}

fn write_escaped(text: &mut Vec<u8>, character: u8) -> Result<(), NoMemory>
    ensures { OnOk result (text.new.items ≡ text.old.items ++ pieces.escaped character) }
{
    match character {
        b'\n' => write_bytes(text, b"\\n"),
        b'\t' => write_bytes(text, b"\\t"),
        b'\\' => write_bytes(text, b"\\\\"),
        b'"' => write_bytes(text, b"\\\""),
        _ => write_bytes(text, &[character]),
    }
}

/// How `true` or `false` is written.
pub fn truth_word(truth: bool) -> &'static [u8]
    ensures value { result.now ≡ pieces.truth_word truth }
{
    if truth { b"true" } else { b"false" }
}

/// How `all` or `some` is written.
pub fn quantifier_word(all: bool) -> &'static [u8]
    ensures value { result.now ≡ pieces.quantifier_word all }
{
    if all { b"all" } else { b"some" }
}

/// Appends a space where there is to be one.
pub fn write_space_if(text: &mut Vec<u8>, spaced: bool) -> Result<(), NoMemory>
    ensures { OnOk result (text.new.items ≡ text.old.items ++ pieces.space_if spaced) }
{
    if !spaced {
        return Ok(());
    }
    write_bytes(text, b" ")
}

/// How far a block stands whose header stands so far.
pub fn deeper(alloc: Global, margin: &[u8]) -> Result<Vec<u8>, NoMemory>
    ensures value { IfOk result (λ further. further.items ≡ margin.now ++ pieces.step_in) }
{
    let mut further = Vec::from_slice(alloc, margin)?;
    write_bytes(&mut further, b"    ")?;
    Ok(further)
}
