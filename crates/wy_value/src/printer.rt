//! The text of a value.
ghost use Rattle.std.specs.Prelude.{◌≡◌, [], ◌∷◌, ◌++◌, IfOk, OnOk};
ghost use Rattle.std.specs.Fmt.{signed_decimal};
ghost use Rattle.wy_value.specs.Seen.{seen, seen_fields, seen_items};
ghost use Rattle.wy_value.specs.Shown.{shown, shown_items, shown_fields};

use crate::value::Value;
use std::alloc::Global;
use wy_data::Name;
use wy_reading::NoMemory;

/// The text of the value, as `[1, {a: true, b: null}]`. It is linear in the text, and recurses as deep
/// as the value nests.
pub fn show(alloc: Global, value: &Value) -> Result<Vec<u8>, NoMemory>
    ensures value { IfOk result (λ text. text.items ≡ shown (seen value.now)) }
{
    let mut text = Vec::new(alloc);
    write_value(alloc, &mut text, value)?;
    Ok(text)
}

#[cycle(show)]
#[tactic(auto, using(crate::proofs::SeenLemmas::seen_array, crate::proofs::SeenLemmas::seen_record))]
fn write_value(alloc: Global, text: &mut Vec<u8>, value: &Value) -> Result<(), NoMemory>
    ensures { OnOk result (text.new.items ≡ text.old.items ++ shown (seen value.now)) }
{
    match value {
        Value::Null => write_bytes(text, b"null"),
        Value::Bool(true) => write_bytes(text, b"true"),
        Value::Bool(false) => write_bytes(text, b"false"),
        Value::Int(number) => write_number(alloc, text, *number),
        Value::Array(items) => {
            write_bytes(text, b"[")?;
            write_items(alloc, text, items.as_slice())?;
            write_bytes(text, b"]")
        }
        Value::Record(fields) => {
            write_bytes(text, b"{")?;
            write_fields(alloc, text, fields.as_slice())?;
            write_bytes(text, b"}")
        }
    }
}

#[cycle(show)]
fn write_items(alloc: Global, text: &mut Vec<u8>, items: &[Value]) -> Result<(), NoMemory>
    ensures { OnOk result (text.new.items ≡ text.old.items ++ shown_items (seen_items items.now)) }
{
    let [first, rest @ ..] = items else {
        return Ok(());
    };
    write_value(alloc, text, first)?;
    for item in rest {
        write_comma(text)?;
        write_value(alloc, text, item)?;
    }
    Ok(())
}

#[cycle(show)]
fn write_fields(alloc: Global, text: &mut Vec<u8>, fields: &[(Name, Value)]) -> Result<(), NoMemory>
    ensures { OnOk result (text.new.items ≡ text.old.items ++ shown_fields (seen_fields fields.now)) }
{
    let [first, rest @ ..] = fields else {
        return Ok(());
    };
    write_name(text, &first.0)?;
    write_value(alloc, text, &first.1)?;
    for field in rest {
        write_comma(text)?;
        write_name(text, &field.0)?;
        write_value(alloc, text, &field.1)?;
    }
    Ok(())
}

// What stands between two items or fields.
fn write_comma(text: &mut Vec<u8>) -> Result<(), NoMemory>
    ensures { OnOk result (text.new.items ≡ text.old.items ++ (44 ∷ 32 ∷ [])) }
{
    write_bytes(text, b", ")
}

// A name with its colon.
fn write_name(text: &mut Vec<u8>, name: &Name) -> Result<(), NoMemory>
    ensures { OnOk result (text.new.items ≡ text.old.items ++ (name.now ++ 58 ∷ 32 ∷ [])) }
{
    write_bytes(text, name.as_bytes())?;
    write_bytes(text, b": ")
}

fn write_number(alloc: Global, text: &mut Vec<u8>, number: i128) -> Result<(), NoMemory>
    ensures { OnOk result (text.new.items ≡ text.old.items ++ signed_decimal number) }
{
    let digits = format!(in alloc; "{number}")?;
    write_bytes(text, digits.as_bytes())
}

fn write_bytes(text: &mut Vec<u8>, bytes: &[u8]) -> Result<(), NoMemory>
    ensures { OnOk result (text.new.items ≡ text.old.items ++ bytes.now) }
{
    text.extend_from_slice(bytes)?;
    Ok(())
}
