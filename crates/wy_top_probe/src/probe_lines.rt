//! The lines of the command `probe`.
ghost use Rattle.std.specs.Prelude.{◌≡◌, IfOk, map};
ghost use Rattle.std.specs.String.{string_bytes};
ghost use Rattle.wy_value.specs.Seen.{seen, seen_items};
ghost use Rattle.wy_value.specs.Shown.{shown_items};
ghost use Rattle.wy_top_probe.specs.Probing as spec;

use std::alloc::{AllocError, Global};
use wy_link_load::locate;
use wy_term::CondKind;
use wy_value::{NoMemory, Value, show};

/// The line of a fault, at its place in the source with these bytes, on these arguments.
pub fn fault_line(
    alloc: Global,
    bytes: &[u8],
    args: &[Value],
    kind: CondKind,
    at: u32,
) -> Result<Vec<u8>, NoMemory>
    ensures value { IfOk result (λ text. text.items ≡ spec.fault_line bytes.now (map seen args.now) kind at) }
{
    let place = locate(bytes, at);
    let head = fault_head(alloc, kind.word(), place.line, place.column)?;
    let shown = arguments_text(alloc, args)?;
    let mut text = head.into_bytes();
    text.extend_from_slice(shown.as_slice())?;
    text.extend_from_slice(b")\n")?;
    Ok(text)
}

// The front of the line, up to the arguments.
fn fault_head(alloc: Global, word: &str, row: usize, column: usize) -> Result<String, AllocError>
    ensures value { IfOk result (λ s. string_bytes s ≡ spec.fault_head word.now row column) }
{
    format!(in alloc; "fault {word} at {row}:{column} on (")
}

// The texts of the arguments, with a comma and a space between them.
fn arguments_text(alloc: Global, args: &[Value]) -> Result<Vec<u8>, NoMemory>
    ensures value { IfOk result (λ text. text.items ≡ shown_items (seen_items args.now)) }
{
    let [first, rest @ ..] = args else {
        return Ok(Vec::new(alloc));
    };
    let mut text = show(alloc, first)?;
    for arg in rest {
        let shown = show(alloc, arg)?;
        text.extend_from_slice(b", ")?;
        text.extend_from_slice(shown.as_slice())?;
    }
    Ok(text)
}

/// The line where no tuple faults: how many were tried, are met, and are undecided.
pub fn none_line(alloc: Global, tried: u32, met: u32, undecided: u32) -> Result<String, AllocError>
    ensures value { IfOk result (λ s. string_bytes s ≡ spec.none_line tried met undecided) }
{
    format!(in alloc; "no fault: {tried} tried, {met} met, {undecided} undecided\n")
}
