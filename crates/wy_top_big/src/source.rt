//! The functions of a large program, the whole source, and what it is run on.
ghost use Rattle.std.specs.Prelude.{◌≡◌, IfOk};
ghost use Rattle.std.specs.String.{string_bytes};
ghost use Rattle.wy_top_big.specs.Source as source;

use crate::bodies::body;
use crate::draws::{constant, next, template};
use std::alloc::{AllocError, Global};

/// A function from a number of 0 to 1000 to such a number.
fn function(alloc: Global, name: &str, body: &str) -> Result<String, AllocError>
    ensures value { IfOk result (λ text. string_bytes text ≡ source.function name.now body.now) }
{
    format!(in alloc;
        "function {name}(int x) -> (int r)\nrequires 0 <= x && x <= 1000\nensures 0 <= r && r <= 1000:\n{body}"
    )
}

/// The function of a number, made from a state.
fn numbered(alloc: Global, number: u32, state: u64) -> Result<String, AllocError>
    ensures value { IfOk result (λ text. string_bytes text ≡ source.numbered number state) }
{
    let name = format!(in alloc; "f{number}")?;
    let body = body(alloc, template(state), constant(state))?;
    let text = function(alloc, name.as_str(), body.as_str())?;
    Ok(text)
}

/// The line that calls the function of a number.
fn call(alloc: Global, number: u32) -> Result<String, AllocError>
    ensures value { IfOk result (λ text. string_bytes text ≡ source.call number) }
{
    format!(in alloc; "    y = f{number}(y)\n")
}

/// The lines that call the first functions, in order.
fn calls(alloc: Global, count: u32) -> Result<String, AllocError>
    ensures value { IfOk result (λ text. string_bytes text ≡ source.calls count) }
{
    let mut text = String::new(alloc);
    for number in 0..count {
        let line = call(alloc, number)?;
        text.push_str(line.as_str())?;
    }
    Ok(text)
}

/// The body of the last function.
fn main_body(alloc: Global, count: u32) -> Result<String, AllocError>
    ensures value { IfOk result (λ text. string_bytes text ≡ source.main_body count) }
{
    let calls = calls(alloc, count)?;
    let calls = calls.as_str();
    format!(in alloc; "    int y = x\n{calls}    return y\n")
}

/// The function that calls each of the others once, in order.
fn main_function(alloc: Global, count: u32) -> Result<String, AllocError>
    ensures value { IfOk result (λ text. string_bytes text ≡ source.main_function count) }
{
    let body = main_body(alloc, count)?;
    let text = function(alloc, entry(), body.as_str())?;
    Ok(text)
}

/// The functions but the last, each with a blank line behind it.
fn functions(alloc: Global, count: u32, seed: u32) -> Result<String, AllocError>
    ensures value { IfOk result (λ text. string_bytes text ≡ source.functions count seed) }
{
    let mut text = String::new(alloc);
    let mut state = seed as u64;
    for number in 0..count {
        state = next(state);
        let function = numbered(alloc, number, state)?;
        text.push_str(function.as_str())?;
        text.push_str("\n")?;
    }
    Ok(text)
}

/// The source of the program of `count` functions made from `seed`, and of a last one that calls each of them in order.
/// Each takes a number of 0 to 1000 and gives such a number. The text is the program's own layout. In time linear in
/// its length.
pub fn source_of(alloc: Global, count: u32, seed: u32) -> Result<Vec<u8>, AllocError>
    ensures value { IfOk result (λ text. text.items ≡ source.source_of count seed) }
{
    let mut text = functions(alloc, count, seed)?;
    let last = main_function(alloc, count)?;
    text.push_str(last.as_str())?;
    Ok(text.into_bytes())
}

/// The name of the function that is run: the last.
pub fn entry() -> &'static str
    ensures value { result.now ≡ source.entry }
{
    "main"
}

/// The text of the arguments that the last function is run on: one number, of 0 to 1000, in round brackets.
pub fn argument_text(alloc: Global, seed: u32) -> Result<String, AllocError>
    ensures value { IfOk result (λ text. string_bytes text ≡ source.argument_text seed) }
{
    let number = seed % 1001;
    format!(in alloc; "({number})")
}
