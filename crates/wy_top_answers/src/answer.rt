//! What a command comes to.
ghost use Rattle.std.specs.Prelude.{◌≡◌, ◌++◌, ℕ, List, IfOk};
ghost use Rattle.std.specs.String.{string_bytes};
ghost use Rattle.wy_top_answers.specs.Answers as spec;
ghost use Rattle.wy_top_answers.specs.Answers.{IsRefusal};

use std::alloc::{AllocError, Global};
use wy_data::Bytes;

/// What a command comes to, where it streams nothing: the exit status, and what is written on both sinks.
#[derive(Drop)]
pub struct Answer {
    pub status: u8,
    pub out: Bytes,
    pub err: Bytes,
}

/// Want of memory: nothing is written.
pub fn no_memory(alloc: Global) -> Answer
    ensures value { result ≡ spec.no_memory }
{
    Answer {
        status: 9,
        out: Bytes::new(Vec::new(alloc)),
        err: Bytes::new(Vec::new(alloc)),
    }
}

/// The refusal with this status and this line, or want of memory where there was none for the line.
pub fn refusal(alloc: Global, status: u8, line: Result<String, AllocError>) -> Answer
    ensures value { (text : List ℕ) → IfOk line (λ s. string_bytes s ≡ text) → IsRefusal status text result }
{
    match line {
        Ok(line) => Answer {
            status,
            out: Bytes::new(Vec::new(alloc)),
            err: Bytes::new(line.into_bytes()),
        },
        Err(_) => no_memory(alloc),
    }
}

/// The refusal with this status, these lines and this one behind them, or want of memory where there was none for them.
pub fn refusal_behind(
    alloc: Global,
    status: u8,
    lines: Bytes,
    line: Result<String, AllocError>,
) -> Answer
    ensures value { (text : List ℕ) → IfOk line (λ s. string_bytes s ≡ text) → IsRefusal status (lines ++ text) result }
{
    let line = match line {
        Ok(line) => line,
        Err(_) => return no_memory(alloc),
    };
    let mut all = lines.into_vec();
    match all.extend_from_slice(line.as_bytes()) {
        Ok(()) => Answer {
            status,
            out: Bytes::new(Vec::new(alloc)),
            err: Bytes::new(all),
        },
        Err(_) => no_memory(alloc),
    }
}
