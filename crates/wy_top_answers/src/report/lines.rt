//! A line for each thing that a command reports, with its line end. Each is made in time linear in its length.
ghost use Rattle.std.specs.Prelude.{◌≡◌, IfOk};
ghost use Rattle.std.specs.String.{string_bytes};
ghost use Rattle.wy_top_answers.specs.report.Lines as lines;

use std::alloc::{AllocError, Global};

/// The words are no command.
pub fn words_refused() -> &'static str
    ensures value { result.now ≡ lines.words_refused }
{
    "wy: words refused\n"
}

/// The run's steps are spent.
pub fn steps_spent() -> &'static str
    ensures value { result.now ≡ lines.steps_spent }
{
    "wy: steps spent\n"
}

/// The turns of the test of a precondition are spent.
pub fn turns_spent() -> &'static str
    ensures value { result.now ≡ lines.turns_spent }
{
    "wy: turns spent\n"
}

/// The program declares no such function or method.
pub fn no_entry(alloc: Global, name: &str) -> Result<String, AllocError>
    ensures value { IfOk result (λ s. string_bytes s ≡ lines.no_entry name.now) }
{
    format!(in alloc; "wy: {name}: no such entry\n")
}

/// The argument text has this fault, at a byte offset.
pub fn bad_argument(alloc: Global, fault: &str, offset: u64) -> Result<String, AllocError>
    ensures value { IfOk result (λ s. string_bytes s ≡ lines.bad_argument fault.now offset) }
{
    format!(in alloc; "wy: argument text: {fault} at {offset}\n")
}

/// The entry takes another number of arguments.
pub fn other_count(alloc: Global, name: &str, count: u32) -> Result<String, AllocError>
    ensures value { IfOk result (λ s. string_bytes s ≡ lines.other_count name.now count) }
{
    format!(in alloc; "wy: {name} takes {count} arguments\n")
}

/// An argument, by its number from 1, isn't of its parameter's type.
pub fn other_type(alloc: Global, number: u32) -> Result<String, AllocError>
    ensures value { IfOk result (λ s. string_bytes s ≡ lines.other_type number) }
{
    format!(in alloc; "wy: argument {number} is not of its type\n")
}

/// A requires clause, by its number from 1, fails.
pub fn requires_fails(alloc: Global, number: u32) -> Result<String, AllocError>
    ensures value { IfOk result (λ s. string_bytes s ≡ lines.requires_fails number) }
{
    format!(in alloc; "wy: requires {number} fails\n")
}

/// A file isn't saved.
pub fn save_failed(alloc: Global, file: &str) -> Result<String, AllocError>
    ensures value { IfOk result (λ s. string_bytes s ≡ lines.save_failed file.now) }
{
    format!(in alloc; "wy: {file}: save failed\n")
}

/// A source has this fault, at a line and a column, both from 1, columns in bytes.
pub fn source_fault(
    alloc: Global,
    file: &str,
    line: usize,
    column: usize,
    fault: &str,
) -> Result<String, AllocError>
    ensures value { IfOk result (λ s. string_bytes s ≡ lines.source_fault file.now line column fault.now) }
{
    format!(in alloc; "{file}:{line}:{column}: {fault}\n")
}

/// A file of certificates has this fault, at a line, from 1.
pub fn certificate_fault(
    alloc: Global,
    file: &str,
    line: u64,
    fault: &str,
) -> Result<String, AllocError>
    ensures value { IfOk result (λ s. string_bytes s ≡ lines.certificate_fault file.now line fault.now) }
{
    format!(in alloc; "{file}:{line}: {fault}\n")
}

/// The certificate that was supplied for a condition isn't valid: its first bad step. Both numbers are from 1.
pub fn invalid_step(alloc: Global, file: &str, number: u32, step: u64) -> Result<String, AllocError>
    ensures value { IfOk result (λ s. string_bytes s ≡ lines.invalid_step file.now number step) }
{
    format!(in alloc; "{file}: condition {number}: step {step} not valid\n")
}

// What became of a condition, by its place, number and kind.
fn of_condition(
    alloc: Global,
    file: &str,
    line: usize,
    column: usize,
    number: u32,
    kind: &str,
    what: &str,
) -> Result<String, AllocError>
    ensures value { IfOk result (λ s. string_bytes s ≡ lines.of_condition file.now line column number kind.now what.now) }
{
    format!(in alloc; "{file}:{line}:{column}: condition {number} {kind}: {what}\n")
}

/// A condition stays open: at which line and column of the source, its number from 1 and its kind, why, and the
/// literals of its leaf, each on a line of its own.
pub fn open_condition(
    alloc: Global,
    file: &str,
    line: usize,
    column: usize,
    number: u32,
    kind: &str,
    why: &str,
    literals: &str,
) -> Result<String, AllocError>
    ensures value { IfOk result (λ s. string_bytes s ≡ lines.open_condition file.now line column number kind.now why.now literals.now) }
{
    let what = format!(in alloc; "open {why}")?;
    let first = of_condition(alloc, file, line, column, number, kind, what.as_str())?;
    format!(in alloc; "{first}{literals}")
}

/// The budget of a condition is spent; the rest likewise.
pub fn spent_condition(
    alloc: Global,
    file: &str,
    line: usize,
    column: usize,
    number: u32,
    kind: &str,
    budget: u64,
) -> Result<String, AllocError>
    ensures value { IfOk result (λ s. string_bytes s ≡ lines.spent_condition file.now line column number kind.now budget) }
{
    let what = format!(in alloc; "spent {budget}")?;
    of_condition(alloc, file, line, column, number, kind, what.as_str())
}

/// The last line of a refusal: how many conditions there are, how many of them stay open, and how many are spent.
pub fn refused(
    alloc: Global,
    conditions: u32,
    still_open: u32,
    spent: u32,
) -> Result<String, AllocError>
    ensures value { IfOk result (λ s. string_bytes s ≡ lines.refused conditions still_open spent) }
{
    format!(in alloc; "refused: {conditions} conditions, {still_open} open, {spent} spent\n")
}

/// All conditions have valid certificates.
pub fn accepted(alloc: Global, conditions: u32) -> Result<String, AllocError>
    ensures value { IfOk result (λ s. string_bytes s ≡ lines.accepted conditions) }
{
    format!(in alloc; "accepted {conditions} conditions\n")
}

/// How many nodes a run copied, and how many it had at most.
pub fn stats(alloc: Global, copies: u64, nodes: u64) -> Result<String, AllocError>
    ensures value { IfOk result (λ s. string_bytes s ≡ lines.stats copies nodes) }
{
    format!(in alloc; "copies {copies} nodes {nodes}\n")
}
