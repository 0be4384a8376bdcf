//! A file of a program, loaded and read.
ghost use Rattle.std.specs.Prelude.{◌≡◌, ◌<◌, ◌≤◌, ◌^◌, ℕ, List, length, IfOk};
ghost use Rattle.std.specs.String.{string_bytes};
ghost use Rattle.wy_link_load.specs.Files as spec;
ghost use Rattle.wy_top_answers.specs.Answers.{IsRefusal};
ghost use Rattle.wy_top_answers.specs.Calls.{AnswersFault};
ghost use Rattle.wy_top_answers.specs.Loading.{source_limit};
ghost use Rattle.wy_top_answers.specs.Steps.{During, Gives, Setting};
ghost use Rattle.wy_parse_front.specs.Faults as faults;

use std::alloc::{AllocError, Global};
use wy_ast::Program;
use wy_data::{Bytes, Name};
use wy_parse_front::{SourceFault, is_no_memory, locate, offset, read, word};
use wy_port::Files;
use wy_top_answers::report::source_fault;
use wy_top_answers::{Answer, SOURCE_LIMIT, load, no_memory, refusal};

/// A file of a program.
#[derive(Drop)]
pub struct SourceFile {
    /// By which it was loaded.
    pub name: Name,
    pub bytes: Bytes,
    /// The program that the bytes spell.
    pub program: Program,
}

// The line of a fault, at a byte offset of the file.
fn fault_line(
    alloc: Global,
    name: &str,
    bytes: &[u8],
    at: u32,
    word: &str,
) -> Result<String, AllocError>
    ensures value { IfOk result (λ s. string_bytes s ≡ spec.fault_line name.now bytes.now at word.now) }
{
    let place = locate(bytes, at);
    source_fault(alloc, name, place.line, place.column, word)
}

/// The answer that refuses the program for what stands at a byte offset of this file, by its word: status 1, and the line of the
/// fault.
pub fn refused_at(alloc: Global, file: &SourceFile, at: u32, word: &str) -> Answer
    ensures value { IsRefusal 1 (spec.fault_line file.now.name file.now.bytes at word.now) result }
{
    let line = fault_line(alloc, file.name.as_str(), file.bytes.as_slice(), at, word);
    refusal(alloc, 1, line)
}

// The answer where the bytes spell no program.
fn text_answer(alloc: Global, name: &str, bytes: &[u8], fault: SourceFault) -> Answer
    ensures value { AnswersFault (faults.is_no_memory fault) 1 (spec.text_line name.now bytes.now fault) result }
{
    if is_no_memory(fault) {
        return no_memory(alloc);
    }
    refusal(
        alloc,
        1,
        fault_line(alloc, name, bytes, offset(fault), word(fault)),
    )
}

// The file with the program that its bytes spell, or the answer with the line of the first fault.
fn spelled(alloc: Global, name: Name, bytes: Bytes) -> Result<SourceFile, Answer>
    requires { length bytes < 2 ^ 32 }
    ensures gives { (s : Setting) → Gives s (spec.spelled name bytes) result }
    ensures bytes { IfOk result (λ file. file.bytes ≡ bytes) }
{
    match read(alloc, bytes.as_slice()) {
        Ok(program) => Ok(SourceFile {
            name,
            bytes,
            program,
        }),
        Err(fault) => Err(text_answer(alloc, name.as_str(), bytes.as_slice(), fault)),
    }
}

/// The file with this name, with the program that its bytes spell; or the answer of why it isn't loaded, or of the first fault of its
/// text.
pub fn read_file<F: Files>(alloc: Global, name: Name, files: &mut F) -> Result<SourceFile, Answer>
    ensures gives { During (F.told files.old) (F.load_faults files.old) (F.load_faults files.new) (F.misses files.old) (F.misses files.new) (λ s. Gives s (spec.reads s name) result) }
    ensures within { IfOk result (λ file. length file.bytes ≤ source_limit) }
    ensures kept { (other : List ℕ) → F.told files.new other ≡ F.told files.old other }
    ensures load_count { (other : List ℕ) → F.load_faults files.old other ≤ F.load_faults files.new other }
    ensures miss_count { (other : List ℕ) → F.misses files.old other ≤ F.misses files.new other }
    ensures save_count { F.save_faults files.new ≡ F.save_faults files.old }
{
    match load(alloc, name.as_str(), SOURCE_LIMIT, files) {
        Ok(bytes) => spelled(alloc, name, bytes),
        Err(answer) => Err(answer),
    }
}
