//! The commands that write a text of a source: `fmt`, `dis` and `conds`.
ghost use Rattle.std.specs.Prelude.{◌≡◌, ◌≤◌, ◌<◌, ◌^◌, ℕ, List, length, IfOk};
ghost use Rattle.wy_top_probe.specs.wy_top_answers.Loading.{source_limit};
ghost use Rattle.wy_top_probe.specs.wy_top_answers.Steps.{Answers, During, Gives, Setting};
ghost use Rattle.wy_top.specs.Texts as spec;

use crate::owing::listed;
use std::alloc::Global;
use wy_data::Bytes;
use wy_port::Files;
use wy_top_probe::wy_top_answers::{Answer, SOURCE_LIMIT, load};
use wy_top_probe::{Kind, fault_answer, load_alone, text_of};

/// A text of a source.
#[derive(Clone, Copy, Debug)]
pub enum Text {
    /// The program in its one layout.
    Layout,
    /// The listing of the program's code.
    Listing,
    /// The list of the conditions that the program owes.
    Conditions,
}

// The text of the program, or the answer with the line of the first fault.
fn program_text(alloc: Global, kind: Kind, name: &str, bytes: &[u8]) -> Result<Bytes, Answer>
    requires { length bytes.now < 2 ^ 32 }
    ensures gives { (s : Setting) → Gives s (spec.program_text kind name.now bytes.now) result }
{
    match text_of(alloc, kind, bytes) {
        Ok(text) => Ok(Bytes::new(text)),
        Err(fault) => Err(fault_answer(alloc, name, bytes, fault)),
    }
}

// The text of this kind, or the answer of why there is none.
fn read_text(alloc: Global, kind: Text, name: &str, bytes: &[u8]) -> Result<Bytes, Answer>
    requires { length bytes.now < 2 ^ 32 }
    ensures gives { (s : Setting) → Gives s (spec.text kind name.now bytes.now) result }
{
    match kind {
        Text::Layout => program_text(alloc, Kind::Layout, name, bytes),
        Text::Listing => program_text(alloc, Kind::Listing, name, bytes),
        Text::Conditions => listed(alloc, name, bytes),
    }
}

// The bytes of the source in this file: for a layout as they are, and else of one that imports nothing.
fn source_for<F: Files>(
    alloc: Global,
    kind: Text,
    name: &str,
    files: &mut F,
) -> Result<Bytes, Answer>
    ensures gives { During (F.told files.old) (F.load_faults files.old) (F.load_faults files.new) (F.misses files.old) (F.misses files.new) (λ s. Gives s (spec.source_for s kind name.now) result) }
    ensures within { IfOk result (λ bytes. length bytes ≤ source_limit) }
    ensures kept { (other : List ℕ) → F.told files.new other ≡ F.told files.old other }
    ensures load_count { (other : List ℕ) → F.load_faults files.old other ≤ F.load_faults files.new other }
    ensures miss_count { (other : List ℕ) → F.misses files.old other ≤ F.misses files.new other }
    ensures save_count { F.save_faults files.new ≡ F.save_faults files.old }
{
    match kind {
        Text::Layout => load(alloc, name, SOURCE_LIMIT, files),
        Text::Listing => load_alone(alloc, name, files),
        Text::Conditions => load_alone(alloc, name, files),
    }
}

// The text of the source in this file.
fn text_in<F: Files>(alloc: Global, kind: Text, name: &str, files: &mut F) -> Result<Bytes, Answer>
    ensures gives { During (F.told files.old) (F.load_faults files.old) (F.load_faults files.new) (F.misses files.old) (F.misses files.new) (λ s. Gives s (spec.text_in s kind name.now) result) }
    ensures kept { (other : List ℕ) → F.told files.new other ≡ F.told files.old other }
    ensures load_count { (other : List ℕ) → F.load_faults files.old other ≤ F.load_faults files.new other }
    ensures miss_count { (other : List ℕ) → F.misses files.old other ≤ F.misses files.new other }
    ensures save_count { F.save_faults files.new ≡ F.save_faults files.old }
{
    match source_for(alloc, kind, name, files) {
        Ok(bytes) => read_text(alloc, kind, name, bytes.as_slice()),
        Err(answer) => Err(answer),
    }
}

/// The answer of the command that writes this text of the source in a file: the text, or why the source has none.
pub fn text_answer<F: Files>(alloc: Global, kind: Text, name: &str, files: &mut F) -> Answer
    ensures answers { During (F.told files.old) (F.load_faults files.old) (F.load_faults files.new) (F.misses files.old) (F.misses files.new) (λ s. Answers s (spec.text_steps s kind name.now) result) }
    ensures kept { (other : List ℕ) → F.told files.new other ≡ F.told files.old other }
    ensures load_count { (other : List ℕ) → F.load_faults files.old other ≤ F.load_faults files.new other }
    ensures miss_count { (other : List ℕ) → F.misses files.old other ≤ F.misses files.new other }
    ensures save_count { F.save_faults files.new ≡ F.save_faults files.old }
{
    match text_in(alloc, kind, name, files) {
        Ok(text) => Answer {
            status: 0,
            out: text,
            err: Bytes::new(Vec::new(alloc)),
        },
        Err(answer) => answer,
    }
}
