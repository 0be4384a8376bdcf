//! Loading a file.
ghost use Rattle.std.specs.Prelude.{◌≡◌, ◌≤◌, ℕ, List, length, IfOk};
ghost use Rattle.std.specs.String.{string_bytes};
ghost use Rattle.wy_top_answers.specs.Answers.{IsRefusal};
ghost use Rattle.wy_top_answers.specs.Loading.{loaded};
ghost use Rattle.wy_top_answers.specs.Steps.{During, Gives};
ghost use Rattle.wy_top_answers.specs.Texts as texts;

use crate::answer::{Answer, refusal};
use std::alloc::{AllocError, Global};
use wy_data::Bytes;
use wy_port::{Files, LoadFault};

/// The most bytes of a source file.
pub const SOURCE_LIMIT: u64 = 1_048_576;

// The status where a file is not loaded.
fn load_status(fault: LoadFault) -> u8
    ensures value { result ≡ texts.load_status fault }
{
    match fault {
        LoadFault::Absent => 3,
        LoadFault::TooLong => 10,
        LoadFault::Failed => 4,
        LoadFault::NoMemory => 9,
    }
}

// The line where a file is not loaded.
fn load_line(alloc: Global, name: &str, fault: LoadFault) -> Result<String, AllocError>
    ensures value { IfOk result (λ s. string_bytes s ≡ texts.load_text name.now fault) }
{
    match fault {
        LoadFault::Absent => format!(in alloc; "wy: {name}: absent\n"),
        LoadFault::TooLong => format!(in alloc; "wy: {name}: too long\n"),
        LoadFault::Failed => format!(in alloc; "wy: {name}: load failed\n"),
        LoadFault::NoMemory => Ok(String::new(alloc)),
    }
}

// The answer where a file is not loaded.
fn not_loaded(alloc: Global, name: &str, fault: LoadFault) -> Answer
    ensures value { IsRefusal (texts.load_status fault) (texts.load_text name.now fault) result }
{
    refusal(alloc, load_status(fault), load_line(alloc, name, fault))
}

/// The bytes of the file with this name, of which there are at most `limit`, or the answer of why they are not loaded.
pub fn load<F: Files>(alloc: Global, name: &str, limit: u64, files: &mut F) -> Result<Bytes, Answer>
    ensures gives { During (F.told files.old) (F.load_faults files.old) (F.load_faults files.new) (F.misses files.old) (F.misses files.new) (λ s. Gives s (loaded s name.now limit) result) }
    ensures within { IfOk result (λ bytes. length bytes ≤ limit) }
    ensures kept { (other : List ℕ) → F.told files.new other ≡ F.told files.old other }
    ensures load_count { (other : List ℕ) → F.load_faults files.old other ≤ F.load_faults files.new other }
    ensures miss_count { (other : List ℕ) → F.misses files.old other ≤ F.misses files.new other }
    ensures save_count { F.save_faults files.new ≡ F.save_faults files.old }
{
    match files.load(alloc, name, limit) {
        Ok(bytes) => Ok(Bytes::new(bytes)),
        Err(fault) => Err(not_loaded(alloc, name, fault)),
    }
}
