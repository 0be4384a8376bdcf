//! What is taken as long as programs of several files aren't linked: a source that imports nothing.
ghost use Rattle.std.specs.Prelude.{◌≡◌, ◌≤◌, ℕ, List, length, IfOk};
ghost use Rattle.wy_link_load.specs.Alone as spec;
ghost use Rattle.wy_top_answers.specs.Loading.{source_limit};
ghost use Rattle.wy_top_answers.specs.Steps.{During, Gives, Setting};

use crate::file::{SourceFile, refused_at};
use crate::loading::load_program;
use std::alloc::Global;
use wy_data::Bytes;
use wy_port::Files;
use wy_top_answers::Answer;

// The bytes of a source that imports nothing, or the answer that its first import isn't known.
fn taken(alloc: Global, source: SourceFile) -> Result<Bytes, Answer>
    ensures gives { (s : Setting) → Gives s (spec.takes source) result }
    ensures bytes { IfOk result (λ bytes. bytes ≡ source.bytes) }
{
    match source.program.imports.get(0) {
        None => Ok(source.bytes),
        Some(import) => Err(refused_at(alloc, &source, import.1, "Unknown")),
    }
}

/// The bytes of the source with this name, which imports nothing; or the answer of why its program isn't loaded, or that its first
/// import isn't known, since programs of several files aren't linked.
pub fn load_alone<F: Files>(alloc: Global, name: &str, files: &mut F) -> Result<Bytes, Answer>
    ensures gives { During (F.told files.old) (F.load_faults files.old) (F.load_faults files.new) (F.misses files.old) (F.misses files.new) (λ s. Gives s (spec.loads_alone s name.now) result) }
    ensures within { IfOk result (λ bytes. length bytes ≤ source_limit) }
    ensures kept { (other : List ℕ) → F.told files.new other ≡ F.told files.old other }
    ensures load_count { (other : List ℕ) → F.load_faults files.old other ≤ F.load_faults files.new other }
    ensures miss_count { (other : List ℕ) → F.misses files.old other ≤ F.misses files.new other }
    ensures save_count { F.save_faults files.new ≡ F.save_faults files.old }
{
    match load_program(alloc, name, files) {
        Ok(sources) => taken(alloc, sources.source),
        Err(answer) => Err(answer),
    }
}
