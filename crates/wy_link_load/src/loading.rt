//! Loading a program: its source and, depth first, all that it imports.
ghost use Rattle.std.specs.Prelude.{◌≡◌, ◌<◌, ◌≤◌, ◌-◌, ◌^◌, ◌++◌, ◌∷◌, [], ℕ, List, length, take, drop, IfOk, IfErr};
ghost use Rattle.wy_link_load.specs.Loading as spec;
ghost use Rattle.wy_link_load.specs.Loading.{finished_in};
ghost use Rattle.wy_top_answers.specs.Answers as answers;
ghost use Rattle.wy_top_answers.specs.Loading.{source_limit};
ghost use Rattle.wy_top_answers.specs.Steps.{During, Gives, came};

use crate::file::{SourceFile, read_file, refused_at};
use crate::importing::{Import, import_file, import_of, word};
use std::alloc::{AllocError, Global};
use wy_data::Name;
use wy_items::Items;
use wy_port::Files;
use wy_top_answers::{Answer, no_memory};

/// The most files of a program, its source counted.
pub const MOST_FILES: usize = 64;

/// The files of a program.
#[derive(Drop)]
pub struct Sources {
    /// What is imported, by the source and by these files: each stands behind those that it imports itself.
    pub imported: Items<SourceFile>,
    /// The file that the command names.
    pub source: SourceFile,
}

/// How far the loading of a program has come.
#[derive(Drop)]
pub struct Loading {
    /// The files that are loaded with all that they import, in the order in which they were finished.
    pub finished: Items<SourceFile>,
    /// The names of the files that are being loaded, each imported by the one before it.
    pub stack: Items<Name>,
}

// With one more file that is being loaded.
fn opened(alloc: Global, loading: Loading, name: &Name) -> Result<Loading, Answer>
    ensures finished { IfOk result (λ inside. inside.finished ≡ loading.finished) }
    ensures stack { IfOk result (λ inside. inside.stack ≡ loading.stack ++ name.now ∷ []) }
    ensures memory { IfErr result (λ answer. answer ≡ answers.no_memory) }
{
    let Loading {
        finished,
        mut stack,
    } = loading;
    let copy = match name.copy(alloc) {
        Ok(copy) => copy,
        Err(_) => return Err(no_memory(alloc)),
    };
    match stack.push(copy) {
        Ok(()) => Ok(Loading { finished, stack }),
        Err(_) => Err(no_memory(alloc)),
    }
}

// With the file that was opened last finished.
fn closed(alloc: Global, inside: Loading, file: SourceFile) -> Result<Loading, Answer>
    ensures finished { IfOk result (λ loading. loading.finished ≡ inside.finished ++ file ∷ []) }
    ensures stack { (outer : List (List ℕ)) → (name : List ℕ) → inside.stack ≡ outer ++ name ∷ [] → IfOk result (λ loading. loading.stack ≡ outer) }
    ensures memory { IfErr result (λ answer. answer ≡ answers.no_memory) }
{
    let Loading {
        mut finished,
        mut stack,
    } = inside;
    let _name = stack.pop();
    match finished.push(file) {
        Ok(()) => Ok(Loading { finished, stack }),
        Err(_) => Err(no_memory(alloc)),
    }
}

// The file with this name, behind all that it imports. There is room for so many files besides those that are being loaded.
#[cycle(loading)]
fn load_file<F: Files>(
    alloc: Global,
    room: usize,
    name: Name,
    loading: Loading,
    files: &mut F,
) -> Result<Loading, Answer>
    requires room { 0 < room }
    ensures gives { During (F.told files.old) (F.load_faults files.old) (F.load_faults files.new) (F.misses files.old) (F.misses files.new) (λ s. Gives s (spec.loads_file room s loading.stack name loading.finished) (came finished_in result)) }
    ensures stack { IfOk result (λ after. after.stack ≡ loading.stack) }
    ensures kept { (other : List ℕ) → F.told files.new other ≡ F.told files.old other }
    ensures load_count { (other : List ℕ) → F.load_faults files.old other ≤ F.load_faults files.new other }
    ensures miss_count { (other : List ℕ) → F.misses files.old other ≤ F.misses files.new other }
    ensures save_count { F.save_faults files.new ≡ F.save_faults files.old }
{
    let file = match read_file(alloc, name, files) {
        Ok(file) => file,
        Err(answer) => return Err(answer),
    };
    let inside = match opened(alloc, loading, &file.name) {
        Ok(inside) => inside,
        Err(answer) => return Err(answer),
    };
    match load_imports(alloc, room - 1, &file, 0, inside, files) {
        Ok(inside) => closed(alloc, inside, file),
        Err(answer) => Err(answer),
    }
}

// What a file imports, from the import with this index on.
#[cycle(loading)]
fn load_imports<F: Files>(
    alloc: Global,
    room: usize,
    file: &SourceFile,
    next: usize,
    loading: Loading,
    files: &mut F,
) -> Result<Loading, Answer>
    ensures gives { During (F.told files.old) (F.load_faults files.old) (F.load_faults files.new) (F.misses files.old) (F.misses files.new) (λ s. Gives s (spec.loads_imports (spec.loads_file room s loading.stack) room loading.stack file.now (take next file.now.program.imports) (drop next file.now.program.imports) loading.finished) (came finished_in result)) }
    ensures stack { IfOk result (λ after. after.stack ≡ loading.stack) }
    ensures kept { (other : List ℕ) → F.told files.new other ≡ F.told files.old other }
    ensures load_count { (other : List ℕ) → F.load_faults files.old other ≤ F.load_faults files.new other }
    ensures miss_count { (other : List ℕ) → F.misses files.old other ≤ F.misses files.new other }
    ensures save_count { F.save_faults files.new ≡ F.save_faults files.old }
{
    let imports = file.program.imports.as_slice();
    if next >= imports.len() {
        return Ok(loading);
    }
    let earlier = &imports[..next];
    let import = &imports[next];
    match load_import(alloc, room, file, earlier, import, loading, files) {
        Ok(loading) => load_imports(alloc, room, file, next + 1, loading, files),
        Err(answer) => Err(answer),
    }
}

// An import of a file, which imported those of `earlier` before.
#[cycle(loading)]
fn load_import<F: Files>(
    alloc: Global,
    room: usize,
    file: &SourceFile,
    earlier: &[(Name, u32)],
    import: &(Name, u32),
    loading: Loading,
    files: &mut F,
) -> Result<Loading, Answer>
    ensures gives { During (F.told files.old) (F.load_faults files.old) (F.load_faults files.new) (F.misses files.old) (F.misses files.new) (λ s. Gives s (spec.loads_import (spec.loads_file room s loading.stack) room loading.stack file.now earlier.now import.now loading.finished) (came finished_in result)) }
    ensures stack { IfOk result (λ after. after.stack ≡ loading.stack) }
    ensures kept { (other : List ℕ) → F.told files.new other ≡ F.told files.old other }
    ensures load_count { (other : List ℕ) → F.load_faults files.old other ≤ F.load_faults files.new other }
    ensures miss_count { (other : List ℕ) → F.misses files.old other ≤ F.misses files.new other }
    ensures save_count { F.save_faults files.new ≡ F.save_faults files.old }
{
    let target = match import_file(alloc, file.name.as_str(), import.0.as_str()) {
        Ok(target) => target,
        Err(_) => return Err(no_memory(alloc)),
    };
    let becomes = import_of(
        room,
        loading.stack.as_slice(),
        loading.finished.as_slice(),
        earlier,
        &import.0,
        &target,
    );
    match becomes {
        Import::Loaded => Ok(loading),
        Import::New => load_file(alloc, room, target, loading, files),
        Import::Refused(fault) => Err(refused_at(alloc, file, import.1, word(fault))),
    }
}

// The name as a name of a file that is being loaded, and no file that is finished.
fn started(alloc: Global, name: &Name) -> Result<Loading, AllocError>
    ensures value { IfOk result (λ loading. (loading.finished ≡ []) × (loading.stack ≡ name.now ∷ [])) }
{
    let mut stack = Items::new(alloc);
    stack.push(name.copy(alloc)?)?;
    Ok(Loading {
        finished: Items::new(alloc),
        stack,
    })
}

// What the source imports, before it.
fn load_behind<F: Files>(
    alloc: Global,
    source: SourceFile,
    files: &mut F,
) -> Result<Sources, Answer>
    ensures gives { During (F.told files.old) (F.load_faults files.old) (F.load_faults files.new) (F.misses files.old) (F.misses files.new) (λ s. Gives s (spec.loads_behind s source) result) }
    ensures source { IfOk result (λ sources. sources.source ≡ source) }
    ensures kept { (other : List ℕ) → F.told files.new other ≡ F.told files.old other }
    ensures load_count { (other : List ℕ) → F.load_faults files.old other ≤ F.load_faults files.new other }
    ensures miss_count { (other : List ℕ) → F.misses files.old other ≤ F.misses files.new other }
    ensures save_count { F.save_faults files.new ≡ F.save_faults files.old }
{
    let loading = match started(alloc, &source.name) {
        Ok(loading) => loading,
        Err(_) => return Err(no_memory(alloc)),
    };
    match load_imports(alloc, MOST_FILES - 1, &source, 0, loading, files) {
        Ok(loading) => Ok(Sources {
            imported: loading.finished,
            source,
        }),
        Err(answer) => Err(answer),
    }
}

/// The files of the program whose source has this name, or the answer of why it has none: the first file that isn't loaded or is no
/// program, or the first import that is refused, in the order in which files are loaded. After its text, an import of a file is looked
/// at only when all that stands before it is loaded.
///
/// It loads each file once. Linear in the files, beside comparing each import with the names of at most 64 files.
pub fn load_program<F: Files>(alloc: Global, name: &str, files: &mut F) -> Result<Sources, Answer>
    ensures gives { During (F.told files.old) (F.load_faults files.old) (F.load_faults files.new) (F.misses files.old) (F.misses files.new) (λ s. Gives s (spec.loads s name.now) result) }
    ensures within { IfOk result (λ sources. length sources.source.bytes ≤ source_limit) }
    ensures kept { (other : List ℕ) → F.told files.new other ≡ F.told files.old other }
    ensures load_count { (other : List ℕ) → F.load_faults files.old other ≤ F.load_faults files.new other }
    ensures miss_count { (other : List ℕ) → F.misses files.old other ≤ F.misses files.new other }
    ensures save_count { F.save_faults files.new ≡ F.save_faults files.old }
{
    let name = match String::from_str(alloc, name) {
        Ok(name) => Name::new(name),
        Err(_) => return Err(no_memory(alloc)),
    };
    match read_file(alloc, name, files) {
        Ok(source) => load_behind(alloc, source, files),
        Err(answer) => Err(answer),
    }
}
