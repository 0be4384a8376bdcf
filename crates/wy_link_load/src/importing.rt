//! An import: the file that it names, and what becomes of it before that file is loaded.
ghost use Rattle.std.specs.Prelude.{◌≡◌, ◌<◌, map, IfOk};
ghost use Rattle.std.specs.String.{string_bytes};
ghost use Rattle.wy_link_load.specs.Imports as spec;
ghost use Rattle.wy_link_load.specs.declared.importing.Import.TheVariants.{New};
ghost use Rattle.wy_port.specs.FilesInMemory.{is_among};

use crate::file::SourceFile;
use std::alloc::{AllocError, Global};
use wy_data::Name;

/// Why an import is refused.
#[derive(Clone, Copy)]
pub enum ImportFault {
    /// Its file is one of those that are being loaded: the file itself imports it, or one that leads there.
    Cycle,
    /// The same file has imported the name before.
    Twice,
    /// It would be the 65th file.
    TooMany,
}

/// What becomes of an import.
#[derive(Clone, Copy)]
pub enum Import {
    /// Its file is loaded already, and so is all that it imports.
    Loaded,
    /// Its file is to be loaded.
    New,
    Refused(ImportFault),
}

/// The word for the fault.
pub fn word(fault: ImportFault) -> &'static str
    ensures value { result.now ≡ spec.word fault }
{
    match fault {
        ImportFault::Cycle => "Cycle",
        ImportFault::Twice => "Twice",
        ImportFault::TooMany => "TooMany",
    }
}

// The text of the file of `name` beside `file`.
fn text_beside(alloc: Global, file: &str, name: &str) -> Result<String, AllocError>
    ensures value { IfOk result (λ s. string_bytes s ≡ spec.import_file file.now name.now) }
{
    match file.rsplit_once('/') {
        Some((folder, _)) => format!(in alloc; "{folder}/{name}.wy"),
        None => format!(in alloc; "{name}.wy"),
    }
}

/// The file that an import of `name` names in `file`: `name.wy` in the same folder, which is what stands in `file` up to its last
/// slash.
pub fn import_file(alloc: Global, file: &str, name: &str) -> Result<Name, AllocError>
    ensures value { IfOk result (λ target. target ≡ spec.import_file file.now name.now) }
{
    let text = text_beside(alloc, file, name)?;
    Ok(Name::new(text))
}

// Whether the name is one of these.
fn is_listed(names: &[Name], name: &Name) -> bool
    ensures value { result ≡ is_among names.now name.now }
{
    for one in names {
        if one.is(name) {
            return true;
        }
    }
    false
}

// Whether one of these imports has the name.
fn is_imported(imports: &[(Name, u32)], name: &Name) -> bool
    ensures value { result ≡ is_among (map spec.name_of imports.now) name.now }
{
    for import in imports {
        if import.0.is(name) {
            return true;
        }
    }
    false
}

// Whether one of these files has the name.
fn is_loaded(files: &[SourceFile], name: &Name) -> bool
    ensures value { result ≡ is_among (map spec.file_name files.now) name.now }
{
    for file in files {
        if file.name.is(name) {
            return true;
        }
    }
    false
}

/// What becomes of an import of `name`, which names the file `target`, by a file that imported those of `earlier` before. The files
/// of `stack` are being loaded, those of `finished` are loaded, and there is room for so many besides those that are being loaded.
pub fn import_of(
    room: usize,
    stack: &[Name],
    finished: &[SourceFile],
    earlier: &[(Name, u32)],
    name: &Name,
    target: &Name,
) -> Import
    ensures value { result ≡ spec.import_of room stack.now finished.now earlier.now name.now target.now }
    ensures room { result ≡ New → 0 < room }
{
    if is_listed(stack, target) {
        return Import::Refused(ImportFault::Cycle);
    }
    if is_imported(earlier, name) {
        return Import::Refused(ImportFault::Twice);
    }
    if is_loaded(finished, target) {
        return Import::Loaded;
    }
    if finished.len() < room {
        return Import::New;
    }
    Import::Refused(ImportFault::TooMany)
}
