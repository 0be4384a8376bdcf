//! A save of a whole file: the new bytes take the place of the old ones at once, or not at all.

use crate::files::SaveFault;
use crate::sink::write_whole;
use crate::std_sink::StdSink;
use std::alloc::{AllocError, Global};
use std::fs::{OpenFile, OpenOptions, Permissions};
use std::io::{ErrorKind, Write};
use std::path::AsPath;
use std::{fs, rt};

/// How many names are tried for the new file.
const TRIES: u32 = 100;

/// What an error of the system means for a save that has changed nothing.
fn save_fault(kind: ErrorKind) -> SaveFault {
    match kind {
        ErrorKind::OutOfMemory => SaveFault::NoMemory,
        _ => SaveFault::Failed,
    }
}

/// Puts `bytes` under a path: in a new file beside the old one, which takes its place once it is whole on the disk. On a
/// failure the old file is as it was, and the new one is removed. A link stays, and what it leads to is replaced; the
/// new file has the permissions of the old one, where the system lets it. What is no regular file, as a terminal, a pipe
/// or a device, is written over.
pub fn save<R: rt::Files>(
    rt: &R,
    alloc: Global,
    path: &str,
    bytes: &[u8],
) -> Result<(), SaveFault> {
    match fs::metadata(rt, path) {
        Ok(old) if old.is_file() => match rt.canonicalize(alloc, path) {
            Ok(real) => replace(rt, alloc, real.path_text(), Some(old.permissions()), bytes),
            Err(e) => Err(save_fault(e.kind())),
        },
        Ok(_) => write_over(rt, path, bytes),
        Err(e) if e.kind() == ErrorKind::NotFound => replace(rt, alloc, path, None, bytes),
        Err(e) => Err(save_fault(e.kind())),
    }
}

// Writes over what stands at a path.
fn write_over<R: rt::Files>(rt: &R, path: &str, bytes: &[u8]) -> Result<(), SaveFault> {
    match fs::create(rt, path) {
        Ok(file) => match write_whole(&mut StdSink::new(file), bytes) {
            Ok(()) => Ok(()),
            Err(_) => Err(SaveFault::Failed),
        },
        Err(e) => Err(save_fault(e.kind())),
    }
}

// Puts a new file in the place of the one at a path, if there is one.
fn replace<R: rt::Files>(
    rt: &R,
    alloc: Global,
    path: &str,
    old: Option<Permissions>,
    bytes: &[u8],
) -> Result<(), SaveFault> {
    let (part, file) = open_part(rt, alloc, path)?;
    let made = match fill(file, old, bytes) {
        Ok(()) => moved(rt, &part, path),
        Err(e) => Err(e),
    };
    if made.is_err() {
        let _ = fs::remove_file(rt, part.as_str());
    }
    made
}

// Opens a new file in the folder of a path, under the first name that isn't taken.
fn open_part<R: rt::Files>(
    rt: &R,
    alloc: Global,
    path: &str,
) -> Result<(String, R::File), SaveFault> {
    for number in 0..TRIES {
        let name = part_name(alloc, path, number)?;
        match OpenOptions::new()
            .write(true)
            .create_new(true)
            .open(rt, name.as_str())
        {
            Ok(file) => return Ok((name, file)),
            Err(e) if e.kind() == ErrorKind::AlreadyExists => {}
            Err(e) => return Err(save_fault(e.kind())),
        }
    }
    Err(SaveFault::Failed)
}

// The name with this number in the folder of a path.
fn part_name(alloc: Global, path: &str, number: u32) -> Result<String, AllocError> {
    match path.rsplit_once('/') {
        Some((folder, _)) => format!(in alloc; "{folder}/.wy-part-{number}"),
        None => format!(in alloc; ".wy-part-{number}"),
    }
}

// Writes a new file, until it is whole on the disk.
fn fill<F: Write + OpenFile + Drop>(
    file: F,
    old: Option<Permissions>,
    bytes: &[u8],
) -> Result<(), SaveFault> {
    let mut file = file;
    if write_whole(&mut StdSink::new(&mut file), bytes).is_err() {
        return Err(SaveFault::Failed);
    }
    if let Some(permissions) = old {
        let _ = file.set_permissions(permissions);
    }
    match file.sync_all() {
        Ok(()) => Ok(()),
        Err(e) => Err(save_fault(e.kind())),
    }
}

// Gives the file at one path the name of another.
fn moved<R: rt::Files>(rt: &R, from: &str, to: &str) -> Result<(), SaveFault> {
    match fs::rename(rt, from, to) {
        Ok(()) => Ok(()),
        Err(e) => Err(save_fault(e.kind())),
    }
}
