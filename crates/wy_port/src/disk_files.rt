//! Files of the system.
ghost use Rattle.std.specs.Prelude.{◌≡◌, ◌≢◌, ◌<◌, ◌≤◌, ◌+◌, length, IfOk, OnOk, IfSome, IsErrOf, vec_len};
ghost use Rattle.std.specs.Io.KnownBytes.{Consumes, IsAtEnd};
ghost use Rattle.wy_port.specs.Given.{GaveAtMost};
ghost use Rattle.wy_port.specs.Told.Told.{Unknown};

use crate::files::{Files, LoadFault, SaveFault};
use crate::whole_save;
use std::alloc::Global;
use std::io::{ErrorKind, Read};
use std::{fs, rt};

/// The files of a runtime, as those of the system. It tells no contents.
///
/// A name is a path. Its counts, one for the faults of all names, stand at 0 first. A load reads at most one byte more than
/// its limit. A save writes a new file beside the old one, makes it whole on the disk and puts it in the old one's place, so
/// that on any failure the old file is as it was. What is no regular file, as a terminal or a pipe, is written over.
#[derive(Drop)]
pub struct DiskFiles<'a, R: rt::Files> {
    rt: &'a R,
    load_faults: u64,
    save_faults: u64,
    misses: u64,
}

impl<'a, R: rt::Files> DiskFiles<'a, R> {
    /// The files of `rt`, with no fault yet.
    pub fn new(rt: &'a R) -> DiskFiles<'a, R>
        ensures load_faults { result.load_faults ≡ 0 }
        ensures save_faults { result.save_faults ≡ 0 }
        ensures misses { result.misses ≡ 0 }
    {
        DiskFiles {
            rt,
            load_faults: 0,
            save_faults: 0,
            misses: 0,
        }
    }
}

// What an error of the system means for a load.
fn load_fault(kind: ErrorKind) -> LoadFault
    ensures known { result ≢ LoadFault.TooLong }
{
    match kind {
        ErrorKind::NotFound => LoadFault::Absent,
        ErrorKind::OutOfMemory => LoadFault::NoMemory,
        _ => LoadFault::Failed,
    }
}

// All that a reader gives, in at most so many bytes. It takes at most one byte more from it.
fn read_up_to<T: Read>(alloc: Global, reader: &mut T, limit: u64) -> Result<Vec<u8>, LoadFault>
    ensures within { IfOk result (λ bytes. vec_len bytes ≤ limit) }
    ensures whole { IfOk result (λ bytes. Consumes (T.remaining reader.old) (T.remaining reader.new) bytes.items) }
    ensures end { OnOk result (IsAtEnd (T.remaining reader.new)) }
    ensures longer { IsErrOf result LoadFault.TooLong → IfSome (T.remaining reader.old) (λ bytes. limit < length bytes) }
    ensures most { GaveAtMost (T.remaining reader.old) (T.remaining reader.new) (limit + 1) }
{
    let mut bytes = Vec::new(alloc);
    let mut piece = [0u8; 4096];
    for _ in 0..u64::MAX {
        let wanted = (limit - bytes.len() as u64).saturating_add(1).min(4096) as usize;
        let count = match reader.read(&mut piece[..wanted]) {
            Ok(count) => count,
            Err(e) => {
                if e.kind() == ErrorKind::Interrupted {
                    continue;
                }
                return Err(load_fault(e.kind()));
            }
        };
        if count == 0 {
            return Ok(bytes);
        }
        if count as u64 > limit - bytes.len() as u64 {
            return Err(LoadFault::TooLong);
        }
        bytes.extend_from_slice(&piece[..count])?;
    }
    Err(LoadFault::Failed)
}

// The bytes of the file at a path, in at most so many bytes.
fn read_file<R: rt::Files>(
    rt: &R,
    alloc: Global,
    name: &str,
    limit: u64,
) -> Result<Vec<u8>, LoadFault>
    ensures within { IfOk result (λ bytes. vec_len bytes ≤ limit) }
{
    match fs::open(rt, name) {
        Ok(file) => {
            let mut file = file;
            read_up_to(alloc, &mut file, limit)
        }
        Err(e) => Err(load_fault(e.kind())),
    }
}

impl<'a, R: rt::Files> Files for DiskFiles<'a, R> {
    ghost told = { λ _ _. Unknown };

    ghost load_faults = { λ s _. s.load_faults };

    ghost save_faults = { λ s. s.save_faults };

    ghost misses = { λ s _. s.misses };

    fn load(&mut self, alloc: Global, name: &str, limit: u64) -> Result<Vec<u8>, LoadFault> {
        let loaded = read_file(self.rt, alloc, name, limit);
        match loaded {
            Err(LoadFault::Failed) => self.load_faults = self.load_faults.saturating_add(1),
            Err(LoadFault::Absent) | Err(LoadFault::TooLong) => self.misses = self
                .misses
                .saturating_add(1),
            _ => {}
        }
        loaded
    }

    fn save(&mut self, alloc: Global, name: &str, bytes: &[u8]) -> Result<(), SaveFault> {
        let saved = whole_save::save(self.rt, alloc, name, bytes);
        if let Err(SaveFault::Failed) = saved {
            self.save_faults = self.save_faults.saturating_add(1);
        }
        saved
    }
}
