//! Files in memory.
ghost use Rattle.std.specs.Prelude.{◌≡◌, ◌≢◌, ◌≤◌, ◌+◌, ◌∷◌, ℕ, List, OnOk, OnErr, IfOk, IsErrOf, [], MatchOption, MatchResult, IsTrue, false, min, vec_len};
ghost use Rattle.wy_port.specs.Count.{Rose};
ghost use Rattle.wy_port.specs.Told.{MayBe, IsMissing, IsTooLong, IsSaved};
ghost use Rattle.std.specs.String.{string_bytes};
ghost use Rattle.wy_port.specs.Told.Told.{Unknown, Lacking, Holding};
ghost use Rattle.wy_port.specs.FilesInMemory.{FilesState, plain_files, plain_names, file_at, is_among, has_file as has_file_of, are_different, told_of, fails_next, FailsAsListed, FailsToSaveAsListed};

use crate::files::{Files, LoadFault, SaveFault};
use std::alloc::{AllocError, Global};
use std::marker::Model;

/// Files in memory. It tells what stands under each name but those that a failed save left untold.
///
/// It counts its loads and saves from 0, and fails those that its maker listed. The faults of all names have one count. A
/// failed save writes nothing, and leaves its name untold for good. Loads and saves take time that grows with the number of
/// saves.
#[derive(Drop)]
pub struct MemFiles {
    files: Vec<(String, Vec<u8>)>,
    untold: Vec<String>,
    fails: Vec<u64>,
    calls: u64,
    load_faults: u64,
    save_faults: u64,
    misses: u64,
}

impl Model for MemFiles {
    ghost Value = { FilesState };

    ghost view = { λ s. record { files = plain_files s.files.items; untold = plain_names s.untold.items; fails = s.fails.items; calls = s.calls; load_faults = s.load_faults; save_faults = s.save_faults; misses = s.misses } };
}

/// Whether no name stands twice among these files, as [`MemFiles::new`] asks. It compares each two names.
pub fn have_different_names(files: &[(String, Vec<u8>)]) -> bool
    ensures value { result ≡ are_different (plain_files files.now) }
{
    let mut rest = files;
    while let [file, others @ ..] = rest {
        if has_file(others, file.0.as_str()) {
            return false;
        }
        rest = others;
    }
    true
}

// Whether a file has the name.
fn has_file(files: &[(String, Vec<u8>)], name: &str) -> bool
    ensures value { result ≡ has_file_of (plain_files files.now) name.now }
{
    for file in files {
        if file.0.as_str() == name {
            return true;
        }
    }
    false
}

// The bytes of the first file with the name.
fn find<'a>(files: &'a [(String, Vec<u8>)], name: &str) -> Option<&'a [u8]>
    ensures value { MatchOption result (file_at (plain_files files.now) name.now ≡ Lacking)
        (λ bytes. file_at (plain_files files.now) name.now ≡ Holding bytes.now) }
{
    for file in files {
        if file.0.as_str() == name {
            return Some(&file.1);
        }
    }
    None
}

// Whether the name is one of these.
fn is_listed(names: &[String], name: &str) -> bool
    ensures value { result ≡ is_among (plain_names names.now) name.now }
{
    for one in names {
        if one.as_str() == name {
            return true;
        }
    }
    false
}

// One more name, before the others.
fn add_name(names: &mut Vec<String>, name: String) -> Result<(), AllocError>
    ensures value { OnOk result (plain_names names.new.items ≡ string_bytes name ∷ plain_names names.old.items) }
    ensures kept { OnErr result (names.new.items ≡ names.old.items) }
{
    names.insert(0, name)?;
    Ok(())
}

// One more file, before the others.
fn add_file(
    files: &mut Vec<(String, Vec<u8>)>,
    name: String,
    bytes: Vec<u8>,
) -> Result<(), AllocError>
    ensures value { OnOk result (plain_files files.new.items ≡ (string_bytes name, bytes.items) ∷ plain_files files.old.items) }
    ensures kept { OnErr result (files.new.items ≡ files.old.items) }
{
    files.insert(0, (name, bytes))?;
    Ok(())
}

impl MemFiles {
    /// These files, of which no name stands twice. The calls whose numbers are in `fails`, counted from 0, fail.
    pub fn new(files: Vec<(String, Vec<u8>)>, fails: Vec<u64>) -> MemFiles
        requires { IsTrue (are_different (plain_files files.items)) }
        ensures value { result ≡ record { files = plain_files files.items; untold = []; fails = fails.items; calls = 0; load_faults = 0; save_faults = 0; misses = 0 } }
    {
        let untold = Vec::new(*files.allocator());
        MemFiles {
            files,
            untold,
            fails,
            calls: 0,
            load_faults: 0,
            save_faults: 0,
            misses: 0,
        }
    }

    /// The bytes that stand under a name, which a load within its limit would give.
    ///
    /// A failed save has written nothing. So of a name that it left untold, this is what stood there before.
    pub fn bytes(&self, name: &str) -> Option<&[u8]>
        ensures value { MatchOption result (file_at self.now.files name.now ≡ Lacking)
            (λ bytes. file_at self.now.files name.now ≡ Holding bytes.now) }
    {
        find(&self.files, name)
    }
}

impl Files for MemFiles {
    ghost told = { told_of };

    ghost load_faults = { λ s _. s.load_faults };

    ghost save_faults = { λ s. s.save_faults };

    ghost misses = { λ s _. s.misses };

    fn load(&mut self, alloc: Global, name: &str, limit: u64) -> Result<Vec<u8>, LoadFault>
        ensures found { IfOk result (λ bytes. MayBe (told_of self.old name.now) bytes.items) }
        ensures within { IfOk result (λ bytes. vec_len bytes ≤ limit) }
        ensures absent { IsErrOf result LoadFault.Absent → IsMissing (told_of self.old name.now) self.old.misses self.new.misses }
        ensures too_long { IsErrOf result LoadFault.TooLong → IsTooLong (told_of self.old name.now) limit self.old.misses self.new.misses }
        ensures cause { IsErrOf result LoadFault.Failed → Rose self.old.load_faults self.new.load_faults }
        ensures kept { (other : List ℕ) → told_of self.new other ≡ told_of self.old other }
        ensures load_count { (other : List ℕ) → self.old.load_faults ≤ self.new.load_faults }
        ensures save_count { self.new.save_faults ≡ self.old.save_faults }
        ensures miss_count { (other : List ℕ) → self.old.misses ≤ self.new.misses }

        // It fails exactly where it is listed, what it loads stands there, a miss is counted at an untold name alone,
        // and it counts the call.
        ensures fails { MatchResult result (λ _. fails_next self.old ≡ false) (FailsAsListed (fails_next self.old)) }
        ensures stands { IfOk result (λ bytes. file_at self.old.files name.now ≡ Holding bytes.items) }
        ensures told { is_among self.old.untold name.now ≡ false → self.new.misses ≡ self.old.misses }
        ensures calls { self.new.calls ≡ min (self.old.calls + 1) 18446744073709551615 }
    {
        let call = self.calls;
        self.calls = self.calls.saturating_add(1);
        if self.fails.contains(&call) {
            self.load_faults = self.load_faults.saturating_add(1);
            return Err(LoadFault::Failed);
        }
        match find(&self.files, name) {
            None => {
                if is_listed(&self.untold, name) {
                    self.misses = self.misses.saturating_add(1);
                }
                Err(LoadFault::Absent)
            }
            Some(bytes) => {
                if bytes.len() as u64 > limit {
                    if is_listed(&self.untold, name) {
                        self.misses = self.misses.saturating_add(1);
                    }
                    return Err(LoadFault::TooLong);
                }
                match Vec::from_slice(alloc, bytes) {
                    Ok(copy) => Ok(copy),
                    Err(_) => Err(LoadFault::NoMemory),
                }
            }
        }
    }

    fn save(&mut self, alloc: Global, name: &str, bytes: &[u8]) -> Result<(), SaveFault>
        ensures saved { OnOk result (IsSaved (told_of self.old name.now) (told_of self.new name.now) bytes.now) }
        ensures kept { (other : List ℕ) → other ≢ name.now → told_of self.new other ≡ told_of self.old other }
        ensures cause { IsErrOf result SaveFault.Failed → Rose self.old.save_faults self.new.save_faults }
        ensures untold { IsErrOf result SaveFault.Failed → told_of self.new name.now ≡ Unknown }
        ensures no_memory { IsErrOf result SaveFault.NoMemory → told_of self.new name.now ≡ told_of self.old name.now }
        ensures load_count { self.new.load_faults ≡ self.old.load_faults }
        ensures save_count { self.old.save_faults ≤ self.new.save_faults }
        ensures miss_count { self.new.misses ≡ self.old.misses }

        // It fails exactly where it is listed, unless memory runs out, and it counts the call.
        ensures fails { MatchResult result (λ _. fails_next self.old ≡ false) (FailsToSaveAsListed (fails_next self.old)) }
        ensures calls { self.new.calls ≡ min (self.old.calls + 1) 18446744073709551615 }
    {
        let call = self.calls;
        self.calls = self.calls.saturating_add(1);
        let owned = String::from_str(alloc, name)?;
        if self.fails.contains(&call) {
            add_name(&mut self.untold, owned)?;
            self.save_faults = self.save_faults.saturating_add(1);
            return Err(SaveFault::Failed);
        }
        let copy = Vec::from_slice(alloc, bytes)?;
        add_file(&mut self.files, owned, copy)?;
        Ok(())
    }
}
