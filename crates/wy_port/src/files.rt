//! Files by name: the trait, and why a file wasn't loaded or saved.
ghost use Rattle.std.specs.Prelude.{◌≡◌, ◌≢◌, OnOk, ◌≤◌, ℕ, List, IfOk, IsErrOf, vec_len};
ghost use Rattle.wy_port.specs.Count.{Rose};
ghost use Rattle.wy_port.specs.Told.{Told, MayBe, IsMissing, IsTooLong, IsSaved};
ghost use Rattle.wy_port.specs.Told.Told.{Unknown};
ghost use Rattle.wy_port.specs.declared.files.LoadFault.TheVariants.{NoMemory};
ghost use Rattle.wy_port.specs.declared.files.SaveFault.TheVariants.{NoMemory as NoMemoryToSave};

use std::alloc::{AllocError, AllocFailed, Global};

/// Why a file was not loaded.
#[derive(Clone, Copy, Debug, PartialEq, Eq)]
pub enum LoadFault {
    /// No file has the name.
    Absent,
    /// The file has more bytes than the limit.
    TooLong,
    /// The outside failed, and the count of load faults rose.
    Failed,
    /// Memory ran out.
    NoMemory,
}

impl From<AllocError> for LoadFault {
    ghost from_gives = { λ _ e. e ≡ NoMemory };

    fn from(_: AllocError) -> Self {
        LoadFault::NoMemory
    }
}

impl<T: Drop> From<AllocFailed<T>> for LoadFault {
    ghost from_gives = { λ _ e. e ≡ NoMemory };

    fn from(_: AllocFailed<T>) -> Self {
        LoadFault::NoMemory
    }
}

/// Why a file was not saved.
#[derive(Clone, Copy, Debug, PartialEq, Eq)]
pub enum SaveFault {
    /// The outside failed, and the count of save faults rose.
    Failed,
    /// Memory ran out.
    NoMemory,
}

impl From<AllocError> for SaveFault {
    ghost from_gives = { λ _ e. e ≡ NoMemoryToSave };

    fn from(_: AllocError) -> Self {
        SaveFault::NoMemory
    }
}

impl<T: Drop> From<AllocFailed<T>> for SaveFault {
    ghost from_gives = { λ _ e. e ≡ NoMemoryToSave };

    fn from(_: AllocFailed<T>) -> Self {
        SaveFault::NoMemory
    }
}

/// A map from names to bytes, which counts its faults. Each count stays at 2^64 - 1 once it is there. A count for a name
/// rises where a load of that name fails; what else makes it rise isn't said, so it may be one count for all names.
pub trait Files {
    /// What is known of the file under a name.
    ghost told: { Self → List ℕ → Told };

    /// At least how often a load of the name has failed.
    ghost load_faults: { Self → List ℕ → ℕ };

    /// How often a save has failed.
    ghost save_faults: { Self → ℕ };

    /// At least how often the file under the name, of which nothing is told, was absent or too long.
    ghost misses: { Self → List ℕ → ℕ };

    /// The bytes under `name`, of which there are at most `limit`. It changes no file.
    ///
    /// [`LoadFault::Failed`] comes only where the name's count of load faults rose. Where the file is told, the answer is
    /// [`LoadFault::Absent`] or [`LoadFault::TooLong`] exactly where it is so, but for failure and want of memory;
    /// where it isn't told, both come only where the name's count of misses rose, and nothing is said of two loads of
    /// the same file.
    fn load(&mut self, alloc: Global, name: &str, limit: u64) -> Result<Vec<u8>, LoadFault>
        ensures found { IfOk result (λ bytes. MayBe (told self.old name.now) bytes.items) }
        ensures within { IfOk result (λ bytes. vec_len bytes ≤ limit) }
        ensures absent { IsErrOf result LoadFault.Absent → IsMissing (told self.old name.now) (misses self.old name.now) (misses self.new name.now) }
        ensures too_long { IsErrOf result LoadFault.TooLong → IsTooLong (told self.old name.now) limit (misses self.old name.now) (misses self.new name.now) }
        ensures cause { IsErrOf result LoadFault.Failed → Rose (load_faults self.old name.now) (load_faults self.new name.now) }
        ensures kept { (other : List ℕ) → told self.new other ≡ told self.old other }
        ensures load_count { (other : List ℕ) → load_faults self.old other ≤ load_faults self.new other }
        ensures save_count { save_faults self.new ≡ save_faults self.old }
        ensures miss_count { (other : List ℕ) → misses self.old other ≤ misses self.new other };

    /// Puts `bytes` under `name`, and leaves all other names as they were.
    ///
    /// At [`SaveFault::Failed`], which comes only where the count of save faults rose, this one name is no longer
    /// told. At [`SaveFault::NoMemory`] every file is as before.
    fn save(&mut self, alloc: Global, name: &str, bytes: &[u8]) -> Result<(), SaveFault>
        ensures saved { OnOk result (IsSaved (told self.old name.now) (told self.new name.now) bytes.now) }
        ensures kept { (other : List ℕ) → other ≢ name.now → told self.new other ≡ told self.old other }
        ensures cause { IsErrOf result SaveFault.Failed → Rose (save_faults self.old) (save_faults self.new) }
        ensures untold { IsErrOf result SaveFault.Failed → told self.new name.now ≡ Unknown }
        ensures no_memory { IsErrOf result SaveFault.NoMemory → told self.new name.now ≡ told self.old name.now }
        ensures load_count { load_faults self.new ≡ load_faults self.old }
        ensures save_count { save_faults self.old ≤ save_faults self.new }
        ensures miss_count { misses self.new ≡ misses self.old };
}
