//! The cache that a command names.
ghost use Rattle.std.specs.Prelude.{◌≡◌, ◌≤◌, ℕ, List, IfOk, IfErr};
ghost use Rattle.wy_cache_text.specs.Files.{IsReadAs};
ghost use Rattle.wy_cache_text.specs.Seen.{all_held};
ghost use Rattle.wy_top_probe.specs.wy_top_answers.Answers as answers;
ghost use Rattle.wy_top_probe.specs.wy_top_answers.Steps.{During, Gives, came};
ghost use Rattle.wy_top.specs.Caches.{caches};
ghost use Rattle.wy_top.specs.Kept.{entries_in};

use std::alloc::Global;
use wy_cache::{Cache, read_cache};
use wy_port::Files;
use wy_top_probe::wy_top_answers::{Answer, load, no_memory};

/// The most bytes of a cache.
const CACHE_LIMIT: u64 = 16_777_216;

/// The status where a file is absent.
const ABSENT: u8 = 3;

// The entries of the cache in these bytes.
fn read(alloc: Global, bytes: &[u8]) -> Result<Cache, Answer>
    ensures value { IfOk result (λ c. IsReadAs bytes.now (all_held c.entries.items)) }
    ensures memory { IfErr result (λ a. a ≡ answers.no_memory) }
{
    match read_cache(alloc, bytes) {
        Ok(cache) => Ok(cache),
        Err(_) => Err(no_memory(alloc)),
    }
}

/// The entries of the cache in this file. There are none where the bytes are no cache, nor where there is no file.
pub fn cache_in<F: Files>(alloc: Global, name: &str, files: &mut F) -> Result<Cache, Answer>
    ensures gives { During (F.told files.old) (F.load_faults files.old) (F.load_faults files.new)
        (F.misses files.old) (F.misses files.new)
        (λ s. Gives s (caches s name.now) (came entries_in result)) }
    ensures kept { (other : List ℕ) → F.told files.new other ≡ F.told files.old other }
    ensures load_count { (other : List ℕ) → F.load_faults files.old other ≤ F.load_faults files.new other }
    ensures miss_count { (other : List ℕ) → F.misses files.old other ≤ F.misses files.new other }
    ensures save_count { F.save_faults files.new ≡ F.save_faults files.old }
{
    match load(alloc, name, CACHE_LIMIT, files) {
        Ok(bytes) => read(alloc, bytes.as_slice()),
        Err(answer) => {
            if answer.status != ABSENT {
                return Err(answer);
            }
            Ok(Cache {
                entries: Vec::new(alloc),
            })
        }
    }
}
