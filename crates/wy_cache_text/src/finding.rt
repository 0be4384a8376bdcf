//! Entries by their keys.
ghost use Rattle.std.specs.Prelude.{◌≡◌, IfOk};
ghost use Rattle.std.specs.Option.{option_map};
ghost use Rattle.wy_cache_text.specs.Files.{Entries};
ghost use Rattle.wy_cache_text.specs.Found.{steps_for, IsTable};
ghost use Rattle.wy_cache_text.specs.Seen.{all_held};

use crate::entry::Cache;
use std::alloc::{AllocError, Global};
use std::collections::HashMap;

/// The steps of the first entry with each key, found by a digest of the key.
#[derive(Drop)]
pub struct Table<'a> {
    steps: HashMap<&'a [u8], &'a [u8]>,
}

/// The table of a cache, in expected time linear in its keys. It borrows keys and steps.
pub fn table_of(alloc: Global, cache: &Cache) -> Result<Table<'_>, AllocError>
    ensures value { IfOk result (IsTable (all_held cache.now.entries.items)) }
{
    let mut steps = HashMap::new(alloc);
    let mut place = cache.entries.len();
    'back: while place > 0 {
        place -= 1;
        let entry = &cache.entries[place];
        steps.insert(entry.key.as_slice(), entry.steps.as_slice())?;
    }
    Ok(Table { steps })
}

impl<'a> Table<'a> {
    /// The steps of the first entry with this key, in expected time linear in the key. It takes no memory.
    pub fn get(&self, key: &[u8]) -> Option<&'a [u8]>
        ensures value { (es : Entries) → IsTable es self.now → option_map (λ s. s.now) result ≡ steps_for es key.now }
    {
        self.steps.get(key).copied()
    }
}
