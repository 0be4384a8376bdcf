//! The writer of cache files.
ghost use Rattle.std.specs.Prelude.{◌≡◌, ◌++◌, ◌∷◌, [], List, IfOk, OnOk};
ghost use Rattle.std.specs.Fmt.{decimal};
ghost use Rattle.wy_cache_text.specs.Written as written;
ghost use Rattle.wy_cache_text.specs.Written.{row_text, IsLongest};
ghost use Rattle.wy_cache_text.specs.SoFar.{seen_row, IsSoFar};

use std::alloc::{AllocError, Global};
use std::collections::HashSet;

/// The most bytes of a cache file, without the last line.
const LIMIT: usize = 16_777_212;

/// What an entry is written from.
#[derive(Drop)]
pub struct Row<'a> {
    /// How many hypotheses the condition has.
    pub hypotheses: usize,
    /// The lines of the hypotheses and of the goal.
    pub key: Vec<u8>,
    /// How many steps there are.
    pub number: usize,
    /// The lines of the steps.
    pub steps: &'a [u8],
}

/// A cache file in the making.
#[derive(Drop)]
pub struct Writer {
    out: Vec<u8>,
    keys: HashSet<Vec<u8>>,
    full: bool,
}

// An entry as it is written.
fn entry_text(alloc: Global, row: &Row<'_>) -> Result<Vec<u8>, AllocError>
    ensures value { IfOk result (λ text. text.items ≡ row_text (seen_row row.now)) }
{
    let (hypotheses, number) = (row.hypotheses, row.number);
    let first = format!(in alloc; "for {hypotheses}\n")?;
    let second = format!(in alloc; "by {number}\n")?;
    let mut text = Vec::from_slice(alloc, first.as_bytes())?;
    text.extend_from_slice(row.key.as_slice())?;
    text.extend_from_slice(second.as_bytes())?;
    text.extend_from_slice(row.steps)?;
    Ok(text)
}

impl Writer {
    /// A file without entries.
    pub fn new(alloc: Global) -> Result<Writer, AllocError>
        ensures value { IfOk result (IsSoFar []) }
    {
        Ok(Writer {
            out: Vec::from_slice(alloc, b"wycache 1\n")?,
            keys: HashSet::new(alloc),
            full: false,
        })
    }

    /// Whether an entry did not fit. Then none is written any more.
    pub fn is_full(&self) -> bool
        ensures value { result ≡ self.now.full }
    {
        self.full
    }

    /// Writes an entry, unless one with its key was given before, or it does not fit, or another didn't. It takes expected
    /// time linear in the entry.
    pub fn put(&mut self, row: Row<'_>) -> Result<(), AllocError>
        ensures value { (rows : List written.Row) → IsSoFar rows self.old → OnOk result (IsSoFar (rows ++ seen_row row.entry ∷ []) self.new) }
    {
        if self.full {
            return Ok(());
        }
        if self.keys.contains(row.key.as_slice()) {
            return Ok(());
        }
        let text = entry_text(*self.out.allocator(), &row)?;
        if self.out.len() + text.len() > LIMIT {
            self.full = true;
            return Ok(());
        }
        self.out.extend_from_slice(text.as_slice())?;
        self.keys.insert(row.key)?;
        Ok(())
    }

    /// The bytes of the file.
    pub fn finish(self) -> Result<Vec<u8>, AllocError>
        ensures value { (rows : List written.Row) → IsSoFar rows self → IfOk result (λ bytes. IsLongest rows bytes.items) }
    {
        let Writer {
            mut out,
            keys: _keys,
            full: _full,
        } = self;
        out.extend_from_slice(b"end\n")?;
        Ok(out)
    }
}
