//! The reader of cache files.
ghost use Rattle.std.specs.Prelude.{◌≡◌, IfOk, MatchOption};
ghost use Rattle.wy_cache_text.specs.Files.{IsCountAt, NoCount, IsEntryAt, NoEntry, IsBody, NoBody, IsReadAs};
ghost use Rattle.wy_cache_text.specs.Seen.{held, all_held};

use crate::entry::{Cache, Entry};
use crate::line::lines;
use std::alloc::Global;
use wy_data::same_bytes;
use wy_data::scan::{behind, natural};
use wy_items::NoMemory;

/// The most lines of one kind in an entry.
const MOST: u128 = 16_777_216;

// The number that stands on the first line behind this word, and what follows the line.
#[tactic(auto, using(crate::proofs::FileLemmas::count_steps))]
fn count<'a>(
    alloc: Global,
    text: &'a [u8],
    word: &[u8],
) -> Result<Option<(u64, &'a [u8])>, NoMemory>
    ensures value { IfOk result (λ o. MatchOption o (NoCount word.now text.now) (λ p. IsCountAt word.now text.now p.0 p.1.now)) }
{
    let Some(digits) = behind(text, word) else {
        return Ok(None);
    };
    let Some((number, end)) = natural(alloc, digits)? else {
        return Ok(None);
    };
    let Some(rest) = behind(end, b"\n") else {
        return Ok(None);
    };
    if number > MOST {
        return Ok(None);
    }
    Ok(Some((number as u64, rest)))
}

// The entry that stands first, and what follows it.
fn entry(alloc: Global, text: &[u8]) -> Result<Option<(Entry, &[u8])>, NoMemory>
    ensures value { IfOk result (λ o. MatchOption o (NoEntry text.now) (λ p. IsEntryAt text.now (held p.0) p.1.now)) }
{
    let Some((hypotheses, rest)) = count(alloc, text, b"for ")? else {
        return Ok(None);
    };
    let Some((key, rest)) = lines(rest, hypotheses + 1) else {
        return Ok(None);
    };
    let Some((number, rest)) = count(alloc, rest, b"by ")? else {
        return Ok(None);
    };
    if number == 0 {
        return Ok(None);
    }
    let Some((steps, rest)) = lines(rest, number) else {
        return Ok(None);
    };
    let key = Vec::from_slice(alloc, key)?;
    let steps = Vec::from_slice(alloc, steps)?;
    Ok(Some((Entry { key, steps }, rest)))
}

// The entries behind the first line, if the text has them and then the last line.
fn entries(alloc: Global, text: &[u8]) -> Result<Option<Vec<Entry>>, NoMemory>
    ensures value { IfOk result (λ o. MatchOption o (NoBody text.now) (λ es. IsBody (all_held es.items) text.now)) }
{
    let mut list = Vec::new(alloc);
    let mut rest = text;
    for _turn in 0..u64::MAX {
        if same_bytes(rest, b"end\n") {
            return Ok(Some(list));
        }
        let Some((first, more)) = entry(alloc, rest)? else {
            return Ok(None);
        };
        list.push(first)?;
        rest = more;
    }
    Err(NoMemory)
}

/// The entries of a cache file, and none where the bytes are no cache file, in time linear in them.
pub fn read_cache(alloc: Global, bytes: &[u8]) -> Result<Cache, NoMemory>
    ensures value { IfOk result (λ c. IsReadAs bytes.now (all_held c.entries.items)) }
{
    let none = Cache {
        entries: Vec::new(alloc),
    };
    let Some(text) = behind(bytes, b"wycache 1\n") else {
        return Ok(none);
    };
    match entries(alloc, text)? {
        None => Ok(none),
        Some(entries) => Ok(Cache { entries }),
    }
}
