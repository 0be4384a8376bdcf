//! Words of 64 variables each, in the order of their places, none of them empty.
ghost use Rattle.std.specs.Prelude.{◌≡◌, ◌≤◌, ◌<◌, ◌||◌, ◌&&◌, ◌==◌, ◌/◌, ◌%◌, ℕ, true, false, not, OnErr, OnOk, length};
ghost use Rattle.wy_live.specs.Words as spec;

use crate::bits::{is_set, with_bit, without_bit};
use std::alloc::{AllocError, Global};

/// 64 variables one behind the other, a bit for each: those from 64 times the place on.
#[derive(Clone, Copy)]
pub struct Word {
    pub place: u32,
    pub bits: u64,
}

/// The first word at this place or behind it, in logarithmic time.
pub fn begin(words: &[Word], place: usize) -> usize
    requires order { spec.InOrder words.now }
    ensures value { spec.BeginsAt words.now place result }
{
    let mut low = 0usize;
    let mut high = words.len();
    while low < high {
        let middle = low + (high - low) / 2;
        if (words[middle].place as usize) < place {
            low = middle + 1;
        } else {
            high = middle;
        }
    }
    low
}

/// The bits at this place, where the words before the index have smaller ones.
pub fn bits_of(words: &[Word], at: usize, place: usize) -> u64
    requires order { spec.InOrder words.now }
    requires begins { spec.BeginsAt words.now place at }
    ensures value { (x : ℕ) → x / 64 ≡ place → spec.in_words words.now x ≡ spec.is_set result (x % 64) }
{
    if at < words.len() && words[at].place as usize == place {
        words[at].bits
    } else {
        0
    }
}

/// Whether the variable is in one of them, in logarithmic time.
pub fn is_in(words: &[Word], variable: u32) -> bool
    requires order { spec.InOrder words.now }
    ensures value { result ≡ spec.in_words words.now variable }
{
    let place = (variable / 64) as usize;
    let at = begin(words, place);
    is_set(bits_of(words, at, place), variable % 64)
}

/// The variable is in them from now on. Where a word is new, those behind it are moved.
pub fn put(words: &mut Vec<Word>, variable: u32) -> Result<(), AllocError>
    requires order { spec.InOrder words.old.items }
    ensures order { spec.InOrder words.new.items }
    ensures value { OnOk result ((x : ℕ) → spec.in_words words.new.items x ≡ (x == variable || spec.in_words words.old.items x)) }
    ensures no_memory { OnErr result (words.new.items ≡ words.old.items) }
{
    let place = variable / 64;
    let at = begin(words.as_slice(), place as usize);
    let bits = with_bit(bits_of(words.as_slice(), at, place as usize), variable % 64);
    if at < words.len() && words[at].place == place {
        rewrite(words, at, bits);
        return Ok(());
    }
    words.insert(at, Word { place, bits })?;
    Ok(())
}

/// The variable is in none of them from now on. Where a word is empty then, those behind it are moved.
pub fn take(words: &mut Vec<Word>, variable: u32)
    requires order { spec.InOrder words.old.items }
    ensures order { spec.InOrder words.new.items }
    ensures value { (x : ℕ) → spec.in_words words.new.items x ≡ (not (x == variable) && spec.in_words words.old.items x) }
{
    let place = variable / 64;
    let at = begin(words.as_slice(), place as usize);
    if at < words.len() && words[at].place == place {
        let bits = without_bit(words[at].bits, variable % 64);
        rewrite(words, at, bits);
    }
}

/// The word has these bits from now on, and goes where there are none.
fn rewrite(words: &mut Vec<Word>, at: usize, bits: u64)
    requires order { spec.InOrder words.old.items }
    requires within { at < length words.old.items }
    ensures order { spec.InOrder words.new.items }
    ensures value { spec.Changed words.old.items words.new.items (spec.place_at words.old.items at) bits }
{
    if bits == 0 {
        words.remove(at);
        return;
    }
    let place = words[at].place;
    words[at] = Word { place, bits };
}
