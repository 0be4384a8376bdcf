//! The first variable that is in the one list of words and not in the other.
ghost use Rattle.std.specs.Prelude.{◌≡◌, ◌≤◌, ◌<◌, ◌/◌, ℕ, true, false, IfSome, IfNone, length};
ghost use Rattle.wy_live.specs.Apart as apart;
ghost use Rattle.wy_live.specs.Words as spec;

use crate::bits::first_apart;
use crate::words::{Word, begin, bits_of};

/// The first variable from this one on that is in the one and not in the other. It is linear in the
/// words between, beside a search.
pub fn next_apart(one: &[Word], other: &[Word], from: usize) -> Option<usize>
    requires one { spec.InOrder one.now }
    requires other { spec.InOrder other.now }
    ensures found { IfSome result (λ x. apart.IsNext one.now other.now from x) }
    ensures none { IfNone result ((x : ℕ) → from ≤ x → spec.in_words one.now x ≡ true → spec.in_words other.now x ≡ true) }
{
    let place = from / 64;
    let mut i = begin(one, place);
    let mut j = begin(other, place);
    while i < one.len() {
        let word = one[i];
        j = reached(other, j, word.place as usize);
        let bits = bits_of(other, j, word.place as usize);
        let bit = first_apart(word.bits, bits, least(word.place as usize, from));
        if bit < 64 {
            return Some(word.place as usize * 64 + bit as usize);
        }
        i += 1;
    }
    None
}

/// The least bit of the word at this place that isn't before the variable.
fn least(place: usize, from: usize) -> u32
    requires behind { from / 64 ≤ place }
    ensures value { apart.IsLeast place from result }
{
    if place == from / 64 {
        (from % 64) as u32
    } else {
        0
    }
}

/// The first word at this place or behind it, from this index on.
fn reached(words: &[Word], from: usize, place: usize) -> usize
    requires order { spec.InOrder words.now }
    requires within { from ≤ length words.now }
    requires before { (j : ℕ) → j < from → spec.place_at words.now j < place }
    ensures value { spec.BeginsAt words.now place result }
{
    let mut at = from;
    while at < words.len() && (words[at].place as usize) < place {
        at += 1;
    }
    at
}
