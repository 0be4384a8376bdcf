//! What is in one of two lists of words.
ghost use Rattle.std.specs.Prelude.{◌≡◌, ◌≤◌, ◌<◌, ◌+◌, ◌||◌, ℕ, IfOk, length};
ghost use Rattle.wy_live.specs.Merges as merges;
ghost use Rattle.wy_live.specs.Words as spec;

use crate::bits::either;
use crate::words::Word;
use std::alloc::{AllocError, Global};

/// The words of both, in time linear in them.
pub fn merged(alloc: Global, one: &[Word], other: &[Word]) -> Result<Vec<Word>, AllocError>
    requires one { spec.InOrder one.now }
    requires other { spec.InOrder other.now }
    ensures order { IfOk result (λ ws. spec.InOrder ws.items) }
    ensures value { IfOk result (λ ws. (x : ℕ) → spec.in_words ws.items x ≡ (spec.in_words one.now x || spec.in_words other.now x)) }
{
    let mut made = Vec::with_capacity(alloc, one.len())?;
    let mut i = 0usize;
    let mut j = 0usize;
    while i < one.len() || j < other.len() {
        let front = next_word(one, other, i, j);
        made.push(front.word)?;
        i = front.one;
        j = front.other;
    }
    Ok(made)
}

/// A word, and where two lists go on behind it.
#[derive(Clone, Copy)]
struct Front {
    word: Word,
    one: usize,
    other: usize,
}

/// The first word of both from these indices on.
fn next_word(one: &[Word], other: &[Word], i: usize, j: usize) -> Front
    requires one { spec.InOrder one.now }
    requires other { spec.InOrder other.now }
    requires one_within { i ≤ length one.now }
    requires other_within { j ≤ length other.now }
    requires some { i + j < length one.now + length other.now }
    ensures value { merges.IsFront one.now other.now i j result }
{
    if j >= other.len() {
        return first(one, i, j);
    }
    if i >= one.len() {
        return second(other, i, j);
    }
    if one[i].place < other[j].place {
        return first(one, i, j);
    }
    if other[j].place < one[i].place {
        return second(other, i, j);
    }
    Front {
        word: Word {
            place: one[i].place,
            bits: either(one[i].bits, other[j].bits),
        },
        one: i + 1,
        other: j + 1,
    }
}

/// A word of the one.
fn first(one: &[Word], i: usize, j: usize) -> Front
    requires within { i < length one.now }
    ensures word { result.word ≡ spec.word_at one.now i }
    ensures one { result.one ≡ i + 1 }
    ensures other { result.other ≡ j }
{
    Front {
        word: one[i],
        one: i + 1,
        other: j,
    }
}

/// A word of the other.
fn second(other: &[Word], i: usize, j: usize) -> Front
    requires within { j < length other.now }
    ensures word { result.word ≡ spec.word_at other.now j }
    ensures one { result.one ≡ i }
    ensures other { result.other ≡ j + 1 }
{
    Front {
        word: other[j],
        one: i,
        other: j + 1,
    }
}
