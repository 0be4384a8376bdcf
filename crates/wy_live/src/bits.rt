//! The 64 bits of a word.
ghost use Rattle.std.specs.Prelude.{◌≡◌, ◌≤◌, ◌<◌, ◌||◌, ◌&&◌, ◌==◌, ℕ, true, false, not};
ghost use Rattle.wy_live.specs.Words as spec;

/// Whether the bit is set.
pub fn is_set(bits: u64, at: u32) -> bool
    requires within { at < 64 }
    ensures value { result ≡ spec.is_set bits at }
{
    (bits >> at) & 1 == 1
}

/// The bit is set beside the others.
pub fn with_bit(bits: u64, at: u32) -> u64
    requires within { at < 64 }
    ensures value { (i : ℕ) → spec.is_set result i ≡ (i == at || spec.is_set bits i) }
    ensures filled { 0 < result }
{
    bits | (1 << at)
}

/// The bit isn't set, and the others stay.
pub fn without_bit(bits: u64, at: u32) -> u64
    requires within { at < 64 }
    ensures value { (i : ℕ) → i < 64 → spec.is_set result i ≡ (not (i == at) && spec.is_set bits i) }
{
    bits & !(1 << at)
}

/// What is set in one of both.
pub fn either(one: u64, other: u64) -> u64
    ensures value { (i : ℕ) → spec.is_set result i ≡ (spec.is_set one i || spec.is_set other i) }
    ensures filled { 0 < one → 0 < result }
{
    one | other
}

/// The first bit from this one on that is set in the one and not in the other, or 64 where none is.
pub fn first_apart(one: u64, other: u64, least: u32) -> u32
    requires within { least < 64 }
    ensures bound { result ≤ 64 }
    ensures behind { least ≤ result }
    ensures between { (i : ℕ) → least ≤ i → i < result → spec.is_set one i ≡ true → spec.is_set other i ≡ true }
    ensures found { result < 64 → (spec.is_set one result ≡ true) × (spec.is_set other result ≡ false) }
{
    let apart = (one & !other) >> least;
    if apart == 0 {
        return 64;
    }
    least + apart.trailing_zeros()
}
