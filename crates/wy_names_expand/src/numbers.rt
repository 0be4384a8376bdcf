//! Sums and products in which numbers above the limits aren't told apart.
ghost use Rattle.std.specs.Prelude.{◌≡◌, ◌+◌, ◌*◌, min};

/// One more than the most nodes that an expression may have.
const MANY: u32 = 4097;

/// The sum, or one more than the most nodes where it is above it.
pub fn plus(a: u32, b: u32) -> u32
    ensures value { result ≡ min 4097 (a + b) }
{
    a.saturating_add(b).min(MANY)
}

/// The product, or one more than the most nodes where it is above it.
pub fn times(a: u32, b: u32) -> u32
    ensures value { result ≡ min 4097 (a * b) }
{
    a.saturating_mul(b).min(MANY)
}

/// The length, or one more than the most nodes where it is above it.
pub fn many(len: usize) -> u32
    ensures value { result ≡ min 4097 len }
{
    len.min(4097) as u32
}
