//! Counts as numbers of 32 bits.
ghost use Rattle.std.specs.Prelude.{◌≡◌, IfOk};

use std::alloc::AllocError;

/// A count as a number of 32 bits. A larger one is want of memory.
pub fn small(number: usize) -> Result<u32, AllocError>
    ensures value { IfOk result (λ n. n ≡ number) }
{
    match u32::try_from(number) {
        Ok(small) => Ok(small),
        Err(_) => Err(AllocError),
    }
}
