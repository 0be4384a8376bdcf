//! Numbers in steps.
ghost use Rattle.std.specs.Prelude.{◌↔◌, IsTrue};
ghost use Rattle.wy_check_laws.specs.reread.Writable.{AreFactors, IsMultiplier, IsOptional, IsPlace};

/// Whether a number is one of a literal, from 1 on.
pub fn is_place(number: u32) -> bool
    ensures exactly { IsTrue result ↔ IsPlace number }
{
    number > 0
}

/// The same of a number that may be missing.
pub fn is_optional(number: Option<u32>) -> bool
    ensures exactly { IsTrue result ↔ IsOptional number }
{
    match number {
        Some(number) => is_place(number),
        None => true,
    }
}

/// Whether a number is one that multiplies a literal, from 1 to 2^127 - 1.
pub fn is_multiplier(number: u128) -> bool
    ensures exactly { IsTrue result ↔ IsMultiplier number }
{
    number > 0 && number < 1 << 127
}

/// Whether each is a multiplier with the number of a literal, in time linear in how many they are.
pub fn are_factors(pairs: &[(u128, u32)]) -> bool
    ensures exactly { IsTrue result ↔ AreFactors pairs.now }
{
    for pair in pairs {
        if !is_multiplier(pair.0) || !is_place(pair.1) {
            return false;
        }
    }
    true
}
