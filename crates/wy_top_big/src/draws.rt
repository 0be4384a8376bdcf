//! The numbers that a large program is made from.
ghost use Rattle.std.specs.Prelude.{◌≡◌, ◌<◌};
ghost use Rattle.wy_top_big.specs.Draws as draws;

const MULTIPLIER: u128 = 25_214_903_917;

const INCREMENT: u128 = 11;
/// 2^48.
const MODULUS: u128 = 281_474_976_710_656;
/// How many bits at the low end of a state don't count, as a factor.
const LOW: u64 = 65_536;

/// The state behind a state.
pub fn next(state: u64) -> u64
    ensures value { result ≡ draws.next state }
{
    ((state as u128 * MULTIPLIER + INCREMENT) % MODULUS) as u64
}

/// Which of the four bodies a function has, from 0 to 3.
pub fn template(state: u64) -> u64
    ensures value { result ≡ draws.template state }
{
    state / LOW % 4
}

/// The number in a function's body, from 1 to 100.
pub fn constant(state: u64) -> u64
    ensures value { result ≡ draws.constant state }
{
    1 + state / LOW / 4 % 100
}
