//! Sums and differences in 128 bits.
ghost use Rattle.std.specs.Prelude.{◌≡◌, ◌≤◌, ◌^◌, ◌+ℤ◌, ◌-ℤ◌, ◌*ℤ◌, pos};
ghost use Rattle.wy_term.specs.Rewriting.{fitted};
ghost use Rattle.wy_lin.specs.Linear.{more};
ghost use Rattle.wy_lin.specs.Seen.{Gives};

use crate::stop::Stop;

/// How often a form is added to another.
#[derive(Clone, Copy, Debug, PartialEq, Eq)]
pub enum Factor {
    /// This many times.
    Times(u128),
    /// This many times, or taken away so often where the number is negative.
    Scale(i128),
    /// Once, taken away.
    Minus,
}

/// A number and a factor's multiple of another. A product and the sum each have to fit 128 bits.
pub fn more(a: i128, m: Factor, c: i128) -> Result<i128, Stop>
    ensures gives { Gives (λ x. x) result (more a m c) }
{
    match m {
        Factor::Times(n) => {
            let d = product(n, c).ok_or(Stop::Undefined)?;
            plus(a, d).ok_or(Stop::Undefined)
        }
        Factor::Scale(k) => {
            let d = times(k, c).ok_or(Stop::Undefined)?;
            plus(a, d).ok_or(Stop::Undefined)
        }
        Factor::Minus => minus(a, c).ok_or(Stop::Undefined),
    }
}

fn plus(a: i128, b: i128) -> Option<i128>
    ensures value { result ≡ fitted (a +ℤ b) }
{
    a.checked_add(b)
}

fn minus(a: i128, b: i128) -> Option<i128>
    ensures value { result ≡ fitted (a -ℤ b) }
{
    a.checked_sub(b)
}

fn product(n: u128, c: i128) -> Option<i128>
    ensures value { result ≡ fitted (pos n *ℤ c) }
{
    match i128::try_from(n) {
        Ok(m) => times(m, c),
        Err(_) => times_large(n, c),
    }
}

fn times(m: i128, c: i128) -> Option<i128>
    ensures value { result ≡ fitted (m *ℤ c) }
{
    m.checked_mul(c)
}

// A product with a number above those of 128 bits fits with 0, and where it is the least of them.
fn times_large(n: u128, c: i128) -> Option<i128>
    requires { 2 ^ 127 ≤ n }
    ensures value { result ≡ fitted (pos n *ℤ c) }
{
    if c == 0 {
        Some(0)
    } else if c == -1 && n == 1 << 127 {
        Some(i128::MIN)
    } else {
        None
    }
}
