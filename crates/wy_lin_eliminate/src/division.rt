//! Greatest common divisors of coefficients, and forms divided by them.
ghost use Rattle.std.specs.Prelude.{◌≡◌, ◌<◌, ◌++◌, ◌≤◌, ◌^◌, IfOk, OnOk};
ghost use Rattle.wy_lin.specs.Seen.{linear_form};
ghost use Rattle.wy_lin_eliminate.specs.Division as division;

use smallvec::SmallVec;
use std::alloc::{AllocError, Global};
use wy_lin::{Form, NoMemory};

/// The greatest common divisor, by Euclid; with 0 it is the other number.
pub fn gcd(a: u128, b: u128) -> u128
    ensures value { result ≡ division.gcd a b }
{
    let mut x = a;
    let mut y = b;
    while y != 0 {
        if y == 1 {
            return 1;
        }
        let rest = x % y;
        x = y;
        y = rest;
    }
    x
}

/// The greatest common divisor of the coefficients: 0 where none but 0 is there.
pub fn common(parts: &[(i128, u32)]) -> u128
    ensures value { result ≡ division.common parts.now }
{
    let mut found = 0;
    for part in parts {
        found = gcd(found, part.0.unsigned_abs());
    }
    found
}

// A number divided, rounded down.
fn quotient(d: u128, z: i128) -> i128
    requires { 0 < d }
    ensures value { result ≡ division.quotient d z }
{
    if z >= 0 {
        (z as u128 / d) as i128
    } else {
        !((!z as u128 / d) as i128)
    }
}

// A part more, divided, unless its coefficient is 0.
fn push_divided(
    parts: &mut SmallVec<(i128, u32), 4, Global>,
    d: u128,
    part: (i128, u32),
) -> Result<(), AllocError>
    requires { 0 < d }
    ensures value { OnOk result (parts.new.items ≡ division.with_divided d parts.old.items part) }
{
    if part.0 == 0 {
        return Ok(());
    }
    parts.push((quotient(d, part.0), part.1))?;
    Ok(())
}

/// The form, divided, its constant rounded down, without parts whose coefficient is 0.
pub fn lowered(alloc: Global, d: u128, form: &Form) -> Result<Form, NoMemory>
    requires { 0 < d }
    ensures value { IfOk result (λ made. linear_form made ≡ division.lowered d (linear_form form.now)) }
{
    let mut parts = SmallVec::new(alloc);
    for part in form.parts.as_slice() {
        push_divided(&mut parts, d, *part)?;
    }
    Ok(Form {
        parts,
        constant: quotient(d, form.constant),
    })
}
