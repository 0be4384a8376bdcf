//! The four bodies that a function may have, each with a number in it. Each text is made in time linear in its length.
ghost use Rattle.std.specs.Prelude.{◌≡◌, IfOk};
ghost use Rattle.std.specs.String.{string_bytes};
ghost use Rattle.wy_top_big.specs.Bodies as bodies;

use std::alloc::{AllocError, Global};

/// A choice between two results.
fn choice(alloc: Global, constant: u64) -> Result<String, AllocError>
    ensures value { IfOk result (λ text. string_bytes text ≡ bodies.choice constant) }
{
    format!(in alloc; "    if x < {constant}:\n        return x + 1\n    return x - {constant}\n")
}

/// The middle of two numbers.
fn mean(alloc: Global, constant: u64) -> Result<String, AllocError>
    ensures value { IfOk result (λ text. string_bytes text ≡ bodies.mean constant) }
{
    format!(in alloc; "    return (x + {constant}) / 2\n")
}

/// A loop that counts two variables up.
fn count_up(alloc: Global, constant: u64) -> Result<String, AllocError>
    ensures value { IfOk result (λ text. string_bytes text ≡ bodies.count_up constant) }
{
    format!(in alloc;
        "    int s = 0\n    int i = 0\n    while i < {constant}\n    where 0 <= i && i <= {constant}\n    where s == i:\n        s = s + 1\n        i = i + 1\n    return s\n"
    )
}

/// An array that is made, updated and measured.
fn measure(alloc: Global, constant: u64) -> Result<String, AllocError>
    ensures value { IfOk result (λ text. string_bytes text ≡ bodies.measure constant) }
{
    format!(in alloc; "    int[] a = [x; {constant}]\n    a[0] = {constant}\n    return |a|\n")
}

/// The body of a template, from 0 to 3, with its number.
pub fn body(alloc: Global, template: u64, constant: u64) -> Result<String, AllocError>
    ensures value { IfOk result (λ text. string_bytes text ≡ bodies.body template constant) }
{
    match template {
        0 => choice(alloc, constant),
        1 => mean(alloc, constant),
        2 => count_up(alloc, constant),
        _ => measure(alloc, constant),
    }
}
