//! The sum of multiples of two forms, whose few parts are looked through.
ghost use Rattle.std.specs.Prelude.{◌≡◌, ◌<◌, ◌^◌, ◌*ℤ◌, length, nat_eq, pos, option_map, slice_set, IfOk, IfSome, OnOk};
ghost use Rattle.wy_lin.specs.wy_term.Rewriting.{fitted};
ghost use Rattle.wy_lin.specs.declared.arithmetic.Factor.TheVariants.{Times};
ghost use Rattle.wy_lin.specs.Linear.{more, plus, plus_part, plus_parts, with_coefficient};
ghost use Rattle.wy_lin.specs.Seen.{linear_form};
ghost use Rattle.wy_lin_eliminate.specs.Adding.{part_from, sum_of_two, Gives};

use crate::places::coefficient;
use smallvec::SmallVec;
use std::alloc::Global;
use wy_lin::{Form, NoMemory};

// A product, where it fits 128 bits.
fn product(m: u128, c: i128) -> Option<i128>
    requires { m < 2 ^ 127 }
    ensures value { result ≡ fitted (pos m *ℤ c) }
{
    (m as i128).checked_mul(c)
}

// A number and a multiple of another, where they fit 128 bits.
fn more(a: i128, m: u128, c: i128) -> Option<i128>
    requires { m < 2 ^ 127 }
    ensures value { result ≡ more a (Times m) c }
{
    match product(m, c) {
        Some(d) => a.checked_add(d),
        None => None,
    }
}

// Where the first part of a variable stands.
fn part_place(parts: &[(i128, u32)], v: u32) -> Option<usize>
    ensures value { result ≡ part_from parts.now v 0 }
    ensures within { IfSome result (λ k. k < length parts.now) }
{
    for (k, part) in parts.iter().enumerate() {
        if v == part.1 {
            return Some(k);
        }
    }
    None
}

// This part in the place of the one at an index.
fn set_at(parts: &mut [(i128, u32)], k: usize, part: (i128, u32))
    requires { k < length parts.old }
    ensures value { parts.new ≡ slice_set parts.old k part }
{
    parts[k] = part;
}

// The parts with this coefficient of a variable.
#[tactic(auto, using(crate::proofs::AddingLemmas::put_lost))]
fn put(
    parts: &mut SmallVec<(i128, u32), 4, Global>,
    v: u32,
    coefficient: i128,
) -> Result<(), NoMemory>
    ensures value { OnOk result (parts.new.items ≡ with_coefficient nat_eq parts.old.items v coefficient) }
{
    match part_place(parts.as_slice(), v) {
        Some(k) => set_at(parts.as_mut_slice(), k, (coefficient, v)),
        None => parts.push((coefficient, v))?,
    }
    Ok(())
}

// A multiple of a part more; whether the numbers fit 128 bits.
fn add_part(
    parts: &mut SmallVec<(i128, u32), 4, Global>,
    m: u128,
    part: (i128, u32),
) -> Result<bool, NoMemory>
    requires { m < 2 ^ 127 }
    ensures value { IfOk result (λ b. Gives b parts.new.items (plus_part nat_eq parts.old.items (Times m) part.0 part.1)) }
{
    match more(coefficient(parts.as_slice(), part.1), m, part.0) {
        Some(d) => {
            put(parts, part.1, d)?;
            Ok(true)
        }
        None => Ok(false),
    }
}

// A multiple of each of these parts more; whether the numbers fit 128 bits.
fn add_parts(
    parts: &mut SmallVec<(i128, u32), 4, Global>,
    m: u128,
    others: &[(i128, u32)],
) -> Result<bool, NoMemory>
    requires { m < 2 ^ 127 }
    ensures value { IfOk result (λ b. Gives b parts.new.items (plus_parts nat_eq parts.old.items (Times m) others.now)) }
{
    for part in others {
        if !add_part(parts, m, *part)? {
            return Ok(false);
        }
    }
    Ok(true)
}

// A multiple of a form more; whether the numbers fit 128 bits.
fn add_form(sum: &mut Form, m: u128, form: &Form) -> Result<bool, NoMemory>
    requires { m < 2 ^ 127 }
    ensures value { IfOk result (λ b. Gives b (linear_form sum.new) (plus nat_eq (linear_form sum.old) (Times m) (linear_form form.now))) }
{
    if !add_parts(&mut sum.parts, m, form.parts.as_slice())? {
        return Ok(false);
    }
    match more(sum.constant, m, form.constant) {
        Some(c) => {
            sum.constant = c;
            Ok(true)
        }
        None => Ok(false),
    }
}

/// The sum of multiples of two forms, where its numbers fit 128 bits. It takes the time of the parts of both, each compared with
/// those of the sum.
pub fn sum_of_two(
    alloc: Global,
    m: u128,
    first: &Form,
    n: u128,
    second: &Form,
) -> Result<Option<Form>, NoMemory>
    requires first { m < 2 ^ 127 }
    requires second { n < 2 ^ 127 }
    ensures value { IfOk result (λ o. option_map linear_form o ≡ sum_of_two m (linear_form first.now) n (linear_form second.now)) }
{
    let mut sum = Form {
        parts: SmallVec::new(alloc),
        constant: 0,
    };
    if !add_form(&mut sum, m, first)? {
        return Ok(None);
    }
    if !add_form(&mut sum, n, second)? {
        return Ok(None);
    }
    Ok(Some(sum))
}
