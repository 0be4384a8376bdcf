//! The sum of a lower and an upper form in which a variable goes.
ghost use Rattle.std.specs.Prelude.{◌≡◌, ◌<◌, ◌≤◌, ◌+ℤ◌, ◌*◌, ◌/◌, ◌&&◌, ◌^◌, map, nat_lt, pos, int_le, option_map, IfOk};
ghost use Rattle.wy_lin.specs.Combination.{form_at};
ghost use Rattle.wy_lin.specs.Seen.{linear_form};
ghost use Rattle.wy_lin_eliminate.specs.Division.{gcd as gcd_of};
ghost use Rattle.wy_lin_eliminate.specs.Sums as sums;
ghost use Rattle.wy_lin_eliminate.specs.Seen.{seen_sum};

use crate::adding::sum_of_two;
use crate::comparing::opposite;
use crate::division::{common, gcd, lowered};
use crate::places::{coefficient_at, constant_at, form_at, parts_at};
use std::alloc::Global;
use wy_items::Items;
use wy_lin::{Form, NoMemory};

/// What a pair gives.
#[derive(Drop)]
pub enum Summed {
    /// A negative constant, by the sum with these multipliers.
    Refuting(Items<(u128, u32)>),
    /// A constant that isn't negative.
    Dropped,
    /// A number of the step leaves 128 bits.
    Beyond,
    /// A form, by this divisor and these multipliers.
    Cut(u128, Items<(u128, u32)>, Form),
}

/// A lower form and an upper form, by their places, each with its multiplier.
#[derive(Clone, Copy, Debug)]
pub struct Pair {
    pub lower: u32,
    pub upper: u32,
    pub times_lower: u128,
    pub times_upper: u128,
}

// Whether a multiplier is one that a step may have.
fn fits(m: u128) -> bool
    ensures value { result ≡ nat_lt m (2 ^ 127) }
{
    m < 1 << 127
}

// A number divided, where the divisor isn't 0.
fn share(a: u128, g: u128) -> u128
    ensures value { result ≡ a / g }
{
    if g == 1 {
        return a;
    }
    if g == 0 { 0 } else { a / g }
}

// The multipliers of a pair.
fn multipliers(alloc: Global, pair: Pair) -> Result<Items<(u128, u32)>, NoMemory>
    ensures value { IfOk result (λ ms. ms ≡ sums.multipliers pair) }
{
    let mut made = Items::new(alloc);
    made.push((pair.times_lower, pair.lower))?;
    made.push((pair.times_upper, pair.upper))?;
    Ok(made)
}

// The sum that a step states, where its multipliers, products and partial sums fit 128 bits. A place beyond the list has
// no coefficient above or below 0, so none comes.
fn in_step(alloc: Global, all: &[Form], pair: Pair) -> Result<Option<Form>, NoMemory>
    ensures value { IfOk result (λ o. option_map linear_form o ≡ sums.in_step (map linear_form all.now) pair) }
{
    if !fits(pair.times_lower) || !fits(pair.times_upper) {
        return Ok(None);
    }
    let Some(lower) = form_at(all, pair.lower) else {
        return Err(NoMemory);
    };
    let Some(upper) = form_at(all, pair.upper) else {
        return Err(NoMemory);
    };
    sum_of_two(alloc, pair.times_lower, lower, pair.times_upper, upper)
}

// The same pair, each form twice as often.
fn doubled(pair: Pair) -> Pair
    requires lower { pair.times_lower < 2 ^ 127 }
    requires upper { pair.times_upper < 2 ^ 127 }
    ensures value { result ≡ sums.doubled pair }
{
    Pair {
        lower: pair.lower,
        upper: pair.upper,
        times_lower: 2 * pair.times_lower,
        times_upper: 2 * pair.times_upper,
    }
}

// By twice the multipliers, and then divided by 2.
fn by_two(alloc: Global, all: &[Form], pair: Pair) -> Result<Summed, NoMemory>
    requires lower { pair.times_lower < 2 ^ 127 }
    requires upper { pair.times_upper < 2 ^ 127 }
    ensures value { IfOk result (λ s. seen_sum s ≡ sums.by_two (sums.doubled pair) (sums.in_step (map linear_form all.now) (sums.doubled pair))) }
{
    let twice = doubled(pair);
    match in_step(alloc, all, twice)? {
        None => Ok(Summed::Beyond),
        Some(form) => {
            let made = lowered(alloc, 2, &form)?;
            Ok(Summed::Cut(2, multipliers(alloc, twice)?, made))
        }
    }
}

// By the greatest common divisor of the sum's coefficients.
fn by_common(
    alloc: Global,
    all: &[Form],
    pair: Pair,
    form: &Form,
    d: u128,
) -> Result<Summed, NoMemory>
    requires lower { pair.times_lower < 2 ^ 127 }
    requires upper { pair.times_upper < 2 ^ 127 }
    ensures value { IfOk result (λ s. seen_sum s ≡ sums.by_common (map linear_form all.now) pair (linear_form form.now) d) }
{
    if d == 0 {
        if form.constant < 0 {
            Ok(Summed::Refuting(multipliers(alloc, pair)?))
        } else {
            Ok(Summed::Dropped)
        }
    } else if d == 1 {
        by_two(alloc, all, pair)
    } else {
        let made = lowered(alloc, d, form)?;
        Ok(Summed::Cut(d, multipliers(alloc, pair)?, made))
    }
}

// Whether the sum of two numbers isn't negative, also where it leaves 128 bits.
fn is_not_negative(a: i128, b: i128) -> bool
    ensures value { result ≡ int_le (pos 0) (a +ℤ b) }
{
    match a.checked_add(b) {
        Some(c) => 0 <= c,
        None => 0 <= a,
    }
}

// Where the sum itself can't be stated.
fn unstated(all: &[Form], pair: Pair) -> Summed
    ensures value { seen_sum result ≡ sums.unstated (map linear_form all.now) pair }
{
    if opposite(parts_at(all, pair.lower), parts_at(all, pair.upper))
        && is_not_negative(constant_at(all, pair.lower), constant_at(all, pair.upper))
    {
        Summed::Dropped
    } else {
        Summed::Beyond
    }
}

// The pair with its multipliers, by the sizes of the coefficients.
fn pair_by(l: u32, u: u32, a: u128, b: u128) -> Pair
    ensures value { result ≡ sums.pair_by l u a b }
{
    let g = gcd(a, b);
    Pair {
        lower: l,
        upper: u,
        times_lower: share(b, g),
        times_upper: share(a, g),
    }
}

// The sum of the forms of a pair.
fn summed_by(alloc: Global, all: &[Form], pair: Pair) -> Result<Summed, NoMemory>
    ensures value { IfOk result (λ s. seen_sum s ≡ sums.summed_by (map linear_form all.now) pair) }
{
    match in_step(alloc, all, pair)? {
        None => Ok(unstated(all, pair)),
        Some(form) => {
            if pair.times_lower >= 1 << 127 || pair.times_upper >= 1 << 127 {
                return Err(NoMemory);
            }
            let d = common(form.parts.as_slice());
            by_common(alloc, all, pair, &form, d)
        }
    }
}

/// The sum of the lower form at a place and the upper form at another in which the variable goes.
pub fn sum_of_pair(alloc: Global, all: &[Form], v: u32, l: u32, u: u32) -> Result<Summed, NoMemory>
    ensures value { IfOk result (λ s. seen_sum s ≡ sums.summed (map linear_form all.now) v l u) }
{
    let above = coefficient_at(all, v, l).unsigned_abs();
    let below = coefficient_at(all, v, u).unsigned_abs();
    summed_by(alloc, all, pair_by(l, u, above, below))
}
