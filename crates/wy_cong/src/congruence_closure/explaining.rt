//! Equations that make two nodes equal.
ghost use Rattle.std.specs.Prelude.{◌≡◌, ◌<◌, ◌+◌, ◌++◌, ◌↔◌, All, drop, length, slice_index_or, IfOk, IsTrue};
ghost use Rattle.wy_cong.specs.congruence_closure.Congruence.{AreWithin, AreBetween, Same, named};
ghost use Rattle.wy_cong.specs.congruence_closure.Found.{IsChosen};

use crate::congruence_closure::closing::classes;
use crate::congruence_closure::labels::{is_same, number_of};
use crate::congruence_closure::nodes::Shape;
use std::alloc::Global;
use wy_items::{Items, NoMemory, at};

/// Equations that are needed, by their numbers and as they are.
#[derive(Drop)]
pub struct Chosen {
    pub numbers: Items<u32>,
    pub equations: Items<(u32, u32)>,
}

// These equations, and those behind a number.
fn with_rest(
    alloc: Global,
    chosen: &[(u32, u32)],
    equations: &[(u32, u32)],
    k: usize,
) -> Result<Items<(u32, u32)>, NoMemory>
    requires { k < length equations.now }
    ensures value { IfOk result (λ made. made ≡ chosen.now ++ drop (k + 1) equations.now) }
{
    let mut made = Items::from_slice(alloc, chosen)?;
    let rest = Items::from_slice(alloc, &equations[k + 1..])?;
    made.append(rest)?;
    Ok(made)
}

// Whether the equations make two nodes equal.
fn give(
    alloc: Global,
    shapes: &[Shape],
    equations: &[(u32, u32)],
    s: u32,
    t: u32,
) -> Result<bool, NoMemory>
    requires within { AreWithin shapes.now }
    requires between { AreBetween (length shapes.now) equations.now }
    requires first { s < length shapes.now }
    requires second { t < length shapes.now }
    ensures same { IfOk result (λ b. IsTrue b ↔ Same shapes.now equations.now s t) }
{
    let labels = classes(alloc, shapes, equations)?;
    Ok(is_same(labels.as_slice(), s, t))
}

// The equation with a number.
fn equation_at(equations: &[(u32, u32)], k: usize) -> (u32, u32)
    ensures value { result ≡ slice_index_or equations.now k (0, 0) }
{
    match at(equations, k) {
        Some(e) => *e,
        None => (0, 0),
    }
}

// The equation with a number is chosen, unless the others suffice.
fn choose(
    alloc: Global,
    shapes: &[Shape],
    equations: &[(u32, u32)],
    chosen: Chosen,
    k: usize,
    s: u32,
    t: u32,
) -> Result<Chosen, NoMemory>
    requires within { AreWithin shapes.now }
    requires between { AreBetween (length shapes.now) equations.now }
    requires first { s < length shapes.now }
    requires second { t < length shapes.now }
    requires here { k < length equations.now }
    requires chosen { IsChosen equations.now chosen }
    requires same { Same shapes.now (chosen.equations ++ drop k equations.now) s t }
    ensures chosen { IfOk result (IsChosen equations.now) }
    ensures same { IfOk result (λ made. Same shapes.now (made.equations ++ drop (k + 1) equations.now) s t) }
{
    let others = with_rest(alloc, chosen.equations.as_slice(), equations, k)?;
    if give(alloc, shapes, others.as_slice(), s, t)? {
        return Ok(chosen);
    }
    let Chosen {
        mut numbers,
        equations: mut known,
    } = chosen;
    numbers.push(number_of(k)?)?;
    known.push(equation_at(equations, k))?;
    Ok(Chosen {
        numbers,
        equations: known,
    })
}

/// The numbers, from 0 and rising, of equations that by themselves make two nodes equal; each one is needed for it. The
/// classes are made anew for each equation.
pub fn explain(
    alloc: Global,
    shapes: &[Shape],
    equations: &[(u32, u32)],
    s: u32,
    t: u32,
) -> Result<Items<u32>, NoMemory>
    requires within { AreWithin shapes.now }
    requires between { AreBetween (length shapes.now) equations.now }
    requires first { s < length shapes.now }
    requires second { t < length shapes.now }
    requires same { Same shapes.now equations.now s t }
    ensures names { IfOk result (λ ns. All (λ n. n < length equations.now) ns) }
    ensures give { IfOk result (λ ns. Same shapes.now (named equations.now ns) s t) }
{
    let mut chosen = Chosen {
        numbers: Items::new(alloc),
        equations: Items::new(alloc),
    };
    for k in 0..equations.len() {
        chosen = choose(alloc, shapes, equations, chosen, k, s, t)?;
    }
    Ok(chosen.numbers)
}
