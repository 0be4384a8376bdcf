//! Sums of multiples of forms.
ghost use Rattle.std.specs.Prelude.{◌≡◌, ◌<◌, map, nat_eq, slice_index_or, IfOk};
ghost use Rattle.indexmap.specs.IndexMap.{index_map_len};
ghost use Rattle.wy_lin.specs.Linear.{number_form, variable_form, coefficient, plus_part, plus_parts, plus as sum_of};
ghost use Rattle.wy_lin.specs.Seen.{Gives, IsAnswer, linear_form, linear_sum, turned};

use crate::arithmetic::{Factor, more};
use crate::linear::Form;
use crate::stop::Stop;
use indexmap::IndexMap;
use smallvec::SmallVec;
use std::alloc::Global;
use wy_term::NoMemory;

/// A form that others are added to: the coefficients of its variables, by first appearance, and its number.
#[derive(Drop)]
pub struct Sum {
    pub coefficients: IndexMap<u32, i128>,
    pub constant: i128,
}

/// The form that is a number. It takes no memory.
pub fn number_sum(alloc: Global, z: i128) -> Sum
    ensures value { linear_sum result ≡ number_form z }
{
    Sum {
        coefficients: IndexMap::new(alloc),
        constant: z,
    }
}

/// The form that is a variable.
pub fn variable_sum(alloc: Global, v: u32) -> Result<Sum, NoMemory>
    ensures value { IfOk result (λ s. linear_sum s ≡ variable_form v) }
{
    let mut coefficients = IndexMap::new(alloc);
    coefficients.insert(v, 1)?;
    Ok(Sum {
        coefficients,
        constant: 0,
    })
}

// The coefficient of a variable, 0 where it has none.
fn coefficient(coefficients: &IndexMap<u32, i128>, v: u32) -> i128
    ensures value { result ≡ coefficient nat_eq (map turned coefficients.now.entries) v }
{
    match coefficients.get(&v) {
        Some(c) => *c,
        None => 0,
    }
}

// The coefficients, with a multiple of one part more, in constant time on average.
fn plus_part(
    coefficients: IndexMap<u32, i128>,
    m: Factor,
    c: i128,
    v: u32,
) -> Result<IndexMap<u32, i128>, Stop>
    ensures gives { Gives (λ cs. map turned cs.entries) result (plus_part nat_eq (map turned coefficients.entries) m c v) }
{
    let mut coefficients = coefficients;
    match more(coefficient(&coefficients, v), m, c) {
        Ok(d) => {
            coefficients.insert(v, d)?;
            Ok(coefficients)
        }
        Err(stop) => Err(stop),
    }
}

// The coefficients, with a multiple of each of these parts more.
fn plus_parts(
    coefficients: IndexMap<u32, i128>,
    m: Factor,
    parts: &[(i128, u32)],
) -> Result<IndexMap<u32, i128>, Stop>
    ensures gives { Gives (λ cs. map turned cs.entries) result (plus_parts nat_eq (map turned coefficients.entries) m parts.now) }
{
    let mut coefficients = coefficients;
    for part in parts {
        coefficients = plus_part(coefficients, m, part.0, part.1)?;
    }
    Ok(coefficients)
}

/// A sum, and a multiple of a form more. It takes time linear in the parts of that form.
pub fn plus(f: Sum, m: Factor, g: &Form) -> Result<Sum, Stop>
    ensures gives { Gives linear_sum result (sum_of nat_eq (linear_sum f) m (linear_form g.now)) }
{
    let coefficients = plus_parts(f.coefficients, m, &g.parts)?;
    let constant = more(f.constant, m, g.constant)?;
    Ok(Sum {
        coefficients,
        constant,
    })
}

// The part at a place, from 0.
#[tactic(auto, using(crate::proofs::SumLemmas::entry_part))]
fn part_at(coefficients: &IndexMap<u32, i128>, i: usize) -> (i128, u32)
    requires { i < index_map_len coefficients.now }
    ensures value { result ≡ slice_index_or (map turned coefficients.now.entries) i result }
{
    match coefficients.get_index(i) {
        Some((v, c)) => (*c, *v),
        None => (0, 0),
    }
}

/// The form of a sum, in linear time.
pub fn form_from(alloc: Global, sum: &Sum) -> Result<Form, NoMemory>
    ensures value { IfOk result (λ f. linear_form f ≡ linear_sum sum.now) }
{
    let mut parts = SmallVec::new(alloc);
    for i in 0..sum.coefficients.len() {
        parts.push(part_at(&sum.coefficients, i))?;
    }
    Ok(Form {
        parts,
        constant: sum.constant,
    })
}

/// The form of a sum, or none where it isn't defined.
pub fn answered(alloc: Global, sum: Result<Sum, Stop>) -> Result<Option<Form>, NoMemory>
    ensures value { IfOk result (IsAnswer sum) }
{
    match sum {
        Ok(sum) => match form_from(alloc, &sum) {
            Ok(form) => Ok(Some(form)),
            Err(e) => Err(e),
        },
        Err(Stop::Undefined) => Ok(None),
        Err(Stop::NoMemory) => Err(NoMemory),
    }
}
