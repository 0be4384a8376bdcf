//! The formulas that operations owe.
ghost use Rattle.std.specs.Prelude.{◌<◌, ◌≤◌, length as count_of, IfOk, OnOk};
ghost use Rattle.wy_term.specs.Term.{Term};
ghost use Rattle.wy_term.specs.Numbers.{IsAt};
ghost use Rattle.wy_vc_terms.specs.wy_vc_spec.Walks as spec;
ghost use Rattle.wy_vc_operations.specs.Growing.{AreBelow};
ghost use Rattle.wy_vc_exprs.specs.Owing.{MakesAll};

use std::alloc::Global;
use wy_term::{NoMemory, Terms};
use wy_value::{INT_MAX, INT_MIN};
use wy_vc_operations::{at_most, either, len, less_than, num, number_of};
use wy_vc_terms::LENGTH_MAX;

/// The result of arithmetic is an `int`.
pub fn range_goals(alloc: Global, terms: &mut Terms, v: u32) -> Result<Vec<u32>, NoMemory>
    requires { v < count_of terms.old }
    ensures within { IfOk result (λ ks. AreBelow (count_of terms.new) ks.items) }
    ensures grows { OnOk result (count_of terms.old ≤ count_of terms.new) }
    ensures made { (t : Term) → IsAt terms.old v t → IfOk result (λ ks. MakesAll terms.old terms.new ks.items (spec.range_goals t)) }
{
    let number = num(terms, v)?;
    let least = number_of(terms, INT_MIN)?;
    let above = at_most(terms, least, number)?;
    let greatest = number_of(terms, INT_MAX)?;
    let below = at_most(terms, number, greatest)?;
    Ok(Vec::from_slice(alloc, &[above, below])?)
}

/// The divisor isn't 0: it is above or below.
pub fn divisor_goals(alloc: Global, terms: &mut Terms, v: u32) -> Result<Vec<u32>, NoMemory>
    requires { v < count_of terms.old }
    ensures within { IfOk result (λ ks. AreBelow (count_of terms.new) ks.items) }
    ensures grows { OnOk result (count_of terms.old ≤ count_of terms.new) }
    ensures made { (t : Term) → IsAt terms.old v t → IfOk result (λ ks. MakesAll terms.old terms.new ks.items (spec.divisor_goals t)) }
{
    let number = num(terms, v)?;
    let zero = number_of(terms, 0)?;
    let above = less_than(terms, zero, number)?;
    let below = less_than(terms, number, zero)?;
    let goal = either(alloc, terms, above, below)?;
    Ok(Vec::from_slice(alloc, &[goal])?)
}

/// The index is one of the array.
pub fn index_goals(
    alloc: Global,
    terms: &mut Terms,
    array: u32,
    index: u32,
) -> Result<Vec<u32>, NoMemory>
    requires array { array < count_of terms.old }
    requires index { index < count_of terms.old }
    ensures within { IfOk result (λ ks. AreBelow (count_of terms.new) ks.items) }
    ensures grows { OnOk result (count_of terms.old ≤ count_of terms.new) }
    ensures made { (t u : Term) → IsAt terms.old array t → IsAt terms.old index u → IfOk result (λ ks. MakesAll terms.old terms.new ks.items (spec.index_goals t u)) }
{
    let number = num(terms, index)?;
    let zero = number_of(terms, 0)?;
    let above = at_most(terms, zero, number)?;
    let count = len(terms, array)?;
    let below = less_than(terms, number, count)?;
    Ok(Vec::from_slice(alloc, &[above, below])?)
}

/// The length is one that an array can have.
pub fn length_goals(alloc: Global, terms: &mut Terms, v: u32) -> Result<Vec<u32>, NoMemory>
    requires { v < count_of terms.old }
    ensures within { IfOk result (λ ks. AreBelow (count_of terms.new) ks.items) }
    ensures grows { OnOk result (count_of terms.old ≤ count_of terms.new) }
    ensures made { (t : Term) → IsAt terms.old v t → IfOk result (λ ks. MakesAll terms.old terms.new ks.items (spec.length_goals t)) }
{
    let number = num(terms, v)?;
    let zero = number_of(terms, 0)?;
    let above = at_most(terms, zero, number)?;
    let longest = number_of(terms, LENGTH_MAX)?;
    let below = at_most(terms, number, longest)?;
    Ok(Vec::from_slice(alloc, &[above, below])?)
}
