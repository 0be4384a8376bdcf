//! The term of each operation, whose parts are terms already.
ghost use Rattle.std.specs.Prelude.{◌≡◌, ◌<◌, ◌≤◌, ◌∷◌, [], true, false, length as count_of, IfOk, OnOk};
ghost use Rattle.wy_vc_spec.specs.Making as made;
ghost use Rattle.wy_vc_spec.specs.Operations as spec;
ghost use Rattle.wy_term.specs.Nodes.{tree_at};
ghost use Rattle.wy_term.specs.Numbers.{IsAt};
ghost use Rattle.wy_term.specs.Term as term;
ghost use Rattle.wy_term.specs.Term.{Term};
ghost use Rattle.wy_vc_operations.specs.Growing.{Makes};

use crate::making::{
    add, at_most, conjunction, denied, disjunction, div, equal, every, exists, get, int, len, mul,
    neg, num, number_of, rem, repeat, set_field, sub, truth, update, value_of,
};
use std::alloc::Global;
use wy_core::Op;
use wy_data::Name;
use wy_term::{NoMemory, Terms};

/// The formula `false`.
pub fn falsehood(alloc: Global, terms: &mut Terms) -> Result<u32, NoMemory>
    ensures within { IfOk result (λ r. r < count_of terms.new) }
    ensures grows { OnOk result (count_of terms.old ≤ count_of terms.new) }
    ensures made { IfOk result (λ r. Makes terms.old terms.new r (made.falsehood)) }
{
    disjunction(terms, Vec::new(alloc))
}

/// A number, a datum.
pub fn whole(terms: &mut Terms, number: i128) -> Result<u32, NoMemory>
    ensures within { IfOk result (λ r. r < count_of terms.new) }
    ensures grows { OnOk result (count_of terms.old ≤ count_of terms.new) }
    ensures made { IfOk result (λ r. Makes terms.old terms.new r (made.int (made.number_of number))) }
{
    let term = number_of(terms, number)?;
    int(terms, term)
}

/// The formula that a datum is `true`.
pub fn formula(terms: &mut Terms, value: u32) -> Result<u32, NoMemory>
    requires { value < count_of terms.old }
    ensures within { IfOk result (λ r. r < count_of terms.new) }
    ensures grows { OnOk result (count_of terms.old ≤ count_of terms.new) }
    ensures made { (v : Term) → IsAt terms.old value v → IfOk result (λ r. Makes terms.old terms.new r (made.formula v)) }
{
    let truth = truth(terms, true)?;
    equal(terms, value, truth)
}

/// The one Int term is less than the other.
pub fn less_than(terms: &mut Terms, first: u32, second: u32) -> Result<u32, NoMemory>
    requires first { first < count_of terms.old }
    requires second { second < count_of terms.old }
    ensures within { IfOk result (λ r. r < count_of terms.new) }
    ensures grows { OnOk result (count_of terms.old ≤ count_of terms.new) }
    ensures made { (s t : Term) → IsAt terms.old first s → IsAt terms.old second t → IfOk result (λ r. Makes terms.old terms.new r (made.less_than s t)) }
{
    let at_most = at_most(terms, second, first)?;
    denied(terms, at_most)
}

/// The opposite of a number.
pub fn negated(terms: &mut Terms, value: u32) -> Result<u32, NoMemory>
    requires { value < count_of terms.old }
    ensures within { IfOk result (λ r. r < count_of terms.new) }
    ensures grows { OnOk result (count_of terms.old ≤ count_of terms.new) }
    ensures made { (v : Term) → IsAt terms.old value v → IfOk result (λ r. Makes terms.old terms.new r (spec.negated v)) }
{
    let number = num(terms, value)?;
    let opposite = neg(terms, number)?;
    int(terms, opposite)
}

/// `!` of a truth value.
pub fn with_denial(terms: &mut Terms, value: u32) -> Result<u32, NoMemory>
    requires { value < count_of terms.old }
    ensures within { IfOk result (λ r. r < count_of terms.new) }
    ensures grows { OnOk result (count_of terms.old ≤ count_of terms.new) }
    ensures made { (v : Term) → IsAt terms.old value v → IfOk result (λ r. Makes terms.old terms.new r (spec.with_denial v)) }
{
    let formula = formula(terms, value)?;
    let denied = denied(terms, formula)?;
    value_of(terms, denied)
}

/// The length of an array, a datum.
pub fn length(terms: &mut Terms, value: u32) -> Result<u32, NoMemory>
    requires { value < count_of terms.old }
    ensures within { IfOk result (λ r. r < count_of terms.new) }
    ensures grows { OnOk result (count_of terms.old ≤ count_of terms.new) }
    ensures made { (v : Term) → IsAt terms.old value v → IfOk result (λ r. Makes terms.old terms.new r (spec.length v)) }
{
    let length = len(terms, value)?;
    int(terms, length)
}

/// The element of an array at an index.
pub fn index(terms: &mut Terms, array: u32, index: u32) -> Result<u32, NoMemory>
    requires first { array < count_of terms.old }
    requires second { index < count_of terms.old }
    ensures within { IfOk result (λ r. r < count_of terms.new) }
    ensures grows { OnOk result (count_of terms.old ≤ count_of terms.new) }
    ensures made { (v i : Term) → IsAt terms.old array v → IsAt terms.old index i → IfOk result (λ r. Makes terms.old terms.new r (spec.element v i)) }
{
    let number = num(terms, index)?;
    get(terms, array, number)
}

/// The array of so many copies.
pub fn repeated(terms: &mut Terms, item: u32, count: u32) -> Result<u32, NoMemory>
    requires first { item < count_of terms.old }
    requires second { count < count_of terms.old }
    ensures within { IfOk result (λ r. r < count_of terms.new) }
    ensures grows { OnOk result (count_of terms.old ≤ count_of terms.new) }
    ensures made { (v n : Term) → IsAt terms.old item v → IsAt terms.old count n → IfOk result (λ r. Makes terms.old terms.new r (spec.repeated v n)) }
{
    let number = num(terms, count)?;
    repeat(terms, item, number)
}

/// The array with another element at an index.
pub fn updated(terms: &mut Terms, array: u32, index: u32, value: u32) -> Result<u32, NoMemory>
    requires first { array < count_of terms.old }
    requires second { index < count_of terms.old }
    requires third { value < count_of terms.old }
    ensures within { IfOk result (λ r. r < count_of terms.new) }
    ensures grows { OnOk result (count_of terms.old ≤ count_of terms.new) }
    ensures made { (v i w : Term) → IsAt terms.old array v → IsAt terms.old index i → IsAt terms.old value w → IfOk result (λ r. Makes terms.old terms.new r (spec.with_element v i w)) }
{
    let number = num(terms, index)?;
    update(terms, array, number, value)
}

/// The record with another value of a field.
pub fn updated_field(
    alloc: Global,
    terms: &mut Terms,
    whole: u32,
    name: &Name,
    value: u32,
) -> Result<u32, NoMemory>
    requires first { whole < count_of terms.old }
    requires second { value < count_of terms.old }
    ensures within { IfOk result (λ r. r < count_of terms.new) }
    ensures grows { OnOk result (count_of terms.old ≤ count_of terms.new) }
    ensures made { (v w : Term) → IsAt terms.old whole v → IsAt terms.old value w → IfOk result (λ r. Makes terms.old terms.new r (spec.with_field name.now v w)) }
{
    set_field(alloc, terms, whole, name, value)
}

/// Both of these formulas.
pub fn both(alloc: Global, terms: &mut Terms, first: u32, second: u32) -> Result<u32, NoMemory>
    requires first { first < count_of terms.old }
    requires second { second < count_of terms.old }
    ensures within { IfOk result (λ r. r < count_of terms.new) }
    ensures grows { OnOk result (count_of terms.old ≤ count_of terms.new) }
    ensures made { (f g : Term) → IsAt terms.old first f → IsAt terms.old second g → IfOk result (λ r. Makes terms.old terms.new r (made.all_of (f ∷ g ∷ []))) }
{
    conjunction(terms, Vec::from_slice(alloc, &[first, second])?)
}

/// One of these formulas.
pub fn either(alloc: Global, terms: &mut Terms, first: u32, second: u32) -> Result<u32, NoMemory>
    requires first { first < count_of terms.old }
    requires second { second < count_of terms.old }
    ensures within { IfOk result (λ r. r < count_of terms.new) }
    ensures grows { OnOk result (count_of terms.old ≤ count_of terms.new) }
    ensures made { (f g : Term) → IsAt terms.old first f → IsAt terms.old second g → IfOk result (λ r. Makes terms.old terms.new r (made.any_of (f ∷ g ∷ []))) }
{
    disjunction(terms, Vec::from_slice(alloc, &[first, second])?)
}

/// Each of these three formulas.
pub fn each_of_three(
    alloc: Global,
    terms: &mut Terms,
    first: u32,
    second: u32,
    third: u32,
) -> Result<u32, NoMemory>
    requires first { first < count_of terms.old }
    requires second { second < count_of terms.old }
    requires third { third < count_of terms.old }
    ensures within { IfOk result (λ r. r < count_of terms.new) }
    ensures grows { OnOk result (count_of terms.old ≤ count_of terms.new) }
    ensures made { (f g h : Term) → IsAt terms.old first f → IsAt terms.old second g → IsAt terms.old third h → IfOk result (λ r. Makes terms.old terms.new r (made.all_of (f ∷ g ∷ h ∷ []))) }
{
    conjunction(terms, Vec::from_slice(alloc, &[first, second, third])?)
}

// Two numbers are equal, a datum: each is at most the other.
fn equal_numbers(alloc: Global, terms: &mut Terms, first: u32, second: u32) -> Result<u32, NoMemory>
    requires first { first < count_of terms.old }
    requires second { second < count_of terms.old }
    ensures within { IfOk result (λ r. r < count_of terms.new) }
    ensures grows { OnOk result (count_of terms.old ≤ count_of terms.new) }
    ensures made { (v w : Term) → IsAt terms.old first v → IsAt terms.old second w → IfOk result (λ r. Makes terms.old terms.new r (spec.equality true v w)) }
{
    let a = num(terms, first)?;
    let b = num(terms, second)?;
    let up = at_most(terms, a, b)?;
    let down = at_most(terms, b, a)?;
    let both = both(alloc, terms, up, down)?;
    value_of(terms, both)
}

// Two data are equal, a datum.
fn equal_data(terms: &mut Terms, first: u32, second: u32) -> Result<u32, NoMemory>
    requires first { first < count_of terms.old }
    requires second { second < count_of terms.old }
    ensures within { IfOk result (λ r. r < count_of terms.new) }
    ensures grows { OnOk result (count_of terms.old ≤ count_of terms.new) }
    ensures made { (v w : Term) → IsAt terms.old first v → IsAt terms.old second w → IfOk result (λ r. Makes terms.old terms.new r (spec.equality false v w)) }
{
    let equal = equal(terms, first, second)?;
    value_of(terms, equal)
}

// Whether two data are equal, as a datum: numbers by two comparisons.
fn equality(
    alloc: Global,
    terms: &mut Terms,
    are_numbers: bool,
    first: u32,
    second: u32,
) -> Result<u32, NoMemory>
    requires first { first < count_of terms.old }
    requires second { second < count_of terms.old }
    ensures within { IfOk result (λ r. r < count_of terms.new) }
    ensures grows { OnOk result (count_of terms.old ≤ count_of terms.new) }
    ensures made { (v w : Term) → IsAt terms.old first v → IsAt terms.old second w → IfOk result (λ r. Makes terms.old terms.new r (spec.equality are_numbers v w)) }
{
    if are_numbers {
        equal_numbers(alloc, terms, first, second)
    } else {
        equal_data(terms, first, second)
    }
}

// The first number is at most the second, a datum.
fn at_most_data(terms: &mut Terms, first: u32, second: u32) -> Result<u32, NoMemory>
    requires first { first < count_of terms.old }
    requires second { second < count_of terms.old }
    ensures within { IfOk result (λ r. r < count_of terms.new) }
    ensures grows { OnOk result (count_of terms.old ≤ count_of terms.new) }
    ensures made { (v w : Term) → IsAt terms.old first v → IsAt terms.old second w → IfOk result (λ r. Makes terms.old terms.new r (made.value_of (made.at_most (made.num v) (made.num w)))) }
{
    let a = num(terms, first)?;
    let b = num(terms, second)?;
    let compared = at_most(terms, a, b)?;
    value_of(terms, compared)
}

// The first number is less than the second, a datum.
fn less_than_data(terms: &mut Terms, first: u32, second: u32) -> Result<u32, NoMemory>
    requires first { first < count_of terms.old }
    requires second { second < count_of terms.old }
    ensures within { IfOk result (λ r. r < count_of terms.new) }
    ensures grows { OnOk result (count_of terms.old ≤ count_of terms.new) }
    ensures made { (v w : Term) → IsAt terms.old first v → IsAt terms.old second w → IfOk result (λ r. Makes terms.old terms.new r (made.value_of (made.less_than (made.num v) (made.num w)))) }
{
    let a = num(terms, first)?;
    let b = num(terms, second)?;
    let compared = less_than(terms, a, b)?;
    value_of(terms, compared)
}

// Both truth values are true, a datum.
fn both_true(alloc: Global, terms: &mut Terms, first: u32, second: u32) -> Result<u32, NoMemory>
    requires first { first < count_of terms.old }
    requires second { second < count_of terms.old }
    ensures within { IfOk result (λ r. r < count_of terms.new) }
    ensures grows { OnOk result (count_of terms.old ≤ count_of terms.new) }
    ensures made { (v w : Term) → IsAt terms.old first v → IsAt terms.old second w → IfOk result (λ r. Makes terms.old terms.new r (made.value_of (made.all_of (made.formula v ∷ made.formula w ∷ [])))) }
{
    let a = formula(terms, first)?;
    let b = formula(terms, second)?;
    let joined = both(alloc, terms, a, b)?;
    value_of(terms, joined)
}

// One of two truth values is true, a datum.
fn either_true(alloc: Global, terms: &mut Terms, first: u32, second: u32) -> Result<u32, NoMemory>
    requires first { first < count_of terms.old }
    requires second { second < count_of terms.old }
    ensures within { IfOk result (λ r. r < count_of terms.new) }
    ensures grows { OnOk result (count_of terms.old ≤ count_of terms.new) }
    ensures made { (v w : Term) → IsAt terms.old first v → IsAt terms.old second w → IfOk result (λ r. Makes terms.old terms.new r (made.value_of (made.any_of (made.formula v ∷ made.formula w ∷ [])))) }
{
    let a = formula(terms, first)?;
    let b = formula(terms, second)?;
    let joined = either(alloc, terms, a, b)?;
    value_of(terms, joined)
}

// The sum of two numbers, a datum.
fn sum(terms: &mut Terms, first: u32, second: u32) -> Result<u32, NoMemory>
    requires first { first < count_of terms.old }
    requires second { second < count_of terms.old }
    ensures within { IfOk result (λ r. r < count_of terms.new) }
    ensures grows { OnOk result (count_of terms.old ≤ count_of terms.new) }
    ensures made { (v w : Term) → IsAt terms.old first v → IsAt terms.old second w → IfOk result (λ r. Makes terms.old terms.new r (made.int (made.of_two term.add (made.num v) (made.num w)))) }
{
    let a = num(terms, first)?;
    let b = num(terms, second)?;
    let number = add(terms, a, b)?;
    int(terms, number)
}

// The difference of two numbers, a datum.
fn difference(terms: &mut Terms, first: u32, second: u32) -> Result<u32, NoMemory>
    requires first { first < count_of terms.old }
    requires second { second < count_of terms.old }
    ensures within { IfOk result (λ r. r < count_of terms.new) }
    ensures grows { OnOk result (count_of terms.old ≤ count_of terms.new) }
    ensures made { (v w : Term) → IsAt terms.old first v → IsAt terms.old second w → IfOk result (λ r. Makes terms.old terms.new r (made.int (made.of_two term.sub (made.num v) (made.num w)))) }
{
    let a = num(terms, first)?;
    let b = num(terms, second)?;
    let number = sub(terms, a, b)?;
    int(terms, number)
}

// The product of two numbers, a datum.
fn product(terms: &mut Terms, first: u32, second: u32) -> Result<u32, NoMemory>
    requires first { first < count_of terms.old }
    requires second { second < count_of terms.old }
    ensures within { IfOk result (λ r. r < count_of terms.new) }
    ensures grows { OnOk result (count_of terms.old ≤ count_of terms.new) }
    ensures made { (v w : Term) → IsAt terms.old first v → IsAt terms.old second w → IfOk result (λ r. Makes terms.old terms.new r (made.int (made.of_two term.mul (made.num v) (made.num w)))) }
{
    let a = num(terms, first)?;
    let b = num(terms, second)?;
    let number = mul(terms, a, b)?;
    int(terms, number)
}

// The quotient of two numbers, a datum.
fn quotient(terms: &mut Terms, first: u32, second: u32) -> Result<u32, NoMemory>
    requires first { first < count_of terms.old }
    requires second { second < count_of terms.old }
    ensures within { IfOk result (λ r. r < count_of terms.new) }
    ensures grows { OnOk result (count_of terms.old ≤ count_of terms.new) }
    ensures made { (v w : Term) → IsAt terms.old first v → IsAt terms.old second w → IfOk result (λ r. Makes terms.old terms.new r (made.int (made.of_two term.div (made.num v) (made.num w)))) }
{
    let a = num(terms, first)?;
    let b = num(terms, second)?;
    let number = div(terms, a, b)?;
    int(terms, number)
}

// The remainder of two numbers, a datum.
fn remainder(terms: &mut Terms, first: u32, second: u32) -> Result<u32, NoMemory>
    requires first { first < count_of terms.old }
    requires second { second < count_of terms.old }
    ensures within { IfOk result (λ r. r < count_of terms.new) }
    ensures grows { OnOk result (count_of terms.old ≤ count_of terms.new) }
    ensures made { (v w : Term) → IsAt terms.old first v → IsAt terms.old second w → IfOk result (λ r. Makes terms.old terms.new r (made.int (made.of_two term.rem (made.num v) (made.num w)))) }
{
    let a = num(terms, first)?;
    let b = num(terms, second)?;
    let number = rem(terms, a, b)?;
    int(terms, number)
}

/// An operator of two data. Numbers are tested for equality by two comparisons.
pub fn operated(
    alloc: Global,
    terms: &mut Terms,
    op: Op,
    are_numbers: bool,
    first: u32,
    second: u32,
) -> Result<u32, NoMemory>
    requires first { first < count_of terms.old }
    requires second { second < count_of terms.old }
    ensures within { IfOk result (λ r. r < count_of terms.new) }
    ensures grows { OnOk result (count_of terms.old ≤ count_of terms.new) }
    ensures made { (v w : Term) → IsAt terms.old first v → IsAt terms.old second w → IfOk result (λ r. Makes terms.old terms.new r (spec.operated op are_numbers v w)) }
{
    match op {
        Op::Add => sum(terms, first, second),
        Op::Sub => difference(terms, first, second),
        Op::Mul => product(terms, first, second),
        Op::Div => quotient(terms, first, second),
        Op::Mod => remainder(terms, first, second),
        Op::Equal => equality(alloc, terms, are_numbers, first, second),
        Op::Less => less_than_data(terms, first, second),
        Op::LessEqual => at_most_data(terms, first, second),
        Op::Greater => less_than_data(terms, second, first),
        Op::GreaterEqual => at_most_data(terms, second, first),
        Op::And => both_true(alloc, terms, first, second),
        Op::Or => either_true(alloc, terms, first, second),
    }
}

// `all` or `some` of an Int name.
fn bound(
    alloc: Global,
    terms: &mut Terms,
    all: bool,
    word: &Name,
    number: u64,
    from: u32,
    below: u32,
    body: u32,
) -> Result<u32, NoMemory>
    requires first { from < count_of terms.old }
    requires second { below < count_of terms.old }
    requires third { body < count_of terms.old }
    ensures within { IfOk result (λ r. r < count_of terms.new) }
    ensures grows { OnOk result (count_of terms.old ≤ count_of terms.new) }
    ensures made { (s t f : Term) → IsAt terms.old from s → IsAt terms.old below t → IsAt terms.old body f → IfOk result (λ r. Makes terms.old terms.new r (made.bound all word.now number s t f)) }
{
    if all {
        every(alloc, terms, word, number, from, below, body)
    } else {
        exists(alloc, terms, word, number, from, below, body)
    }
}

/// `all` or `some` of a new name, whose bounds and body are data.
pub fn quantified(
    alloc: Global,
    terms: &mut Terms,
    all: bool,
    word: &Name,
    number: u64,
    from: u32,
    below: u32,
    body: u32,
) -> Result<u32, NoMemory>
    requires first { from < count_of terms.old }
    requires second { below < count_of terms.old }
    requires third { body < count_of terms.old }
    ensures within { IfOk result (λ r. r < count_of terms.new) }
    ensures grows { OnOk result (count_of terms.old ≤ count_of terms.new) }
    ensures made { (v w u : Term) → IsAt terms.old from v → IsAt terms.old below w → IsAt terms.old body u → IfOk result (λ r. Makes terms.old terms.new r (spec.quantified all word.now number v w u)) }
{
    let first = num(terms, from)?;
    let last = num(terms, below)?;
    let holds = formula(terms, body)?;
    let bound = bound(alloc, terms, all, word, number, first, last, holds)?;
    value_of(terms, bound)
}
