//! The formulas of single types.
ghost use Rattle.std.specs.Prelude.{◌≡◌, ◌<◌, ◌≤◌, ◌∷◌, [], suc, pos, true, ℕ, List, length as count_of, map, IfOk, OnOk};
ghost use Rattle.wy_core.specs.CoreSeen.{field_tys_of, seen_ty};
ghost use Rattle.wy_term.specs.Term.{Term, array_kind, record_kind};
ghost use Rattle.wy_term.specs.Numbers.{IsAt};
ghost use Rattle.wy_vc_tables.specs.wy_vc_spec.Making as made;
ghost use Rattle.wy_vc_tables.specs.wy_vc_spec.Values as spec;
ghost use Rattle.wy_vc_operations.specs.Growing.{Makes};

use crate::words::{LENGTH_MAX, k_word};
use std::alloc::{AllocError, Global};
use wy_core::Ty;
use wy_data::Name;
use wy_term::{Kind, NoMemory, Terms};
use wy_value::{INT_MAX, INT_MIN};
use wy_vc_operations::{
    at_most, conjunction, each_of_three, every, get, kind, len, num, number_name, number_of,
};

/// The number of the next name. Want of memory is also the answer where there are 2^64 - 1 of them.
pub fn next_name(count: u64) -> Result<u64, NoMemory>
    ensures value { IfOk result (λ n. n ≡ suc count) }
{
    match count.checked_add(1) {
        None => Err(NoMemory),
        Some(next) => Ok(next),
    }
}

/// What holds of each datum.
pub fn anything(alloc: Global, terms: &mut Terms) -> Result<u32, NoMemory>
    ensures within { IfOk result (λ r. r < count_of terms.new) }
    ensures grows { OnOk result (count_of terms.old ≤ count_of terms.new) }
    ensures made { IfOk result (λ r. Makes terms.old terms.new r (made.all_of [])) }
{
    conjunction(terms, Vec::new(alloc))
}

/// A number from the least to the greatest `int`.
pub fn is_int(alloc: Global, terms: &mut Terms, v: u32) -> Result<u32, NoMemory>
    requires { v < count_of terms.old }
    ensures within { IfOk result (λ r. r < count_of terms.new) }
    ensures grows { OnOk result (count_of terms.old ≤ count_of terms.new) }
    ensures made { (t : Term) → IsAt terms.old v t → IfOk result (λ r. Makes terms.old terms.new r (spec.is_int t)) }
{
    let whole = kind(terms, v, Kind::Int)?;
    let number = num(terms, v)?;
    let least = number_of(terms, INT_MIN)?;
    let greatest = number_of(terms, INT_MAX)?;
    let above = at_most(terms, least, number)?;
    let below = at_most(terms, number, greatest)?;
    each_of_three(alloc, terms, whole, above, below)
}

// The names of these fields.
fn names_of(alloc: Global, fields: &[(Name, Ty)]) -> Result<Vec<Name>, AllocError>
    ensures value { IfOk result (λ ns. ns.items ≡ map (λ f. f.0) fields.now) }
{
    let mut names = Vec::new(alloc);
    for field in fields {
        names.push(field.0.copy(alloc)?)?;
    }
    Ok(names)
}

/// A record with these fields. Linear in them.
pub fn is_record(
    alloc: Global,
    terms: &mut Terms,
    v: u32,
    fields: &[(Name, Ty)],
) -> Result<u32, NoMemory>
    requires { v < count_of terms.old }
    ensures within { IfOk result (λ r. r < count_of terms.new) }
    ensures grows { OnOk result (count_of terms.old ≤ count_of terms.new) }
    ensures made { (t : Term) → IsAt terms.old v t → IfOk result (λ r. Makes terms.old terms.new r (made.of_kind (record_kind (spec.names_of (field_tys_of (map (λ f. (f.0, seen_ty f.1)) fields.now)))) t)) }
{
    let names = names_of(alloc, fields)?;
    kind(terms, v, Kind::Record(names))
}

/// The element of an array at a new name.
pub fn element(alloc: Global, terms: &mut Terms, v: u32, number: u64) -> Result<u32, NoMemory>
    requires { v < count_of terms.old }
    ensures within { IfOk result (λ r. r < count_of terms.new) }
    ensures grows { OnOk result (count_of terms.old ≤ count_of terms.new) }
    ensures made { (t : Term) → IsAt terms.old v t → IfOk result (λ r. Makes terms.old terms.new r (made.get t (made.int_name spec.k_word number))) }
{
    let word = k_word(alloc)?;
    let name = number_name(alloc, terms, &word, number)?;
    get(terms, v, name)
}

// What holds of each element holds of all.
fn each_element(
    alloc: Global,
    terms: &mut Terms,
    number: u64,
    count: u32,
    body: u32,
) -> Result<u32, NoMemory>
    requires count { count < count_of terms.old }
    requires body { body < count_of terms.old }
    ensures within { IfOk result (λ r. r < count_of terms.new) }
    ensures grows { OnOk result (count_of terms.old ≤ count_of terms.new) }
    ensures made { (s f : Term) → IsAt terms.old count s → IsAt terms.old body f → IfOk result (λ r. Makes terms.old terms.new r (made.bound true spec.k_word number (made.number_of (pos 0)) s f)) }
{
    let word = k_word(alloc)?;
    let from = number_of(terms, 0)?;
    every(alloc, terms, &word, number, from, count, body)
}

/// An array, not too long, of whose elements this holds.
pub fn is_array(
    alloc: Global,
    terms: &mut Terms,
    v: u32,
    number: u64,
    body: u32,
) -> Result<u32, NoMemory>
    requires value { v < count_of terms.old }
    requires body { body < count_of terms.old }
    ensures within { IfOk result (λ r. r < count_of terms.new) }
    ensures grows { OnOk result (count_of terms.old ≤ count_of terms.new) }
    ensures made { (t f : Term) → IsAt terms.old v t → IsAt terms.old body f → IfOk result (λ r. Makes terms.old terms.new r (made.all_of (made.of_kind array_kind t ∷ made.at_most (made.len t) spec.longest ∷ made.bound true spec.k_word number (made.number_of (pos 0)) (made.len t) f ∷ []))) }
{
    let array = kind(terms, v, Kind::Array)?;
    let count = len(terms, v)?;
    let longest = number_of(terms, LENGTH_MAX)?;
    let short = at_most(terms, count, longest)?;
    let each = each_element(alloc, terms, number, count, body)?;
    each_of_three(alloc, terms, array, short, each)
}
