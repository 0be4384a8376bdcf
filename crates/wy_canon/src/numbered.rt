//! Parts and conjuncts by number, found by their digests.
ghost use Rattle.std.specs.Prelude.{◌≡◌, ℕ, true, ◌<◌, ◌++◌, ◌∷◌, [], length, Some, IfSome, IfOk, OnOk, OnErr, OnSome, slice_get, is_some};
ghost use Rattle.std.specs.Option.{option_copied};
ghost use Rattle.wy_types.specs.Conjuncts.{same_term};
ghost use Rattle.wy_types.specs.Same as same;
ghost use Rattle.wy_canon.specs.Numbered.{AreNoted, IsNoted};

use crate::digests::{conjunct_digest, part_digest};
use indexmap::IndexMap;
use std::alloc::{AllocError, Global};
use std::marker::Model;
use wy_items::Items;
use wy_types::{Conjunct, Signed, same_conjunct, same_terms};

/// Parts by number. A contract sees their list.
#[derive(Drop)]
pub struct NumberedParts {
    row: Items<Items<Signed<u32>>>,
    places: IndexMap<u64, u32>,
}

/// Conjuncts by number. A contract sees their list.
#[derive(Drop)]
pub struct NumberedConjuncts {
    row: Items<Conjunct<u32>>,
    places: IndexMap<u64, u32>,
}

impl Model for NumberedParts {
    ghost use Rattle.std.specs.Prelude.{List, ℕ};
    ghost use Rattle.wy_types.specs.declared.conjuncts.Signed.{Signed};

    ghost Value = { List (List (Signed ℕ)) };

    ghost view = { λ all. all.row };
}

impl Model for NumberedConjuncts {
    ghost use Rattle.std.specs.Prelude.{List, ℕ, ◌<◌, length};
    ghost use Rattle.wy_types.specs.declared.conjuncts.Conjunct.{Conjunct};
    ghost use Rattle.wy_canon.specs.Numbered.{AreNoted};

    ghost Value = { List (Conjunct ℕ) };

    ghost view = { λ all. all.row };

    ghost invariant = { λ all. 16 < length all.row → AreNoted all.places.entries all.row };
}

/// How many conjuncts are looked through one by one.
const FEW: usize = 16;

#[tactic(auto, using(crate::proofs::NumberedLemmas::same_terms_is))]
fn is_same_part(a: &[Signed<u32>], b: &[Signed<u32>]) -> bool
    ensures { result ≡ true → a.now ≡ b.now }
{
    same_terms(a, b)
}

#[tactic(auto, using(crate::proofs::NumberedLemmas::same_conjunct_number))]
fn is_same_conjunct(a: &Conjunct<u32>, b: &Conjunct<u32>) -> bool
    ensures value { result ≡ same.same_conjunct same_term a.now b.now }
    ensures sound { result ≡ true → a.now ≡ b.now }
{
    same_conjunct(a, b)
}

// The place of an equal part, one by one.
fn place_of(parts: &[Items<Signed<u32>>], part: &[Signed<u32>]) -> Option<usize>
    ensures { IfSome result (λ n. slice_get parts.now n ≡ Some part.now) }
{
    for (number, other) in parts.iter().enumerate() {
        if is_same_part(other.as_slice(), part) {
            return Some(number);
        }
    }
    None
}

// The place of an equal conjunct, one by one.
fn place_of_conjunct(conjuncts: &[Conjunct<u32>], conjunct: &Conjunct<u32>) -> Option<usize>
    ensures found { IfSome result (λ n. slice_get conjuncts.now n ≡ Some conjunct.now) }
    ensures whether { is_some result ≡ same.has_conjunct same_term conjuncts.now conjunct.now }
{
    for (number, other) in conjuncts.iter().enumerate() {
        if is_same_conjunct(other, conjunct) {
            return Some(number);
        }
    }
    None
}

// Whether the part at this place is this one.
fn has_part_at(parts: &[Items<Signed<u32>>], at: usize, part: &[Signed<u32>]) -> bool
    ensures { result ≡ true → slice_get parts.now at ≡ Some part.now }
{
    match parts.get(at) {
        None => false,
        Some(other) => is_same_part(other.as_slice(), part),
    }
}

// Whether the conjunct at this place is this one.
fn has_conjunct_at(conjuncts: &[Conjunct<u32>], at: usize, conjunct: &Conjunct<u32>) -> bool
    ensures { result ≡ true → slice_get conjuncts.now at ≡ Some conjunct.now }
{
    match conjuncts.get(at) {
        None => false,
        Some(other) => is_same_conjunct(other, conjunct),
    }
}

// Notes a place for a digest. What was noted stays so.
fn note(places: &mut IndexMap<u64, u32>, digest: u64, number: u32) -> Result<(), AllocError>
    ensures keeps { (d : ℕ) → IsNoted places.old.entries d → IsNoted places.new.entries d }
    ensures noted { OnOk result (IsNoted places.new.entries digest) }
{
    places.insert(digest, number)?;
    Ok(())
}

// Notes a place for each of the conjuncts. What was noted stays so.
fn note_all(places: &mut IndexMap<u64, u32>, conjuncts: &[Conjunct<u32>]) -> Result<(), AllocError>
    ensures keeps { (d : ℕ) → IsNoted places.old.entries d → IsNoted places.new.entries d }
    ensures noted { OnOk result (AreNoted places.new.entries conjuncts.now) }
{
    for (number, conjunct) in conjuncts.iter().enumerate() {
        match u32::try_from(number) {
            Err(_) => return Err(AllocError),
            Ok(number) => note(places, conjunct_digest(conjunct), number)?,
        }
    }
    Ok(())
}

// Notes a place for each of the conjuncts where they are no more than are looked through one by one.
// What was noted stays so.
fn note_few(places: &mut IndexMap<u64, u32>, conjuncts: &[Conjunct<u32>]) -> Result<(), AllocError>
    requires { 16 < length conjuncts.now → AreNoted places.old.entries conjuncts.now }
    ensures keeps { (d : ℕ) → IsNoted places.old.entries d → IsNoted places.new.entries d }
    ensures noted { OnOk result (AreNoted places.new.entries conjuncts.now) }
{
    if conjuncts.len() <= FEW {
        return note_all(places, conjuncts);
    }
    Ok(())
}

// Notes a place for these conjuncts and for one behind them. What was noted stays so.
fn note_more(
    places: &mut IndexMap<u64, u32>,
    conjuncts: &[Conjunct<u32>],
    conjunct: &Conjunct<u32>,
) -> Result<(), AllocError>
    requires { 16 < length conjuncts.now → AreNoted places.old.entries conjuncts.now }
    ensures keeps { (d : ℕ) → IsNoted places.old.entries d → IsNoted places.new.entries d }
    ensures noted { OnOk result (AreNoted places.new.entries (conjuncts.now ++ conjunct.now ∷ [])) }
{
    note_few(places, conjuncts)?;
    match u32::try_from(conjuncts.len()) {
        Err(_) => Err(AllocError),
        Ok(number) => note(places, conjunct_digest(conjunct), number),
    }
}

impl NumberedParts {
    /// No parts. It takes no memory.
    pub fn new(alloc: Global) -> NumberedParts
        ensures value { result ≡ [] }
    {
        NumberedParts {
            row: Items::new(alloc),
            places: IndexMap::new(alloc),
        }
    }

    /// The place of an equal part, where one is found, in expected time linear in the part. Where
    /// another part has its digest, each part is compared.
    pub fn place(&self, part: &[Signed<u32>]) -> Option<usize>
        ensures found { IfSome result (λ n. slice_get self.now n ≡ Some part.now) }
    {
        let near = match self.places.get(&part_digest(part)) {
            None => return None,
            Some(near) => *near as usize,
        };
        if has_part_at(self.row.as_slice(), near, part) {
            return Some(near);
        }
        place_of(self.row.as_slice(), part)
    }

    /// Puts a part last, in expected time linear in it. After an error nothing has changed.
    pub fn push(&mut self, part: Items<Signed<u32>>) -> Result<(), AllocError>
        ensures ok { OnOk result (self.new ≡ self.old ++ part ∷ []) }
        ensures err { OnErr result (self.new ≡ self.old) }
    {
        let digest = part_digest(part.as_slice());
        if let Ok(number) = u32::try_from(self.row.len()) {
            note(&mut self.places, digest, number)?;
            return self.row.push(part);
        }
        Err(AllocError)
    }

    /// How many parts there are.
    pub fn len(&self) -> usize
        ensures { result ≡ length self.now }
    {
        self.row.len()
    }
}

impl NumberedConjuncts {
    /// No conjuncts. It takes no memory.
    pub fn new(alloc: Global) -> NumberedConjuncts
        ensures value { result ≡ [] }
    {
        NumberedConjuncts {
            row: Items::new(alloc),
            places: IndexMap::new(alloc),
        }
    }

    /// These conjuncts, in expected time linear in their size.
    pub fn from_items(
        alloc: Global,
        row: Items<Conjunct<u32>>,
    ) -> Result<NumberedConjuncts, AllocError>
        ensures value { IfOk result (λ made. made ≡ row) }
    {
        let mut places = IndexMap::new(alloc);
        note_all(&mut places, row.as_slice())?;
        Ok(NumberedConjuncts { row, places })
    }

    /// The conjuncts alone. It takes no memory.
    pub fn into_items(self) -> Items<Conjunct<u32>>
        ensures value { result ≡ self }
    {
        let NumberedConjuncts {
            row,
            places: _places,
        } = self;
        row
    }

    /// The place of an equal conjunct, in expected time linear in its size. Where there are at most
    /// 16, and where another conjunct has its digest, each is compared.
    pub fn place(&self, conjunct: &Conjunct<u32>) -> Option<usize>
        ensures found { IfSome result (λ n. slice_get self.now n ≡ Some conjunct.now) }
        ensures whether { is_some result ≡ same.has_conjunct same_term self.now conjunct.now }
    {
        if self.row.len() <= FEW {
            return place_of_conjunct(self.row.as_slice(), conjunct);
        }
        let near = match self.places.get(&conjunct_digest(conjunct)) {
            None => return None,
            Some(near) => *near as usize,
        };
        if has_conjunct_at(self.row.as_slice(), near, conjunct) {
            return Some(near);
        }
        place_of_conjunct(self.row.as_slice(), conjunct)
    }

    /// Puts a conjunct last, in expected time linear in its size. After an error nothing has changed.
    pub fn push(&mut self, conjunct: Conjunct<u32>) -> Result<(), AllocError>
        ensures ok { OnOk result (self.new ≡ self.old ++ conjunct ∷ []) }
        ensures err { OnErr result (self.new ≡ self.old) }
    {
        if self.row.len() < FEW {
            return self.row.push(conjunct);
        }
        note_more(&mut self.places, self.row.as_slice(), &conjunct)?;
        self.row.push(conjunct)
    }

    /// The conjunct with this number, in constant time.
    pub fn get(&self, number: usize) -> Option<&Conjunct<u32>>
        ensures value { option_copied result ≡ slice_get self.now number }
        ensures within { OnSome result (number < length self.now) }
    {
        self.row.get(number)
    }

    /// The conjuncts, lent as a slice.
    pub fn as_slice(&self) -> &[Conjunct<u32>]
        ensures { result.now ≡ self.now }
    {
        self.row.as_slice()
    }

    /// How many conjuncts there are.
    pub fn len(&self) -> usize
        ensures { result ≡ length self.now }
    {
        self.row.len()
    }
}
