//! The limits of a list of conditions.
ghost use Rattle.std.specs.Prelude.{◌≡◌, ◌++◌, ◌∷◌, [], ◌<◌, ◌≤◌, ℕ, suc, List, All, true, false, nat_lt, take, drop, map, length as count_of, IfOk, OnOk};
ghost use Rattle.wy_vc_spec.specs.Limits as limits;
ghost use Rattle.wy_vc_spec.specs.Limits.{different, is_among};
ghost use Rattle.wy_term.specs.Nodes.{Plain, tree_at};
ghost use Rattle.wy_term.specs.Term.{Term};
ghost use Rattle.wy_vc.specs.Counted as spec;
ghost use Rattle.wy_vc.specs.Gathered.{AreHeld};
ghost use Rattle.wy_vc.specs.Shared.{AreUnder};
ghost use Rattle.wy_vc.specs.Told.{IsCond, seen_cond};

use crate::shared::{Gathered, gather, nothing_gathered};
use std::alloc::{AllocError, Global};
use std::collections::HashSet;
use wy_term::{Cond, NoMemory, Terms};

/// The most conditions of a program.
const MOST_CONDITIONS: usize = 16384;
/// The most different terms and formulas of a condition.
const MOST_TERMS: usize = 16384;
/// The most different terms and formulas of all conditions.
const MOST_TERMS_IN_ALL: usize = 4194304;

/// Whether conditions keep the limits, and which they pass first.
#[derive(Clone, Copy, Debug, PartialEq, Eq)]
pub enum Passing {
    /// They keep all limits.
    Within,
    /// There are more than 16,384.
    TooMany,
    /// The condition with this number, from 1, has more than 16,384 different terms and formulas, or it and those before it have more than
    /// 4,194,304.
    TooLarge(u32),
}

/// The terms that were seen, by their numbers, each once.
#[derive(Drop)]
pub struct Seen {
    all: Vec<u32>,
    noted: HashSet<u32>,
}

// Nothing was seen.
fn nothing_seen(alloc: Global) -> Seen
    ensures value { (nodes : List Plain) → spec.IsCounted nodes result [] }
{
    let all = Vec::new(alloc);
    let noted = HashSet::new(alloc);
    Seen { all, noted }
}

// Sees a term.
fn see(terms: &Terms, seen: &mut Seen, term: u32) -> Result<(), AllocError>
    ensures counted { (ts : List Term) → term < count_of terms.now → spec.IsCounted terms.now seen.old ts → OnOk result (spec.IsCounted terms.now seen.new (ts ++ tree_at terms.now term ∷ [])) }
{
    terms.one_number_for_each_term();
    if seen.noted.contains(&term) {
        return Ok(());
    }
    seen.noted.insert(term)?;
    seen.all.push(term)?;
    Ok(())
}

// Sees terms, one after the other.
fn see_all(terms: &Terms, seen: &mut Seen, numbers: &[u32]) -> Result<(), AllocError>
    ensures counted { AreUnder (count_of terms.now) numbers.now → (ts : List Term) → spec.IsCounted terms.now seen.old ts → OnOk result (spec.IsCounted terms.now seen.new (ts ++ map (tree_at terms.now) numbers.now)) }
{
    for number in numbers {
        see(terms, seen, *number)?;
    }
    Ok(())
}

// How many different terms were seen.
fn how_many(terms: &Terms, seen: &Seen) -> usize
    ensures value { (ts : List Term) → spec.IsCounted terms.now seen.now ts → result ≡ different ts }
{
    terms.one_number_for_each_term();
    seen.all.len()
}

/// Of how many numbers both lists have the same front.
pub fn shared_front(a: &[u32], b: &[u32]) -> usize
    ensures same { take result a.now ≡ take result b.now }
{
    for (index, number) in a.iter().enumerate() {
        if index >= b.len() {
            return index;
        }
        if b[index] != *number {
            return index;
        }
    }
    a.len()
}

// The numbers behind so many.
fn behind(numbers: &[u32], count: usize) -> &[u32]
    ensures value { result.now ≡ drop count numbers.now }
{
    if count >= numbers.len() {
        return &[];
    }
    &numbers[count..]
}

// The formulas and Val names of a condition, but for so many hypotheses: the others, its goal, and what its tests stand for.
fn roots_behind(alloc: Global, cond: &Cond, front: usize) -> Result<Vec<u32>, AllocError>
    ensures value { IfOk result (λ ks. ks.items ≡ drop front cond.now.hyps.items ++ spec.roots_of_goal cond.now) }
{
    let mut roots = Vec::new(alloc);
    for index in front..cond.hyps.len() {
        roots.push(cond.hyps[index])?;
    }
    roots.push(cond.goal)?;
    for entry in cond.unfold.list.as_slice() {
        roots.push(entry.1)?;
        roots.push(entry.2)?;
    }
    Ok(roots)
}

// What was gathered, where it is within a condition's limit, else what the condition alone is made of.
fn bounded(terms: &Terms, cond: &Cond, gathered: Gathered) -> Result<Gathered, NoMemory>
    requires within { IsCond terms.now cond.now }
    ensures value { IfOk result (λ g. spec.IsBounded terms.now gathered cond.now g) }
{
    let few = gathered.all.len() <= MOST_TERMS;
    if few {
        return Ok(gathered);
    }
    let roots = roots_behind(terms.allocator(), cond, 0)?;
    let mut own = nothing_gathered(terms.allocator());
    gather(terms, &mut own, roots.as_slice())?;
    Ok(own)
}

// Gathers what a condition is made of behind so many hypotheses, which it shares with the one before, and sees it.
fn count(
    terms: &Terms,
    cond: &Cond,
    front: usize,
    gathered: Gathered,
    seen: &mut Seen,
) -> Result<Gathered, NoMemory>
    requires within { IsCond terms.now cond.now }
    ensures held { (last : List ℕ) (ts : List Term) → take front last ≡ take front cond.now.hyps.items → AreHeld terms.now gathered last ts → IfOk result (λ g. AreHeld terms.now g cond.now.hyps.items (ts ++ spec.terms_told (seen_cond terms.now cond.now))) }
    ensures seen { (last : List ℕ) (ts : List Term) → take front last ≡ take front cond.now.hyps.items → AreHeld terms.now gathered last ts → spec.IsCounted terms.now seen.old ts → OnOk result (spec.IsCounted terms.now seen.new (ts ++ spec.terms_told (seen_cond terms.now cond.now))) }
    ensures over { (last : List ℕ) (ts : List Term) → take front last ≡ take front cond.now.hyps.items → AreHeld terms.now gathered last ts → IfOk result (λ g. nat_lt limits.most_terms (count_of g.all.items) ≡ nat_lt limits.most_terms (different (spec.terms_told (seen_cond terms.now cond.now)))) }
{
    terms.one_number_for_each_term();
    let mut whole = gathered;
    let before = whole.all.len();
    let roots = roots_behind(terms.allocator(), cond, front)?;
    gather(terms, &mut whole, roots.as_slice())?;
    let fresh = behind(whole.all.as_slice(), before);
    see_all(terms, seen, fresh)?;
    let kept = bounded(terms, cond, whole)?;
    Ok(kept)
}

// Too many terms in one, or in all up to it.
fn is_over(one: usize, all: usize) -> bool
    ensures value { result ≡ spec.is_over one all }
{
    one > MOST_TERMS || all > MOST_TERMS_IN_ALL
}

// There are too many with the condition at this index.
fn are_too_many(index: usize) -> bool
    ensures value { result ≡ nat_lt limits.most_conditions (suc index) }
{
    index >= MOST_CONDITIONS
}

// The number, from 1, of the condition at this index.
fn number_at(index: usize) -> u32
    requires few { nat_lt limits.most_conditions (suc index) ≡ false }
    ensures value { result ≡ suc index }
{
    index as u32 + 1
}

/// Which limit these conditions pass first, in their order: there are too many, or one of them has too many different terms and formulas, or
/// it and those before it have. Those of its hypotheses, its goal, and what its tests of named types stand for are counted.
///
/// What conditions are made of is gathered, each term once, and of a condition only what isn't gathered yet is looked at, from the first
/// hypothesis that it doesn't share with the one before. So a term costs time once, and nothing is counted anew, while all that is gathered
/// is within a condition's limit; where it would pass that, only what the condition alone is made of stays, in the time to list it.
pub fn first_limit(terms: &Terms, conds: &[Cond]) -> Result<Passing, NoMemory>
    requires within { All (IsCond terms.now) conds.now }
    ensures value { IfOk result (λ p. spec.seen_passing p ≡ spec.passing_told [] 1 (map (seen_cond terms.now) conds.now)) }
{
    let alloc = terms.allocator();
    let mut seen = nothing_seen(alloc);
    let mut gathered = nothing_gathered(alloc);
    let mut last: &[u32] = &[];
    for (index, cond) in conds.iter().enumerate() {
        let many = are_too_many(index);
        if many {
            return Ok(Passing::TooMany);
        }
        let hyps = cond.hyps.as_slice();
        let front = shared_front(last, hyps);
        let kept = count(terms, cond, front, gathered, &mut seen)?;
        let one = kept.all.len();
        gathered = kept;
        let all = how_many(terms, &seen);
        let over = is_over(one, all);
        if over {
            return Ok(Passing::TooLarge(number_at(index)));
        }
        last = hyps;
    }
    Ok(Passing::Within)
}
