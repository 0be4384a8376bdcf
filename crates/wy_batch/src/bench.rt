//! What a worker keeps from one condition to the next.
ghost use Rattle.std.specs.Prelude.{nat_eq, ◌≡◌, ◌==◌, ◌<◌, if◌then◌else◌, ℕ, List, All, Some, length, map, IfOk, OnOk};
ghost use Rattle.std.specs.HashMap.{get};
ghost use Rattle.wy_batch.specs.Bench.{IsBench};
ghost use Rattle.wy_check.specs.Within.{IsWithin};
ghost use Rattle.wy_search.specs.wy_search_bounds.wy_facts.Seen.{AreBelow, Stays};
ghost use Rattle.wy_term.specs.Condition.{condition_of, entry_of};
ghost use Rattle.wy_term.specs.Nodes.{Plain, tree_at};

use std::alloc::Global;
use std::collections::HashMap;
use wy_search::{Carried, nothing_carried};
use wy_term::{Cond, NoMemory, Terms, Unfold};

/// What a worker keeps from one condition to the next.
#[derive(Drop)]
pub struct Bench {
    /// The worker's own arena.
    pub terms: Terms,
    /// The numbers there of formulas and terms of the conditions' arena, by their numbers in that.
    pub images: HashMap<u32, u32>,
    /// What one search leaves to the next.
    pub carried: Carried,
}

/// A bench with an empty arena. It takes no memory.
pub fn bare_bench(alloc: Global) -> Bench
    ensures { (from : List Plain) → IsBench from result }
{
    let terms = Terms::new(alloc);
    let images = HashMap::new(alloc);
    let carried = nothing_carried(alloc, 0);
    Bench {
        terms,
        images,
        carried,
    }
}

// The number of a copy, if one is noted.
fn noted(images: &HashMap<u32, u32>, t: u32) -> Option<u32>
    ensures { result ≡ get nat_eq images.now t }
{
    images.get(&t).copied()
}

// Notes the number of a copy.
fn note(images: &mut HashMap<u32, u32>, t: u32, image: u32) -> Result<(), NoMemory>
    ensures { OnOk result ((q : ℕ) → get nat_eq images.new q ≡ (if t == q then Some image else get nat_eq images.old q)) }
{
    images.insert(t, image)?;
    Ok(())
}

// The number of a term of the conditions' arena on the bench. It is copied where it wasn't yet.
fn image(bench: &mut Bench, from: &Terms, t: u32) -> Result<u32, NoMemory>
    requires bench { IsBench from.now bench.old }
    requires term { t < length from.now }
    ensures within { IfOk result (λ r. r < length bench.new.terms) }
    ensures tree { IfOk result (λ r. tree_at bench.new.terms r ≡ tree_at from.now t) }
    ensures bench { OnOk result (IsBench from.now bench.new) }
    ensures stays { OnOk result (Stays bench.old.terms bench.new.terms) }
{
    match noted(&bench.images, t) {
        Some(image) => Ok(image),
        None => copied(bench, from, t),
    }
}

// The same of a term that isn't there yet.
fn copied(bench: &mut Bench, from: &Terms, t: u32) -> Result<u32, NoMemory>
    requires bench { IsBench from.now bench.old }
    requires term { t < length from.now }
    ensures within { IfOk result (λ r. r < length bench.new.terms) }
    ensures tree { IfOk result (λ r. tree_at bench.new.terms r ≡ tree_at from.now t) }
    ensures bench { OnOk result (IsBench from.now bench.new) }
    ensures stays { OnOk result (Stays bench.old.terms bench.new.terms) }
{
    let image = bench.terms.copy(from, t)?;
    note(&mut bench.images, t, image)?;
    Ok(image)
}

// The numbers of these formulas on the bench.
fn images(bench: &mut Bench, from: &Terms, formulas: &[u32]) -> Result<Vec<u32>, NoMemory>
    requires bench { IsBench from.now bench.old }
    requires formulas { AreBelow (length from.now) formulas.now }
    ensures within { IfOk result (λ rs. AreBelow (length bench.new.terms) rs.items) }
    ensures trees { IfOk result (λ rs. map (tree_at bench.new.terms) rs.items ≡ map (tree_at from.now) formulas.now) }
    ensures bench { OnOk result (IsBench from.now bench.new) }
    ensures stays { OnOk result (Stays bench.old.terms bench.new.terms) }
{
    let mut copies = Vec::with_capacity(bench.terms.allocator(), formulas.len())?;
    for formula in formulas {
        let copy = image(bench, from, *formula)?;
        copies.push(copy)?;
    }
    Ok(copies)
}

// The entries of named types on the bench.
fn entries(
    bench: &mut Bench,
    from: &Terms,
    list: &[(u32, u32, u32)],
) -> Result<Vec<(u32, u32, u32)>, NoMemory>
    requires bench { IsBench from.now bench.old }
    requires list { All (λ (e : ℕ × ℕ × ℕ). (e.1 < length from.now) × (e.2 < length from.now)) list.now }
    ensures within { IfOk result (λ es. All (λ (e : ℕ × ℕ × ℕ). (e.1 < length bench.new.terms) × (e.2 < length bench.new.terms)) es.items) }
    ensures trees { IfOk result (λ es. map (entry_of bench.new.terms) es.items ≡ map (entry_of from.now) list.now) }
    ensures bench { OnOk result (IsBench from.now bench.new) }
    ensures stays { OnOk result (Stays bench.old.terms bench.new.terms) }
{
    let mut copies = Vec::with_capacity(bench.terms.allocator(), list.len())?;
    for (number, name, formula) in list {
        let name = image(bench, from, *name)?;
        let formula = image(bench, from, *formula)?;
        copies.push((*number, name, formula))?;
    }
    Ok(copies)
}

/// A condition on the bench, of which the terms that aren't there yet are copied. Forms of literals over its terms last from then on.
/// It takes what copying those terms takes, and constant time for each other hypothesis.
pub fn brought(bench: &mut Bench, from: &Terms, cond: &Cond) -> Result<Cond, NoMemory>
    requires bench { IsBench from.now bench.old }
    requires cond { IsWithin (length from.now) cond.now }
    ensures within { IfOk result (IsWithin (length bench.new.terms)) }
    ensures same { IfOk result (λ c. condition_of bench.new.terms c ≡ condition_of from.now cond.now) }
    ensures bench { OnOk result (IsBench from.now bench.new) }
{
    let hyps = images(bench, from, &cond.hyps)?;
    let goal = image(bench, from, cond.goal)?;
    let list = entries(bench, from, &cond.unfold.list)?;
    raise_floor(bench);
    Ok(Cond {
        kind: cond.kind,
        at: cond.at,
        hyps,
        goal,
        unfold: Unfold { list },
    })
}

// Lets forms of literals last that are over the terms which are there.
fn raise_floor(bench: &mut Bench)
    ensures bench { (from : List Plain) → IsBench from bench.old → IsBench from bench.new }
    ensures terms { bench.new.terms ≡ bench.old.terms }
{
    bench.carried.forms.floor = bench.terms.len();
}
