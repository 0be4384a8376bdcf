//! The terms of a certificate, in the list of the condition's terms.
ghost use Rattle.std.specs.Prelude.{◌≡◌, ◌<◌, length, IfOk};
ghost use Rattle.wy_term.specs.Nodes.{tree_at};
ghost use Rattle.wy_facts.specs.Seen.{terms_at, AreBelow, Stays};

use wy_term::{NoMemory, Terms};

/// The number of the same term.
pub fn brought(terms: &mut Terms, from: &Terms, t: u32) -> Result<u32, NoMemory>
    requires { t < length from.now }
    ensures value { IfOk result (λ k. tree_at terms.new k ≡ tree_at from.now t) }
    ensures within { IfOk result (λ k. k < length terms.new) }
    ensures stays { Stays terms.old terms.new }
{
    terms.copy(from, t)
}

/// The numbers of the same terms.
pub fn all_brought(terms: &mut Terms, from: &Terms, all: &[u32]) -> Result<Vec<u32>, NoMemory>
    requires { AreBelow (length from.now) all.now }
    ensures value { IfOk result (λ ks. terms_at terms.new ks.items ≡ terms_at from.now all.now) }
    ensures within { IfOk result (λ ks. AreBelow (length terms.new) ks.items) }
    ensures stays { Stays terms.old terms.new }
{
    let mut numbers = Vec::new(terms.allocator());
    for t in all {
        numbers.push(brought(terms, from, *t)?)?;
    }
    Ok(numbers)
}
