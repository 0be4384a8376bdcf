//! Steps of the condition's terms as steps of a certificate's own.
ghost use Rattle.std.specs.Prelude.{◌≡◌, ◌<◌, length, IfOk};
ghost use Rattle.wy_cert.specs.Steps.{IsBelow, written};
ghost use Rattle.wy_facts.specs.Seen.{AreBelow, Stays, terms_at};
ghost use Rattle.wy_term.specs.Nodes.{tree_at};

use wy_cert::Step;
use wy_term::{NoMemory, Terms};

// The number of the same term.
fn own_term(own: &mut Terms, terms: &Terms, t: u32) -> Result<u32, NoMemory>
    requires term { t < length terms.now }
    ensures value { IfOk result (λ k. tree_at own.new k ≡ tree_at terms.now t) }
    ensures within { IfOk result (λ k. k < length own.new) }
    ensures stays { Stays own.old own.new }
{
    own.copy(terms, t)
}

// The numbers of the same terms.
fn own_terms(own: &mut Terms, terms: &Terms, all: &[u32]) -> Result<Vec<u32>, NoMemory>
    requires terms { AreBelow (length terms.now) all.now }
    ensures value { IfOk result (λ ks. terms_at own.new ks.items ≡ terms_at terms.now all.now) }
    ensures within { IfOk result (λ ks. AreBelow (length own.new) ks.items) }
    ensures stays { Stays own.old own.new }
{
    let mut numbers = Vec::new(terms.allocator());
    for t in all {
        numbers.push(own_term(own, terms, *t)?)?;
    }
    Ok(numbers)
}

/// The same step, whose terms are those of the list `own`. It takes time linear in the size of the step's terms, where they
/// are not in that list.
pub fn own_step(own: &mut Terms, terms: &Terms, step: Step) -> Result<Step, NoMemory>
    requires step { IsBelow (length terms.now) step }
    ensures value { IfOk result (λ s. written (tree_at own.new) s ≡ written (tree_at terms.now) step) }
    ensures within { IfOk result (IsBelow (length own.new)) }
    ensures stays { Stays own.old own.new }
{
    match step {
        Step::Split(atom) => Ok(Step::Split(own_term(own, terms, atom)?)),
        Step::Chain(all) => Ok(Step::Chain(own_terms(own, terms, &all)?)),
        Step::Inst(i, t) => Ok(Step::Inst(i, own_term(own, terms, t)?)),
        Step::Fact(schema, all) => Ok(Step::Fact(schema, own_terms(own, terms, &all)?)),
        Step::Prod(i, j, p) => Ok(Step::Prod(i, j, own_term(own, terms, p)?)),
        Step::Shut => Ok(Step::Shut),
        Step::Clash(i, other) => Ok(Step::Clash(i, other)),
        Step::Sum(pairs) => Ok(Step::Sum(pairs)),
        Step::Cut(d, pairs) => Ok(Step::Cut(d, pairs)),
        Step::Wit(i) => Ok(Step::Wit(i)),
    }
}
