//! The formula that a schema states of its parts.
ghost use Rattle.std.specs.Prelude.{◌≡◌, ◌<◌, ◌∷◌, [], length, IfOk};
ghost use Rattle.wy_term_subst.specs.wy_term.Term.{Term};
ghost use Rattle.wy_term_subst.specs.wy_term.Nodes.{tree_at};
ghost use Rattle.wy_facts.specs.Schema.{stated};
ghost use Rattle.wy_facts.specs.Program.{arity};
ghost use Rattle.wy_facts.specs.Seen.{terms_at, AreBelow, Stays};

use crate::building::made_of;
use crate::program::program;
use crate::schema::Instance;
use std::collections::VecDeque;
use wy_term_subst::{NoMemory, Terms};

// The term that was made last.
#[tactic(auto, using(crate::proofs::StepLemmas::front_is))]
fn last_made(_terms: &Terms, made: VecDeque<u32>) -> Result<u32, NoMemory>
    requires { AreBelow (length _terms.now) made.items }
    ensures value { (t : Term) → terms_at _terms.now made.items ≡ t ∷ [] → IfOk result (λ f. tree_at _terms.now f ≡ t) }
    ensures within { IfOk result (λ f. f < length _terms.now) }
{
    let mut made = made;
    match made.pop_front() {
        Some(f) => Ok(f),
        None => Err(NoMemory),
    }
}

/// The formula that a schema states of these parts. It takes the time of a number of calls of `intern` that depends on the
/// schema alone.
pub fn stated_of(terms: &mut Terms, instance: &Instance) -> Result<u32, NoMemory>
    requires parts { AreBelow (length terms.old) instance.now.parts.items }
    requires full { length instance.now.parts.items ≡ arity instance.now.schema }
    ensures value { IfOk result (λ f. tree_at terms.new f ≡ stated instance.now.schema (terms_at terms.old instance.now.parts.items)) }
    ensures within { IfOk result (λ f. f < length terms.new) }
    ensures stays { Stays terms.old terms.new }
{
    let program = program(terms.allocator(), instance.schema)?;
    match made_of(terms, &instance.parts, &program)? {
        Some(made) => last_made(terms, made),
        None => Err(NoMemory),
    }
}
