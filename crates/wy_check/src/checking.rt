//! The walk through the steps of a certificate.
ghost use Rattle.std.specs.Prelude.{◌≡◌, ◌<◌, ◌↔◌, ℕ, All, length, IfOk};
ghost use Rattle.wy_term.specs.Nodes.{tree_at};
ghost use Rattle.wy_term.specs.Condition.{condition_of};
ghost use Rattle.wy_facts.specs.Membership.{AreTypesBelow};
ghost use Rattle.wy_facts.specs.Seen.{Stays};
ghost use Rattle.wy_cert.specs.Steps.{steps_of, NamesItsTerms};
ghost use Rattle.wy_vc_laws.specs.wy_check_spec.valid.Validity.{first_bad, IsValid};
ghost use Rattle.wy_check.specs.Answer.{bad_step};
ghost use Rattle.wy_check.specs.declared.checking.Checked.TheVariants.{Yes};

use crate::turning::turned;
use wy_cert::Cert;
use wy_check_splits::{first_branch, one_node};
use wy_term::{Cond, NoMemory, Terms};

/// Whether a certificate is valid.
#[derive(Clone, Copy, Debug, PartialEq, Eq)]
pub enum Checked {
    /// It is.
    Yes,
    /// It isn't: the number, from 1, of the first step that isn't valid or stands after a complete tree, or one above the
    /// last step's where the tree isn't complete.
    No(u64),
}

// The walk through the steps, which makes terms.
fn walked(terms: &mut Terms, cond: &Cond, cert: &Cert) -> Result<Checked, NoMemory>
    requires hyps { All (λ h. h < length terms.old) cond.now.hyps.items }
    requires goal { cond.now.goal < length terms.old }
    requires types { AreTypesBelow (length terms.old) cond.now }
    requires cert { NamesItsTerms cert.now }
    ensures value { IfOk result (λ a. bad_step a ≡ first_bad (condition_of terms.old cond.now) (steps_of cert.now)) }
    ensures stays { Stays terms.old terms.new }
{
    let branch = first_branch(terms.allocator(), terms, cond)?;
    let mut trail = one_node(terms.allocator(), branch);
    let mut number = 1;
    for step in &cert.steps {
        if !trail.open {
            return Ok(Checked::No(number));
        }
        match turned(terms, trail, cond, &cert.terms, step)? {
            Some(next) => trail = next,
            None => return Ok(Checked::No(number)),
        }
        if number == u64::MAX {
            return Err(NoMemory);
        }
        number += 1;
    }
    if trail.open {
        Ok(Checked::No(number))
    } else {
        Ok(Checked::Yes)
    }
}

/// Whether a certificate is valid for a condition. The terms are as before afterwards, at want of memory too. It takes, for
/// each step, time linear in what the step's terms are made of, in the literals and forms that it names, and in the literals
/// that it adds; `shut`, `chain`, `split` and `wit` take time linear in the node's formulas.
pub fn check(terms: &mut Terms, cond: &Cond, cert: &Cert) -> Result<Checked, NoMemory>
    requires hyps { All (λ h. h < length terms.old) cond.now.hyps.items }
    requires goal { cond.now.goal < length terms.old }
    requires types { AreTypesBelow (length terms.old) cond.now }
    requires cert { NamesItsTerms cert.now }
    ensures value { IfOk result (λ a. bad_step a ≡ first_bad (condition_of terms.old cond.now) (steps_of cert.now)) }
    ensures valid { IfOk result (λ a. (a ≡ Yes) ↔ IsValid (condition_of terms.old cond.now) (steps_of cert.now)) }
    ensures length { length terms.new ≡ length terms.old }
    ensures kept { (t : ℕ) → t < length terms.old → tree_at terms.new t ≡ tree_at terms.old t }
{
    let mark = terms.mark();
    let answer = walked(terms, cond, cert);
    terms.back_to(mark);
    answer
}
