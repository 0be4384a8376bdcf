//! The steps of a certificate.
ghost use Rattle.std.specs.Prelude.{◌≡◌, ◌<◌, ◌↔◌, length, map, true, All, IfOk, IsTrue};
ghost use Rattle.wy_cert.specs.Steps.{IsBelow, NamesItsTerms, steps_of, written};
ghost use Rattle.wy_check_laws.specs.reread.Writable.{AreWritable, IsWritable};
ghost use Rattle.wy_term.specs.Nodes.{tree_at};
ghost use Rattle.wy_prove_writable.specs.Listed.{TellWritable};

use crate::arguments::{are_arguments, are_terms, is_writable};
use crate::listed::writable_terms;
use crate::numbers::{are_factors, is_multiplier, is_optional, is_place};
use crate::sorted::Sort;
use wy_cert::{Cert, Step};
use wy_term::{NoMemory, Terms};

// Whether a step can be written: its terms can be and are of the sorts of their places, its numbers within their ranges, and its
// lists not empty.
fn is_step_writable(terms: &Terms, copies: &[Option<u32>], step: &Step) -> bool
    requires below { IsBelow (length copies.now) step.now }
    requires tells { TellWritable terms.now copies.now }
    ensures exactly { IsTrue result ↔ IsWritable (written (tree_at terms.now) step.now) }
{
    match step {
        Step::Split(atom) => is_writable(terms, copies, *atom, Sort::Formula),
        Step::Shut => true,
        Step::Chain(all) => !all.is_empty() && are_terms(terms, copies, all),
        Step::Clash(i, other) => is_place(*i) && is_optional(*other),
        Step::Sum(pairs) => !pairs.is_empty() && are_factors(pairs),
        Step::Cut(d, pairs) => {
            is_multiplier(*d) && *d >= 2 && !pairs.is_empty() && are_factors(pairs)
        }
        Step::Inst(i, t) => is_place(*i) && is_writable(terms, copies, *t, Sort::Int),
        Step::Wit(i) => is_place(*i),
        Step::Fact(schema, all) => {
            is_place(*schema)
                && *schema <= 16
                && !all.is_empty()
                && are_arguments(terms, copies, all)
        }
        Step::Prod(i, j, p) => {
            is_place(*i) && is_place(*j) && is_writable(terms, copies, *p, Sort::Int)
        }
    }
}

// Whether each step can be written.
fn are_steps_writable(terms: &Terms, copies: &[Option<u32>], steps: &[Step]) -> bool
    requires below { All (IsBelow (length copies.now)) steps.now }
    requires tells { TellWritable terms.now copies.now }
    ensures exactly { IsTrue result ↔ AreWritable (map (written (tree_at terms.now)) steps.now) }
{
    for step in steps {
        if !is_step_writable(terms, copies, step) {
            return false;
        }
    }
    true
}

/// Whether a certificate can be written: the terms that its steps name are folded and of the sorts of their places, names and
/// numbers are within their ranges, and no list is empty. It takes time linear in the certificate, and makes those of its terms
/// once more that can be written. Want of memory is also the answer where it has 2^32 terms, and where a thousand quantifiers over
/// short ranges stand one in another.
pub fn is_certificate_writable(cert: &Cert) -> Result<bool, NoMemory>
    requires { NamesItsTerms cert.now }
    ensures exactly { IfOk result (λ b. (b ≡ true) ↔ AreWritable (steps_of cert.now)) }
    ensures value { IfOk result (λ b. IsTrue b → AreWritable (steps_of cert.now)) }
{
    let copies = writable_terms(&cert.terms)?;
    Ok(are_steps_writable(&cert.terms, &copies, &cert.steps))
}
