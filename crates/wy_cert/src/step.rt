//! The steps of certificates.
ghost use Rattle.std.specs.Prelude.{◌≡◌, ℕ};
ghost use Rattle.wy_term_text.specs.wy_term.Term.{Term};
ghost use Rattle.wy_cert.specs.Steps.{written, children};

use wy_term_text::Terms;

/// A step. Terms and formulas are given by their numbers in the certificate's own list, literals by their numbers in the
/// node, from 1, and multipliers and divisors are from 1 to 2^127 - 1.
#[derive(Drop)]
pub enum Step {
    /// A case split on an atom, `split A`.
    Split(u32),
    /// The closing of a branch, `shut`.
    Shut,
    /// Terms of which neighbours are equal, `chain t0 ; .. ; tn`.
    Chain(Vec<u32>),
    /// A literal, or two, that can't be, `clash i` or `clash i j`.
    Clash(u32, Option<u32>),
    /// A Farkas combination of literals, `sum m i m i ..`.
    Sum(Vec<(u128, u32)>),
    /// An integer cut, `cut d m i ..`.
    Cut(u128, Vec<(u128, u32)>),
    /// An instance of a quantifier, `inst i t`.
    Inst(u32, u32),
    /// A witness of a quantifier, `wit i`.
    Wit(u32),
    /// An instance of an axiom by its schema's number, `fact n a ; ..`.
    Fact(u32, Vec<u32>),
    /// The product of two bounds, `prod i j p`.
    Prod(u32, u32, u32),
}

/// A certificate: its steps in prefix order, and the terms that they name.
#[derive(Drop)]
pub struct Cert {
    pub terms: Terms,
    pub steps: Vec<Step>,
}

/// Certificates, each with the number of its condition, from 1.
#[derive(Drop)]
pub struct Certs {
    pub list: Vec<(u32, Cert)>,
}

impl Step {
    /// How many trees of steps stand below this one.
    pub fn children(&self) -> u64
        ensures value { (at : ℕ → Term) → result ≡ children (written at self.now) }
    {
        match self {
            Step::Split(_) => 2,
            Step::Shut | Step::Clash(_, _) | Step::Sum(_) => 0,
            Step::Chain(_) | Step::Cut(_, _) | Step::Inst(_, _) | Step::Wit(_) => 1,
            Step::Fact(_, _) | Step::Prod(_, _, _) => 1,
        }
    }
}
