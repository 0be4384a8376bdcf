//! Steps of certificates before their literals have numbers.

/// A literal of a node.
#[derive(Clone, Copy, Debug, PartialEq, Eq)]
pub enum Named {
    /// By its atom and whether it holds.
    Literal(u32, bool),
    /// The one that a cut stated, by the place of the cut, from 0, among those of its plan.
    Stated(u32),
}

/// A step, its terms and formulas by their numbers in the condition's list.
#[derive(Debug, Drop)]
pub enum Action {
    /// A branch that can't be, `shut`.
    Shut,
    /// Terms of which neighbours are equal, `chain`.
    Chain(Vec<u32>),
    /// One literal or two that can't be, `clash`; where the branch can't be already, `shut`.
    Clash(Named, Option<Named>),
    /// A combination of literals, `sum`.
    Sum(Vec<(u128, Named)>),
    /// A combination of literals, divided, `cut`.
    Cut(u128, Vec<(u128, Named)>),
    /// A combination of literals, divided by the greatest common divisor of its coefficients, or where that is 1, twice the
    /// combination divided by 2, `cut`.
    Reduce(Vec<(u128, Named)>),
    /// An instance of a quantifier, `inst`.
    Inst(Named, u32),
    /// A witness of a quantifier, `wit`.
    Wit(Named),
    /// An instance of an axiom by its schema's number, `fact`.
    Fact(u32, Vec<u32>),
    /// The product of two bounds, `prod`.
    Prod(Named, Named, u32),
}
