//! Conditions: what a program owes.
ghost use Rattle.std.specs.Prelude.{◌≡◌};
ghost use Rattle.wy_term.specs.Condition.{word_of};

use crate::terms::Terms;

/// A condition that a program owes: where the hypotheses hold, the goal holds. The numbers are those of a list of terms.
#[derive(Drop)]
pub struct Cond {
    /// Why it is owed.
    pub kind: CondKind,
    /// The byte offset of the construct that owes it.
    pub at: u32,
    /// The formulas that may be assumed, in order.
    pub hyps: Vec<u32>,
    /// The formula that is owed.
    pub goal: u32,
    /// What its tests of named types stand for.
    pub unfold: Unfold,
}

/// What `in` stands for in a condition. There is an entry for each named type that the condition mentions, and for each
/// that these types mention: the type's number, the number of a Val name, and the number of the formula that `in` of
/// that name stands for. Each type is listed once, the Val name is the only free name of its formula, and the formula
/// leads to no endless chain of tests (`AreGrounded`).
#[derive(Drop)]
pub struct Unfold {
    pub list: Vec<(u32, u32, u32)>,
}

/// Conditions, and the list of the terms that they are written in.
#[derive(Drop)]
pub struct Conds {
    pub terms: Terms,
    pub list: Vec<Cond>,
}

/// Why a condition is owed.
#[derive(Clone, Copy, Debug, PartialEq, Eq)]
pub enum CondKind {
    /// The result of an operation on numbers is an `int`.
    Range,
    /// A divisor isn't 0.
    Divisor,
    /// An index is within its array.
    Index,
    /// A length is one that an array can have.
    Length,
    /// A value is of a declared type.
    Member,
    /// A called function's requires clause holds.
    Requires,
    /// An ensures clause holds of a returned value.
    Ensures,
    /// A loop's invariant holds where the loop begins.
    Entry,
    /// A loop's invariant holds again after a turn.
    Keep,
    /// An asserted formula holds.
    Assert,
    /// A `fail` isn't reached.
    Fail,
}

impl CondKind {
    /// The word by which messages and lists name the kind. It takes no memory.
    pub fn word(self) -> &'static str
        ensures value { result.now ≡ word_of self }
    {
        match self {
            CondKind::Range => "range",
            CondKind::Divisor => "divisor",
            CondKind::Index => "index",
            CondKind::Length => "length",
            CondKind::Member => "member",
            CondKind::Requires => "requires",
            CondKind::Ensures => "ensures",
            CondKind::Entry => "entry",
            CondKind::Keep => "keep",
            CondKind::Assert => "assert",
            CondKind::Fail => "fail",
        }
    }
}
