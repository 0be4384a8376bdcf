//! The term of each operation, and the terms of variables.
//!
//! `making` has a function for each form of term that conditions are made of, `operations` the terms of literals, names and operators, which
//! are several forms one in another; each is folded as it is made. `slots` has the term of each variable.
#![tactic(auto)]

mod making;
mod operations;
mod slots;

pub use making::{
    at_most, conjunction, denied, disjunction, equal, every, exists, field, get, in_type, int,
    kind, len, list, null, num, number_name, number_of, record, truth, val_name, value_of,
};
pub use operations::{
    both, each_of_three, either, falsehood, formula, index, length, less_than, negated, operated,
    quantified, repeated, updated, updated_field, whole, with_denial,
};
pub use slots::{put, put_back, slot_at};
