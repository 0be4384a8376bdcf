//! What is known at a point of a body, where paths of it come together, and what its single steps owe and make known.
//!
//! `here` has the term of each variable at a point, and which variables have a value on each path to it. `assigned` finds the variables
//! that a loop assigns and `types` the declared types of a body's variables, beforehand.
//!
//! `naming` has new names, and names for terms that are too large to stand for a variable, as `large` tells. `paths` looks at the terms
//! that a variable has on the paths that come together, `known` finds what is known behind them, and `joins` assumes that one of the
//! paths was taken.
//!
//! `frame` is what the statements of a body go by. `values` has values that come into variables, `places` those that come into a part of
//! one, `results` what a `return` owes, and `loops` the head of a loop: its invariants, and what is forgotten there.
#![tactic(auto)]

mod assigned;
mod frame;
mod here;
mod joins;
mod known;
mod large;
mod loops;
mod naming;
mod paths;
mod places;
mod results;
mod types;
mod values;

pub use frame::Frame;
pub use here::Here;
pub use joins::meet;
pub use loops::{owe_invariants, renew, walk_clauses};
pub use naming::new_name;
pub use paths::{Path, path_here};
pub use places::assign;
pub use results::leave;
pub use types::declared_types;
pub use values::give;
pub use wy_vc_exprs::{
    Goal, Maker, Walk, assume_clauses, assume_in_type, call, denied, disjunction, formula, put,
    type_formula, val_name, variable, walked, walked_all, word_of,
};
