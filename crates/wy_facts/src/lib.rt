//! Facts: formulas about lengths, elements, fields, kinds and quotients that hold of all data.
//!
//! A schema (`schema`) states a formula of the parts of its arguments. `arguments` tells whether terms are such as a
//! schema takes, and which parts they have; `program` has the formula of each schema as a list of instructions, and
//! `building` makes it of the parts (`stating`). `membership` states what a condition says of its named types. `facts` puts
//! these together, and `law` says that the facts that need no condition are true.
#![tactic(auto)]

mod arguments;
mod building;
mod facts;
mod law;
mod membership;
mod program;
mod schema;
mod shapes;
mod stating;

pub use facts::fact;
pub use law::facts_are_true;
pub use wy_term_subst::{
    Taken, made_of, new_number, none_taken, parts_of, subst, take_numbers, with_parts,
};
