//! How large expressions are once their properties are expanded, found before anything is expanded.
//!
//! One walk goes over an expression and counts the nodes and the height of the core expression that it
//! stands for (`expressions`). It goes on inside the arguments of a property as often, and as deep, as the
//! property's clauses put them; how often and how deep that is was summed up before, in the same way
//! (`properties`). So nothing is copied, and the walk is linear in the source. `measure` has what is
//! counted and where, and `numbers` the sums, in which numbers above the limit aren't told apart.
//! `statements` and `declarations` note the faults that expansions bring: a property whose expansion has
//! no end, a call that a property's clause puts into a quantifier, and an expression that is too large.
#![tactic(auto)]

mod declarations;
mod expressions;
mod measure;
mod numbers;
mod properties;
mod statements;

pub use declarations::in_decls;
pub use measure::{Expansion, Summary, Use};
pub use properties::summaries;
