//! What stands below name resolution: faults, and names in scope.
//!
//! `fault` has the causes for which a program is refused and says which of several faults is given.
//! `table` has the names in scope: those of declarations and of variables share one space, so they
//! stand in one table, in the order in which they came, and a block ends by cutting it back.
//! `places` tells where a type or an expression stands, and `declarations` makes the table of a program's declarations, which is in scope everywhere.
#![tactic(auto)]

mod declarations;
mod fault;
mod places;
mod table;

pub use declarations::declare;
pub use fault::{Cause, Fault, noted, noted_where};
pub use places::{place_of_expr, place_of_ty};
pub use table::{Entry, Signature, Table};
