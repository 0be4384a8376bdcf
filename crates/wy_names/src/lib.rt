//! Names and lowering: from a program as it is written to its core, or to the fault for which it is
//! refused.
//!
//! `resolver` is the order of the passes. The names of declarations are put into a table (`wy_names_scope`), and
//! each use is bound (`wy_names_recursion`). Which types and properties use which is listed (there too), and what uses
//! itself is found (`wy_names_recursion`): types that recur where they may not, and properties whose expansion has
//! no end. The sizes of expansions are found before anything is expanded (`wy_names_expand`). Only where no pass
//! has a fault is the core made (`wy_names_lower`). Each pass goes on behind a fault, and the one at the least
//! place is given, of several at one place the first of `NameFault`.
#![tactic(auto)]

mod laws;
mod name_fault;
pub mod resolved;
mod resolver;

pub use laws::the_least_fault_is_left;
pub use name_fault::NameFault;
pub use resolver::resolve;
