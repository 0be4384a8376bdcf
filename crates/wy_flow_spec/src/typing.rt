//! What it means that a program is well typed.
//!
//! The definition stands in `specs/typing/`: a walk over the core, from left to right and once, that asks
//! questions about sets and gives each expression its flow type, or the first fault. `fault` has these
//! faults, `typed` a program with its types, and `laws` what holds of the definition alone.

mod fault;
mod laws;
mod typed;

pub use fault::FlowFault;
pub use laws::a_program_has_one_outcome;
pub use typed::Typed;
