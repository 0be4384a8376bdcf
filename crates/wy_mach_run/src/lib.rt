//! The start of a run: from a typed program, a name and an argument text to what the machine runs.
//!
//! `entry` finds the function or method of a name, `arguments` tests whether values meet it, and `starting` has the
//! call [`start`], which takes these steps in order. `parts` has what a run starts with, and `fault` why there is no
//! run. When words start a program, and each refusal, is said in `specs/Starting`; `laws` says that at most one of
//! these comes.
//!
//! The run of a program, from what it starts with to what it leaves.
//!
//! `running` has the call [`run_start`], which runs a start on the machine, writes what the program prints and then the
//! text of its result, and says how the run ended; `end` has the ends. What the sink took, and which end comes, is said
//! in `specs/Running` by the step on registers that hold values. `laws` says which starts the machine takes.
#![tactic(auto)]

mod arguments;
mod end;
mod entry;
mod fault;
mod laws;
mod parts;
mod running;
mod running_laws;
pub mod sound;
mod starting;

pub use end::RunEnd;
pub use entry::{Entry, entry_of};
pub use fault::StartFault;
pub use laws::at_most_one_start;
pub use parts::Start;
pub use running::run_start;
pub use running_laws::starts_can_run;
pub use starting::start;
pub use wy_flow_spec;
