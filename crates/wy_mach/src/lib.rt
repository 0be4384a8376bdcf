//! The machine's instructions, each on the registers of a frame that hold places of a heap.
//!
//! What registers show is said in `specs/Showing`: each stands for what the register of the step on
//! values holds, and one that is empty there is null here. `registers` puts a place into a register and
//! takes it out, and `operands` reads numbers and truth values. `moving` has `Const`, `Move`, `Share` and
//! `Clear`, `numbers` has `Arith`, `Compare` and `Not`, `comparing` has `Equal`, `looking` has `Len`,
//! `items` has `Get`, `kinds` has `Kind`, and `making`, `records` and `filling` have `Array`, `Record` and `Fill`.
//! `entering` has the registers of a frame at entry. Each
//! instruction leaves registers that show what its effect leaves, wherever the step on values has one,
//! and answers that it is stuck only where that has none.
//!
//! The machine's instructions on parts of what registers hold: `Field`, which reads one, and `Put`, which
//! writes one at the end of a path.
//!
//! `parts` has `Field`, `paths` finds the slots that the steps of a path lead to, and `updating` has `Put`.
//!
//! The machine's instructions that write to a sink: `Print`, which writes an array of ASCII codes, and
//! `PrintInt`, which writes a number in decimal.
//!
//! `texts` reads codes from arrays, and `printing` has the instructions. A text of at most 4,096 bytes goes
//! to the sink in one write, a longer one in pieces of so many bytes; so neither takes memory.
//!
//! The machine: code run on registers that hold places of a heap.
//!
//! `frames` has the frames of routines, `machine` makes one instruction at a time and stops a run,
//! `plain` has the instructions that go on behind, `calling` those that call and return, `starting`
//! starts a run, and `runs` a loop over these. Which state of the step on values a machine shows is said
//! in `specs/States`, and what a turn does in `specs/Running`.
//!
//! [`run`] takes a run that lacks no step: behind each that it makes, the step on values goes on or has ended. Who has
//! no such run makes its turns one by one, with [`Machine`]: a turn may also answer that it is stuck.
#![tactic(auto)]

mod calling;
mod comparing;
mod entering;
mod filling;
mod frames;
mod items;
mod kinds;
mod laws;
mod looking;
mod machine;
mod making;
mod moving;
mod numbers;
mod operands;
mod parts;
mod paths;
mod plain;
mod printing;
mod records;
mod registers;
mod runs;
pub mod sharing_laws;
mod starting;
mod stop;
mod texts;
mod updating;

pub use laws::runs_are_counted;
pub use machine::{Machine, Pace, Turn};
pub use runs::{RunEnd, run};
