//! The numbers in the code of a program are `int`s.
//!
//! `specs/Loadable` says what a machine asks of code as a whole: that its table of shapes is one that a heap takes, and
//! that each constant of it that is a number is an `int`. The law in `laws` says so of the code of each program whose
//! literals are `int`s and whose fields have names.
//!
//! How much code a program has.
//!
//! `specs/Ticks` counts the ticks of each construct where each of its parts is gone through once: its expressions,
//! statements, tests of loops, turns of quantifiers, calls and visits of types. The law in `laws` says that no construct has
//! more than 16 instructions for each of these, and no routine more than 16 besides; so code is linear in the program.

mod code_sizes_laws;
mod laws;

pub use code_sizes_laws::code_is_small;
pub use laws::the_code_of_a_program_is_loadable;
