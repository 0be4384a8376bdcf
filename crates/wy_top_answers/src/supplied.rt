//! The certificates that a command names: those of a file, or none.

mod reading;

pub use reading::certificates;
