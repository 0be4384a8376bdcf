//! The outside: files by name and sinks of bytes, real ones and ones in memory.
//!
//! `files` says what a map from names to bytes does, and `sink` what a taker of bytes does; both count
//! their faults, so no caller can meet a failure of the outside unless a count rose. `mem_files` and
//! `mem_sink` are the two in memory, which tell their contents and fail the calls that their maker lists.
//! `disk_files` and `std_sink` are the thin edge over the files of a runtime and the writers of std, which
//! tell no contents; `whole_save` puts a new file in the place of an old one.
#![tactic(auto)]

mod disk_files;
mod files;
mod mem_files;
mod mem_sink;
mod sink;
mod std_sink;
mod whole_save;

pub use disk_files::DiskFiles;
pub use files::{Files, LoadFault, SaveFault};
pub use mem_files::{MemFiles, have_different_names};
pub use mem_sink::MemSink;
pub use sink::{Failed, Sink, write_whole};
pub use std_sink::StdSink;
