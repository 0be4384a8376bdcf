//! Files of a proof cache.
//!
//! A file has entries between a first and a last line. An entry has the lines of a condition, which are its key, and the
//! lines of steps that were found to show it, each behind a line with their number. `entry` has entries, `line` takes
//! whole lines from the front of a text, and `reading` takes numbers and entries, and then the file. `finding` finds the first
//! entry with a key, and `writer` makes a file of as many entries as fit. Nothing here looks into a line. `specs/Files` has
//! the grammar, `specs/Written` what is written, and `law` says that there is one reading,
//! and that what is written is read again.
#![tactic(auto)]

mod entry;
mod finding;
mod law;
mod line;
mod reading;
mod writer;

pub use entry::{Cache, Entry};
pub use finding::{Table, table_of};
pub use law::{one_reading, written_files_are_read};
pub use line::{behind_line, lines};
pub use reading::read_cache;
pub use writer::{Row, Writer};
