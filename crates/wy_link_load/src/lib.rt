//! The files of a program: the source that a command names, and all that it imports.
//!
//! `importing` has which file an import names and what becomes of the import before that file is loaded, `file` a file that was
//! loaded and read, and `loading` the walk from the source on: depth first, each file once, each behind those that it imports.
//! `alone` has what commands take as long as programs of several files aren't linked: a source that imports nothing.
//!
//! Places in a source are passed on, so that who needs both names this crate alone.
#![tactic(auto)]

mod alone;
mod file;
mod importing;
mod law;
mod loading;

pub use alone::load_alone;
pub use file::SourceFile;
pub use importing::{Import, ImportFault, import_file};
pub use law::{imports_are_as_shown, what_is_taken_imports_nothing};
pub use loading::{MOST_FILES, Sources, load_program};
pub use wy_parse_front::lines::Lines;
pub use wy_parse_front::{Place, locate};
pub use wy_top_answers;
