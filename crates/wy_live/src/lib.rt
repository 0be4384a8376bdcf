//! Last uses: for each use of a variable in a program, whether it is the last on every path from
//! there.
//!
//! `sets` has sets of variables. They are kept as `words` of 64 `bits` each; `merges` joins two, and
//! `apart` finds what the one has and the other lacks. `walk` has what a walk from the end of a body
//! to its beginning carries. `uses` leads it through expressions, `live` says what is live before a
//! statement, `statements` leads the walk through a body, and `program` through the declarations.
//!
//! What a path is, and which use is the last, is defined by the syntax in `specs/Paths` and
//! `specs/LastUses`; `specs/Sets` and `specs/Walks` have the plain functions that the code computes,
//! and the public call says that both agree.
#![tactic(auto)]

mod apart;
mod bits;
mod live;
pub mod live_paths;
mod merges;
mod program;
mod sets;
mod statements;
mod uses;
mod walk;
mod words;

pub use live::{head_live, live_block};
pub use program::{Uses, last_uses};
pub use sets::{Variables, joined, next_lost};
pub use uses::{before, before_all, before_fields, before_steps, turned};
pub use walk::{Ends, nothing};
pub use wy_items::NoMemory;
