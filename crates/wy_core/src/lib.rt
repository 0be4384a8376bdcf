//! The core tree: what the passes behind name resolution read.
//!
//! Variables, types and functions are numbers here, and the forms that can be written by others are
//! gone: properties, `do`, `for`, `switch`, texts, `!=`, `==>` and quantifiers of several ranges.
//! The fields of records rise by their bytes. The names of declarations, variables and fields are
//! kept. Every node has the place where it stands, a byte offset in its source.
//!
//! `types`, `expressions`, `statements` and `declarations` have the nodes, each file those of one
//! class of the grammar, and `copies` makes types, declared types and expressions once more. `types` also has the normal forms of
//! types, which no source spells. The parts of a node are lists (`wy_items::Items`) and boxes
//! (`wy_items::Boxed`), which a clause sees as what they hold, so `≡` between two trees says
//! that they are equal, places included. A definition by clauses goes over the plain data of
//! `specs/Types` and `specs/CoreTree`, to which `specs/CoreSeen` leads.
#![tactic(auto)]

mod copies;
mod declarations;
mod expressions;
pub mod formed;
pub mod same;
mod statements;
mod types;

pub use declarations::{Alias, Core, Decl, Output, Param, Routine};
pub use expressions::{Expr, ExprKind, Op};
pub use statements::{Step, StepKind, Stmt, StmtKind};
pub use types::{Atom, Conjunct, Part, Signed, Ty, TyKind};
pub use wy_value::Name;
