//! The surface tree: a program as it is written.
//!
//! `types`, `expressions`, `statements` and `declarations` have the nodes, each file those of one
//! class of the grammar. Every node has the place where it stands, a byte offset in its source. The
//! parts of a node are lists (`wy_items::Items`) and boxes (`wy_items::Boxed`), which a clause sees
//! as what they hold, so `≡` between two trees says that they are equal, places included. A
//! definition by clauses goes over the plain data of `specs/SurfaceTree`, to which
//! `specs/SurfaceSeen` leads.
//!
//! The tree that name resolution makes of it, with numbers in the place of names, is `wy_core`.
#![tactic(auto)]

mod declarations;
mod expressions;
mod statements;
mod types;

pub use declarations::{Alias, Decl, Function, Method, Param, Program, Property};
pub use expressions::{Expr, ExprKind, Op};
pub use statements::{Case, Step, StepKind, Stmt, StmtKind};
pub use types::{Ty, TyKind};
pub use wy_items::NoMemory;
