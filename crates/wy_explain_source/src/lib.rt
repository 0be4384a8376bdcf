//! The source of a program as an explanation shows it.
//!
//! `marks` cuts a source into marks, each with its first byte and the byte behind its last one, and knows which bracket closes
//! which. `nodes` has the program as a list of nodes in the order in which they are written, each with the stretch of the source that it
//! takes; `types`, `expressions`, `statements` and `declarations` put the surface tree into that list. `source` has lines and
//! columns. `page` is a text that grows, `drawing` draws a line of the source with carets below, and `finding` is what is told
//! of one refusal, which `shown` writes.
//!
//! Nothing is promised of these texts but that they are made safely and in finite time.
#![tactic(auto)]

mod circles;
mod declarations;
mod drawing;
mod expressions;
mod finding;
mod marks;
mod name_faults;
mod nearest;
mod nodes;
mod page;
mod path_faults;
mod seen;
mod shown;
mod source;
mod statements;
mod told;
mod types;

pub use declarations::nodes_of;
pub use drawing::draw;
pub use finding::{Finding, Label};
pub use marks::{Mark, Marks, Sort};
pub use name_faults::name_fault;
pub use nodes::{Class, NOWHERE, Node, Nodes, Role, Span};
pub use page::Page;
pub use path_faults::path_fault;
pub use seen::Seen;
pub use shown::put_finding;
pub use source::Source;
pub use told::{hint, point, point_at};
pub use wy_ast::{NoMemory, Program};
pub use wy_lex::{TokenKind, tokens};

#[cfg(test)]
mod tests;
