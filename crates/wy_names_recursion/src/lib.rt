//! Which types and properties use which, by the indices of their declarations.
//!
//! `edges` has what a use is and the list of all of them, in the order of the source; `types` and
//! `expressions` have the walk. Type names stand bare in a definition or inside a record or an array, or
//! are mentioned by a test of a clause; properties are used in clauses.
//!
//! Whether each use of a name is bound, and each declaration is new.
//!
//! One walk over the program, in scope order, that notes each fault which a node shows by itself:
//! a name that nothing in scope declares, a name declared again, a call that isn't allowed where it
//! stands, a wrong number of arguments or results, a jump outside a loop. It goes on after a fault
//! and keeps the one to be given (`wy_names_scope::noted`). `types`, `expressions`, `statements` and
//! `declarations` have the walk, each file that of one class of the grammar; `context` is what a
//! node has to know of where it stands. Expansions of properties aren't looked into.
//!
//! Which types recur where they may not, and which properties' expansions end.
//!
//! `recursion` notes each use of a type or property that lies on a cycle where it may not; the cycles are
//! told by labels (`wy_graph`) of the arrows that the uses make (`arrows`). `order` puts the properties
//! whose expansion ends behind those that they use. It is found by a walk in depth (`search`), and no answer
//! rests on that walk: one pass over the uses tells whether it is such an order (`positions`), and if it
//! weren't, rounds over all properties would find one (`rounds`).
#![tactic(auto)]

mod arrows;
mod bind_expressions;
mod bind_types;
mod context;
mod declarations;
mod edges;
mod expressions;
mod order;
mod positions;
mod recursion;
mod rounds;
mod search;
mod statements;
mod types;

pub use declarations::bind;
pub use edges::{Edge, Way, edges_of};
pub use order::order_of;
pub use recursion::noted_recursion;
