//! What properties expand to doesn't depend on the order in which they are summed up.
//!
//! Any two lists of exactly the properties whose expansion ends, each behind
//! those that it uses, give the same sizes.
//!
//! A program has one answer of `crate::resolve`, beside want of memory.
//!
//! What `resolve` promises is said by an order of the program's properties, each behind those that it uses,
//! and a program may have several such orders. The laws here say that none of them tells another answer:
//! a program that has a core has no other one and is never refused, and one that is refused is always refused
//! in the same way.
//!
//! The fault for which `crate::resolve` refuses a program is the first of those that the program shows.
//!
//! Which faults a program shows is said by its tree: at a declaration whose name came before, at a node by the
//! names in scope there and by what stands around it, at an expression by what its properties expand to, and
//! at a use by which a type recurs. Nothing is noted or compared there. The laws here say that `resolve`
//! gives the first of these, by place and then by rank, and that a program with a core shows none.
//!
//! The core that `crate::resolve` gives is formed.
//!
//! What a formed core is, `wy_core` says by the core alone. The laws here say it of each core that a program
//! without a fault has: whatever a later pass reads of a name, a number or a place in it is there.
//!
//! What the nodes, the height and the uses of parameters of an expression come to where properties are put in.
//!
//! No call of a program: lemmas on which the laws on sizes stand.
//!
//! The core that `crate::resolve` gives is within the limits of size, and nothing is called in its quantifiers.
//!
//! `wy_names_expand` counts an expression in the source, its properties put in, before anything is put in. The laws here
//! say that it counts what the core has, and with what the laws on cores say the core is formed.

mod laws;
mod name_faults_laws;
mod resolved_laws;
mod sized_laws;

pub use laws::{
    a_named_program_is_not_refused, a_program_has_one_core, a_program_has_one_fault,
    a_program_has_one_refusal, a_refused_program_has_its_fault,
};
pub use name_faults_laws::{
    a_named_program_shows_no_fault, a_program_is_refused_for_its_first_fault,
    the_uses_listed_are_those_of_the_program,
};
pub use resolved_laws::{
    a_named_core_calls_what_it_may, a_named_core_declares_no_more, a_named_core_has_ints_alone,
    a_named_core_is_bound, a_named_core_recurs_through_parts,
};
pub use sized_laws::{a_named_core_is_formed, a_named_core_is_quiet, a_named_core_is_small};
