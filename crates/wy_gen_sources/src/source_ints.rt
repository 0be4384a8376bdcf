//! The fields of a core are such as a heap's table asks for.
//!
//! `wy_code_spec` says when the names of fields in a core are names, and those of each record rise
//! (`HasFields`): there the table of shapes of its code is one that a heap takes. The law here says it of
//! each core that a program without a fault of names has, where its fields are names as it is written.
//!
//! The fields of a source that is read have names.
//!
//! The laws on the names of fields ask that each name of a field in a program is a name. The law here says it of each
//! program that a source spells: a field is written as a name, and each token that is one is proper.
//!
//! What the programs have that bytes spell, as laws: each property has a clause, and there are few declarations.
//!
//! With them the laws on sizes hold of each program that was read, with no condition on its source.
//!
//! The numbers of a source that is read are `int`s, and the codes of its texts are bytes.
//!
//! The laws on cores and on spelling ask so of a program, to say that its core is formed. The law here says it of each
//! program that a source spells: a numeral above the greatest `int` is a literal only behind a minus that it touches, and
//! each character of a text has one byte.
//!
//! The code of a program without a fault of names: whatever it names by a number is there.
//!
//! `wy_gen::generate` promises of every core that its frames, jumps, shapes and names are in range. Two
//! more promises ask for a core whose names lead where they should. The law here gives both of each core
//! that name resolution gives, so that what a machine asks of code holds of it.

mod laws;
mod named_code_laws;
mod source_fields_laws;
mod source_ints_laws;
mod spelled_laws;

pub use laws::a_named_core_has_fields;
pub use named_code_laws::the_code_of_a_named_core_is_whole;
pub use source_fields_laws::a_source_that_is_read_has_names_of_fields;
pub use source_ints_laws::{a_source_that_is_read_has_ints_alone, the_core_of_a_source_is_formed};
pub use spelled_laws::{
    a_spelled_program_has_clauses, a_spelled_program_is_short, the_core_of_a_text_is_formed,
    the_core_of_a_text_is_small,
};
