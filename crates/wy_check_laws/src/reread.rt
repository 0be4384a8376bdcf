//! What a step may add as a fact holds, for all sixteen schemas: whatever data and numbers its names stand for, where `in` of
//! each listed type means the type's formula.
//!
//! The grammar of certificate files as whole texts: what `read_certs` reads line by line are exactly the texts that it spells,
//! and each fault stands at the first line with which no such text begins.
//!
//! Reading certificates after writing them gives the same certificates.
//!
//! Certificates of real programs, judged by the definition of validity: 41 certificates of the conditions of five programs,
//! with answers from outside this repository; five of them are refused.

mod certificate_grammar_law;
mod certificates_reread_law;
mod law;
mod valid_rows_law;

pub use certificate_grammar_law::{faults_stand_at_their_lines, files_are_read_by_their_grammar};
pub use certificates_reread_law::written_certificates_are_read;
pub use law::each_fact_holds;
pub use valid_rows_law::real_certificates_are_judged;
