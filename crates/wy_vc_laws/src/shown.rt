//! The terms of certificates that were read are of the sorts that their places want, so that the law on valid certificates
//! (wy_check_laws) speaks of every certificate file.
//!
//! What a file of certificates shows: whatever bytes it has, each condition for which it has a valid certificate is true of
//! all data.
//!
//! This puts the law on valid certificates (wy_check_laws) together with that on the terms of certificates that were
//! read: nothing is asked of a file but that it was read.
//!
//! The conditions of a program meet the premises of the laws on certificates, so these laws speak of every program.

mod certified_programs_law;
mod law;
mod shown_conditions_law;

pub use certified_programs_law::certified_programs_owe_truths;
pub use law::certificates_are_read_sorted;
pub use shown_conditions_law::certificate_files_show_their_conditions;
