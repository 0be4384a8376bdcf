//! The text of certificates.

mod write;

pub use write::write_certs;
