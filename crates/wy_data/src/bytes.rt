//! Texts of any bytes.
ghost use Rattle.std.specs.Prelude.{◌≡◌, bytes_eq, IfOk, IsTrue, ◌↔◌};

use crate::name::same_bytes;
use std::alloc::{AllocError, Global};
use std::marker::Model;

/// A `Vec<u8>` that clauses see as the list of its bytes.
#[derive(Debug, Drop)]
pub struct Bytes {
    bytes: Vec<u8>,
}

impl Model for Bytes {
    ghost use Rattle.std.specs.Prelude.{List, ℕ};

    ghost Value = { List ℕ };

    ghost view = { λ b. b.bytes.items };
}

impl Bytes {
    /// The text with these bytes. It takes no memory.
    pub fn new(bytes: Vec<u8>) -> Bytes
        ensures value { result ≡ bytes.items }
    {
        Bytes { bytes }
    }

    /// The bytes, given back. It takes no memory.
    pub fn into_vec(self) -> Vec<u8>
        ensures value { result.items ≡ self }
    {
        let Bytes { bytes } = self;
        bytes
    }

    pub fn as_slice(&self) -> &[u8]
        ensures value { result.now ≡ self.now }
    {
        self.bytes.as_slice()
    }

    /// The same text once more, in time linear in its length.
    pub fn copy(&self, alloc: Global) -> Result<Bytes, AllocError>
        ensures value { IfOk result (λ copy. copy ≡ self.now) }
    {
        Ok(Bytes {
            bytes: Vec::from_slice(alloc, self.bytes.as_slice())?,
        })
    }

    /// Whether both have the same bytes.
    pub fn is(&self, other: &Bytes) -> bool
        ensures value { result ≡ bytes_eq self.now other.now }
        ensures complete { IsTrue result ↔ (self.now ≡ other.now) }
    {
        same_bytes(self.as_slice(), other.as_slice())
    }
}
