//! The open blocks.
ghost use Rattle.std.specs.Prelude.{◌≡◌, [], ◌∷◌, ◌++◌, ◌<◌, ◌≤◌, length, take, IfOk, MatchOption, None, Some, OnOk, IfSome};
ghost use Rattle.wy_lex.specs.Layout as layout;

use std::alloc::{AllocError, Global};
use std::marker::Model;
use wy_data::{Bytes, same_bytes};

/// The indentations of the open blocks, outermost first. The first is that of the top, which is empty.
#[derive(Drop)]
pub struct Blocks {
    list: Vec<Bytes>,
}

impl Model for Blocks {
    ghost use Rattle.std.specs.Prelude.{List, ℕ};

    ghost Value = { List (List ℕ) };

    ghost view = { λ b. b.list.items };
}

impl Blocks {
    /// The top alone.
    pub fn new(alloc: Global) -> Result<Blocks, AllocError>
        ensures { IfOk result (λ blocks. blocks ≡ [] ∷ []) }
    {
        let mut list = Vec::new(alloc);
        list.push(Bytes::new(Vec::new(alloc)))?;
        Ok(Blocks { list })
    }

    pub fn len(&self) -> usize
        ensures { result ≡ length self.now }
    {
        self.list.len()
    }

    /// Which block has the indentation, counted from the top.
    pub fn level(&self, indent: &[u8]) -> Option<usize>
        ensures value { result ≡ layout.level self.now indent.now }
        ensures within { IfSome result (λ n. n < length self.now) }
    {
        for n in 0..self.list.len() {
            if same_bytes(self.list[n].as_slice(), indent) {
                return Some(n);
            }
        }
        None
    }

    /// Whether the indentation is deeper than that of the innermost block.
    pub fn is_deeper(&self, indent: &[u8]) -> bool
        ensures { result ≡ layout.is_deeper (layout.innermost self.now) indent.now }
    {
        match self.list.as_slice() {
            [] => !indent.is_empty(),
            [.., innermost] => is_front(innermost.as_slice(), indent),
        }
    }

    /// One block more.
    pub fn push(&mut self, indent: Bytes) -> Result<(), AllocError>
        ensures { OnOk result (self.new ≡ self.old ++ indent ∷ []) }
    {
        self.list.push(indent)?;
        Ok(())
    }

    /// The first blocks, so many.
    pub fn keep(&mut self, count: usize)
        ensures { self.new ≡ take count self.old }
    {
        self.list.truncate(count);
    }
}

// Whether the one begins the other, which is longer.
fn is_front(front: &[u8], text: &[u8]) -> bool
    ensures { result ≡ layout.is_deeper front.now text.now }
{
    front.len() < text.len() && same_bytes(&text[..front.len()], front)
}
