//! Who answers questions about programs.
use std::alloc::Global;
use wy_explain_source::{NoMemory, Page, Program};

/// The pass that has a fault.
#[derive(Clone, Copy, PartialEq, Eq)]
pub enum Pass {
    Text,
    Names,
    Types,
    Paths,
}

/// A fault: its pass, its word and its place.
#[derive(Clone, Copy)]
pub struct Fault {
    pub pass: Pass,
    pub word: &'static str,
    pub at: u32,
}

/// The passes from the bytes of a source to its typed and assigned program, as far as an explanation asks them.
pub trait Checker {
    /// The place of the first fault of the text; none where it is read.
    fn unread(&self, alloc: Global, bytes: &[u8]) -> Result<Option<u32>, NoMemory>;

    /// The program that the text spells; none where it isn't read.
    fn program(&self, alloc: Global, bytes: &[u8]) -> Result<Option<Program>, NoMemory>;

    /// The first fault, in the order of the passes; none where no pass has one.
    fn fault(&self, alloc: Global, bytes: &[u8]) -> Result<Option<Fault>, NoMemory>;

    /// The type, as a user writes it, of the expression behind which so many others stand; none where a pass has a fault.
    fn type_before(
        &self,
        alloc: Global,
        bytes: &[u8],
        behind: usize,
    ) -> Result<Option<Page>, NoMemory>;
}
