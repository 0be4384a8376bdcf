//! Which texts there are.

/// A text of a source.
#[derive(Clone, Copy, Debug, PartialEq, Eq)]
pub enum Kind {
    /// The program in its one layout, of any source that spells one.
    Layout,
    /// The listing of the program's code, of a source whose program is typed and assigned.
    Listing,
}
