//! What the walk has still to do.

/// A thing to do.
#[derive(Clone, Copy, Debug)]
pub enum Task {
    /// To list a term or formula and what stands in its parts: its number, and whether it holds, where false stands for its
    /// denial.
    Visit(u32, bool),
    /// To take the quantifier with this number to be around all that comes.
    Bind(u32),
    /// To leave the quantifier that was taken last.
    Leave,
}
