//! Gates.

/// What is told of each condition before its verdict is made, in the thread of the worker that makes it.
pub trait Gate {
    /// The verdict on the condition with this number, from 1, comes next.
    fn pass(&self, number: u32);
}

/// The gate that does nothing.
#[derive(Clone, Copy, Debug)]
pub struct OpenGate;

impl Gate for OpenGate {
    fn pass(&self, _number: u32) {}
}
