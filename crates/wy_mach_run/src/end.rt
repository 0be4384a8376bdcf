//! How a run ends.

/// How a run ends.
#[derive(Clone, Copy, Debug, PartialEq, Eq)]
pub enum RunEnd {
    /// The entry ended, and all was written: how many nodes were copied in the run, and how many were left when the
    /// result alone was held.
    Done { copies: u64, nodes: u64 },
    /// The run has no end within the steps. All that it printed was written.
    Spent,
    /// The sink failed, and counted it. It took a front of what the run writes.
    OutFault,
}
