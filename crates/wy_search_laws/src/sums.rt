//! Where elimination refutes a node, some steps of a certificate close it: by the definitions alone.
//!
//! `specs/sums/Refuted` says what it means.
ghost use Rattle.wy_search_laws.specs.sums.Refuted.{RefutedClose};

/// Where elimination refutes a node of sorted formulas, by the definition of the search, some steps of a certificate close
/// each node that has its literals.
pub fn refuted_nodes_close()
    ensures close { RefutedClose }
{}
