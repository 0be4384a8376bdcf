//! Where classes clash, some steps of a certificate close the node: by the definitions alone.
//!
//! `specs/chains/Chains` says what it means.
ghost use Rattle.wy_search_laws.specs.chains.Chains.{ClashesClose};

/// Where the classes of a node clash, by the definition of the search, whose formulas are sorted and its literals folded, some
/// steps of a certificate close each node that has its literals, beside whatever others.
pub fn clashing_nodes_close()
    ensures close { ClashesClose }
{}
