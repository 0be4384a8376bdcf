//! Which nodes steps of a certificate close, and that they close nodes that have more.
//!
//! The nodes of a certificate have more than those of the search: a fact adds its whole formula, and the search takes one
//! member of it. So what closes a node of the search is to close each node that has at least as much.
ghost use Rattle.wy_search_laws.specs.closing.AtLeast.{ShutsMore};

/// Where a node can be shut, since a literal stands both ways or a pending formula is judged no, so can each node that has
/// its literals and pending formulas, in any order and beside others.
pub fn what_shuts_a_node_shuts_more()
    ensures { ShutsMore }
{}
