//! What one search leaves to the next.
ghost use Rattle.std.specs.Prelude.{◌≤◌, List, length};
ghost use Rattle.wy_search.specs.Carried.{IsCarried};
ghost use Rattle.wy_term.specs.Nodes.{Plain};

use std::alloc::Global;
use wy_check_nodes::fronts::{Front, no_front};
use wy_search_bounds::{KnownForms, no_forms};

/// What one search of a list of conditions leaves to the next: the forms of literals that were made, and the node of the last
/// condition's hypotheses.
#[derive(Drop)]
pub struct Carried {
    pub forms: KnownForms,
    pub front: Front,
}

/// Nothing yet; forms of terms below the floor are to last. It takes no memory.
pub fn nothing_carried(alloc: Global, floor: usize) -> Carried
    ensures { (nodes : List Plain) → floor ≤ length nodes → IsCarried nodes result }
{
    Carried {
        forms: no_forms(alloc, floor),
        front: no_front(alloc),
    }
}
