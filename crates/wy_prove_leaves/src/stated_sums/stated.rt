//! The forms of a node that literals have.
ghost use Rattle.std.specs.Prelude.{List, []};
ghost use Rattle.wy_prove_drafts.specs.wy_check_spec.judge.Node.{Literal, Node};
ghost use Rattle.wy_prove_leaves.specs.stated_sums.Replacing.{AreStated};

use std::alloc::Global;
use wy_lin::Form;

/// Whether a number leaves 128 bits in what replacing leaves, and the forms that it leaves, each beside the number of a literal
/// that has it.
#[derive(Drop)]
pub struct Stated {
    pub leaves: bool,
    pub numbers: Vec<u32>,
    pub forms: Vec<Form>,
}

/// What comes of one literal more.
#[derive(Clone, Copy, Debug, PartialEq, Eq)]
pub enum Turn {
    /// The next one is to be taken.
    GoesOn,
    /// The node is closed.
    Closes,
    /// A literal isn't there that has a form which is needed.
    Lacks,
}

/// Nothing yet. It takes no memory.
pub fn nothing_stated(alloc: Global) -> Stated
    ensures { (base : Node) (ls : List Literal) → AreStated base ls [] result }
{
    Stated {
        leaves: false,
        numbers: Vec::new(alloc),
        forms: Vec::new(alloc),
    }
}
