//! What a walk from the end of a body to its beginning carries.
ghost use Rattle.std.specs.Prelude.{◌≡◌, [], ◌∷◌, OnOk};
ghost use Rattle.wy_live.specs.Walks as spec;

use crate::sets::Variables;
use std::alloc::{AllocError, Global};
use std::marker::Model;
use wy_items::Items;

/// The marks of the uses behind a point, the first one last.
#[derive(Drop)]
pub struct Marks {
    backwards: Vec<bool>,
}

impl Model for Marks {
    ghost use Rattle.std.specs.Prelude.{List, Bool, reverse};

    ghost Value = { List Bool };

    ghost view = { λ m. reverse m.backwards.items };
}

impl Marks {
    /// No marks. It takes no memory.
    pub fn none(alloc: Global) -> Marks
        ensures value { result ≡ [] }
    {
        Marks {
            backwards: Vec::new(alloc),
        }
    }

    /// One more mark before the others.
    pub fn push(&mut self, mark: bool) -> Result<(), AllocError>
        ensures value { OnOk result (self.new ≡ mark ∷ self.old) }
    {
        self.backwards.push(mark)?;
        Ok(())
    }

    /// The marks in order.
    pub fn into_items(self) -> Items<bool>
        ensures value { result ≡ self }
    {
        let Marks { mut backwards } = self;
        backwards.reverse();
        Items::from_vec(backwards)
    }
}

/// What is live at a point, and the marks of the uses behind it.
#[derive(Drop)]
pub struct Walk {
    pub live: Variables,
    pub marks: Marks,
}

/// What is live behind the loop around, and at its head.
#[derive(Drop)]
pub struct Ends {
    pub exit: Variables,
    pub again: Variables,
}

/// The walk where this is live.
pub fn with_live(live: Variables, walk: Walk) -> Walk
    ensures value { result ≡ spec.with_live live walk }
{
    Walk {
        live,
        marks: walk.marks,
    }
}

/// Nothing is live. It takes no memory.
pub fn nothing(alloc: Global) -> Ends
    ensures value { result ≡ spec.nothing }
{
    Ends {
        exit: Variables::none(alloc),
        again: Variables::none(alloc),
    }
}
