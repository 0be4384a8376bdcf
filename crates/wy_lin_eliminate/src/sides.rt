//! Lower and upper forms of a variable.
ghost use Rattle.std.specs.Prelude.{◌≡◌, map, IfOk};
ghost use Rattle.wy_lin.specs.Seen.{linear_form};
ghost use Rattle.wy_lin_eliminate.specs.Variables as variables;

use crate::places::coefficient_at;
use std::alloc::Global;
use wy_items::Items;
use wy_lin::{Form, NoMemory};

/// Places of forms in which a variable has a coefficient above 0, below 0, and none.
#[derive(Debug, Drop)]
pub struct Sides {
    pub lower: Items<u32>,
    pub upper: Items<u32>,
    pub without: Items<u32>,
}

// One place more, by the sign of the coefficient.
fn with_side(sides: Sides, all: &[Form], v: u32, i: u32) -> Result<Sides, NoMemory>
    ensures value { IfOk result (λ s. s ≡ variables.with_side (map linear_form all.now) v sides i) }
{
    let mut sides = sides;
    let c = coefficient_at(all, v, i);
    if 0 < c {
        sides.lower.push(i)?;
        return Ok(sides);
    }
    if c < 0 {
        sides.upper.push(i)?;
        return Ok(sides);
    }
    sides.without.push(i)?;
    Ok(sides)
}

/// The places, by the sign of the variable's coefficient.
pub fn by_sign(alloc: Global, all: &[Form], v: u32, places: &[u32]) -> Result<Sides, NoMemory>
    ensures value { IfOk result (λ s. s ≡ variables.sides (map linear_form all.now) v places.now) }
{
    let mut made = Sides {
        lower: Items::new(alloc),
        upper: Items::new(alloc),
        without: Items::new(alloc),
    };
    for i in places {
        made = with_side(made, all, v, *i)?;
    }
    Ok(made)
}
