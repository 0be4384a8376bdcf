//! Arrows between names.
ghost use Rattle.std.specs.Prelude.{◌≡◌, ◌++◌, IfOk, OnOk};
ghost use Rattle.wy_graph.specs.reach.Walks as spec;

use crate::cycles::Arrow;
use crate::reach::entries::Entry;
use std::alloc::{AllocError, Global};

/// The number of a name as one of 32 bits. A larger one is want of memory.
pub fn small(number: usize) -> Result<u32, AllocError>
    ensures value { IfOk result (λ n. n ≡ number) }
{
    match u32::try_from(number) {
        Ok(small) => Ok(small),
        Err(_) => Err(AllocError),
    }
}

// Puts an arrow to each of these names behind the others.
fn push_arrows(arrows: &mut Vec<Arrow>, from: u32, names: &[u32]) -> Result<(), AllocError>
    ensures value { OnOk result (arrows.new.items ≡ arrows.old.items ++ spec.arrows_from from names.now) }
{
    for to in names {
        arrows.push(Arrow { from, to: *to })?;
    }
    Ok(())
}

/// An arrow from each name to each that it mentions. Linear in these.
pub fn arrows_of(alloc: Global, entries: &[Entry]) -> Result<Vec<Arrow>, AllocError>
    ensures value { IfOk result (λ made. made.items ≡ spec.arrows_of 0 entries.now) }
{
    let mut arrows = Vec::new(alloc);
    for (number, entry) in entries.iter().enumerate() {
        let from = small(number)?;
        push_arrows(&mut arrows, from, entry.names.as_slice())?;
    }
    Ok(arrows)
}
