//! The values that are tried for the parameters of a function or method.
ghost use Rattle.std.specs.Prelude.{◌≡◌, IfOk, map};
ghost use Rattle.wy_core.specs.CoreSeen.{seen_param};
ghost use Rattle.wy_types.specs.Names.{types_of};
ghost use Rattle.wy_probe.specs.Candidates as spec;
ghost use Rattle.wy_probe.specs.Tables.{table_of};

use crate::candidates::values_of;
use crate::tables::{deeper, settled};
use std::alloc::{AllocError, Global};
use wy_core::Param;
use wy_items::Items;
use wy_types::Names;
use wy_value::Value;

/// The values that are tried for each parameter, in the order of the parameters: at most 64 by the type of each, each once,
/// in which arrays and records nest two deep. `specs/Candidates` says which.
///
/// The values of each declared type are made once for each depth, and then those of the parameters, in time linear in their
/// types as they are written, for each list that is made.
pub(crate) fn lists_of(
    alloc: Global,
    names: &Names,
    params: &[Param],
) -> Result<Items<Items<Value>>, AllocError>
    ensures value { IfOk result (λ lists. table_of lists ≡ spec.lists_of (types_of names.now) (map seen_param params.now)) }
{
    let bare = deeper(alloc, names, Items::new(alloc))?;
    let lower = deeper(alloc, names, bare)?;
    let below = lower.as_slice();
    let table = settled(alloc, names, below)?;
    let values = table.as_slice();
    let mut lists = Items::new(alloc);
    for param in params {
        let list = values_of(alloc, names, values, below, &param.ty)?;
        lists.push(list)?;
    }
    Ok(lists)
}
