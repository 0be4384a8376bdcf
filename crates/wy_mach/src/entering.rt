//! The registers of a frame at entry.
ghost use Rattle.std.specs.Prelude.{◌≡◌, ◌-◌, ◌++◌, List, IfOk, IfErr, length};
ghost use Rattle.wy_value.specs.Datum.{Datum};
ghost use Rattle.wy_heap.specs.Nodes.{Map};
ghost use Rattle.wy_heap.specs.Meaning.{MeanAll};
ghost use Rattle.wy_sem.specs.Expressions.{data_of};
ghost use Rattle.wy_code_spec.specs.step.Step.{holding, empties};
ghost use Rattle.wy_mach.specs.Showing.{Shows};
ghost use Rattle.wy_mach.specs.Taking.{nulls};

use wy_heap::{Kind, Place};

/// The registers of a frame at entry: the arguments, and null behind them, so many in all. At want of
/// memory the arguments are handed back. It is linear in the registers.
pub fn entry_registers(many: u32, arguments: Vec<Place>) -> Result<Vec<Place>, Vec<Place>>
    ensures registers { IfOk result (λ all. all.items ≡ arguments.items ++ nulls (many - length arguments.items)) }
    ensures shows { IfOk result (λ all. (m : Map) (vs : List Datum) → MeanAll m (data_of vs) arguments.items → Shows m (holding vs ++ empties (many - length vs)) all.items) }
    ensures back { IfErr result (λ back. back.items ≡ arguments.items) }
{
    let mut all = arguments;
    let mut more = (many as usize).saturating_sub(all.len());
    if all.reserve(more).is_err() {
        return Err(all);
    }
    'more: while more > 0 {
        more -= 1;
        all.push_reserved(Place::scalar(Kind::Null));
    }
    Ok(all)
}
