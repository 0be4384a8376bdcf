//! The code and the last uses of a program that is well typed.
ghost use Rattle.std.specs.Prelude.{◌≡◌, All, Bool, IfOk, List, length};
ghost use Rattle.wy_code_spec.specs.compiled.Fields.{HasFields};
ghost use Rattle.wy_code_spec.specs.compiled.Programs.{code_of};
ghost use Rattle.wy_code_spec.specs.compiled.Ranges.{CallsBelow, IsFramed, IsNamed};
ghost use Rattle.wy_core.specs.formed.Bound.{Bound};
ghost use Rattle.wy_live.specs.LastUses.{AreLast};
ghost use Rattle.wy_flow_spec.specs.typing.TypedPrograms.{core_of};
ghost use Rattle.wy_value.specs.Shapes.{IsShapes};

use crate::NoMemory;
use std::alloc::Global;
use wy_code::Code;
use wy_flow_spec::typing::Typed;
use wy_live::Uses;

/// The code of a program: that of its core, as `crate::generate` makes it, with the same promises and
/// at the same cost.
pub fn generate(alloc: Global, typed: &Typed) -> Result<Code, NoMemory>
    ensures value { IfOk result (λ c. c ≡ code_of (core_of typed.now)) }
    ensures frames { IfOk result (λ c. All IsFramed c.routines) }
    ensures named { IfOk result (λ c. All (IsNamed c.shapes) c.routines) }
    ensures calls { Bound (core_of typed.now) → IfOk result (λ c. All (CallsBelow (length c.routines)) c.routines) }
    ensures shapes { HasFields (core_of typed.now) → IfOk result (λ c. IsShapes c.shapes) }
{
    let code = crate::generate(alloc, typed.core())?;
    Ok(code)
}

/// Which uses of variables in a program are the last on every path: those of its core, as
/// `wy_live::last_uses` marks them, in the same order and at the same cost.
pub fn last_uses(alloc: Global, typed: &Typed) -> Result<Uses, NoMemory>
    ensures sound { IfOk result (λ u. AreLast (core_of typed.now) u.last) }
    ensures complete { IfOk result (λ u. (marks : List Bool) → AreLast (core_of typed.now) marks → marks ≡ u.last) }
{
    let uses = wy_live::last_uses(alloc, typed.core())?;
    Ok(uses)
}
