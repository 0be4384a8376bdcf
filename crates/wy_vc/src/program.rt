//! The tables of a well-typed program.
ghost use Rattle.std.specs.Prelude.{◌≡◌, IfOk};
ghost use Rattle.wy_core.specs.CoreSeen.{seen_core};
ghost use Rattle.wy_vc_spec.specs.Numbered.{numbered_core};
ghost use Rattle.wy_vc_spec.specs.Programs.{setting_of};
ghost use Rattle.wy_flow_spec.specs.typing.TypedPrograms.{flow_of};
ghost use Rattle.wy_vc_tables.specs.program_names.Described.{IsDescribed, setting};

use crate::numbers::numbers_of;
use std::alloc::{AllocError, Global};
use wy_core::Core;
use wy_flow_spec::typing::Typed;
use wy_vc_tables::program_names::Program;
use wy_vc_tables::program_of;

/// What the conditions of a program ask of its declarations and its expressions, where these have the flow types of the typed program:
/// what walks over expressions go by is what the definition of conditions goes by. As `wy_vc_tables::program_of`, and linear in the flow
/// types.
pub fn typed_program(alloc: Global, core: &Core, typed: &Typed) -> Result<Program, AllocError>
    ensures described { IfOk result (λ p. IsDescribed core.now p) }
    ensures setting { IfOk result (λ p. setting core.now p ≡ setting_of (numbered_core (seen_core core.now)) (flow_of typed.now)) }
{
    let marks = numbers_of(alloc, typed)?;
    program_of(alloc, core, marks)
}
