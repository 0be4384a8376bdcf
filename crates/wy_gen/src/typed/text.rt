//! The listing of a program.
ghost use Rattle.std.specs.Prelude.{◌≡◌, IfOk};
ghost use Rattle.wy_code.specs.Listing.{code_text};
ghost use Rattle.wy_code_spec.specs.compiled.Programs.{code_of};
ghost use Rattle.wy_flow_spec.specs.typing.TypedPrograms.{core_of};

use crate::NoMemory;
use crate::typed::typed::generate;
use std::alloc::Global;
use wy_code::show_code;
use wy_flow_spec::typing::Typed;

/// The text of the code of a program, which `dis` prints: each routine with its number, and its
/// instructions, one a line. It is the text of what `generate` makes, and linear in it.
pub fn listing(alloc: Global, typed: &Typed) -> Result<Vec<u8>, NoMemory>
    ensures value { IfOk result (λ text. text.items ≡ code_text (code_of (core_of typed.now))) }
{
    let code = generate(alloc, typed)?;
    let text = show_code(alloc, &code)?;
    Ok(text)
}
