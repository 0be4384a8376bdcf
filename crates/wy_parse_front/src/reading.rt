//! Programs, read from bytes.
ghost use Rattle.std.specs.Prelude.{◌≡◌, ◌<◌, ◌^◌, length, Ok, Err, IfOk, IfErr};
ghost use Rattle.wy_ast.specs.declared.declarations.Program.{Program as Tree};
ghost use Rattle.wy_parse_front.specs.Front.{Answers, IsDue, IsRefused, Spells};

use crate::fault::SourceFault;
use std::alloc::Global;
use wy_ast::Program;
use wy_lex::tokens;
use wy_parse::parse;

/// The program that the bytes spell, or the fault that stands first. A fault of the tokens goes before
/// one of the program. Linear in the source.
pub fn read(alloc: Global, bytes: &[u8]) -> Result<Program, SourceFault>
    requires { length bytes.now < 2 ^ 32 }
    ensures spells { IfOk result (λ p. Spells bytes.now p) }
    ensures reads { (p : Tree) → Spells bytes.now p → Answers (Ok p) result }
    ensures fault { IfErr result (IsRefused bytes.now) }
    ensures exact { (f : SourceFault) → IsDue bytes.now f → Answers (Err f) result }
{
    let cut = match tokens(alloc, bytes) {
        Ok(cut) => cut,
        Err(fault) => return Err(SourceFault::of_tokens(fault)),
    };
    match parse(alloc, cut.as_slice()) {
        Ok(program) => Ok(program),
        Err(fault) => Err(SourceFault::of_program(fault)),
    }
}
