//! Typed and assigned programs, read from bytes.
ghost use Rattle.std.specs.Prelude.{◌≡◌, ◌<◌, ◌^◌, ℕ, List, length, false, IsTrue, IfOk, IfErr, MatchResult};
ghost use Rattle.wy_core.specs.CoreSeen.{seen_core};
ghost use Rattle.wy_core.specs.CoreTree as tree;
ghost use Rattle.wy_core.specs.Types as types;
ghost use Rattle.wy_core.specs.declared.declarations.Core.{Core as DeclaredCore};
ghost use Rattle.wy_top_source.specs.Refusals.{is_no_memory};
ghost use Rattle.wy_top_source.specs.Sources.{HasCore, IsDue, IsEarly, IsFormed, IsProgram, IsRefused};
ghost use Rattle.wy_top_source.specs.declared.refusal.Refusal.{Refusal};
ghost use Rattle.wy_assign.specs.wy_flow_spec.typing.TypedPrograms.{core_of, flow_of};

use crate::refusal::Refusal;
use std::alloc::Global;
use wy_assign::typed::assigned;
use wy_core::Core;
use wy_flow::{Typed, check};
use wy_names::resolve;

/// The program that the bytes spell, with the flow type of each expression, if each use of a variable
/// follows an assignment to it and each path of a body with a result ends in `return` or `fail`; else the
/// first refusal, in the order text, names, types, assignment.
///
/// Linear in the source and the expansion of its properties, beside the questions about types and what
/// joins of paths copy.
pub fn read_program(alloc: Global, source: &[u8]) -> Result<Typed, Refusal>
    requires { length source.now < 2 ^ 32 }
    ensures program { IfOk result (λ t. IsProgram source.now (core_of t) (flow_of t)) }
    ensures complete { (core : tree.Core ℕ) → (flow : List types.Ty) → IsProgram source.now core flow → MatchResult result (λ t. (core_of t ≡ core) × (flow_of t ≡ flow)) (λ e. IsTrue (is_no_memory e)) }
    ensures formed { IfOk result (λ t. IsFormed (core_of t)) }
    ensures refused { IfErr result (λ e. is_no_memory e ≡ false → IsRefused source.now e) }
    ensures exact { (f : Refusal) → IsDue source.now f → MatchResult result (λ t. ⊥) (λ e. is_no_memory e ≡ false → e ≡ f) }
{
    let core = match read_core(alloc, source) {
        Ok(core) => core,
        Err(refusal) => return Err(refusal),
    };
    let typed = match check(alloc, core) {
        Ok(typed) => typed,
        Err(fault) => return Err(Refusal::Flow(fault)),
    };
    match assigned(alloc, &typed) {
        Ok(()) => Ok(typed),
        Err(fault) => Err(Refusal::Assign(fault)),
    }
}

// The core of the program that the bytes spell.
fn read_core(alloc: Global, source: &[u8]) -> Result<Core, Refusal>
    requires { length source.now < 2 ^ 32 }
    ensures core { IfOk result (HasCore source.now) }
    ensures complete { (core : DeclaredCore) → HasCore source.now core → MatchResult result (λ c. seen_core c ≡ seen_core core) (λ e. IsTrue (is_no_memory e)) }
    ensures refused { IfErr result (λ e. is_no_memory e ≡ false → IsRefused source.now e) }
    ensures exact { (f : Refusal) → IsEarly f → IsDue source.now f → MatchResult result (λ c. ⊥) (λ e. is_no_memory e ≡ false → e ≡ f) }
{
    let program = match wy_print_laws::wy_parse_front::read(alloc, source) {
        Ok(program) => program,
        Err(fault) => return Err(Refusal::Text(fault)),
    };
    match resolve(alloc, &program) {
        Ok(core) => Ok(core),
        Err(fault) => Err(Refusal::Name(fault)),
    }
}
