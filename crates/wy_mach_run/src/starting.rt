//! The start of a run.
ghost use Rattle.std.specs.Prelude.{◌≡◌, ◌≢◌, IfErr, IfOk, MatchResult};
ghost use Rattle.wy_mach_run.specs.Meeting.{IsMade};
ghost use Rattle.wy_mach_run.specs.Starting.{IsRefused, Starts};
ghost use Rattle.wy_mach_run.specs.declared.fault.StartFault.{StartFault as Refusal};
ghost use Rattle.wy_mach_run.specs.declared.fault.StartFault.TheVariants.{NoMemory};
ghost use Rattle.wy_mach_run.specs.declared.parts.Start.{Start as Given};
ghost use Rattle.wy_flow_spec.specs.typing.TypedPrograms.{core_of};

use crate::arguments::tested;
use crate::entry::{Entry, entry_of};
use crate::fault::{StartFault, refusal_for};
use crate::parts::Start;
use std::alloc::Global;
use wy_flow_spec::typing::Typed;
use wy_gen::typed::generate;
use wy_items::Items;
use wy_value::{Value, read_values};

/// What a run of the function or method `name` starts with, on the values that the text of arguments spells, as
/// `(1, [true, null])`.
///
/// The steps are taken in this order, and the first that fails gives the refusal: the entry, the argument text, the
/// number of the arguments, the type of each in order, each requires clause in order, and then the code is made. Types
/// and clauses together take at most 10,000,000 turns. The start takes what reading the text, the turns and making the
/// code take.
pub fn start(
    alloc: Global,
    typed: &Typed,
    name: &str,
    arguments: &[u8],
) -> Result<Start, StartFault>
    ensures starts { IfOk result (Starts (core_of typed.now) name.now arguments.now) }
    ensures complete { (s : Given) → Starts (core_of typed.now) name.now arguments.now s → MatchResult result (λ t. t ≡ s) (λ e. e ≡ NoMemory) }
    ensures refused { IfErr result (IsRefused (core_of typed.now) name.now arguments.now) }
    ensures exact { (e : Refusal) → e ≢ NoMemory → IsRefused (core_of typed.now) name.now arguments.now e → MatchResult result (λ t. ⊥) (λ f. f ≢ NoMemory → f ≡ e) }
{
    begun(alloc, typed, name, arguments)
}

// The start, or why there is none.
fn begun(alloc: Global, typed: &Typed, name: &str, arguments: &[u8]) -> Result<Start, StartFault>
    ensures gives { MatchResult result (Starts (core_of typed.now) name.now arguments.now) (IsRefused (core_of typed.now) name.now arguments.now) }
{
    let core = typed.core();
    let entry = match entry_of(core.decls.as_slice(), name) {
        Ok(entry) => entry,
        Err(fault) => return Err(fault),
    };
    let args = match read_values(alloc, arguments) {
        Ok(args) => args,
        Err(fault) => return Err(refusal_for(fault)),
    };
    match tested(alloc, core, &entry, args.as_slice()) {
        Ok(()) => made(alloc, typed, entry, args),
        Err(fault) => Err(fault),
    }
}

// What a run of this entry on these arguments starts with.
fn made(alloc: Global, typed: &Typed, entry: Entry, args: Items<Value>) -> Result<Start, StartFault>
    ensures made { MatchResult result (IsMade (core_of typed.now) entry args) (λ e. e ≡ NoMemory) }
{
    match generate(alloc, typed) {
        Ok(code) => Ok(Start {
            code,
            entry: entry.number,
            args,
            has_result: entry.has_result,
        }),
        Err(_) => Err(StartFault::NoMemory),
    }
}
