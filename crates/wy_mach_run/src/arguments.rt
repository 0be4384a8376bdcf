//! Whether arguments meet an entry.
ghost use Rattle.std.specs.Prelude.{◌≡◌, ℕ, List, MatchResult, length};
ghost use Rattle.wy_core.specs.CoreSeen.{seen_core};
ghost use Rattle.wy_core.specs.CoreTree.{Routine};
ghost use Rattle.wy_mach_run.specs.Entries.{IsEntry};
ghost use Rattle.wy_mach_run.specs.Meeting.{judged as spec_judged};
ghost use Rattle.wy_mach_run.specs.Starting.{IsMet, IsNotMet};

use crate::entry::Entry;
use crate::fault::StartFault;
use std::alloc::Global;
use wy_core::Core;
use wy_eval_exprs::{MeetsEnd, meets};
use wy_value::Value;

/// The most visits of types and turns of quantifiers that the test makes.
const TURNS: u64 = 10_000_000;

/// Whether the arguments meet the entry: their number, the type of each in order, each requires clause in order.
pub fn tested(alloc: Global, core: &Core, entry: &Entry, args: &[Value]) -> Result<(), StartFault>
    ensures found { (name : List ℕ) → (r : Routine ℕ) → IsEntry (seen_core core.now) name entry.now.number r → entry.now.count ≡ length r.params → MatchResult result (λ _. IsMet (seen_core core.now) entry.now.number args.now) (IsNotMet (seen_core core.now) entry.now.number r args.now) }
{
    match meets(alloc, core, entry.number, args, TURNS) {
        Ok(end) => judged(end, entry.count),
        Err(_) => Err(StartFault::NoMemory),
    }
}

// What the test of the arguments of an entry that takes so many comes to.
fn judged(end: MeetsEnd, count: u32) -> Result<(), StartFault>
    ensures value { result ≡ spec_judged count end }
{
    match end {
        MeetsEnd::Met => Ok(()),
        MeetsEnd::CountFails => Err(StartFault::OtherCount(count)),
        MeetsEnd::TypeFails(number) => Err(StartFault::OtherType(number)),
        MeetsEnd::RequiresFails(number) => Err(StartFault::RequiresFails(number)),
        MeetsEnd::TurnsSpent => Err(StartFault::TurnsSpent),
    }
}
