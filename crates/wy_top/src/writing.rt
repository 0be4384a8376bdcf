//! The list of what a source owes.
ghost use Rattle.std.specs.Prelude.{◌≡◌, ◌<◌, ◌^◌, ℕ, List, length, false, IsTrue, IfOk, IfErr, MatchResult};
ghost use Rattle.wy_top.specs.Faults.{is_no_memory};
ghost use Rattle.wy_top.specs.Owed.{IsDue, IsOwed, IsRefused};
ghost use Rattle.wy_top.specs.declared.fault.OwedFault.{OwedFault};

use crate::fault::OwedFault;
use crate::listing::conditions_text;
use crate::reading::read_owed;
use std::alloc::Global;
use wy_vc::VcFault;

/// The list of the conditions that the program of a source owes, in order, or why it has none. It takes what reading the program and
/// making its conditions take, and time linear in the text.
pub fn owed_text(alloc: Global, source: &[u8]) -> Result<Vec<u8>, OwedFault>
    requires { length source.now < 2 ^ 32 }
    ensures text { IfOk result (λ t. IsOwed source.now t.items) }
    ensures complete { (t : List ℕ) → IsOwed source.now t → MatchResult result (λ u. u.items ≡ t) (λ e. IsTrue (is_no_memory e)) }
    ensures refused { IfErr result (λ e. is_no_memory e ≡ false → IsRefused source.now e) }
    ensures exact { (f : OwedFault) → IsDue source.now f → MatchResult result (λ t. ⊥) (λ e. is_no_memory e ≡ false → e ≡ f) }
{
    let owed = match read_owed(alloc, source) {
        Ok(owed) => owed,
        Err(fault) => return Err(fault),
    };
    match conditions_text(alloc, source, &owed.1) {
        Ok(text) => Ok(text),
        Err(_) => Err(OwedFault::Limit(VcFault::NoMemory)),
    }
}
