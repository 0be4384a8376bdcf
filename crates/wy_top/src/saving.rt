//! The command `prove`: the certificates that were found are saved, and then the answer is written.
ghost use Rattle.std.specs.Prelude.{◌≡◌, ◌≢◌, ◌≤◌, ℕ, List};
ghost use Rattle.wy_top_probe.specs.wy_top_answers.Showing.{sinks};
ghost use Rattle.wy_top.specs.Saves as spec;

use crate::proving::Proof;
use std::alloc::Global;
use wy_port::{Files, SaveFault, Sink};
use wy_top_probe::wy_top_answers::report::save_failed;
use wy_top_probe::wy_top_answers::{no_memory, refusal, show};

/// Saves the file of a proof under a name, and writes its answer; where the save fails, the line of that alone. It answers the
/// status.
pub fn save<F: Files, O: Sink, E: Sink>(
    alloc: Global,
    name: &str,
    proof: &Proof,
    files: &mut F,
    out: &mut O,
    err: &mut E,
) -> u8
    ensures saves { spec.Saves name.now proof.now.saved proof.now.answer (spec.saving (F.told files.old name.now) (F.told files.new name.now) (F.save_faults files.old) (F.save_faults files.new)) result
        (sinks (O.taken out.old) (O.taken out.new) (O.faults out.old) (O.faults out.new) (E.taken err.old) (E.taken err.new) (E.faults err.old) (E.faults err.new)) }
    ensures kept { (other : List ℕ) → other ≢ name.now → F.told files.new other ≡ F.told files.old other }
    ensures load_count { F.load_faults files.new ≡ F.load_faults files.old }
    ensures miss_count { F.misses files.new ≡ F.misses files.old }
    ensures save_count { F.save_faults files.old ≤ F.save_faults files.new }
{
    match files.save(alloc, name, proof.saved.as_slice()) {
        Ok(()) => show(&proof.answer, out, err),
        Err(SaveFault::Failed) => {
            let answer = refusal(alloc, 5, save_failed(alloc, name));
            show(&answer, out, err)
        }
        Err(SaveFault::NoMemory) => {
            let answer = no_memory(alloc);
            show(&answer, out, err)
        }
    }
}
