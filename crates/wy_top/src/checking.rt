//! The command `check`.
ghost use Rattle.std.specs.Prelude.{◌≡◌, ◌≤◌, ◌⊎◌, ℕ, List};
ghost use Rattle.wy_top.specs.Acceptance as spec;
ghost use Rattle.wy_top.specs.Kept.{IsWhole, acceptance_in};
ghost use Rattle.wy_top_probe.specs.wy_top_answers.Answers as answers;
ghost use Rattle.wy_top_probe.specs.wy_top_answers.Steps.{Answers, During};

use crate::accepting::{Accepted, accept_file};
use std::alloc::Global;
use std::thread::Threads;
use wy_data::Bytes;
use wy_port::Files;
use wy_top_probe::wy_top_answers::report::accepted as accepted_line;
use wy_top_probe::wy_top_answers::{Answer, no_memory};

// How many conditions were accepted.
fn answer_of(alloc: Global, accepted: Accepted) -> Answer
    requires { IsWhole accepted }
    ensures value { (result ≡ spec.checked_answer (acceptance_in accepted)) ⊎ (result ≡ answers.no_memory) }
{
    match accepted_line(alloc, accepted.count) {
        Ok(line) => Answer {
            status: 0,
            out: Bytes::new(line.into_bytes()),
            err: accepted.lines,
        },
        Err(_) => no_memory(alloc),
    }
}

/// The answer of `check`: how many conditions the program of the source has, where each has a valid certificate, or why it
/// isn't accepted.
pub fn check<R: Threads + Sync, F: Files>(
    rt: &R,
    alloc: Global,
    name: &str,
    cert: &str,
    budget: u64,
    workers: u32,
    files: &mut F,
) -> Answer
    requires workers { (1 ≤ workers) × (workers ≤ 64) }
    ensures answers { During (F.told files.old) (F.load_faults files.old) (F.load_faults files.new) (F.misses files.old) (F.misses files.new) (λ s. Answers s (spec.check_steps s name.now cert.now budget) result) }
    ensures kept { (other : List ℕ) → F.told files.new other ≡ F.told files.old other }
    ensures load_count { (other : List ℕ) → F.load_faults files.old other ≤ F.load_faults files.new other }
    ensures miss_count { (other : List ℕ) → F.misses files.old other ≤ F.misses files.new other }
    ensures save_count { F.save_faults files.new ≡ F.save_faults files.old }
{
    match accept_file(rt, alloc, name, cert, budget, workers, files) {
        Ok(accepted) => answer_of(alloc, accepted),
        Err(answer) => answer,
    }
}
