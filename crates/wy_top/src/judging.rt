//! The verdicts on what a program owes.
ghost use Rattle.std.specs.Prelude.{◌≡◌, ◌≤◌, IfOk, IfErr};
ghost use Rattle.wy_cache.specs.Kept.{AreKept};
ghost use Rattle.wy_cache_text.specs.Files.{Entries};
ghost use Rattle.wy_top.specs.Kept.{AreEach, HasTaken, HasVerdicts, IsKept, program_in};
ghost use Rattle.wy_top.specs.Programs.{conditions_of};
ghost use Rattle.wy_top_probe.specs.wy_top_answers.Answers as answers;
ghost use Rattle.wy_cert.specs.Steps.{NameTheirTerms, certificates_of};

use crate::others::judge_others;
use crate::owing::Owed;
use std::alloc::Global;
use std::thread::Threads;
use wy_batch::{Verdict, judge};
use wy_cert::Certs;
use wy_term::Conds;
use wy_top_probe::wy_flow_spec::typing::Typed;
use wy_top_probe::wy_top_answers::{Answer, no_memory};

/// A program with what it owes and what is known of each condition.
#[derive(Drop)]
pub struct Judged {
    pub typed: Typed,
    pub conds: Conds,
    pub verdicts: Vec<Verdict>,
}

/// The verdicts on what the program owes, where these certificates are supplied, with searches of so many leaves; or want of
/// memory. It takes what checking the certificates and searching the other conditions take, shared by so many workers.
pub fn judge_all<R: Threads + Sync>(
    rt: &R,
    alloc: Global,
    owed: Owed,
    certs: &Certs,
    budget: u64,
    workers: u32,
) -> Result<Judged, Answer>
    requires kept { IsKept owed }
    requires names { NameTheirTerms certs.now }
    requires workers { (1 ≤ workers) × (workers ≤ 64) }
    ensures verdicts { IfOk result (HasVerdicts (program_in owed) (certificates_of certs.now) budget) }
    ensures each { IfOk result AreEach }
    ensures memory { IfErr result (λ a. a ≡ answers.no_memory) }
{
    let Owed { typed, mut conds } = owed;
    match judge(rt, alloc, &mut conds, certs, budget, workers) {
        Ok(verdicts) => Ok(Judged {
            typed,
            conds,
            verdicts,
        }),
        Err(_) => Err(no_memory(alloc)),
    }
}

/// The same where a cache has these certificates, each of which is valid: they aren't checked, and the other conditions are searched.
pub fn judge_kept<R: Threads + Sync>(
    rt: &R,
    alloc: Global,
    owed: Owed,
    kept: &Certs,
    budget: u64,
    workers: u32,
) -> Result<Judged, Answer>
    requires owed { IsKept owed }
    requires workers { (1 ≤ workers) × (workers ≤ 64) }
    ensures taken { (es : Entries) → AreKept es 1 (conditions_of (program_in owed)) (certificates_of kept.now)
        → IfOk result (HasTaken es (program_in owed) (certificates_of kept.now) budget) }
    ensures each { IfOk result AreEach }
    ensures memory { IfErr result (λ a. a ≡ answers.no_memory) }
{
    let Owed { typed, conds } = owed;
    match judge_others(rt, alloc, conds, kept, budget, workers) {
        Ok((conds, verdicts)) => Ok(Judged {
            typed,
            conds,
            verdicts,
        }),
        Err(_) => Err(no_memory(alloc)),
    }
}
