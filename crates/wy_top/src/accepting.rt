//! Acceptance.
ghost use Rattle.std.specs.Prelude.{◌≡◌, ◌≤◌, ◌<◌, ◌^◌, ◌++◌, ℕ, List, length, map, IfOk};
ghost use Rattle.wy_top.specs.Acceptance as spec;
ghost use Rattle.wy_top.specs.Kept.{AreEach, HasVerdicts, IsKept, IsOfSource, IsWhole, acceptance_in, judged_program, program_in};
ghost use Rattle.wy_top.specs.Programs.{Program};
ghost use Rattle.wy_top_probe.specs.wy_top_answers.Answers.{IsRefusal};
ghost use Rattle.wy_top_probe.specs.wy_top_answers.Steps.{During, Gives, Setting, came};
ghost use Rattle.wy_cert.specs.Steps.{Certificates, NameTheirTerms, certificates_of};
ghost use Rattle.wy_top.specs.Owed.{told_by};
ghost use Rattle.wy_top.specs.Refusals as refusals;
ghost use Rattle.wy_top_probe.specs.wy_top_answers.wy_vc_laws.shown.ReadSorted.{AreSortedCertificates};
ghost use Rattle.wy_batch.specs.Seen.{known};

use crate::counting::are_closed;
use crate::invalid::invalid_lines;
use crate::judging::{Judged, judge_all};
use crate::owing::{Owed, owed_by};
use crate::refusing::refusal_lines;
use std::alloc::Global;
use std::thread::Threads;
use wy_cert::Certs;
use wy_data::Bytes;
use wy_port::Files;
use wy_top_probe::load_alone;
use wy_top_probe::wy_flow_spec::typing::Typed;
use wy_top_probe::wy_top_answers::supplied::certificates;
use wy_top_probe::wy_top_answers::{Answer, no_memory};

/// A program for each condition of which a valid certificate was supplied, or the search closed all leaves.
#[derive(Drop)]
pub struct Accepted {
    pub typed: Typed,
    /// How many conditions it has.
    pub count: u32,
    /// A line for each certificate that was supplied and isn't valid.
    pub lines: Bytes,
}

// The answer where some condition is open, or its budget is spent: these lines, and then those for the conditions.
fn unproved(
    alloc: Global,
    name: &str,
    bytes: &[u8],
    budget: u64,
    lines: Vec<u8>,
    judged: &Judged,
) -> Answer
    requires each { AreEach judged.now }
    ensures value { (p : Program) → (certs : Certificates) → HasVerdicts p certs budget judged.now → IsRefusal 1 (lines.items ++ refusals.refusal_lines name.now bytes.now budget (told_by p.core p.flow) (map known judged.now.verdicts.items)) result }
{
    let own = match refusal_lines(
        alloc,
        name,
        bytes,
        budget,
        &judged.conds.list,
        &judged.verdicts,
    ) {
        Ok(own) => own,
        Err(_) => return no_memory(alloc),
    };
    let mut all = lines;
    match all.extend_from_slice(own.as_slice()) {
        Ok(()) => Answer {
            status: 1,
            out: Bytes::new(Vec::new(alloc)),
            err: Bytes::new(all),
        },
        Err(_) => no_memory(alloc),
    }
}

// The program, where all its conditions are closed, or the answer of why it isn't accepted.
fn accept(
    alloc: Global,
    name: &str,
    cert: &str,
    bytes: &[u8],
    budget: u64,
    judged: Judged,
) -> Result<Accepted, Answer>
    requires each { AreEach judged }
    ensures gives { (s : Setting) → (p : Program) → (certs : Certificates) → AreSortedCertificates certs → HasVerdicts p certs budget judged → Gives s (spec.accepts name.now cert.now bytes.now p certs budget) (came acceptance_in result) }
    ensures whole { (certs : Certificates) → AreSortedCertificates certs → HasVerdicts (judged_program judged) certs budget judged → IsOfSource (judged_program judged) → IfOk result IsWhole }
{
    let lines = match invalid_lines(alloc, cert, &judged.verdicts) {
        Ok(lines) => lines,
        Err(_) => return Err(no_memory(alloc)),
    };
    if !are_closed(&judged.verdicts) {
        return Err(unproved(alloc, name, bytes, budget, lines, &judged));
    }
    let count = judged.conds.list.len() as u32;
    let Judged { typed, .. } = judged;
    Ok(Accepted {
        typed,
        count,
        lines: Bytes::new(lines),
    })
}

// The program with these certificates.
fn accept_on<R: Threads + Sync>(
    rt: &R,
    alloc: Global,
    name: &str,
    cert: &str,
    bytes: &[u8],
    budget: u64,
    workers: u32,
    owed: Owed,
    certs: &Certs,
) -> Result<Accepted, Answer>
    requires kept { IsKept owed }
    requires names { NameTheirTerms certs.now }
    requires sorted { AreSortedCertificates (certificates_of certs.now) }
    requires workers { (1 ≤ workers) × (workers ≤ 64) }
    ensures gives { (s : Setting) → Gives s (spec.accepts name.now cert.now bytes.now (program_in owed) (certificates_of certs.now) budget) (came acceptance_in result) }
    ensures whole { IfOk result IsWhole }
{
    match judge_all(rt, alloc, owed, certs, budget, workers) {
        Ok(judged) => accept(alloc, name, cert, bytes, budget, judged),
        Err(answer) => Err(answer),
    }
}

// The program with the certificates that are named.
fn accept_with<R: Threads + Sync, F: Files>(
    rt: &R,
    alloc: Global,
    name: &str,
    cert: &str,
    bytes: &[u8],
    budget: u64,
    workers: u32,
    owed: Owed,
    files: &mut F,
) -> Result<Accepted, Answer>
    requires kept { IsKept owed }
    requires workers { (1 ≤ workers) × (workers ≤ 64) }
    ensures gives { During (F.told files.old) (F.load_faults files.old) (F.load_faults files.new) (F.misses files.old) (F.misses files.new) (λ s. Gives s (spec.accepts_with s name.now cert.now budget bytes.now (program_in owed)) (came acceptance_in result)) }
    ensures whole { IfOk result IsWhole }
    ensures kept { (other : List ℕ) → F.told files.new other ≡ F.told files.old other }
    ensures load_count { (other : List ℕ) → F.load_faults files.old other ≤ F.load_faults files.new other }
    ensures miss_count { (other : List ℕ) → F.misses files.old other ≤ F.misses files.new other }
    ensures save_count { F.save_faults files.new ≡ F.save_faults files.old }
{
    let count = owed.conds.list.len() as u32;
    match certificates(alloc, cert, count, files) {
        Ok(certs) => accept_on(rt, alloc, name, cert, bytes, budget, workers, owed, &certs),
        Err(answer) => Err(answer),
    }
}

/// The program of the source with these bytes, where for each of its conditions the file `cert` has a valid certificate, or else
/// its search closes all leaves, of which there are at most `budget`. Or the answer of why it isn't accepted.
pub fn accept_source<R: Threads + Sync, F: Files>(
    rt: &R,
    alloc: Global,
    name: &str,
    cert: &str,
    bytes: &[u8],
    budget: u64,
    workers: u32,
    files: &mut F,
) -> Result<Accepted, Answer>
    requires within { length bytes.now < 2 ^ 32 }
    requires workers { (1 ≤ workers) × (workers ≤ 64) }
    ensures gives { During (F.told files.old) (F.load_faults files.old) (F.load_faults files.new) (F.misses files.old) (F.misses files.new) (λ s. Gives s (spec.accepts_source s name.now cert.now budget bytes.now) (came acceptance_in result)) }
    ensures whole { IfOk result IsWhole }
    ensures kept { (other : List ℕ) → F.told files.new other ≡ F.told files.old other }
    ensures load_count { (other : List ℕ) → F.load_faults files.old other ≤ F.load_faults files.new other }
    ensures miss_count { (other : List ℕ) → F.misses files.old other ≤ F.misses files.new other }
    ensures save_count { F.save_faults files.new ≡ F.save_faults files.old }
{
    match owed_by(alloc, name, bytes) {
        Ok(owed) => accept_with(rt, alloc, name, cert, bytes, budget, workers, owed, files),
        Err(answer) => Err(answer),
    }
}

/// Likewise for the source in a file, which imports nothing.
pub fn accept_file<R: Threads + Sync, F: Files>(
    rt: &R,
    alloc: Global,
    name: &str,
    cert: &str,
    budget: u64,
    workers: u32,
    files: &mut F,
) -> Result<Accepted, Answer>
    requires workers { (1 ≤ workers) × (workers ≤ 64) }
    ensures gives { During (F.told files.old) (F.load_faults files.old) (F.load_faults files.new) (F.misses files.old) (F.misses files.new) (λ s. Gives s (spec.accepts_file s name.now cert.now budget) (came acceptance_in result)) }
    ensures whole { IfOk result IsWhole }
    ensures kept { (other : List ℕ) → F.told files.new other ≡ F.told files.old other }
    ensures load_count { (other : List ℕ) → F.load_faults files.old other ≤ F.load_faults files.new other }
    ensures miss_count { (other : List ℕ) → F.misses files.old other ≤ F.misses files.new other }
    ensures save_count { F.save_faults files.new ≡ F.save_faults files.old }
{
    match load_alone(alloc, name, files) {
        Ok(bytes) => accept_source(
            rt,
            alloc,
            name,
            cert,
            bytes.as_slice(),
            budget,
            workers,
            files,
        ),
        Err(answer) => Err(answer),
    }
}
