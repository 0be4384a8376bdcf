//! What the command `again` makes of a source and a cache.
ghost use Rattle.std.specs.Prelude.{◌≡◌, ◌≤◌, ◌<◌, ◌^◌, ℕ, List, All, length, map, IfOk};
ghost use Rattle.std.specs.String.{string_bytes};
ghost use Rattle.wy_batch.specs.Seen.{known};
ghost use Rattle.wy_cache_text.specs.Files.{Entries};
ghost use Rattle.wy_cert.specs.Steps.{Certificates, certificates_of};
ghost use Rattle.wy_top_probe.specs.wy_top_answers.Steps.{During, Gives, Setting, came};
ghost use Rattle.wy_top.specs.Acceptance.{are_closed as are_closed_in};
ghost use Rattle.wy_top.specs.Again as spec;
ghost use Rattle.wy_top.specs.Kept.{AreEach, HasSomeTaken, HasTaken, IsKept, answer_in, entries_in, program_in};
ghost use Rattle.wy_top.specs.Programs.{Program};
ghost use Rattle.wy_top.specs.Taken.{IsWritten};

use crate::caching::cache_in;
use crate::counting::are_closed;
use crate::judging::{Judged, judge_kept};
use crate::owing::{Owed, owed_by};
use crate::proving::Proof;
use crate::refusing::refusal_lines;
use crate::renewing::renewed;
use std::alloc::{AllocError, Global};
use std::thread::Threads;
use wy_cache::{Cache, cache_text, kept};
use wy_cert::Certs;
use wy_data::Bytes;
use wy_port::Files;
use wy_term::NoMemory;
use wy_top_probe::load_alone;
use wy_top_probe::wy_top_answers::{Answer, no_memory};

// How many conditions there are, how many of them are kept, and how many are not.
fn accepted_line(alloc: Global, count: u32, kept: u32) -> Result<String, AllocError>
    ensures value { IfOk result (λ s. string_bytes s ≡ spec.accepted_line count kept) }
{
    let searched = count.saturating_sub(kept);
    format!(in alloc; "accepted {count} conditions, {kept} kept, {searched} searched\n")
}

// What is answered behind the save, where so many conditions are kept.
fn answer_of(
    alloc: Global,
    name: &str,
    bytes: &[u8],
    budget: u64,
    judged: &Judged,
    kept: u32,
) -> Result<Answer, NoMemory>
    requires each { AreEach judged.now }
    ensures value { (p : Program) → (es : Entries) → (certs : Certificates) → HasTaken es p certs budget judged.now
        → IfOk result (λ a. a ≡ spec.renewal_answer name.now bytes.now p budget kept
        (map known judged.now.verdicts.items) (are_closed_in (map known judged.now.verdicts.items))) }
{
    if are_closed(&judged.verdicts) {
        let line = accepted_line(alloc, judged.conds.list.len() as u32, kept)?;
        return Ok(Answer {
            status: 0,
            out: Bytes::new(line.into_bytes()),
            err: Bytes::new(Vec::new(alloc)),
        });
    }
    let lines = refusal_lines(
        alloc,
        name,
        bytes,
        budget,
        &judged.conds.list,
        &judged.verdicts,
    )?;
    Ok(Answer {
        status: 1,
        out: Bytes::new(Vec::new(alloc)),
        err: Bytes::new(lines),
    })
}

// The cache of what is kept and what was found.
fn saved(alloc: Global, judged: Judged, kept: Certs, budget: u64) -> Result<Bytes, NoMemory>
    requires each { AreEach judged }
    requires written { All (λ e. IsWritten e.1) kept.list.items }
    requires taken { HasSomeTaken (certificates_of kept) budget judged }
    ensures file { (p : Program) → (es : Entries) → HasTaken es p (certificates_of kept) budget judged
        → IfOk result (spec.IsCacheOf p budget es) }
{
    let Judged {
        mut conds,
        verdicts,
        ..
    } = judged;
    let certs = renewed(
        alloc,
        &mut conds.terms,
        &conds.list,
        &verdicts,
        kept,
        budget,
    )?;
    let text = cache_text(&conds, &certs)?;
    Ok(Bytes::new(text))
}

// The cache and the answer, where these certificates are kept.
fn made(
    alloc: Global,
    name: &str,
    bytes: &[u8],
    budget: u64,
    judged: Judged,
    kept: Certs,
) -> Result<Proof, NoMemory>
    requires each { AreEach judged }
    requires written { All (λ e. IsWritten e.1) kept.list.items }
    requires taken { HasSomeTaken (certificates_of kept) budget judged }
    ensures value { (p : Program) → (es : Entries) → HasTaken es p (certificates_of kept) budget judged
        → IfOk result (λ f. spec.IsRenewal name.now bytes.now p budget es f.answer) }
    ensures file { (p : Program) → (es : Entries) → HasTaken es p (certificates_of kept) budget judged
        → IfOk result (λ f. spec.IsCacheOf p budget es f.saved) }
{
    let answer = answer_of(alloc, name, bytes, budget, &judged, kept.list.len() as u32)?;
    let saved = saved(alloc, judged, kept, budget)?;
    Ok(Proof { saved, answer })
}

// What the cache shows of the conditions that are owed, the verdicts on the others, and what is made of them.
fn renew_on<R: Threads + Sync>(
    rt: &R,
    alloc: Global,
    name: &str,
    bytes: &[u8],
    budget: u64,
    workers: u32,
    owed: Owed,
    cache: &Cache,
) -> Result<Proof, Answer>
    requires kept { IsKept owed }
    requires workers { (1 ≤ workers) × (workers ≤ 64) }
    ensures gives { (s : Setting) → Gives s (spec.renews name.now bytes.now (program_in owed) budget (entries_in cache.now)) (came answer_in result) }
    ensures file { IfOk result (λ f. spec.IsCacheOf (program_in owed) budget (entries_in cache.now) f.saved) }
{
    let mut owed = owed;
    let kept = match kept(cache, &mut owed.conds) {
        Ok(kept) => kept,
        Err(_) => return Err(no_memory(alloc)),
    };
    match judge_kept(rt, alloc, owed, &kept, budget, workers) {
        Ok(judged) => match made(alloc, name, bytes, budget, judged, kept) {
            Ok(proof) => Ok(proof),
            Err(_) => Err(no_memory(alloc)),
        },
        Err(answer) => Err(answer),
    }
}

// The same with the cache in this file.
fn renew_with<R: Threads + Sync, F: Files>(
    rt: &R,
    alloc: Global,
    name: &str,
    cache: &str,
    bytes: &[u8],
    budget: u64,
    workers: u32,
    owed: Owed,
    files: &mut F,
) -> Result<Proof, Answer>
    requires kept { IsKept owed }
    requires workers { (1 ≤ workers) × (workers ≤ 64) }
    ensures gives { During (F.told files.old) (F.load_faults files.old) (F.load_faults files.new)
        (F.misses files.old) (F.misses files.new)
        (λ s. Gives s (spec.renews_with s name.now cache.now budget bytes.now (program_in owed)) (came answer_in result)) }
    ensures file { During (F.told files.old) (F.load_faults files.old) (F.load_faults files.new)
        (F.misses files.old) (F.misses files.new)
        (λ s. IfOk result (λ f. spec.RenewsProgram s cache.now budget (program_in owed) f.saved)) }
    ensures kept { (other : List ℕ) → F.told files.new other ≡ F.told files.old other }
    ensures load_count { (other : List ℕ) → F.load_faults files.old other ≤ F.load_faults files.new other }
    ensures miss_count { (other : List ℕ) → F.misses files.old other ≤ F.misses files.new other }
    ensures save_count { F.save_faults files.new ≡ F.save_faults files.old }
{
    match cache_in(alloc, cache, files) {
        Ok(cache) => renew_on(rt, alloc, name, bytes, budget, workers, owed, &cache),
        Err(answer) => Err(answer),
    }
}

// The same of the source with these bytes.
fn renew_source<R: Threads + Sync, F: Files>(
    rt: &R,
    alloc: Global,
    name: &str,
    cache: &str,
    bytes: &[u8],
    budget: u64,
    workers: u32,
    files: &mut F,
) -> Result<Proof, Answer>
    requires within { length bytes.now < 2 ^ 32 }
    requires workers { (1 ≤ workers) × (workers ≤ 64) }
    ensures gives { During (F.told files.old) (F.load_faults files.old) (F.load_faults files.new)
        (F.misses files.old) (F.misses files.new)
        (λ s. Gives s (spec.renews_source s name.now cache.now budget bytes.now) (came answer_in result)) }
    ensures file { During (F.told files.old) (F.load_faults files.old) (F.load_faults files.new)
        (F.misses files.old) (F.misses files.new)
        (λ s. IfOk result (λ f. spec.RenewsBytes s cache.now budget bytes.now f.saved)) }
    ensures kept { (other : List ℕ) → F.told files.new other ≡ F.told files.old other }
    ensures load_count { (other : List ℕ) → F.load_faults files.old other ≤ F.load_faults files.new other }
    ensures miss_count { (other : List ℕ) → F.misses files.old other ≤ F.misses files.new other }
    ensures save_count { F.save_faults files.new ≡ F.save_faults files.old }
{
    match owed_by(alloc, name, bytes) {
        Ok(owed) => renew_with(rt, alloc, name, cache, bytes, budget, workers, owed, files),
        Err(answer) => Err(answer),
    }
}

/// The cache of what is kept and of what searches of so many leaves find, for the program of the source in this file, as a file,
/// and what is answered behind the save; or the answer with which the command ends before it.
pub fn renew_file<R: Threads + Sync, F: Files>(
    rt: &R,
    alloc: Global,
    name: &str,
    cache: &str,
    budget: u64,
    workers: u32,
    files: &mut F,
) -> Result<Proof, Answer>
    requires workers { (1 ≤ workers) × (workers ≤ 64) }
    ensures gives { During (F.told files.old) (F.load_faults files.old) (F.load_faults files.new)
        (F.misses files.old) (F.misses files.new)
        (λ s. Gives s (spec.renews_file s name.now cache.now budget) (came answer_in result)) }
    ensures file { During (F.told files.old) (F.load_faults files.old) (F.load_faults files.new)
        (F.misses files.old) (F.misses files.new)
        (λ s. IfOk result (λ f. spec.Renews s name.now cache.now budget f.saved)) }
    ensures kept { (other : List ℕ) → F.told files.new other ≡ F.told files.old other }
    ensures load_count { (other : List ℕ) → F.load_faults files.old other ≤ F.load_faults files.new other }
    ensures miss_count { (other : List ℕ) → F.misses files.old other ≤ F.misses files.new other }
    ensures save_count { F.save_faults files.new ≡ F.save_faults files.old }
{
    match load_alone(alloc, name, files) {
        Ok(bytes) => renew_source(
            rt,
            alloc,
            name,
            cache,
            bytes.as_slice(),
            budget,
            workers,
            files,
        ),
        Err(answer) => Err(answer),
    }
}
