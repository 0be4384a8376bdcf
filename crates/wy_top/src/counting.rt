//! Counts of verdicts.
ghost use Rattle.std.specs.Prelude.{◌≡◌, ◌<◌, ◌≤◌, ◌^◌, length, map};
ghost use Rattle.wy_top.specs.Acceptance as acceptance;
ghost use Rattle.wy_batch.specs.Known as plain;
ghost use Rattle.wy_batch.specs.Seen as seen;

use wy_batch::Verdict;

/// How many conditions stay open.
#[tactic(auto, using(crate::proofs::CountLemmas::count_steps))]
pub fn still_open(verdicts: &[Verdict]) -> u32
    requires few { length verdicts.now < 2 ^ 32 }
    ensures value { result ≡ plain.count plain.is_open (map seen.known verdicts.now) }
{
    let mut count = 0u32;
    for i in 0..verdicts.len() {
        if verdicts[i].end.is_open() {
            count += 1;
        }
    }
    count
}

/// For how many conditions the budget is spent.
#[tactic(auto, using(crate::proofs::CountLemmas::count_steps))]
pub fn spent(verdicts: &[Verdict]) -> u32
    requires few { length verdicts.now < 2 ^ 32 }
    ensures value { result ≡ plain.count plain.is_spent (map seen.known verdicts.now) }
{
    let mut count = 0u32;
    for i in 0..verdicts.len() {
        if verdicts[i].end.is_spent() {
            count += 1;
        }
    }
    count
}

/// Whether for each condition a valid certificate was supplied, or its search closed all leaves.
#[tactic(auto, using(crate::proofs::CountLemmas::closed_steps))]
pub fn are_closed(verdicts: &[Verdict]) -> bool
    ensures value { result ≡ acceptance.are_closed (map seen.known verdicts.now) }
{
    for verdict in verdicts {
        if !verdict.end.is_closed() {
            return false;
        }
    }
    true
}
