//! Starts of lines.
ghost use Rattle.std.specs.Prelude.{◌≡◌, ◌≤◌, ℕ, List, length, take, IfOk};
ghost use Rattle.wy_parse_front.specs.Places.{place_of};
ghost use Rattle.wy_parse_front.specs.lines.Starts.{AreLines, LastIsBefore, NextIsBehind, start_of};

use crate::Place;
use std::alloc::{AllocError, Global};

/// Where the lines of a text start.
#[derive(Drop)]
pub struct Lines {
    // the offsets behind each line feed, rising
    starts: Vec<usize>,
    // the length of the text
    end: usize,
}

impl Lines {
    /// The lines of a text, in time linear in it.
    pub fn of(alloc: Global, bytes: &[u8]) -> Result<Lines, AllocError>
        ensures lines { IfOk result (AreLines bytes.now) }
    {
        let mut starts = Vec::new(alloc);
        let mut at = 0usize;
        for byte in bytes {
            at += 1;
            if *byte == b'\n' {
                starts.push(at)?;
            }
        }
        Ok(Lines {
            starts,
            end: bytes.len(),
        })
    }

    /// The line and the column of an offset, both from 1, columns in bytes. It takes no memory, and its time is
    /// logarithmic in the lines.
    pub fn place(&self, at: u32) -> Place
        ensures value { (bytes : List ℕ) → AreLines bytes self.now → (result.line, result.column) ≡ place_of bytes at }
    {
        let at = self.within(at as usize);
        let started = self.started(at);
        let start = self.start(started);
        Place {
            line: started + 1,
            column: at - start + 1,
        }
    }

    // the offset, or the text's end where it is behind that
    #[tactic(auto, using(crate::proofs::lines_lemmas::StartLemmas::cut))]
    fn within(&self, at: usize) -> usize
        ensures bound { result ≤ self.now.end }
        ensures small { result ≤ at }
        ensures same { (bytes : List ℕ) → self.now.end ≡ length bytes → take result bytes ≡ take at bytes }
    {
        if at < self.end { at } else { self.end }
    }

    // where the line begins before which so many others begin
    #[tactic(auto, using(crate::proofs::lines_lemmas::StartLemmas::start_steps))]
    fn start(&self, started: usize) -> usize
        requires { started ≤ length self.now.starts.items }
        ensures value { result ≡ start_of 0 self.now.starts.items started }
    {
        if started == 0 {
            return 0;
        }
        self.starts[started - 1]
    }

    // how many lines beside the first start at the offset or before it
    fn started(&self, at: usize) -> usize
        ensures bound { result ≤ length self.now.starts.items }
        ensures before { LastIsBefore self.now.starts.items result at }
        ensures behind { NextIsBehind self.now.starts.items result at }
    {
        let mut low = 0usize;
        let mut high = self.starts.len();
        while low < high {
            let middle = low + (high - low) / 2;
            if self.starts[middle] <= at {
                low = middle + 1;
            } else {
                high = middle;
            }
        }
        low
    }
}
