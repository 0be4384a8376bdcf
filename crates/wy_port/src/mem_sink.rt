//! A sink in memory.
ghost use Rattle.std.specs.Prelude.{◌≡◌, ◌<◌, ◌≤◌, ◌+◌, [], IfOk, OnErr, MatchResult, Some, None, length, min, take, vec_len, vec_capacity};
ghost use Rattle.wy_port.specs.Count.{Rose};
ghost use Rattle.wy_port.specs.Taken.{with_taken};
ghost use Rattle.wy_port.specs.SinkInMemory.{SinkState, next_count};

use crate::sink::{Failed, Sink};
use std::alloc::{AllocError, Global};
use std::marker::Model;

/// A sink that keeps what it takes, in room that is reserved when it is made. It tells its contents.
#[derive(Drop)]
pub struct MemSink {
    bytes: Vec<u8>,
    room: usize,
    most: usize,
    fails: Vec<u64>,
    calls: u64,
    faults: u64,
}

impl Model for MemSink {
    ghost Value = { SinkState };

    ghost view = { λ s. record { bytes = s.bytes.items; room = s.room; most = s.most; fails = s.fails.items; calls = s.calls; faults = s.faults } };

    ghost invariant = { λ s. (vec_len s.bytes ≤ s.room) × (s.room ≤ vec_capacity s.bytes) × (1 ≤ s.most) };
}

impl MemSink {
    /// A sink that takes `room` bytes in all and at most `most` in one call.
    ///
    /// It counts its calls from 0, and fails those listed in `fails` and each call with no room left. The room is
    /// reserved here, so that a write takes no memory.
    pub fn new(
        alloc: Global,
        room: usize,
        most: usize,
        fails: Vec<u64>,
    ) -> Result<MemSink, AllocError>
        requires { 1 ≤ most }
        ensures value { IfOk result (λ s. s ≡ record { bytes = []; room = room; most = most; fails = fails.items; calls = 0; faults = 0 }) }
    {
        Ok(MemSink {
            bytes: Vec::with_capacity(alloc, room)?,
            room,
            most,
            fails,
            calls: 0,
            faults: 0,
        })
    }

    /// What it has taken.
    pub fn bytes(&self) -> &[u8]
        ensures value { result.now ≡ self.now.bytes }
    {
        &self.bytes
    }
}

impl Sink for MemSink {
    ghost taken = { λ s. Some s.bytes };

    ghost faults = { λ s. s.faults };

    fn write(&mut self, piece: &[u8]) -> Result<usize, Failed>
        ensures within { IfOk result (λ n. n ≤ length piece.now) }
        ensures progress { 0 < length piece.now → IfOk result (λ n. 0 < n) }
        ensures taken { IfOk result (λ n. Some self.new.bytes ≡ with_taken (Some self.old.bytes) (take n piece.now)) }
        ensures kept { OnErr result (Some self.new.bytes ≡ Some self.old.bytes) }
        ensures cause { OnErr result (Rose self.old.faults self.new.faults) }
        ensures count { self.old.faults ≤ self.new.faults }

        // What it answers besides, exactly, and that it counts the call.
        ensures value { MatchResult result (λ n. next_count self.old (length piece.now) ≡ Some n)
            (λ _. next_count self.old (length piece.now) ≡ None) }
        ensures calls { self.new.calls ≡ min (self.old.calls + 1) 18446744073709551615 }
    {
        let call = self.calls;
        self.calls = self.calls.saturating_add(1);
        let left = self.room - self.bytes.len();
        let count = piece.len().min(self.most).min(left);
        if left == 0 || self.fails.contains(&call) {
            self.faults = self.faults.saturating_add(1);
            return Err(Failed);
        }
        if self.bytes.extend_from_slice(&piece[..count]).is_err() {
            self.faults = self.faults.saturating_add(1);
            return Err(Failed);
        }
        Ok(count)
    }
}
