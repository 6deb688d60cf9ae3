ghost use Rattle.std.specs.Prelude.{◌≡◌, [], ◌++◌, ◌-◌, ◌<◌, ◌≤◌, ◌^◌, min, length, take, IfOk, IsErr, MatchBool, MatchResult, Some, vec_len, vec_capacity};
ghost use Rattle.sd_io.specs.Memory.{faults_after, is_refusing};
ghost use Rattle.sd_io.specs.Outside.{next_count};

use crate::{Failed, Sink};
use sd_base::{NoMemory, Rows};
use std::alloc::Global;

/// A sink in memory that tells its bytes and takes few at a time. A send fails where it was chosen to, and where the room is full.
#[derive(Drop)]
pub struct MemorySink {
    bytes: Vec<u8>,
    room: usize,
    most: usize,
    failing: Rows<u64>,
    sends: u64,
    faults: u64,
    ghost counted: { faults < 2 ^ 64 },
    ghost takes_some: { 0 < most },
    ghost roomy: { room ≤ vec_capacity bytes },
}

impl MemorySink {
    /// A sink with room for `room` bytes that takes at most `most` a send. Sends are numbered from 1; those
    /// numbered in `failing`, and each one for which there is no room, fail with a counted fault.
    pub fn new(
        alloc: Global,
        room: usize,
        most: usize,
        failing: Rows<u64>,
    ) -> Result<MemorySink, NoMemory>
        requires { 0 < most }
        ensures empty { IfOk result (λ s. (s.bytes.items ≡ []) × (s.faults ≡ 0)) }
        ensures takes { IfOk result (λ s. (s.room ≡ room) × (s.most ≡ most) × (s.failing ≡ failing) × (s.sends ≡ 0)) }
    {
        Ok(MemorySink {
            bytes: Vec::with_capacity(alloc, room)?,
            room,
            most,
            failing,
            sends: 0,
            faults: 0,
        })
    }

    /// How many faults were counted.
    pub fn faults(&self) -> u64
        ensures { result ≡ self.now.faults }
    {
        self.faults
    }

    /// All bytes sent so far.
    pub fn sent(&self) -> &[u8]
        ensures { result.now ≡ self.now.bytes.items }
    {
        self.bytes.as_slice()
    }

    // Counts a send, and a fault where this send is to fail.
    fn is_failing_send(&mut self) -> bool
        ensures fails { result ≡ is_refusing self.old.room (vec_len self.old.bytes) self.old.sends self.old.failing }
        ensures numbered { self.new.sends ≡ next_count self.old.sends }
        ensures faults { self.new.faults ≡ faults_after result self.old.faults }
        ensures bytes { self.new.bytes ≡ self.old.bytes }
        ensures room { self.new.room ≡ self.old.room }
        ensures most { self.new.most ≡ self.old.most }
        ensures failing { self.new.failing ≡ self.old.failing }
    {
        self.sends = self.sends.saturating_add(1);
        let fails = self.bytes.len() >= self.room || self.failing.as_slice().contains(&self.sends);
        if fails {
            self.faults = self.faults.saturating_add(1);
        }
        fails
    }
}

impl Sink for MemorySink {
    ghost sent = { λ s. Some s.bytes.items };

    ghost faults = { λ s. s.faults };

    fn send(&mut self, piece: &[u8]) -> Result<usize, Failed>
        ensures answers { let refuses = is_refusing self.old.room (vec_len self.old.bytes) self.old.sends self.old.failing in
            let taken = min (min (length piece.now) self.old.most) (self.old.room - vec_len self.old.bytes) in
            MatchBool refuses (IsErr result) (result ≡ Ok taken) }
        ensures bytes { MatchResult result (λ n. self.new.bytes.items ≡ self.old.bytes.items ++ take n piece.now)
            (λ _. self.new.bytes ≡ self.old.bytes) }
        ensures room { self.new.room ≡ self.old.room }
        ensures most { self.new.most ≡ self.old.most }
        ensures failing { self.new.failing ≡ self.old.failing }
        ensures numbered { self.new.sends ≡ next_count self.old.sends }
        ensures counts { let refuses = is_refusing self.old.room (vec_len self.old.bytes) self.old.sends self.old.failing in
            self.new.faults ≡ faults_after refuses self.old.faults }
    {
        if self.is_failing_send() {
            return Err(Failed);
        }
        let room = self.room - self.bytes.len();
        let n = piece.len().min(self.most).min(room);
        // The room was reserved at the start, so this takes no memory.
        match self.bytes.extend_from_slice(&piece[..n]) {
            Ok(()) => Ok(n),
            Err(_) => unreachable!(),
        }
    }

    ghost counted = { λ s. s.counted };
}
