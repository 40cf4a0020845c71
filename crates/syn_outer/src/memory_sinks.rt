//! Sinks over memory.
ghost use Rattle.std.specs.Prelude.{◌≡◌, ◌<◌, ◌≤◌, ◌+◌, ◌↔◌, ◌⊎◌, ◌++◌, List, [], length, take, min, vec_len, vec_capacity, Some, None, Contains, Ok, false, IfOk, IsErr, IsTrue, if◌then◌else◌};
ghost use Rattle.std.specs.Io.{WritesAtMost};
ghost use Rattle.syn_outer.specs.Causes.{HasCause, raised, counted_faults};
ghost use Rattle.syn_outer.specs.Bytes.{TookFront, KeepsWhatFits};

use crate::NoMemory;
use crate::memory_sources::is_named;
use crate::streams::{Failed, Sink};
use std::alloc::{AllocError, Global};

/// A sink over memory that fails at chosen calls, and where its room ends.
#[derive(Drop)]
pub struct MemSink {
    bytes: Vec<u8>,
    room: usize,
    piece: usize,
    fails: Vec<u32>,
    calls: u64,
    faults: u64,
    ghost within: { vec_len bytes ≤ room },
    ghost reserved: { room ≤ vec_capacity bytes },
    ghost some: { 0 < piece },
}

impl MemSink {
    /// Takes at most `piece` bytes a call, and `room` in all. The calls whose number, from 1, stands
    /// in `fails` fail, and so does one that would take more than the room.
    pub fn open(
        alloc: Global,
        room: usize,
        piece: usize,
        fails: Vec<u32>,
    ) -> Result<MemSink, NoMemory>
        requires { 0 < piece }
        ensures empty { IfOk result (λ s. (s.bytes.items ≡ []) × (s.room ≡ room)) }
        ensures plan { IfOk result (λ s. (s.piece ≡ piece) × (s.fails.items ≡ fails.items)) }
        ensures counts { IfOk result (λ s. (s.calls ≡ 0) × (s.faults ≡ 0)) }
    {
        match Vec::with_capacity(alloc, room) {
            Ok(bytes) => Ok(MemSink {
                bytes,
                room,
                piece,
                fails,
                calls: 0,
                faults: 0,
            }),
            Err(AllocError) => Err(NoMemory),
        }
    }

    /// What it took.
    pub fn bytes(&self) -> &[u8]
        ensures { result.now ≡ self.now.bytes.items }
    {
        &self.bytes
    }

    fn fail(&mut self) -> Result<usize, Failed>
        ensures failed { IsErr result }
        ensures cause { HasCause self.old.faults self.new.faults result }
        ensures after { self.new ≡ record self.old { faults = raised self.old.faults } }
    {
        self.faults = self.faults.saturating_add(1);
        Err(Failed)
    }
}

impl Sink for MemSink {
    ghost held = { λ s. Some s.bytes.items };

    ghost faults = { λ s. s.faults };

    fn write(&mut self, bytes: &[u8]) -> Result<usize, Failed>
        ensures bound { WritesAtMost result bytes.now }
        ensures some { IfOk result (λ n. 0 < length bytes.now → 0 < n) }
        ensures bytes { TookFront (Some self.old.bytes.items) (Some self.new.bytes.items)
            result bytes.now }
        ensures cause { HasCause self.old.faults self.new.faults result }
        // It fails exactly at the calls that were chosen and past its room, and else takes all it may.
        ensures fails { IsErr result ↔ (Contains self.old.fails.items (raised self.old.calls)
            ⊎ (self.old.room < vec_len self.old.bytes + min (length bytes.now) self.old.piece)) }
        ensures count { IfOk result (λ n. n ≡ min (length bytes.now) self.old.piece) }
        // What it leaves: its room, its piece and the chosen calls stay.
        ensures kept { (self.new.room ≡ self.old.room) × (self.new.piece ≡ self.old.piece)
            × (self.new.fails ≡ self.old.fails) }
        ensures calls { self.new.calls ≡ raised self.old.calls }
        ensures faults { self.new.faults ≡ counted_faults self.old.faults result }
    {
        self.calls = self.calls.saturating_add(1);
        let count = bytes.len().min(self.piece);
        if is_named(&self.fails, self.calls) || count > self.room - self.bytes.len() {
            return self.fail();
        }
        match self.bytes.extend_from_slice(&bytes[..count]) {
            Ok(()) => Ok(count),
            Err(AllocError) => self.fail(),
        }
    }
}

/// A sink over memory that never fails. What does not fit is lost, and then it tells nothing.
#[derive(Drop)]
pub struct SureSink {
    bytes: Vec<u8>,
    room: usize,
    lost: bool,
    ghost within: { vec_len bytes ≤ room },
    ghost reserved: { room ≤ vec_capacity bytes },
}

impl SureSink {
    /// Keeps at most `room` bytes.
    pub fn open(alloc: Global, room: usize) -> Result<SureSink, NoMemory>
        ensures empty { IfOk result (λ s. (s.bytes.items ≡ []) × (s.room ≡ room)) }
        ensures told { IfOk result (λ s. s.lost ≡ false) }
    {
        match Vec::with_capacity(alloc, room) {
            Ok(bytes) => Ok(SureSink {
                bytes,
                room,
                lost: false,
            }),
            Err(AllocError) => Err(NoMemory),
        }
    }

    /// What it kept.
    pub fn bytes(&self) -> &[u8]
        ensures { result.now ≡ self.now.bytes.items }
    {
        &self.bytes
    }
}

impl Sink for SureSink {
    ghost held = { λ s. if s.lost then None else Some s.bytes.items };

    ghost faults = { λ _. 0 };

    fn write(&mut self, bytes: &[u8]) -> Result<usize, Failed>
        ensures bound { WritesAtMost result bytes.now }
        ensures some { IfOk result (λ n. 0 < length bytes.now → 0 < n) }
        ensures bytes { TookFront (if self.old.lost then None else Some self.old.bytes.items)
            (if self.new.lost then None else Some self.new.bytes.items) result bytes.now }
        ensures cause { HasCause 0 0 result }
        // It takes all, keeps what fits, and tells nothing from the first byte on that doesn't.
        ensures all { result ≡ Ok (length bytes.now) }
        ensures kept { KeepsWhatFits self.old.bytes.items self.new.bytes.items self.old.room
            bytes.now }
        ensures lost { IsTrue self.new.lost ↔ (IsTrue self.old.lost
            ⊎ (self.old.room < vec_len self.old.bytes + length bytes.now)) }
        ensures room { self.new.room ≡ self.old.room }
    {
        let room = self.room - self.bytes.len();
        let count = bytes.len().min(room);
        if bytes.len() > room {
            self.lost = true;
        }
        match self.bytes.extend_from_slice(&bytes[..count]) {
            Ok(()) => {}
            Err(AllocError) => self.lost = true,
        }
        Ok(bytes.len())
    }
}
