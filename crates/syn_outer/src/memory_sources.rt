//! Sources over memory.
ghost use Rattle.std.specs.Prelude.{◌≡◌, ◌<◌, ◌≤◌, ◌+◌, ◌↔◌, ℕ, [], length, drop, min, vec_len, Some, Contains, IfOk, IsErr, IsTrue};
ghost use Rattle.std.specs.Io.{ReadsAtMost};
ghost use Rattle.std.specs.Io.KnownBytes.{ReadConsumes};
ghost use Rattle.syn_outer.specs.Causes.{HasCause, CountsCall, raised, moved, counted_faults};

use crate::streams::{Failed, Source};

/// A source over memory that fails at chosen calls.
#[derive(Drop)]
pub struct MemSource {
    bytes: Vec<u8>,
    piece: usize,
    fails: Vec<u32>,
    at: usize,
    calls: u64,
    faults: u64,
    ghost within: { at ≤ vec_len bytes },
    ghost some: { 0 < piece },
}

impl MemSource {
    /// Hands out at most `piece` bytes a call. The calls whose number, from 1, stands in `fails` fail.
    pub fn new(bytes: Vec<u8>, piece: usize, fails: Vec<u32>) -> MemSource
        requires { 0 < piece }
        ensures bytes { drop result.at result.bytes.items ≡ bytes.items }
        ensures plan { (result.piece ≡ piece) × (result.fails.items ≡ fails.items) }
        ensures counts { (result.calls ≡ 0) × (result.faults ≡ 0) }
    {
        MemSource {
            bytes,
            piece,
            fails,
            at: 0,
            calls: 0,
            faults: 0,
        }
    }
}

impl Source for MemSource {
    ghost left = { λ s. Some (drop s.at s.bytes.items) };

    ghost faults = { λ s. s.faults };

    ghost calls = { λ s. Some s.calls };

    fn read(&mut self, buf: &mut [u8]) -> Result<usize, Failed>
        ensures bound { ReadsAtMost result buf.new }
        ensures bytes { ReadConsumes (Some (drop self.old.at self.old.bytes.items))
            (Some (drop self.new.at self.new.bytes.items)) result buf.new }
        ensures cause { HasCause self.old.faults self.new.faults result }
        ensures counted { CountsCall (Some self.old.calls) (Some self.new.calls) }
        // It fails exactly at the calls that were chosen, and else hands out all that it may.
        ensures fails { IsErr result ↔ Contains self.old.fails.items (raised self.old.calls) }
        ensures count { IfOk result (λ n. n
            ≡ min (min (length (drop self.old.at self.old.bytes.items))
            (length buf.old)) self.old.piece) }
        // What it leaves: its bytes, its piece and the chosen calls stay.
        ensures kept { (self.new.bytes ≡ self.old.bytes) × (self.new.piece ≡ self.old.piece)
            × (self.new.fails ≡ self.old.fails) }
        ensures at { self.new.at ≡ self.old.at + moved result }
        ensures calls { self.new.calls ≡ raised self.old.calls }
        ensures faults { self.new.faults ≡ counted_faults self.old.faults result }
    {
        self.calls = self.calls.saturating_add(1);
        if is_named(&self.fails, self.calls) {
            self.faults = self.faults.saturating_add(1);
            return Err(Failed);
        }
        let rest = &self.bytes[self.at..];
        let count = rest.len().min(buf.len()).min(self.piece);
        buf[..count].copy_from_slice(&rest[..count]);
        self.at += count;
        Ok(count)
    }
}

/// Whether this call is among those that fail.
pub fn is_named(fails: &[u32], call: u64) -> bool
    ensures { IsTrue result ↔ Contains fails.now call }
{
    fails.iter().any(|number| u64::from(*number) == call)
}

/// A source over memory that never fails.
#[derive(Drop)]
pub struct SureSource {
    bytes: Vec<u8>,
    at: usize,
    ghost within: { at ≤ vec_len bytes },
}

impl SureSource {
    pub fn new(bytes: Vec<u8>) -> SureSource
        ensures { drop result.at result.bytes.items ≡ bytes.items }
    {
        SureSource { bytes, at: 0 }
    }
}

impl Source for SureSource {
    ghost left = { λ s. Some (drop s.at s.bytes.items) };

    ghost faults = { λ _. 0 };

    fn read(&mut self, buf: &mut [u8]) -> Result<usize, Failed> {
        let rest = &self.bytes[self.at..];
        let count = rest.len().min(buf.len());
        buf[..count].copy_from_slice(&rest[..count]);
        self.at += count;
        Ok(count)
    }
}
