//! Which run of a trace each word reaches.
use crate::checks::same;
use crate::shards::{TWO_SHARDS, shard_gate};
use crate::threads::{TWO_READERS, nobody_gave_up, readers_gate};
use std::alloc::Global;
use std::process::Abort;
use std::sync::Wait;
use std::thread::Threads;
use syn_outer::{Gate, SureSink, SureSource};
use syncord_app::syncord;

// The word, as the program has it.
fn only_word(rt: &impl Abort, alloc: Global, word: &str) -> Vec<String> {
    let text = String::from_str(alloc, word).expect(rt, "memory");
    let mut words = Vec::new(alloc);
    words.push(text).ok().expect(rt, "memory");
    words
}

fn sink(rt: &impl Abort, alloc: Global) -> SureSink {
    SureSink::open(alloc, 4096).ok().expect(rt, "memory")
}

// The status of this word on the trace that the text is, behind the gate.
fn status_of<G: Gate + Sync, R: Abort + Threads + Wait + Sync>(
    rt: &R,
    alloc: Global,
    word: &str,
    text: &[u8],
    gate: &G,
) -> u8 {
    let words = only_word(rt, alloc, word);
    let bytes = Vec::from_slice(alloc, text).expect(rt, "memory");
    let mut src = SureSource::new(bytes);
    let mut out = sink(rt, alloc);
    let mut err = sink(rt, alloc);
    syncord(rt, alloc, &words, &mut src, &mut out, &mut err, gate)
}

// Two readers of one directory hold its lock at once, which they can't where each directory has a lock of its own.
#[test]
fn replay_has_a_copy_for_each_reader(rt: HostRuntime) {
    let gate = readers_gate();
    let status = status_of(&rt, rt.alloc(), "replay", TWO_READERS, &gate);
    same(&rt, &status, &0);
    nobody_gave_up(&rt, &gate.late);
}

// Two writers of two directories hold their locks at once, which they can't behind the lock of `replay`.
#[test]
fn shards_has_a_lock_for_each_directory(rt: HostRuntime) {
    let gate = shard_gate();
    let status = status_of(&rt, rt.alloc(), "shards", TWO_SHARDS, &gate);
    same(&rt, &status, &0);
    nobody_gave_up(&rt, &gate.late);
}
