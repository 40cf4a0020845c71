//! Traces that are replayed, and seeds.
ghost use Rattle.std.specs.Prelude.{◌≤◌};

use crate::checks::same;
use crate::outcomes::{CutOutcome, Outcome, bytes_of, failing_sink, sink};
use crate::serial::{Serially, run_serially};
use crate::words::words_of;
use command_words::{BulkWords, bulk_words};
use std::alloc::Global;
use std::process::Abort;
use syn_outer::{MemSink, SureSink, SureSource};
use syncord_replay::*;

const SERIAL: &[u8; 172] =
    b"syncord-trace 1\nworker 0 0 0 0\npolicy none - -\ncalls\n0 make 0 a\n0 make 0 a\n0 rename 0 a 0 a\n0 make 1 b\n0 rename 0 a 1 b\n0 find 1 b\n0 find 0 a\n0 count 1\n0 next 1\n0 next 1 b\n";

const SERIAL_REPORT: &[u8; 268] =
    b"syncord-replay 1 workers 1 entries 10\n0 make 0 a = ino 1\n0 make 0 a = exists\n0 rename 0 a 0 a = done\n0 make 1 b = ino 2\n0 rename 0 a 1 b = done\n0 find 1 b = ino 1\n0 find 0 a = absent\n0 count 1 = number 1\n0 next 1 = name b\n0 next 1 b = end\nfinal 1\n1 b 1\nattaches 0\nend\n";

// Two workers, of which one attaches.
const ATTACHING: &[u8; 97] =
    b"syncord-trace 1\nworker 0 0 0 0\nworker 1 0 0 0\npolicy none - -\ncalls\n0 attach none\n1 make 5 job-1\n";

// A function that may abort can't hand on another one.
fn run_one(alloc: Global, bytes: Vec<u8>, out: &mut SureSink, err: &mut SureSink) -> u8 {
    let mut src = SureSource::new(bytes);
    run_replay::<Serially, _, _, _, _>(&run_serially, alloc, &mut src, out, err)
}

// One worker's calls from the seed.
fn sum_up(alloc: Global, seed: u64, calls: u32, out: &mut SureSink, err: &mut SureSink) -> u8
    requires few { calls ≤ 65000 }
{
    run_bulk::<Serially, _, _, _>(&run_serially, alloc, seed, 1, calls, out, err)
}

// The same where the sink may fail.
fn cut_sum(alloc: Global, seed: u64, calls: u32, out: &mut MemSink, err: &mut SureSink) -> u8
    requires few { calls ≤ 65000 }
{
    run_bulk::<Serially, _, _, _>(&run_serially, alloc, seed, 1, calls, out, err)
}

fn replayed(rt: &impl Abort, alloc: Global, trace: &[u8]) -> Outcome {
    let mut out = sink(rt, alloc, 4096);
    let mut err = sink(rt, alloc, 4096);
    let bytes = bytes_of(rt, alloc, trace);
    let status = run_one(alloc, bytes, &mut out, &mut err);
    Outcome { status, out, err }
}

#[test]
fn a_trace_of_one_worker_is_replayed(rt: HostRuntime) {
    replayed(&rt, rt.alloc(), SERIAL).is(&rt, 0, SERIAL_REPORT, b"");
}

#[test]
fn a_run_that_gives_up_is_told(rt: HostRuntime) {
    replayed(&rt, rt.alloc(), ATTACHING).refuses(&rt, 5, "");
}

#[test]
fn a_bad_line_is_named(rt: HostRuntime) {
    let alloc = rt.alloc();
    let mut bytes = bytes_of(&rt, alloc, ATTACHING);
    bytes
        .extend_from_slice(b"1 attach none\n")
        .expect(&rt, "memory");
    replayed(&rt, alloc, &bytes).refuses(&rt, 1, "syncord: line 8: fault 13\n");
}

fn summed_up(rt: &impl Abort, alloc: Global, seed: u64, calls: u32) -> Outcome
    requires few { calls ≤ 65000 }
{
    let mut out = sink(rt, alloc, 4096);
    let mut err = sink(rt, alloc, 4096);
    let status = sum_up(alloc, seed, calls, &mut out, &mut err);
    Outcome { status, out, err }
}

const THREE_CALLS: &str =
    "bulk seed 1 workers 1 calls 3 attaches 0\nino 1 done 0 exists 0 absent 1 number 1 name 0 end 0\nleft 1\n";

const NO_CALLS: &str =
    "bulk seed 0 workers 1 calls 0 attaches 0\nino 0 done 0 exists 0 absent 0 number 0 name 0 end 0\nleft 0\n";

#[test]
fn a_seed_is_summed_up(rt: HostRuntime) {
    summed_up(&rt, rt.alloc(), 1, 3).reports(&rt, THREE_CALLS);
    summed_up(&rt, rt.alloc(), 0, 0).reports(&rt, NO_CALLS);
}

/// Three calls to a sink that fails at its second call.
fn unwritten(rt: &impl Abort, alloc: Global) -> CutOutcome {
    let mut out = failing_sink(rt, alloc, 100, 16, 2);
    let mut err = sink(rt, alloc, 4096);
    let status = cut_sum(alloc, 1, 3, &mut out, &mut err);
    CutOutcome { status, out, err }
}

#[test]
fn a_sink_that_fails_is_told(rt: HostRuntime) {
    let message = b"syncord: write fault after 16 bytes\n";
    unwritten(&rt, rt.alloc()).is(&rt, 4, b"bulk seed 1 work", message);
}

/// What these words ask for.
fn is_asked(rt: &impl Abort, alloc: Global, words: &[&str], due: Option<BulkWords>) {
    let words = words_of(rt, alloc, words);
    same(rt, &bulk_words(words.as_slice()), &due);
}

const LARGEST: BulkWords = BulkWords {
    seed: 18_446_744_073_709_551_615,
    workers: 16,
    calls: 65_000,
};

const LEAST: BulkWords = BulkWords {
    seed: 0,
    workers: 1,
    calls: 0,
};

const NO_WORDS: &[[&str; 3]] = &[
    ["7", "17", "5"],
    ["07", "1", "5"],
    ["7", "0", "5"],
    ["7", "1", "65001"],
    ["18446744073709551616", "1", "5"],
    ["-7", "1", "5"],
    ["+7", "1", "5"],
    ["7", "01", "5"],
    ["7", "1", "00"],
    ["7", "", "5"],
    ["seven", "1", "5"],
];

#[test]
fn other_words_are_refused(rt: HostRuntime) {
    let alloc = rt.alloc();
    let largest = ["18446744073709551615", "16", "65000"];
    is_asked(&rt, alloc, &largest, Some(LARGEST));
    for words in NO_WORDS {
        is_asked(&rt, alloc, words, None);
    }
    is_asked(&rt, alloc, &[], None);
    is_asked(&rt, alloc, &["0", "1", "0"], Some(LEAST));
}
