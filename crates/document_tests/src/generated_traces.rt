//! The trace of a seed and its summary.
use crate::checks::same;
use dir_table::{Dir, DirCall, DirReply};
use hist_log::Entry;
use std::alloc::Global;
use std::process::Abort;
use trace_text::{Trace, TraceAct, TraceCall, generate, summary};

const COUNT: DirCall = DirCall::Count { dir: 2 };

const DROP_NAME: DirCall = DirCall::Drop { dir: 3, name: 0 };

const MAKE: DirCall = DirCall::Make { dir: 3, name: 1 };

const NAMES: [&[u8]; 2] = [b"n18", b"n62"];

const SUMMARY: &[u8] =
    b"bulk seed 1 workers 1 calls 3 attaches 0\nino 1 done 0 exists 0 absent 1 number 1 name 0 end 0\nleft 1\n";

fn asked(call: DirCall) -> TraceCall {
    TraceCall {
        worker: 0,
        act: TraceAct::Dir(call),
    }
}

fn answered(call: DirCall, reply: DirReply, receipt: u64) -> Entry<Dir> {
    Entry {
        worker: 0,
        call,
        reply,
        receipt,
    }
}

/// The trace has these names.
fn names_are(rt: &impl Abort, trace: &Trace, due: &[&[u8]]) {
    same(rt, &trace.names.len(), &due.len());
    for (name, due) in trace.names.iter().zip(due.iter()) {
        same(rt, &name.as_slice(), due);
    }
}

/// What is said of the trace where its three calls were made in order.
fn summed(rt: &impl Abort, alloc: Global, trace: &Trace) -> Vec<u8> {
    let mut dir = Dir::open(alloc, 2, 1).expect(rt, "memory");
    let made = dir.make(3, 1);
    let history = [
        answered(COUNT, DirReply::Number(0), 0),
        answered(DROP_NAME, DirReply::Absent, 1),
        answered(MAKE, made, 2),
    ];
    summary(alloc, 1, trace, &history, &dir).expect(rt, "memory")
}

#[test]
fn three_calls_of_seed_1(rt: HostRuntime) {
    let alloc = rt.alloc();
    let trace = generate(alloc, 1, 1, 3).expect(&rt, "memory");
    let calls = [asked(COUNT), asked(DROP_NAME), asked(MAKE)];
    same(&rt, &trace.calls.as_slice(), &calls.as_slice());
    names_are(&rt, &trace, &NAMES);
    same(&rt, &summed(&rt, alloc, &trace).as_slice(), &SUMMARY);
}

#[test]
fn twenty_attachments_in_twenty_thousand_calls(rt: HostRuntime) {
    let trace = generate(rt.alloc(), 7, 8, 20000).expect(&rt, "memory");
    same(&rt, &trace.calls.len(), &20020);
    same(&rt, &trace.workers.len(), &8);
}
