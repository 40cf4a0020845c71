//! Reports of calls that one taker made in order, and the first bad call line.
ghost use Rattle.std.specs.Prelude.{◌≡◌};

use crate::checks::same;
use dir_table::{Dir, DirCall, DirReply};
use hist_log::{Entry, Numbered, NumberedCall};
use pool_text::{dir_calls, first_fault, render_pool};
use std::alloc::Global;
use std::process::Abort;
use trace_text::read_trace;

const TWO_MAKES: &[u8] =
    b"syncord-trace 1\nworker 0 0 0 0\npolicy none - -\ncalls\n0 make 0 a\n0 make 0 a\n";

const TWO_MAKES_REPORT: &[u8] =
    b"syncord-pool 1 workers 1 entries 2\n0 0 make 0 a = ino 1\n0 1 make 0 a = exists\nfinal 0\nend\n";

const ATTACHED: &[u8] =
    b"syncord-trace 1\nworker 0 0 0 0\npolicy none - -\ncalls\n0 make 0 a\n0 attach none\n0 attach none\n";

const NO_CALLS: &[u8] = b"syncord-trace 1\nworker 0 0 0 0\npolicy none - -\ncalls\n";

/// The calls with their places, and their replies.
fn answered(rt: &impl Abort, alloc: Global, calls: Vec<DirCall>) -> Vec<Entry<Numbered<Dir>>> {
    let mut history: Vec<Entry<Numbered<Dir>>> = Vec::new(alloc);
    let replies = [(0, DirReply::Ino(1)), (1, DirReply::Exists)];
    for (call, (at, reply)) in calls.into_iter().zip(replies) {
        let entry = Entry {
            worker: 0,
            call: NumberedCall { at, call },
            reply,
            receipt: u64::from(at),
        };
        history.push(entry).ok().expect(rt, "memory");
    }
    history
}

#[test]
fn the_report_has_each_call_with_its_place(rt: HostRuntime) {
    let alloc = rt.alloc();
    let trace = read_trace(alloc, TWO_MAKES).expect(&rt, "a trace");
    let calls = dir_calls(alloc, &trace).expect(&rt, "memory");
    let history = answered(&rt, alloc, calls);
    let dir = Dir::open(alloc, 1, 2).expect(&rt, "memory");
    let report = render_pool(alloc, &trace, history.as_slice(), &dir).expect(&rt, "memory");
    same(&rt, &report.as_slice(), &TWO_MAKES_REPORT);
}

/// The first bad line and its fault are these; 0 where there is none.
fn has_fault(rt: &impl Abort, alloc: Global, text: &[u8], line: u32, what: u8) {
    let trace = read_trace(alloc, text).expect(rt, "a trace");
    let found = match first_fault(&trace) {
        Some(fault) => (fault.line, fault.what),
        None => (0, 0),
    };
    same(rt, &found, &(line, what));
}

/// A trace of so many calls, and behind them an attachment.
fn many_calls(rt: &impl Abort, alloc: Global, calls: u32) -> Vec<u8> {
    let mut text = Vec::from_slice(alloc, NO_CALLS).expect(rt, "memory");
    for _ in 0..calls {
        text.extend_from_slice(b"0 count 0\n").expect(rt, "memory");
    }
    text.extend_from_slice(b"0 attach none\n")
        .expect(rt, "memory");
    text
}

#[test]
fn the_first_bad_call_line_is_named(rt: HostRuntime) {
    let alloc = rt.alloc();
    has_fault(&rt, alloc, TWO_MAKES, 0, 0);
    has_fault(&rt, alloc, ATTACHED, 6, 17);
    has_fault(&rt, alloc, &many_calls(&rt, alloc, 4095), 4100, 17);
    has_fault(&rt, alloc, &many_calls(&rt, alloc, 4096), 4101, 16);
}
