//! Schedules and their reports.
ghost use Rattle.std.specs.Prelude.{◌<◌};

mod documents;

use crate::checks::{holds, same};
use crate::outcomes::{CutOutcome, Outcome, bytes_of, failing_sink, failing_source, sink, source};
use documents::WORKED;
use std::alloc::Global;
use std::process::Abort;
use syn_outer::SureSource;
use syncord_line::*;

/// One caller takes the free lock and gives it back: 96 bytes.
const FAST_PATH: &str =
    "shfl-line 1\nform spin\nlimit 1024\npolicy socket\npass 0 0 0 0\nevents\nwrite 0\nstep 0\nfree 0\nstep 0\n";

/// 252 bytes.
const FAST_PATH_REPORT: &str =
    "shfl-line 1 form spin limit 1024 passes 1\n1 write 0 yes word 0 hold - line - hand - role -\n2 step 0 yes word 1 hold w0 line - hand - role -\n3 free 0 yes word 1 hold w0 line - hand - role -\n4 step 0 yes word 0 hold - line - hand - role -\nend yes 4 no 0\n";

/// What becomes of the document, with so much room for its report.
fn ran_in(rt: &impl Abort, alloc: Global, document: Vec<u8>, room: usize) -> Outcome {
    let mut src = SureSource::new(document);
    let mut out = sink(rt, alloc, room);
    let mut err = sink(rt, alloc, 100);
    let status = run_line(alloc, &mut src, &mut out, &mut err);
    Outcome { status, out, err }
}

fn ran(rt: &impl Abort, alloc: Global, document: &[u8]) -> Outcome {
    ran_in(rt, alloc, bytes_of(rt, alloc, document), 8192)
}

/// The status where the error stream fails at its first call, and whether nothing was written to either stream.
fn untold(rt: &impl Abort, alloc: Global, document: &[u8]) -> (u8, bool) {
    let mut src = source(rt, alloc, document);
    let mut out = sink(rt, alloc, 300);
    let mut err = failing_sink(rt, alloc, 100, 100, 1);
    let status = run_line(alloc, &mut src, &mut out, &mut err);
    (status, out.bytes().is_empty() && err.bytes().is_empty())
}

#[test]
fn worked_schedules_are_reported(rt: HostRuntime) {
    let alloc = rt.alloc();
    ran(&rt, alloc, FAST_PATH.as_bytes()).reports(&rt, FAST_PATH_REPORT);
    for (document, report) in WORKED {
        ran(&rt, alloc, document.as_bytes()).reports(&rt, report);
    }
}

/// Where a line of the fast path ends, the number of the next one, and the fault of a document that ends here.
const ENDS: [(usize, u32, u8); 11] = [
    (0, 1, 2),
    (12, 2, 3),
    (22, 3, 4),
    (33, 4, 5),
    (47, 5, 7),
    (60, 6, 7),
    (67, 7, 0),
    (75, 8, 0),
    (82, 9, 0),
    (89, 10, 0),
    (96, 11, 0),
];

/// The line and the fault of the first `length` bytes of the fast path. The fault is 0 where they are a schedule.
fn due(length: usize) -> (u32, u8) {
    let mut found = (1, 1);
    for (end, next, fault) in ENDS {
        if length == end {
            found = (next, fault);
        } else if length > end {
            found = (next, 1);
        }
    }
    found
}

/// The line that a fault has on the error stream.
fn told(rt: &impl Abort, alloc: Global, line: u32, what: u8) -> String {
    format!(in alloc; "syncord: line {line}: fault {what}\n").expect(rt, "memory")
}

/// The document has this status and this line on the error stream, or the status alone where that stream fails.
fn ends(rt: &impl Abort, alloc: Global, document: &[u8], status: u8, message: &str) {
    let end = ran(rt, alloc, document);
    same(rt, &end.status, &status);
    same(rt, &end.err.bytes(), &message.as_bytes());
    same(rt, &untold(rt, alloc, document), &(status, status == 1));
}

/// So many bytes of the fast path are named with their fault, or are a schedule.
fn is_cut(rt: &impl Abort, alloc: Global, length: usize) {
    let front = FAST_PATH.as_bytes().get(..length).expect(rt, "bytes");
    match due(length) {
        (_, 0) => ends(rt, alloc, front, 0, ""),
        (line, what) => ends(rt, alloc, front, 1, told(rt, alloc, line, what).as_str()),
    }
}

#[test]
fn a_cut_schedule_is_named_with_its_line(rt: HostRuntime) {
    for length in 0usize..=96 {
        is_cut(&rt, rt.alloc(), length);
    }
}

/// Other documents, and the line and the fault of each.
const BAD_DOCUMENTS: &[(&str, u32, u8)] = &[
    ("shfl-line 3\n", 1, 2),
    ("shfl-line 2\n", 2, 10),
    ("shfl-line 2\nprofile 3\n", 2, 10),
    ("shfl-line 1\nform fast\n", 2, 3),
    ("shfl-line 1\nform rw\nlimit 1025\n", 3, 4),
    ("shfl-line 1\nform rw\nlimit 0\n", 3, 4),
    ("shfl-line 1\nform rw\nlimit 1\npolicy program - 9\n", 4, 5),
    ("shfl-line 1\nform rw\nlimit 1\npolicy program - 95\n", 4, 6),
    (
        "shfl-line 2\nprofile 2\nform rw\nlimit 1\npolicy always\nevents\n",
        6,
        7,
    ),
    (
        "shfl-line 1\nform park\nlimit 1\npolicy never\npass 0 0 0 0\nevents\nread 0\n",
        7,
        8,
    ),
    (
        "shfl-line 1\nform rw\nlimit 1\npolicy never\npass 0 0 0 0\nevents\nread 1\n",
        7,
        8,
    ),
    (
        "shfl-line 1\nform rw\nlimit 1\npolicy never\npass 0 0 0 0\nevents\nread\t0\n",
        7,
        1,
    ),
];

/// The document has no report, and this fault.
fn is_named(rt: &impl Abort, alloc: Global, document: &str, line: u32, what: u8) {
    let message = told(rt, alloc, line, what);
    ran(rt, alloc, document.as_bytes()).refuses(rt, 1, message.as_str());
    same(rt, &untold(rt, alloc, document.as_bytes()), &(1, true));
}

#[test]
fn other_bytes_are_named_with_the_lowest_fault(rt: HostRuntime) {
    for (document, line, what) in BAD_DOCUMENTS {
        is_named(&rt, rt.alloc(), document, *line, *what);
    }
}

/// The fast path from a source that gives a byte at a time, and fails at one call.
fn unread(rt: &impl Abort, alloc: Global, call: u32) -> Outcome {
    let mut src = failing_source(rt, alloc, FAST_PATH.as_bytes(), 1, call);
    let mut out = sink(rt, alloc, 300);
    let mut err = sink(rt, alloc, 100);
    let status = run_line(alloc, &mut src, &mut out, &mut err);
    Outcome { status, out, err }
}

#[test]
fn a_source_fails_at_each_call(rt: HostRuntime) {
    let alloc = rt.alloc();
    // 96 bytes one at a time, and one call that finds the end
    for call in 1u32..=97 {
        unread(&rt, alloc, call).refuses(&rt, 3, "syncord: read fault\n");
    }
    unread(&rt, alloc, 98).reports(&rt, FAST_PATH_REPORT);
}

/// The document to a sink that takes so many bytes at a time, and fails at one call.
fn unwritten(rt: &impl Abort, alloc: Global, document: &[u8], piece: usize, call: u32) -> CutOutcome
    requires { 0 < piece }
{
    let mut src = source(rt, alloc, document);
    let mut out = failing_sink(rt, alloc, 60_000, piece, call);
    let mut err = sink(rt, alloc, 100);
    let status = run_line(alloc, &mut src, &mut out, &mut err);
    CutOutcome { status, out, err }
}

/// So much of the report was written before the sink failed.
fn is_cut_off(rt: &impl Abort, alloc: Global, end: &CutOutcome, report: &[u8], written: usize) {
    let front = report.get(..written).expect(rt, "bytes");
    let message = format!(in alloc; "syncord: write fault after {written} bytes\n").expect(
        rt, "memory",
    );
    end.is(rt, 4, front, message.as_bytes());
}

#[test]
fn a_sink_fails_at_each_call(rt: HostRuntime) {
    let alloc = rt.alloc();
    let report = FAST_PATH_REPORT.as_bytes();
    for call in 0u32..16 {
        let end = unwritten(&rt, alloc, FAST_PATH.as_bytes(), 16, call + 1);
        is_cut_off(&rt, alloc, &end, report, 16 * call as usize);
    }
    let whole = unwritten(&rt, alloc, FAST_PATH.as_bytes(), 16, 17);
    whole.is(&rt, 0, report, b"");
}

/// The heading of the fast path, and so many events.
fn long_document(rt: &impl Abort, alloc: Global, count: u32) -> Vec<u8> {
    let heading = FAST_PATH.as_bytes().get(..67).expect(rt, "bytes");
    let mut document = bytes_of(rt, alloc, heading);
    for _ in 0..count {
        document.extend_from_slice(b"free 0\n").expect(rt, "memory");
    }
    document
}

/// The document's report fails at one piece. How much was written before?
fn fails_at(rt: &impl Abort, alloc: Global, document: &[u8], report: &[u8], call: u32) -> usize {
    let end = unwritten(rt, alloc, document, 60_000, call);
    let written = end.out.bytes().len();
    is_cut_off(rt, alloc, &end, report, written);
    written
}

#[test]
fn a_sink_fails_at_each_piece_of_a_long_report(rt: HostRuntime) {
    let alloc = rt.alloc();
    let document = long_document(&rt, alloc, 1000);
    let whole = ran_in(&rt, alloc, bytes_of(&rt, alloc, &document), 60_000);
    let report = whole.out.bytes();
    same(&rt, &whole.status, &0);
    holds(&rt, report.len() > 40_000);
    // two pieces, the first of them as long as a piece may get
    holds(&rt, fails_at(&rt, alloc, &document, report, 1) < 32_768);
    holds(&rt, fails_at(&rt, alloc, &document, report, 2) >= 32_768);
    unwritten(&rt, alloc, &document, 60_000, 3).is(&rt, 0, report, b"");
}

/// A schedule of so many events has this status and this line, and ends its report where it has one.
fn has_room(rt: &impl Abort, alloc: Global, count: u32, status: u8, message: &str) {
    let document = long_document(rt, alloc, count);
    same(rt, &untold(rt, alloc, &document), &(status, status == 1));
    let end = ran_in(rt, alloc, document, 5_000_000);
    same(rt, &end.status, &status);
    same(rt, &end.err.bytes(), &message.as_bytes());
    let is_ended = end.out.bytes().ends_with(b"end yes 0 no 65536\n");
    same(rt, &is_ended, &(status == 0));
}

#[test]
fn as_many_events_as_a_schedule_may_have_are_reported(rt: HostRuntime) {
    let alloc = rt.alloc();
    has_room(&rt, alloc, 65_536, 0, "");
    has_room(&rt, alloc, 65_537, 1, "syncord: line 65543: fault 9\n");
}

/// So many bytes, each of them a tabulator.
fn tabulators(rt: &impl Abort, alloc: Global, length: usize) -> Vec<u8> {
    Vec::from_elem(alloc, 9u8, length).expect(rt, "memory")
}

#[test]
fn one_byte_over_the_limit_is_too_large(rt: HostRuntime) {
    let alloc = rt.alloc();
    let larger = tabulators(&rt, alloc, 16_777_217);
    ran_in(&rt, alloc, larger, 100).refuses(&rt, 1, "syncord: input too large\n");
    let largest = tabulators(&rt, alloc, 16_777_216);
    ran_in(&rt, alloc, largest, 100).refuses(&rt, 1, "syncord: line 1: fault 1\n");
}
