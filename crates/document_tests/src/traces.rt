//! Documents as bytes: read, written back, refused by their first bad line, and reported.
use crate::checks::{is_told, same};
use bpf_isa::Profile;
use dir_table::{Dir, DirCall, DirReply};
use hist_log::Entry;
use std::alloc::Global;
use std::process::Abort;
use trace_text::*;

const SERIAL: &[u8; 172] =
    b"syncord-trace 1\nworker 0 0 0 0\npolicy none - -\ncalls\n0 make 0 a\n0 make 0 a\n0 rename 0 a 0 a\n0 make 1 b\n0 rename 0 a 1 b\n0 find 1 b\n0 find 0 a\n0 count 1\n0 next 1\n0 next 1 b\n";

const SECOND: &[u8; 71] =
    b"syncord-trace 2\nprofile 2\nworker 0 0 0 0\npolicy p - -\ncalls\n0 attach p\n";

const ONE_WORKER: &[u8; 31] = b"syncord-trace 1\nworker 0 0 0 0\n";

const NO_CALLS: &[u8; 53] = b"syncord-trace 1\nworker 0 0 0 0\npolicy none - -\ncalls\n";

const FOUR_WORKERS: &[u8; 211] =
    b"syncord-trace 1\nworker 0 0 0 0\nworker 0 0 0 0\nworker 1 0 0 0\nworker 1 0 0 0\npolicy socket 61120000000000006111040000000000b7000000010000001d21010000000000b7000000000000009500000000000000 -\npolicy none - -\ncalls\n";

// What each worker does in turn, with its number for W.
const ROUND: [&[u8]; 10] = [
    b"W make 5 job-W\n",
    b"W make 5 shared\n",
    b"W find 5 shared\n",
    b"W rename 5 job-W 6 job-W\n",
    b"W count 6\n",
    b"W find 6 job-W\n",
    b"W drop 5 shared\n",
    b"W next 6\n",
    b"W make 7 log-W\n",
    b"W count 7\n",
];

fn fault(alloc: Global, bytes: &[u8]) -> Option<(u32, u8)> {
    match read_trace(alloc, bytes) {
        Ok(_) => None,
        Err(TraceError::Format { line, what }) => Some((line, what)),
        Err(TraceError::NoMemory) => Some((0, 0)),
    }
}

/// The bytes, and then the line so many times.
fn repeated(rt: &impl Abort, alloc: Global, front: &[u8], line: &[u8], times: u32) -> Vec<u8> {
    let mut text = Vec::from_slice(alloc, front).expect(rt, "memory");
    for _ in 0..times {
        text.extend_from_slice(line).expect(rt, "memory");
    }
    text
}

fn push_line_of(rt: &impl Abort, text: &mut Vec<u8>, line: &[u8], worker: u8) {
    for byte in line {
        let byte = if *byte == b'W' { worker } else { *byte };
        text.push(byte).ok().expect(rt, "memory");
    }
}

/// What a worker does in turn; the first one attaches a policy behind its third and its seventh line.
fn push_round(rt: &impl Abort, text: &mut Vec<u8>, worker: u8) {
    for (i, line) in ROUND.iter().enumerate() {
        push_line_of(rt, text, line, worker);
        if worker == b'0' && i == 2 {
            push_line_of(rt, text, b"0 attach none\n", worker);
        }
        if worker == b'0' && i == 6 {
            push_line_of(rt, text, b"0 attach socket\n", worker);
        }
    }
}

/// Four workers on two sockets, with two attachments among the first worker's calls.
fn four_workers(rt: &impl Abort, alloc: Global) -> Vec<u8> {
    let mut text = Vec::from_slice(alloc, FOUR_WORKERS).expect(rt, "memory");
    for worker in [b'0', b'1', b'2', b'3'] {
        push_round(rt, &mut text, worker);
    }
    text
}

/// How many workers, names and calls a trace has.
type Counts = (usize, usize, usize);

/// The bytes are a trace with these, and it is written so again.
fn is_read(
    rt: &impl Abort,
    alloc: Global,
    bytes: &[u8],
    version: u8,
    profile: Profile,
    counts: Counts,
) {
    let trace = read_trace(alloc, bytes).expect(rt, "a trace");
    same(rt, &trace.version, &version);
    same(rt, &trace.profile, &profile);
    let found = (trace.workers.len(), trace.names.len(), trace.calls.len());
    same(rt, &found, &counts);
    let text = write_trace(alloc, &trace).expect(rt, "memory");
    same(rt, &text.as_slice(), &bytes);
}

#[test]
fn a_trace_is_read_and_written_back(rt: HostRuntime) {
    let alloc = rt.alloc();
    is_read(&rt, alloc, SERIAL, 1, Profile::One, (1, 2, 10));
    is_read(&rt, alloc, SECOND, 2, Profile::Two, (1, 0, 1));
    let four = four_workers(&rt, alloc);
    is_read(&rt, alloc, &four, 1, Profile::One, (4, 9, 42));
    let more = repeated(&rt, alloc, &four, b"2 attach none\n", 1);
    same(&rt, &fault(alloc, &more), &Some((51, 13)));
}

/// Documents with their first bad line and its fault. The first four end after a line of a good document.
const FIRST_BAD: &[(&[u8], u32, u8)] = &[
    (b"", 1, 2),
    (b"syncord-trace 1\n", 2, 3),
    (b"syncord-trace 1\nworker 0 0 0 0\n", 3, 5),
    (b"syncord-trace 1\nworker 0 0 0 0\npolicy none - -\n", 4, 5),
    (b"syncord-trace 1", 1, 1),
    (b"syncord-trace 3\n", 1, 2),
    (b"syncord-trace 2\n", 2, 15),
    (b"syncord-trace 2\nprofile 3\n", 2, 15),
    (b"syncord-trace 1\nworker 0 0 0 65536\n", 2, 3),
    (b"syncord-trace 1\npolicy p - -\n", 2, 3),
    (b"syncord-trace 1\nworker 0 0 0 0\ncalls\n", 3, 5),
    (b"syncord-trace 1\nworker 0 0 0 0\npolicy p  -\n", 3, 5),
    (
        b"syncord-trace 1\nworker 0 0 0 0\npolicy p - -\npolicy p 9 9\n",
        4,
        7,
    ),
    (
        b"syncord-trace 1\nworker 0 0 0 0\npolicy p 9500000000000000 9\n",
        3,
        8,
    ),
    (
        b"syncord-trace 1\nworker 0 0 0 0\npolicy p 9500000000000000 -\n",
        3,
        9,
    ),
    (
        b"syncord-trace 2\nprofile 2\nworker 0 0 0 0\npolicy p - 9500\n",
        4,
        9,
    ),
];

#[test]
fn the_first_bad_line_has_its_lowest_fault(rt: HostRuntime) {
    for (bytes, line, what) in FIRST_BAD {
        same(&rt, &fault(rt.alloc(), bytes), &Some((*line, *what)));
    }
}

/// The trace that ends with so many of the line has this fault.
fn is_bad(
    rt: &impl Abort,
    alloc: Global,
    front: &[u8],
    line: &[u8],
    times: u32,
    due: Option<(u32, u8)>,
) {
    let text = repeated(rt, alloc, front, line, times);
    same(rt, &fault(alloc, text.as_slice()), &due);
}

/// Calls, and the fault of each.
const BAD_CALLS: &[(&[u8], u8)] = &[
    (b"0 make 0 a", 1),
    (b"0 make 0 \t\n", 1),
    (b"0 make 00 a\n", 10),
    (b"0 make 0\n", 10),
    (b"1 make 64 a\n", 11),
    (b"18446744073709551616 make 0 a\n", 11),
    (b"0 make 64 a\n", 12),
    (b"0 next 18446744073709551616\n", 12),
    (b"0 attach q\n", 13),
];

#[test]
fn calls_are_judged_in_their_order(rt: HostRuntime) {
    for (call, what) in BAD_CALLS {
        is_bad(&rt, rt.alloc(), NO_CALLS, call, 1, Some((5, *what)));
    }
}

const WORKER: &[u8] = b"worker 0 0 0 0\n";

const COUNT: &[u8] = b"0 count 0\n";

const ATTACH: &[u8] = b"0 attach none\n";

/// Seventy policies, each with a name of its own.
fn many_policies(rt: &impl Abort, alloc: Global) -> Vec<u8> {
    let mut text = Vec::from_slice(alloc, ONE_WORKER).expect(rt, "memory");
    for tens in [b'0', b'1', b'2', b'3', b'4', b'5', b'6', b'7', b'8', b'9'] {
        for ones in [b'0', b'1', b'2', b'3', b'4', b'5', b'6'] {
            text.extend_from_slice(b"policy p").expect(rt, "memory");
            text.extend_from_slice(&[tens, ones]).expect(rt, "memory");
            text.extend_from_slice(b" - -\n").expect(rt, "memory");
        }
    }
    text
}

#[test]
fn one_too_many_is_refused(rt: HostRuntime) {
    let alloc = rt.alloc();
    is_bad(&rt, alloc, ONE_WORKER, WORKER, 15, Some((18, 5)));
    is_bad(&rt, alloc, ONE_WORKER, WORKER, 16, Some((18, 4)));
    is_bad(&rt, alloc, NO_CALLS, COUNT, 65536, None);
    is_bad(&rt, alloc, NO_CALLS, COUNT, 65537, Some((65541, 14)));
    is_bad(&rt, alloc, NO_CALLS, ATTACH, 4096, None);
    is_bad(&rt, alloc, NO_CALLS, ATTACH, 4097, Some((4101, 14)));
    let text = many_policies(&rt, alloc);
    same(&rt, &fault(alloc, &text), &Some((67, 6)));
}

const REPORT: &[u8] =
    b"syncord-replay 1 workers 1 entries 1\n0 make 0 a = ino 1\nfinal 1\n0 a 1\nattaches 1\n1 none\nend\n";

const SUMMARY: &[u8] =
    b"bulk seed 7 workers 1 calls 10 attaches 0\nino 1 done 0 exists 0 absent 0 number 0 name 0 end 0\nleft 1\n";

/// The first call of a trace, and its reply.
fn first_entry(rt: &impl Abort, alloc: Global, reply: DirReply) -> Vec<Entry<Dir>> {
    let mut history: Vec<Entry<Dir>> = Vec::new(alloc);
    let entry = Entry {
        worker: 0,
        call: DirCall::Make { dir: 0, name: 0 },
        reply,
        receipt: 0,
    };
    history.push(entry).ok().expect(rt, "memory");
    history
}

#[test]
fn a_replay_is_reported(rt: HostRuntime) {
    let alloc = rt.alloc();
    let trace = read_trace(alloc, SERIAL).expect(&rt, "a trace");
    let mut dir = Dir::open(alloc, 2, 10).expect(&rt, "memory");
    let reply = dir.make(0, 0);
    same(&rt, &reply, &DirReply::Ino(1));
    let history = first_entry(&rt, alloc, reply);
    let report = render(alloc, &trace, history.as_slice(), &dir, &[(1, 0)]).expect(&rt, "memory");
    same(&rt, &report.as_slice(), &REPORT);
    let total = summary(alloc, 7, &trace, history.as_slice(), &dir).expect(&rt, "memory");
    same(&rt, &total.as_slice(), &SUMMARY);
}

#[test]
fn each_fault_is_told(rt: HostRuntime) {
    let alloc = rt.alloc();
    let format = TraceError::Format { line: 7, what: 2 };
    is_told(&rt, alloc, &format, "line 7: fault 2");
    is_told(&rt, alloc, &TraceError::NoMemory, "out of memory");
}

/// Each of the names makes a file and finds it, by a line of its own each time. All end in the same sixteen bytes.
fn alike(rt: &impl Abort, alloc: Global) -> Vec<u8> {
    let mut text = Vec::from_slice(alloc, NO_CALLS).expect(rt, "memory");
    for call in [b"0 make 0 ".as_slice(), b"0 find 0 ".as_slice()] {
        for number in 0..20_u8 {
            text.extend_from_slice(call).expect(rt, "memory");
            text.push(b'z' - number).ok().expect(rt, "memory");
            text.extend_from_slice(b"-sixteen-in-all-\n")
                .expect(rt, "memory");
        }
    }
    text
}

#[test]
fn names_that_end_alike_are_told_apart(rt: HostRuntime) {
    let alloc = rt.alloc();
    let text = alike(&rt, alloc);
    is_read(&rt, alloc, &text, 1, Profile::One, (1, 20, 40));
}
