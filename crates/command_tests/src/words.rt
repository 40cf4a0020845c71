//! The words of the program, and what they lead to.
use crate::checks::{holds, same};
use crate::outcomes::{Outcome, failing_sink, failing_source, sink, source};
use std::alloc::Global;
use std::process::Abort;
use std::sync::Wait;
use std::thread::Threads;
use syn_outer::{MemSink, OpenGate, SureSource};
use syncord_app::syncord;

const FAST_PATH: &str =
    "shfl-line 1\nform spin\nlimit 1024\npolicy socket\npass 0 0 0 0\nevents\nwrite 0\nstep 0\nfree 0\nstep 0\n";

const FAST_PATH_REPORT: &str =
    "shfl-line 1 form spin limit 1024 passes 1\n1 write 0 yes word 0 hold - line - hand - role -\n2 step 0 yes word 1 hold w0 line - hand - role -\n3 free 0 yes word 1 hold w0 line - hand - role -\n4 step 0 yes word 0 hold - line - hand - role -\nend yes 4 no 0\n";

/// The words as the program has them.
pub(crate) fn words_of(rt: &impl Abort, alloc: Global, words: &[&str]) -> Vec<String> {
    let mut texts = Vec::new(alloc);
    for word in words {
        let text = String::from_str(alloc, word).expect(rt, "memory");
        texts.push(text).ok().expect(rt, "memory");
    }
    texts
}

/// The program is called by these words, and reads this.
fn called_on<R: Abort + Threads + Wait + Sync>(
    rt: &R,
    alloc: Global,
    words: &[&str],
    src: &mut SureSource,
) -> Outcome {
    let texts = words_of(rt, alloc, words);
    let mut out = sink(rt, alloc, 4096);
    let mut err = sink(rt, alloc, 100);
    let status = syncord(rt, alloc, &texts, src, &mut out, &mut err, &OpenGate);
    Outcome { status, out, err }
}

fn called<R: Abort + Threads + Wait + Sync>(
    rt: &R,
    alloc: Global,
    words: &[&str],
    input: &str,
) -> Outcome {
    let mut src = source(rt, alloc, input.as_bytes());
    called_on(rt, alloc, words, &mut src)
}

/// Words of no command.
const NO_COMMANDS: &[&[&str]] = &[
    &["line", "x"],
    &["help"],
    &[],
    &["Line"],
    &["line "],
    &["verify", "1"],
    &["verify", "2", "2"],
    &["2"],
    &["-h"],
    &["replay", "2"],
    &["shards", "2"],
    &["pool", "2"],
    &["asm", "1"],
    &["disasm", "2", "2"],
    &["bulk"],
    &["bulk", "7", "17", "5"],
    &["bulk", "07", "1", "5"],
    &["bulk", "7", "1", "65001"],
    &["bulk", "18446744073709551616", "1", "5"],
];

#[test]
fn other_words_are_refused_and_nothing_is_read(rt: HostRuntime) {
    let alloc = rt.alloc();
    let mut src = source(&rt, alloc, FAST_PATH.as_bytes());
    for words in NO_COMMANDS {
        called_on(&rt, alloc, words, &mut src).refuses(&rt, 2, "syncord: words\n");
    }
    called_on(&rt, alloc, &["line"], &mut src).reports(&rt, FAST_PATH_REPORT);
}

const ONE_CALL: &str = "syncord-trace 1\nworker 0 0 0 0\npolicy none - -\ncalls\n0 make 0 a\n";

const ONE_CALL_REPORT: &str =
    "syncord-replay 1 workers 1 entries 1\n0 make 0 a = ino 1\nfinal 1\n0 a 1\nattaches 0\nend\n";

const TEN_CALLS: &str =
    "syncord-trace 1\nworker 0 0 0 0\npolicy none - -\ncalls\n0 make 0 a\n0 make 0 a\n0 rename 0 a 0 a\n0 make 1 b\n0 rename 0 a 1 b\n0 find 1 b\n0 find 0 a\n0 count 1\n0 next 1\n0 next 1 b\n";

const TEN_CALLS_REPORT: &str =
    "syncord-replay 1 workers 1 entries 10\n0 make 0 a = ino 1\n0 make 0 a = exists\n0 rename 0 a 0 a = done\n0 make 1 b = ino 2\n0 rename 0 a 1 b = done\n0 find 1 b = ino 1\n0 find 0 a = absent\n0 count 1 = number 1\n0 next 1 = name b\n0 next 1 b = end\nfinal 1\n1 b 1\nattaches 0\nend\n";

const TWO_MAKES: &str =
    "syncord-trace 1\nworker 0 0 0 0\npolicy none - -\ncalls\n0 make 0 a\n0 make 0 a\n";

const TWO_MAKES_REPORT: &str =
    "syncord-pool 1 workers 1 entries 2\n0 0 make 0 a = ino 1\n0 1 make 0 a = exists\nfinal 1\n0 a 1\nend\n";

const SUMMARY: &str =
    "bulk seed 1 workers 1 calls 3 attaches 0\nino 1 done 0 exists 0 absent 1 number 1 name 0 end 0\nleft 1\n";

// Eight workers, whose calls never meet in a directory: whatever their order, the counts are the same.
const EIGHT_SUMMARY: &str =
    "bulk seed 7 workers 8 calls 20000 attaches 20\nino 4798 done 2704 exists 4122 absent 3457 number 2442 name 2362 end 115\nleft 1299\n";

const MOVE: &str = "bf00080000000000\n9500000000000000\n";

/// A program of two slots.
const ACCEPTED: &str = "b700000001000000\n9500000000000000\n";

/// The words of commands, what they read, and the status, the report and the line of each.
const COMMANDS: &[(&[&str], &str, u8, &str, &str)] = &[
    (&["line"], FAST_PATH, 0, FAST_PATH_REPORT, ""),
    (&["line"], "", 1, "", "syncord: line 1: fault 2\n"),
    (&["verify"], ACCEPTED, 0, "accepted slots 2\n", ""),
    (&["verify", "2"], ACCEPTED, 0, "accepted slots 2\n", ""),
    (&["verify"], MOVE, 6, "", "syncord: refused 6 at slot 0\n"),
    (
        &["verify", "2"],
        MOVE,
        6,
        "",
        "syncord: refused 10 at slot 0 register 0\n",
    ),
    (&["replay"], ONE_CALL, 0, ONE_CALL_REPORT, ""),
    (&["replay"], TEN_CALLS, 0, TEN_CALLS_REPORT, ""),
    (&["replay"], "", 1, "", "syncord: line 1: fault 2\n"),
    (&["shards"], TEN_CALLS, 0, TEN_CALLS_REPORT, ""),
    (&["shards"], "", 1, "", "syncord: line 1: fault 2\n"),
    (&["pool"], TWO_MAKES, 0, TWO_MAKES_REPORT, ""),
    (&["pool"], FOUR, 1, "", "syncord: line 12: fault 17\n"),
    (&["pool"], "", 1, "", "syncord: line 1: fault 2\n"),
    (&["bulk", "1", "1", "3"], "", 0, SUMMARY, ""),
    (&["bulk", "7", "8", "20000"], "", 0, EIGHT_SUMMARY, ""),
    (&["asm", "2"], "le 16 r0\n", 0, "d400000010000000\n", ""),
    (&["asm"], "le 16 r0\n", 1, "", "syncord: line 1: fault 2\n"),
    (&["disasm", "2"], "d400000010000000", 0, "le 16 r0\n", ""),
    (&["disasm"], MOVE, 6, "", "syncord: refused 6 at slot 0\n"),
];

#[test]
fn the_words_of_a_command_lead_to_it(rt: HostRuntime) {
    for (words, input, status, report, message) in COMMANDS {
        let end = called(&rt, rt.alloc(), words, input);
        end.is(&rt, *status, report.as_bytes(), message.as_bytes());
    }
}

// Four workers on two sockets, with two attachments.
const FOUR: &str =
    "syncord-trace 1\nworker 0 0 0 0\nworker 0 0 0 0\nworker 1 0 0 0\nworker 1 0 0 0\npolicy socket 61120000000000006111040000000000b7000000010000001d21010000000000b7000000000000009500000000000000 -\npolicy none - -\ncalls\n0 make 5 job-0\n0 make 5 shared\n0 find 5 shared\n0 attach none\n0 rename 5 job-0 6 job-0\n0 count 6\n0 find 6 job-0\n0 drop 5 shared\n0 attach socket\n0 next 6\n0 make 7 log-0\n0 count 7\n1 make 5 job-1\n1 make 5 shared\n1 find 5 shared\n1 rename 5 job-1 6 job-1\n1 count 6\n1 find 6 job-1\n1 drop 5 shared\n1 next 6\n1 make 7 log-1\n1 count 7\n2 make 5 job-2\n2 make 5 shared\n2 find 5 shared\n2 rename 5 job-2 6 job-2\n2 count 6\n2 find 6 job-2\n2 drop 5 shared\n2 next 6\n2 make 7 log-2\n2 count 7\n3 make 5 job-3\n3 make 5 shared\n3 find 5 shared\n3 rename 5 job-3 6 job-3\n3 count 6\n3 find 6 job-3\n3 drop 5 shared\n3 next 6\n3 make 7 log-3\n3 count 7\n";

/// It had a report that begins and ends so.
fn is_within(rt: &impl Abort, end: &Outcome, front: &[u8], back: &[u8]) {
    same(rt, &end.status, &0);
    holds(rt, end.out.bytes().starts_with(front));
    holds(rt, end.out.bytes().ends_with(back));
}

#[test]
fn four_workers_are_replayed(rt: HostRuntime) {
    let end = called(&rt, rt.alloc(), &["replay"], FOUR);
    let front = b"syncord-replay 1 workers 4 entries 40\n";
    is_within(&rt, &end, front, b"attaches 2\n1 none\n2 socket\nend\n");
}

// The same without its attachments.
const FOUR_TAKERS: &str =
    "syncord-trace 1\nworker 0 0 0 0\nworker 0 0 0 0\nworker 1 0 0 0\nworker 1 0 0 0\npolicy socket 61120000000000006111040000000000b7000000010000001d21010000000000b7000000000000009500000000000000 -\npolicy none - -\ncalls\n0 make 5 job-0\n0 make 5 shared\n0 find 5 shared\n0 rename 5 job-0 6 job-0\n0 count 6\n0 find 6 job-0\n0 drop 5 shared\n0 next 6\n0 make 7 log-0\n0 count 7\n1 make 5 job-1\n1 make 5 shared\n1 find 5 shared\n1 rename 5 job-1 6 job-1\n1 count 6\n1 find 6 job-1\n1 drop 5 shared\n1 next 6\n1 make 7 log-1\n1 count 7\n2 make 5 job-2\n2 make 5 shared\n2 find 5 shared\n2 rename 5 job-2 6 job-2\n2 count 6\n2 find 6 job-2\n2 drop 5 shared\n2 next 6\n2 make 7 log-2\n2 count 7\n3 make 5 job-3\n3 make 5 shared\n3 find 5 shared\n3 rename 5 job-3 6 job-3\n3 count 6\n3 find 6 job-3\n3 drop 5 shared\n3 next 6\n3 make 7 log-3\n3 count 7\n";

#[test]
fn four_takers_empty_a_pool(rt: HostRuntime) {
    let end = called(&rt, rt.alloc(), &["pool"], FOUR_TAKERS);
    let front = b"syncord-pool 1 workers 4 entries 40\n";
    is_within(&rt, &end, front, b"\nend\n");
}

/// A run whose source fails at its first call.
fn unread<R: Abort + Threads + Wait + Sync>(rt: &R, alloc: Global) -> Outcome {
    let words = words_of(rt, alloc, &["line"]);
    let mut src = failing_source(rt, alloc, FAST_PATH.as_bytes(), 16, 1);
    let mut out = sink(rt, alloc, 300);
    let mut err = sink(rt, alloc, 100);
    let status = syncord(rt, alloc, &words, &mut src, &mut out, &mut err, &OpenGate);
    Outcome { status, out, err }
}

/// What both streams took of a run whose sinks fail, that of the report at its third call and that of the line at its second.
#[derive(Drop)]
struct BothCut {
    status: u8,
    out: MemSink,
    err: MemSink,
}

fn unwritten<R: Abort + Threads + Wait + Sync>(rt: &R, alloc: Global) -> BothCut {
    let words = words_of(rt, alloc, &["line"]);
    let mut src = source(rt, alloc, FAST_PATH.as_bytes());
    let mut out = failing_sink(rt, alloc, 300, 16, 3);
    let mut err = failing_sink(rt, alloc, 100, 7, 2);
    let status = syncord(rt, alloc, &words, &mut src, &mut out, &mut err, &OpenGate);
    BothCut { status, out, err }
}

#[test]
fn faults_of_the_streams_are_told(rt: HostRuntime) {
    unread(&rt, rt.alloc()).refuses(&rt, 3, "syncord: read fault\n");
    let cut = unwritten(&rt, rt.alloc());
    same(&rt, &cut.status, &4);
    let front = b"shfl-line 1 form spin limit 1024".as_slice();
    same(&rt, &cut.out.bytes(), &front);
    same(&rt, &cut.err.bytes(), &b"syncord".as_slice());
}
