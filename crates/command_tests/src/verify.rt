//! What the verifier says of a program.
use crate::outcomes::{CutOutcome, Outcome, bytes_of, failing_sink, failing_source, sink, source};
use bpf_isa::Profile;
use std::alloc::Global;
use std::process::Abort;
use syncord_verify::run_verify;

const SAME_SOCKET: &str =
    "6112000000000000 6111040000000000 b700000001000000 1d21010000000000\nb700000000000000 9500000000000000\n";

fn verified(rt: &impl Abort, alloc: Global, profile: Profile, digits: &[u8]) -> Outcome {
    let mut src = source(rt, alloc, digits);
    let mut out = sink(rt, alloc, 100);
    let mut err = sink(rt, alloc, 100);
    let status = run_verify(alloc, profile, &mut src, &mut out, &mut err);
    Outcome { status, out, err }
}

/// Programs and their reports.
const PROGRAMS: &[(Profile, &str, &str)] = &[
    (Profile::One, SAME_SOCKET, "accepted slots 6\n"),
    (Profile::Two, SAME_SOCKET, "accepted slots 6\n"),
    (
        Profile::One,
        "B7000000 01000000\r\n\t9500000000000000",
        "accepted slots 2\n",
    ),
];

#[test]
fn a_program_is_accepted_with_its_slots(rt: HostRuntime) {
    for (profile, digits, report) in PROGRAMS {
        verified(&rt, rt.alloc(), *profile, digits.as_bytes()).reports(&rt, report);
    }
}

/// Other programs, and the fault of each.
const BAD_PROGRAMS: &[(Profile, &str, &str)] = &[
    (Profile::One, "", "1"),
    (Profile::One, "95", "2"),
    (Profile::One, "8500000001000000", "4 at slot 0"),
    (
        Profile::One,
        "b70a000000000000 9500000000000000",
        "5 at slot 0",
    ),
    (
        Profile::One,
        "b710000000000000 9500000000000000",
        "6 at slot 0",
    ),
    (
        Profile::One,
        "0500010000000000 1800000005000000 0000000000000000 9500000000000000",
        "7 at slot 0",
    ),
    (Profile::One, "1800000005000000", "7 at slot 0"),
    (
        Profile::One,
        "6112000000000000 6111040000000000 b700000001000000 1d21ffff00000000 b700000000000000 9500000000000000",
        "8 at slot 3",
    ),
    (Profile::One, "b700000000000000", "9 at slot 0"),
    (
        Profile::One,
        "bf20000000000000 9500000000000000",
        "10 at slot 0 register 2",
    ),
    (
        Profile::One,
        "bf10000000000000 9500000000000000",
        "11 at slot 1 register 0",
    ),
    (
        Profile::One,
        "6110020000000000 9500000000000000",
        "12 at slot 0",
    ),
    (
        Profile::One,
        "6110280000000000 9500000000000000",
        "12 at slot 0",
    ),
    (
        Profile::One,
        "bf00080000000000 9500000000000000",
        "6 at slot 0",
    ),
    (
        Profile::Two,
        "bf00080000000000 9500000000000000",
        "10 at slot 0 register 0",
    ),
    (Profile::Two, "9910040000000000", "4 at slot 0"),
];

/// The program is refused with this fault.
fn is_refused(rt: &impl Abort, alloc: Global, profile: Profile, digits: &str, fault: &str) {
    let message = format!(in alloc; "syncord: refused {fault}\n").expect(rt, "memory");
    verified(rt, alloc, profile, digits.as_bytes()).refuses(rt, 6, message.as_str());
}

#[test]
fn other_programs_are_refused_with_the_first_fault(rt: HostRuntime) {
    for (profile, digits, fault) in BAD_PROGRAMS {
        is_refused(&rt, rt.alloc(), *profile, digits, fault);
    }
}

/// Other bytes than digits, and the line of each.
const NO_DIGITS: &[(&str, &str)] = &[
    ("9", "syncord: line 1: fault 2\n"),
    ("95\n0\n", "syncord: line 3: fault 2\n"),
    ("95\n0x\n", "syncord: line 2: fault 1\n"),
];

#[test]
fn other_bytes_than_digits_are_named_with_their_line(rt: HostRuntime) {
    for (digits, message) in NO_DIGITS {
        verified(&rt, rt.alloc(), Profile::One, digits.as_bytes()).refuses(&rt, 1, message);
    }
}

/// So many moves, and the end of the program.
fn moves(rt: &impl Abort, alloc: Global, count: u32) -> Vec<u8> {
    let mut digits = bytes_of(rt, alloc, b"");
    for _ in 0..count {
        digits
            .extend_from_slice(b"b700000001000000\n")
            .expect(rt, "memory");
    }
    digits
        .extend_from_slice(b"9500000000000000\n")
        .expect(rt, "memory");
    digits
}

#[test]
fn a_program_has_at_most_512_slots(rt: HostRuntime) {
    let alloc = rt.alloc();
    let longest = moves(&rt, alloc, 511);
    verified(&rt, alloc, Profile::One, &longest).reports(&rt, "accepted slots 512\n");
    let longer = moves(&rt, alloc, 512);
    verified(&rt, alloc, Profile::One, &longer).refuses(&rt, 6, "syncord: refused 3\n");
}

/// A run whose source fails at its first call.
fn unread(rt: &impl Abort, alloc: Global) -> Outcome {
    let mut src = failing_source(rt, alloc, SAME_SOCKET.as_bytes(), 16, 1);
    let mut out = sink(rt, alloc, 100);
    let mut err = sink(rt, alloc, 100);
    let status = run_verify(alloc, Profile::One, &mut src, &mut out, &mut err);
    Outcome { status, out, err }
}

/// A run whose sink fails at its second call.
fn unwritten(rt: &impl Abort, alloc: Global) -> CutOutcome {
    let mut src = source(rt, alloc, SAME_SOCKET.as_bytes());
    let mut out = failing_sink(rt, alloc, 100, 9, 2);
    let mut err = sink(rt, alloc, 100);
    let status = run_verify(alloc, Profile::One, &mut src, &mut out, &mut err);
    CutOutcome { status, out, err }
}

#[test]
fn faults_of_source_and_sink_are_told(rt: HostRuntime) {
    let alloc = rt.alloc();
    unread(&rt, alloc).refuses(&rt, 3, "syncord: read fault\n");
    let message = b"syncord: write fault after 9 bytes\n";
    unwritten(&rt, alloc).is(&rt, 4, b"accepted ", message);
}
