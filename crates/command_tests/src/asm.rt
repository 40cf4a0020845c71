//! The text of a program to its slots, and slots to their text.
use crate::checks::same;
use crate::outcomes::{Outcome, sink, source};
use bpf_isa::Profile;
use std::alloc::Global;
use std::process::Abort;
use syncord_asm::{run_asm, run_disasm};

/// Answers yes where the sockets of anchor and waiter are equal.
const SAME_SOCKET: &str = "ldw r2 r1 0\nldw r1 r1 4\nmov64 r0 1\njeq64 r1 r2 1\nmov64 r0 0\nexit\n";

const SAME_SOCKET_NAMED: &str =
    "ldw r2 r1 0\nldw r1 r1 4\nmov64 r0 1\njeq64 r1 r2 @same\nmov64 r0 0\n:same\nexit\n";

const SAME_SOCKET_UNNAMED: &str =
    "ldw r2 r1 0\nldw r1 r1 4\nmov64 r0 1\njeq64 r1 r2 @same\nmov64 r0 0\nexit\n";

const SAME_SOCKET_SLOTS: &str =
    "6112000000000000\n6111040000000000\nb700000001000000\n1d21010000000000\nb700000000000000\n9500000000000000\n";

fn assembled(rt: &impl Abort, alloc: Global, profile: Profile, text: &str) -> Outcome {
    let mut src = source(rt, alloc, text.as_bytes());
    let mut out = sink(rt, alloc, 200);
    let mut err = sink(rt, alloc, 100);
    let status = run_asm(alloc, profile, &mut src, &mut out, &mut err);
    Outcome { status, out, err }
}

fn listed(rt: &impl Abort, alloc: Global, profile: Profile, digits: &str) -> Outcome {
    let mut src = source(rt, alloc, digits.as_bytes());
    let mut out = sink(rt, alloc, 200);
    let mut err = sink(rt, alloc, 100);
    let status = run_disasm(alloc, profile, &mut src, &mut out, &mut err);
    Outcome { status, out, err }
}

/// Texts and their slots.
const TEXTS: &[(Profile, &str, &str)] = &[
    (Profile::One, SAME_SOCKET, SAME_SOCKET_SLOTS),
    (Profile::One, SAME_SOCKET_NAMED, SAME_SOCKET_SLOTS),
    (Profile::Two, SAME_SOCKET_NAMED, SAME_SOCKET_SLOTS),
    (
        Profile::One,
        "wide r3 81985529216486895\nexit\n",
        "18030000efcdab89\n0000000067452301\n9500000000000000\n",
    ),
    (
        Profile::Two,
        "swap 64 r9\nexit\n",
        "d709000040000000\n9500000000000000\n",
    ),
];

#[test]
fn a_text_becomes_its_slots(rt: HostRuntime) {
    for (profile, text, slots) in TEXTS {
        assembled(&rt, rt.alloc(), *profile, text).reports(&rt, slots);
    }
}

/// Other texts, and the line of each.
const BAD_TEXTS: &[(Profile, &str, &str)] = &[
    (
        Profile::One,
        SAME_SOCKET_UNNAMED,
        "syncord: line 4: fault 6\n",
    ),
    (Profile::One, "", "syncord: line 1: fault 9\n"),
    (Profile::One, ":end\n", "syncord: line 2: fault 9\n"),
    (Profile::One, "exit", "syncord: line 1: fault 1\n"),
    (Profile::One, "exit\n\n", "syncord: line 2: fault 2\n"),
    (
        Profile::One,
        "swap 64 r0\nexit\n",
        "syncord: line 1: fault 2\n",
    ),
    (Profile::Two, "mov64 r10 1\n", "syncord: line 1: fault 3\n"),
    (
        Profile::Two,
        "mov64 r0 -2147483649\n",
        "syncord: line 1: fault 4\n",
    ),
    (Profile::Two, ":a\nexit\n:a\n", "syncord: line 3: fault 5\n"),
    (
        Profile::Two,
        "ja 1\nwide r0 5\nexit\n",
        "syncord: line 1: fault 7\n",
    ),
];

#[test]
fn other_texts_are_refused_with_the_first_bad_line(rt: HostRuntime) {
    for (profile, text, message) in BAD_TEXTS {
        assembled(&rt, rt.alloc(), *profile, text).refuses(&rt, 1, message);
    }
}

/// Digits and their text.
const DIGITS: &[(Profile, &str, &str)] = &[
    (Profile::One, SAME_SOCKET_SLOTS, SAME_SOCKET),
    (
        Profile::Two,
        "B7010000ffffffff 95\r\n\t00000000000000",
        "mov64 r1 -1\nexit\n",
    ),
    (
        Profile::One,
        "1803000076543210 00000000fedcba98",
        "wide r3 11005351623184766070\n",
    ),
    (Profile::Two, "81210800 00000000", "ldsw r1 r2 8\n"),
];

#[test]
fn digits_become_their_text(rt: HostRuntime) {
    for (profile, digits, text) in DIGITS {
        listed(&rt, rt.alloc(), *profile, digits).reports(&rt, text);
    }
}

/// Digits of no program, and the status and the line of each.
const BAD_DIGITS: &[(Profile, &str, u8, &str)] = &[
    (Profile::One, "9x", 1, "syncord: line 1: fault 1\n"),
    (Profile::One, "95\n0\n", 1, "syncord: line 3: fault 2\n"),
    (Profile::One, "", 6, "syncord: refused 1\n"),
    (Profile::One, "95", 6, "syncord: refused 2\n"),
    (
        Profile::One,
        "8500000001000000",
        6,
        "syncord: refused 4 at slot 0\n",
    ),
    (
        Profile::One,
        "8121080000000000",
        6,
        "syncord: refused 4 at slot 0\n",
    ),
    (
        Profile::Two,
        "9500000000000000 b70a000000000000",
        6,
        "syncord: refused 5 at slot 1\n",
    ),
    (
        Profile::Two,
        "9500010000000000",
        6,
        "syncord: refused 6 at slot 0\n",
    ),
    (
        Profile::Two,
        "1800000005000000",
        6,
        "syncord: refused 7 at slot 0\n",
    ),
];

#[test]
fn digits_of_no_program_are_refused(rt: HostRuntime) {
    for (profile, digits, status, message) in BAD_DIGITS {
        listed(&rt, rt.alloc(), *profile, digits).refuses(&rt, *status, message);
    }
}

#[test]
fn a_verifier_is_not_asked(rt: HostRuntime) {
    let end = assembled(&rt, rt.alloc(), Profile::One, "ja -1\n");
    same(&rt, &end.out.bytes(), &b"0500ffff00000000\n".as_slice());
    let end = listed(&rt, rt.alloc(), Profile::One, "0500ffff00000000");
    same(&rt, &end.out.bytes(), &b"ja -1\n".as_slice());
}
