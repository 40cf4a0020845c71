//! Each way in which a command ends.
use crate::outcomes::{CutOutcome, Outcome, failing_sink, failing_source, sink, source};
use std::alloc::Global;
use std::process::Abort;
use syncord_endings::{Refusal, Work, perform};

/// A command that refuses all but `copy`, which it reports as it stands.
#[derive(Drop)]
struct Only {
    refusal: Refusal,
}

impl Work for Only {
    ghost use Rattle.std.specs.Prelude.{◌≡◌};

    ghost reports = { λ only bytes text. text ≡ bytes };

    ghost refuses = { λ only bytes refusal. refusal ≡ only.refusal };

    fn report(&self, _alloc: Global, bytes: Vec<u8>) -> Result<Vec<u8>, Refusal> {
        if bytes.as_slice() != b"copy".as_slice() {
            return Err(self.refusal);
        }
        Ok(bytes)
    }
}

/// One that refuses with the program's fault 1.
const ONE: Only = Only {
    refusal: Refusal::Program { number: 1 },
};

/// What the command does with these bytes.
fn performed(rt: &impl Abort, alloc: Global, only: &Only, bytes: &[u8]) -> Outcome {
    let mut src = source(rt, alloc, bytes);
    let mut out = sink(rt, alloc, 100);
    let mut err = sink(rt, alloc, 100);
    let status = perform(only, alloc, &mut src, &mut out, &mut err);
    Outcome { status, out, err }
}

#[test]
fn a_report_is_written(rt: HostRuntime) {
    performed(&rt, rt.alloc(), &ONE, b"copy").reports(&rt, "copy");
}

/// Refusals, and the status and the line of each.
const REFUSALS: &[(Refusal, u8, &str)] = &[
    (
        Refusal::Line { line: 12, what: 3 },
        1,
        "syncord: line 12: fault 3\n",
    ),
    (Refusal::Program { number: 2 }, 6, "syncord: refused 2\n"),
    (
        Refusal::Slot {
            number: 8,
            slot: 511,
        },
        6,
        "syncord: refused 8 at slot 511\n",
    ),
    (
        Refusal::Register {
            number: 10,
            slot: 0,
            register: 2,
        },
        6,
        "syncord: refused 10 at slot 0 register 2\n",
    ),
    (Refusal::NoMemory, 5, ""),
];

#[test]
fn each_refusal_has_its_line(rt: HostRuntime) {
    for (refusal, status, message) in REFUSALS {
        let only = Only { refusal: *refusal };
        performed(&rt, rt.alloc(), &only, b"").refuses(&rt, *status, message);
    }
}

/// A run whose source fails at its second call.
fn unread(rt: &impl Abort, alloc: Global) -> Outcome {
    let mut src = failing_source(rt, alloc, b"copy", 16, 2);
    let mut out = sink(rt, alloc, 100);
    let mut err = sink(rt, alloc, 100);
    let status = perform(&ONE, alloc, &mut src, &mut out, &mut err);
    Outcome { status, out, err }
}

/// A run whose sink fails at its second call.
fn unwritten(rt: &impl Abort, alloc: Global) -> CutOutcome {
    let mut src = source(rt, alloc, b"copy");
    let mut out = failing_sink(rt, alloc, 100, 3, 2);
    let mut err = sink(rt, alloc, 100);
    let status = perform(&ONE, alloc, &mut src, &mut out, &mut err);
    CutOutcome { status, out, err }
}

#[test]
fn faults_of_source_and_sink_are_told(rt: HostRuntime) {
    let alloc = rt.alloc();
    unread(&rt, alloc).refuses(&rt, 3, "syncord: read fault\n");
    let message = b"syncord: write fault after 3 bytes\n";
    unwritten(&rt, alloc).is(&rt, 4, b"cop", message);
}
