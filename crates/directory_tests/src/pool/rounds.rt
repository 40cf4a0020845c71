//! What takers keep of their rounds.
ghost use Rattle.std.specs.Prelude.{◌≡◌, vec_len};

use crate::checks::{holds, same};
use crate::directory::opened;
use bpf_isa::Profile;
use call_pool::run_pool;
use dir_table::DirCall;
use round_log::{Note, RoundLog};
use shared_tests::{FAR, PLAIN, QueueGate};
use shfl_line::{Answer, Attr, Told};
use shfl_policy::{Policy, PolicySource, load};
use std::alloc::Global;
use std::process::Abort;
use std::sync::Wait;
use std::thread::Threads;
use syn_outer::OpenGate;

/// Five takers on two sockets.
const FIVE: [Attr; 5] = [PLAIN, PLAIN, FAR, PLAIN, FAR];

/// Prefers waiters of the own socket.
const OWN: [u8; 48] = [
    0x61, 0x12, 0, 0, 0, 0, 0, 0, 0x61, 0x11, 4, 0, 0, 0, 0, 0, 0xb7, 0, 0, 0, 1, 0, 0, 0, 0x1d,
    0x21, 1, 0, 0, 0, 0, 0, 0xb7, 0, 0, 0, 0, 0, 0, 0, 0x95, 0, 0, 0, 0, 0, 0, 0,
];

// The policy whose program is these bytes.
fn own(rt: &impl Abort, alloc: Global) -> Policy {
    let should = Vec::from_slice(alloc, &OWN).ok();
    let source = PolicySource {
        should: Some(should.expect(rt, "memory")),
        skip: None,
    };
    let loaded = load(alloc, 0, Profile::One, &source).ok();
    loaded.expect(rt, "a policy")
}

// This was told under version 0, which is the first policy.
fn is_told(rt: &impl Abort, notes: &[Note], at: usize, told: Told) {
    let note = notes.get(at).expect(rt, "a note");
    same(
        rt,
        note,
        &Note {
            version: 0,
            which: 0,
            told,
        },
    );
}

// Taker 1 asked this, and had this answer.
fn is_asked(rt: &impl Abort, notes: &[Note], at: usize, waiter: Option<Attr>, answer: bool) {
    let note = notes.get(at).expect(rt, "a note");
    let Told::Answered(found) = note.told else {
        panic!(rt; "no answer")
    };
    let due = Answer {
        anchor: PLAIN,
        waiter,
        batch: found.batch,
        answer,
    };
    is_told(rt, notes, at, Told::Answered(due));
}

// Its first round: of the takers behind it, all but the last were asked about.
fn asked_by_the_first(rt: &impl Abort, log: &RoundLog) {
    let notes = log.notes().expect(rt, "a log that keeps");
    is_told(rt, notes, 0, Told::Begun);
    is_asked(rt, notes, 1, None, false);
    is_asked(rt, notes, 2, Some(FAR), false);
    is_asked(rt, notes, 3, Some(PLAIN), true);
    is_told(rt, notes, 4, Told::Ended);
}

const COUNT: DirCall = DirCall::Count { dir: 0 };

// The logs of the five, who make a call each at this gate.
fn logs_of_five<R: Abort + Threads + Wait + Sync>(
    rt: &R,
    alloc: Global,
    gate: &QueueGate,
) -> Vec<RoundLog>
    ensures { vec_len result ≡ 5 }
{
    let policy = own(rt, alloc);
    let dir = opened(rt, alloc, 1, 25);
    let ran = run_pool(rt, alloc, dir, &policy, &FIVE, &[COUNT; 5], true, gate).ok();
    let (_dir, _history, logs) = ran.expect(rt, "memory");
    same(rt, &logs.len(), &5);
    logs
}

#[test]
fn a_taker_keeps_the_round_that_it_asked(rt: HostRuntime) {
    let gate = QueueGate::new(5);
    let logs = logs_of_five(&rt, rt.alloc(), &gate);
    same(&rt, &gate.late.count(), &0);
    asked_by_the_first(&rt, &logs[1]);
}

#[test]
fn nothing_is_kept_where_nothing_is_to_be(rt: HostRuntime) {
    let alloc = rt.alloc();
    let policy = Policy::new(0, None, None);
    let dir = opened(&rt, alloc, 1, 1);
    let attrs = [PLAIN];
    let ran = run_pool(&rt, alloc, dir, &policy, &attrs, &[COUNT], false, &OpenGate).ok();
    let (_dir, _history, logs) = ran.expect(&rt, "memory");
    same(&rt, &logs.len(), &1);
    holds(&rt, logs[0].notes().is_none());
}
