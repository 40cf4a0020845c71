//! What the policies of a trace's workers are told, as their logs tell it.
use crate::checks::same;
use crate::threads::{ATTACHED, GROUPED, Way, is_by, nobody_gave_up, run_text, trace_of};
use round_log::RoundLog;
use shared_tests::QueueGate;
use shfl_line::Told;
use shfl_workers::{Outcome, run_trace};
use std::alloc::Global;
use std::process::Abort;
use std::sync::Wait;
use std::thread::Threads;
use syn_outer::{Gate, OpenGate, Point};

/// What a policy is told, but for the attributes and the batch.
#[derive(Clone, Copy, Debug, PartialEq, Eq)]
pub(crate) enum Mark {
    Begins,
    /// It skips the round.
    Skips,
    /// It doesn't.
    GoesOn,
    /// It moves the waiter up.
    Moves,
    /// It doesn't.
    Stays,
    Ends,
}

fn mark_of(told: &Told) -> Mark {
    match told {
        Told::Begun => Mark::Begins,
        Told::Ended => Mark::Ends,
        Told::Answered(answer) => match (answer.waiter.is_some(), answer.answer) {
            (false, true) => Mark::Skips,
            (false, false) => Mark::GoesOn,
            (true, true) => Mark::Moves,
            (true, false) => Mark::Stays,
        },
    }
}

/// The notes of a log, each with its version.
pub(crate) fn marks_of(rt: &impl Abort, alloc: Global, log: &RoundLog) -> Vec<(u64, Mark)> {
    let mut marks = Vec::new(alloc);
    for note in log.notes().expect(rt, "a log that was kept") {
        let mark = (note.version, mark_of(&note.told));
        marks.push(mark).ok().expect(rt, "memory");
    }
    marks
}

/// The worker's first round is by this version: it goes on, leaves the first waiter behind it where it is and moves the second one up; the
/// last one in the queue isn't asked about.
fn groups_by(rt: &impl Abort, alloc: Global, outcome: &Outcome, worker: usize, version: u64) {
    let due = [
        (version, Mark::Begins),
        (version, Mark::GoesOn),
        (version, Mark::Stays),
        (version, Mark::Moves),
        (version, Mark::Ends),
    ];
    let log = outcome.rounds.get(worker).expect(rt, "the worker's log");
    let marks = marks_of(rt, alloc, log);
    let first = marks.get(..due.len()).expect(rt, "a round");
    same(rt, &first, &due.as_slice());
}

/// The first round at the queue's head is worker 1's, by this version.
fn logs_a_round<R: Abort + Threads + Wait + Sync>(
    rt: &R,
    alloc: Global,
    text: &[u8],
    way: Way,
    version: u64,
) {
    let gate = QueueGate::new(5);
    let outcome = run_text(rt, alloc, text, way, &gate);
    nobody_gave_up(rt, &gate.late);
    same(rt, &outcome.rounds.len(), &5);
    groups_by(rt, alloc, &outcome, 1, version);
}

#[test]
fn a_round_is_logged(rt: HostRuntime) {
    logs_a_round(&rt, rt.alloc(), GROUPED, Way::ByCalls, 0);
}

#[test]
fn a_round_is_logged_with_its_version(rt: HostRuntime) {
    logs_a_round(&rt, rt.alloc(), ATTACHED, Way::ByCalls, 1);
}

#[test]
fn a_round_is_logged_on_copies(rt: HostRuntime) {
    logs_a_round(&rt, rt.alloc(), ATTACHED, Way::Copies, 1);
}

#[test]
fn a_round_is_logged_in_a_shard(rt: HostRuntime) {
    logs_a_round(&rt, rt.alloc(), ATTACHED, Way::Shards, 1);
}

/// The gate of the queue with the parts of workers 0 and 1 exchanged: worker 1 holds the lock, and worker 0 stands at the queue's head.
#[derive(Drop)]
struct Exchanged<'a> {
    gate: &'a QueueGate,
}

impl<'a> Gate for Exchanged<'a> {
    fn at<Rt: Wait>(&self, rt: &Rt, worker: u32, point: Point) {
        let part = match worker {
            0 => 1,
            1 => 0,
            other => other,
        };
        self.gate.at(rt, part, point);
    }
}

// Worker 0 attaches the policy before its call, waits for the lock, and rearranges those behind it.
#[test]
fn a_round_behind_an_attachment_has_its_version(rt: HostRuntime) {
    let queue = QueueGate::new(5);
    let gate = Exchanged { gate: &queue };
    let outcome = run_text(&rt, rt.alloc(), ATTACHED, Way::ByCalls, &gate);
    nobody_gave_up(&rt, &queue.late);
    is_by(&rt, rt.alloc(), &outcome, &[1, 0, 3, 2, 4]);
    groups_by(&rt, rt.alloc(), &outcome, 0, 1);
}

#[test]
fn nothing_is_kept_unasked(rt: HostRuntime) {
    let trace = trace_of(&rt, rt.alloc(), GROUPED);
    let ran = run_trace(&rt, rt.alloc(), &trace, false, &OpenGate).ok();
    let outcome = ran.expect(&rt, "memory");
    same(&rt, &outcome.rounds.len(), &5);
    for log in outcome.rounds.as_slice() {
        same(&rt, &log.notes().is_none(), &true);
    }
}
