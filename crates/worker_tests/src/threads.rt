//! Traces that are run by threads.
ghost use Rattle.trace_text.specs.Limits.{Fits};
ghost use Rattle.trace_text.specs.Traces.{document_of, IsWithin};

use crate::checks::same;
use dir_table::DirReply;
use shared_tests::{Mark, QueueGate};
use shfl_workers::{Outcome, do_writes_prevail, run_copies, run_shards, run_trace};
use std::alloc::Global;
use std::process::Abort;
use std::sync::Wait;
use std::thread::Threads;
use syn_outer::{Gate, OpenGate, Point};
use trace_text::{Trace, read_trace};

/// Five workers on the sockets 0, 0, 1, 0 and 1, who call one directory; the first policy prefers waiters of the own socket, and the last
/// one nobody.
pub(crate) const GROUPED: &[u8] =
    b"syncord-trace 1\nworker 0 0 0 0\nworker 0 0 0 0\nworker 1 0 0 0\nworker 0 0 0 0\nworker 1 0 0 0\npolicy socket 61120000000000006111040000000000b7000000010000001d21010000000000b7000000000000009500000000000000 -\npolicy none - -\ncalls\n0 make 0 a\n1 make 0 b\n2 make 0 c\n3 make 0 d\n4 make 0 e\n";

/// The same with that policy attached by worker 0, before its call.
pub(crate) const ATTACHED: &[u8] =
    b"syncord-trace 1\nworker 0 0 0 0\nworker 0 0 0 0\nworker 1 0 0 0\nworker 0 0 0 0\nworker 1 0 0 0\npolicy none - -\npolicy socket 61120000000000006111040000000000b7000000010000001d21010000000000b7000000000000009500000000000000 -\ncalls\n0 attach socket\n0 make 0 a\n1 make 0 b\n2 make 0 c\n3 make 0 d\n4 make 0 e\n";

/// The same with the other policy attached behind that call.
const REPLACED: &[u8] =
    b"syncord-trace 1\nworker 0 0 0 0\nworker 0 0 0 0\nworker 1 0 0 0\nworker 0 0 0 0\nworker 1 0 0 0\npolicy none - -\npolicy socket 61120000000000006111040000000000b7000000010000001d21010000000000b7000000000000009500000000000000 -\ncalls\n0 attach socket\n0 make 0 a\n0 attach none\n1 make 0 b\n2 make 0 c\n3 make 0 d\n4 make 0 e\n";

/// Four workers on two sockets, each of whom makes a name, looks for it and counts; worker 3 drops what it made.
pub(crate) const FOUR_WORKERS: &[u8] =
    b"syncord-trace 1\nworker 0 0 0 0\nworker 0 0 0 0\nworker 1 0 0 0\nworker 1 0 0 0\npolicy none - -\npolicy socket 61120000000000006111040000000000b7000000010000001d21010000000000b7000000000000009500000000000000 -\ncalls\n0 attach socket\n0 make 5 a\n0 find 5 a\n0 attach none\n0 count 5\n1 make 5 a\n1 find 5 a\n1 next 5\n2 make 5 a\n2 find 5 a\n2 count 6\n3 make 6 b\n3 drop 6 b\n3 count 6\n";

/// Two workers who look for a name that nobody makes.
pub(crate) const TWO_READERS: &[u8] =
    b"syncord-trace 1\nworker 0 0 0 0\nworker 0 0 0 0\npolicy none - -\ncalls\n0 find 0 a\n1 find 0 a\n";

/// By what a test runs a trace.
#[derive(Clone, Copy)]
pub(crate) enum Way {
    /// One directory where writes prevail, else a copy for each worker.
    ByCalls,
    /// A copy of the directory for each worker, whatever the calls are.
    Copies,
    /// A lock for each directory.
    Shards,
}

/// The trace that the text is.
pub(crate) fn trace_of(rt: &impl Abort, alloc: Global, text: &[u8]) -> Trace
    ensures within { IsWithin result }
    ensures fits { Fits (document_of result) }
{
    let Ok(trace) = read_trace(alloc, text) else {
        panic!(rt; "a trace")
    };
    trace
}

/// Runs the trace that the text is in this way, behind the gate, and keeps what its policies are told.
pub(crate) fn run_text<G: Gate + Sync, R: Abort + Threads + Wait + Sync>(
    rt: &R,
    alloc: Global,
    text: &[u8],
    way: Way,
    gate: &G,
) -> Outcome {
    let trace = trace_of(rt, alloc, text);
    let outcome = match way {
        Way::ByCalls => run_trace(rt, alloc, &trace, true, gate),
        Way::Copies => run_copies(rt, alloc, &trace, true, gate),
        Way::Shards => run_shards(rt, alloc, &trace, true, gate),
    };
    outcome.ok().expect(rt, "memory")
}

/// Nobody gave up.
pub(crate) fn nobody_gave_up(rt: &impl Abort, late: &Mark) {
    same(rt, &late.count(), &0);
}

/// The history is by these workers, in its order.
pub(crate) fn is_by(rt: &impl Abort, alloc: Global, outcome: &Outcome, due: &[u32]) {
    let mut workers = Vec::new(alloc);
    for entry in outcome.history.as_slice() {
        workers.push(entry.worker).ok().expect(rt, "memory");
    }
    same(rt, &workers.as_slice(), &due);
}

/// The queue was ordered by the policy that prefers the own socket, and so much was published.
fn is_grouped(rt: &impl Abort, alloc: Global, outcome: &Outcome, published: &[(u64, u32)]) {
    is_by(rt, alloc, outcome, &[0, 1, 3, 2, 4]);
    same(rt, &outcome.versions.rows(), &published);
}

/// The run of the trace that the text is: nobody gives up, and the queue is grouped.
pub(crate) fn groups<R: Abort + Threads + Wait + Sync>(
    rt: &R,
    alloc: Global,
    text: &[u8],
    way: Way,
    published: &[(u64, u32)],
) {
    let gate = QueueGate::new(5);
    let outcome = run_text(rt, alloc, text, way, &gate);
    nobody_gave_up(rt, &gate.late);
    is_grouped(rt, alloc, &outcome, published);
}

#[test]
fn grouped_order(rt: HostRuntime) {
    groups(&rt, rt.alloc(), GROUPED, Way::ByCalls, &[]);
}

#[test]
fn attached_order(rt: HostRuntime) {
    groups(&rt, rt.alloc(), ATTACHED, Way::ByCalls, &[(1, 1)]);
}

#[test]
fn grouped_order_on_copies(rt: HostRuntime) {
    groups(&rt, rt.alloc(), GROUPED, Way::Copies, &[]);
}

#[test]
fn attached_order_on_copies(rt: HostRuntime) {
    groups(&rt, rt.alloc(), ATTACHED, Way::Copies, &[(1, 1)]);
}

// The waiters queue while worker 0 makes its call, before it attaches the second policy.
#[test]
fn a_policy_is_attached_behind_the_call_before_it(rt: HostRuntime) {
    groups(&rt, rt.alloc(), REPLACED, Way::ByCalls, &[(1, 1), (2, 0)]);
}

/// Lets each of two workers hold the lock until the other one holds it too.
#[derive(Drop)]
pub(crate) struct ReadersGate {
    held: [Mark; 2],
    pub(crate) late: Mark,
}

/// A gate at which neither has been yet.
pub(crate) fn readers_gate() -> ReadersGate {
    ReadersGate {
        held: [Mark::new(), Mark::new()],
        late: Mark::new(),
    }
}

impl Gate for ReadersGate {
    fn at<Rt: Wait>(&self, _rt: &Rt, worker: u32, point: Point) {
        match (worker, point) {
            (0, Point::Holding) => {
                self.held[0].set();
                self.held[1].wait(1, &self.late);
            }
            (1, Point::Holding) => {
                self.held[1].set();
                self.held[0].wait(1, &self.late);
            }
            _ => {}
        }
    }
}

#[test]
fn readers_hold_at_once(rt: HostRuntime) {
    let gate = readers_gate();
    let outcome = run_text(&rt, rt.alloc(), TWO_READERS, Way::ByCalls, &gate);
    nobody_gave_up(&rt, &gate.late);
    same(&rt, &outcome.history.len(), &2);
    same(&rt, &outcome.dir.count(0), &DirReply::Number(0));
}

/// Whether most calls of the text are writes.
fn writes_prevail(rt: &impl Abort, alloc: Global, text: &[u8], due: bool) {
    let trace = trace_of(rt, alloc, text);
    same(rt, &do_writes_prevail(&trace), &due);
}

#[test]
fn writes_of_four_workers_prevail(rt: HostRuntime) {
    writes_prevail(&rt, rt.alloc(), FOUR_WORKERS, true);
    writes_prevail(&rt, rt.alloc(), TWO_READERS, false);
}

/// The run of the four workers' trace in this way has all their calls and what was published, and so many names are left.
pub(crate) fn runs_four<R: Abort + Threads + Wait + Sync>(rt: &R, alloc: Global, way: Way) {
    let outcome = run_text(rt, alloc, FOUR_WORKERS, way, &OpenGate);
    same(rt, &outcome.history.len(), &12);
    same(rt, &outcome.versions.rows(), &[(1, 1), (2, 0)].as_slice());
    same(rt, &outcome.dir.count(5), &DirReply::Number(1));
    same(rt, &outcome.dir.count(6), &DirReply::Number(0));
}

#[test]
fn four_workers_have_copies(rt: HostRuntime) {
    runs_four(&rt, rt.alloc(), Way::Copies);
}

#[test]
fn four_workers_share_a_directory(rt: HostRuntime) {
    runs_four(&rt, rt.alloc(), Way::ByCalls);
}
