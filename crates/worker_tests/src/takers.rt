//! Pools that are run by threads.
use crate::checks::same;
use crate::threads::{GROUPED, nobody_gave_up};
use pool_text::first_fault;
use shared_tests::QueueGate;
use std::alloc::Global;
use std::process::Abort;
use std::sync::Wait;
use std::test::Fail;
use std::thread::Threads;
use syncord_app::run_by_takers;
use syncord_pool::PoolRun;
use trace_text::read_trace;

/// Eight takers on two sockets, who make a call each.
const EIGHT: &[u8] =
    b"syncord-trace 1\nworker 0 0 0 0\nworker 0 0 0 0\nworker 0 0 0 0\nworker 1 0 0 0\nworker 1 0 0 0\nworker 0 0 0 0\nworker 1 0 0 0\nworker 0 0 0 0\n";

const EIGHT_CALLS: &[u8] =
    b"calls\n0 count 0\n1 count 0\n2 count 0\n3 count 0\n4 count 0\n5 count 0\n6 count 0\n7 count 0\n";

/// Prefers waiters of the own socket.
const OWN: &[u8] =
    b"policy own 61120000000000006111040000000000b7000000010000001d21010000000000b7000000000000009500000000000000 -\n";

/// Prefers waiters of the other socket.
const OTHER: &[u8] =
    b"policy other 61120000000000006111040000000000b7000000000000001d21010000000000b7000000010000009500000000000000 -\n";

// Runs the calls of the trace that the text is, behind the gate.
fn run_text<R: Abort + Threads + Wait + Sync>(
    rt: &R,
    alloc: Global,
    text: &[u8],
    gate: &QueueGate,
) -> Result<PoolRun, Fail> {
    let trace = read_trace(alloc, text)?;
    let None = first_fault(&trace) else {
        panic!(rt; "a trace that may not stand in a pool")
    };
    Ok(run_by_takers(rt, alloc, &trace, gate)?)
}

/// The workers of the history, in its order.
fn workers_of(rt: &impl Abort, alloc: Global, run: &PoolRun) -> Vec<u32> {
    let mut workers = Vec::new(alloc);
    for entry in run.history.as_slice() {
        workers.push(entry.worker).ok().expect(rt, "memory");
    }
    workers
}

// The takers queue by the first policy of the trace, which is asked about each taker's own attributes.
#[test]
fn grouped_order_in_a_pool(rt: HostRuntime) -> Result<(), Fail> {
    let gate = QueueGate::new(5);
    let run = run_text(&rt, rt.alloc(), GROUPED, &gate)?;
    nobody_gave_up(&rt, &gate.late);
    let workers = workers_of(&rt, rt.alloc(), &run);
    same(&rt, &workers.as_slice(), &[0, 1, 3, 2, 4].as_slice());
    Ok(())
}

/// The trace of the eight under this policy.
fn eight_under(rt: &impl Abort, alloc: Global, policy: &[u8]) -> Vec<u8> {
    let mut text = Vec::from_slice(alloc, EIGHT).ok().expect(rt, "memory");
    text.extend_from_slice(policy).ok().expect(rt, "memory");
    text.extend_from_slice(EIGHT_CALLS)
        .ok()
        .expect(rt, "memory");
    text
}

/// The takers, who queue by number, hold the lock in this order under the policy.
fn orders<R: Abort + Threads + Wait + Sync>(
    rt: &R,
    alloc: Global,
    policy: &[u8],
    due: &[u32],
) -> Result<(), Fail> {
    let gate = QueueGate::new(8);
    let text = eight_under(rt, alloc, policy);
    let run = run_text(rt, alloc, text.as_slice(), &gate)?;
    nobody_gave_up(rt, &gate.late);
    same(rt, &workers_of(rt, alloc, &run).as_slice(), &due);
    Ok(())
}

// Worker 1 orders the queue behind it, but for its last.
#[test]
fn two_policies_order_the_calls_of_a_trace_differently(rt: HostRuntime) -> Result<(), Fail> {
    orders(&rt, rt.alloc(), OWN, &[0, 1, 2, 5, 3, 4, 6, 7])?;
    orders(&rt, rt.alloc(), OTHER, &[0, 1, 3, 4, 6, 2, 5, 7])?;
    orders(
        &rt,
        rt.alloc(),
        b"policy none - -\n",
        &[0, 1, 2, 3, 4, 5, 6, 7],
    )
}
