//! Traces run by threads.
ghost use Rattle.std.specs.Prelude.{◌≡◌, IfOk};
ghost use Rattle.shfl_workers.specs.LockRuns.{RanByThreads, RanByShards};
ghost use Rattle.syncord_replay.specs.Runnable.{IsRunnable, IsRunOf};

use shfl_workers::{Outcome, run_shards, run_trace};
use std::alloc::Global;
use std::sync::Wait;
use std::thread::Threads;
use syn_outer::Gate;
use syncord_replay::Run;
use trace_text::{NoMemory, Trace};

// Whether what policies are told is kept.
const KEEPS: bool = false;

// What a run leaves, as a report takes it. Its logs keep nothing.
fn run_of(outcome: Outcome) -> Run
    ensures { (result.history ≡ outcome.history) × (result.dir ≡ outcome.dir)
        × (result.versions ≡ outcome.versions) }
{
    let Outcome {
        history,
        dir,
        versions,
        rounds: _,
    } = outcome;
    Run {
        history,
        dir,
        versions,
    }
}

/// Runs a trace by a thread for each of its workers, which call one directory behind the lock, or each its copy where writes don't prevail.
pub fn run_by_threads<Rt: Threads + Wait + Sync, G: Gate + Sync>(
    rt: &Rt,
    alloc: Global,
    trace: &Trace,
    gate: &G,
) -> Result<Run, NoMemory>
    requires { IsRunnable trace.now }
    ensures { IfOk result (IsRunOf RanByThreads trace.now) }
{
    Ok(run_of(run_trace(rt, alloc, trace, KEEPS, gate)?))
}

/// Runs a trace by a thread for each of its workers, with a lock for each directory, whose calls take turns at one journal.
pub fn run_by_shards<Rt: Threads + Wait + Sync, G: Gate + Sync>(
    rt: &Rt,
    alloc: Global,
    trace: &Trace,
    gate: &G,
) -> Result<Run, NoMemory>
    requires { IsRunnable trace.now }
    ensures { IfOk result (IsRunOf RanByShards trace.now) }
{
    Ok(run_of(run_shards(rt, alloc, trace, KEEPS, gate)?))
}
