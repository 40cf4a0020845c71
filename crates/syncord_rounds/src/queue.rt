//! From the bytes of a trace whose calls stand in one queue to its report with the rounds behind it, or to the first bad line.
ghost use Rattle.std.specs.Prelude.{IfOk, IfErr};
ghost use Rattle.syncord_endings.specs.Endings.{Due};
ghost use Rattle.syncord_pool.specs.Reports.{Refuses};
ghost use Rattle.syncord_pool.specs.Runs.{MayRun, IsPooled};
ghost use Rattle.syncord_rounds.specs.Queued.{HaveFirstRounds, IsToldOf, RanFromQueue, TellsPool};

use crate::rounds::with_rounds;
use call_pool::run_pool;
use dir_table::Dir;
use doc_text::Fault;
use hist_log::{Entry, Numbered};
use pool_text::{dir_calls, first_fault, render_pool};
use round_log::RoundLog;
use shfl_workers::load_one;
use std::alloc::Global;
use std::sync::Wait;
use std::thread::Threads;
use syn_outer::Gate;
use syncord_endings::Refusal;
use trace_text::{NoMemory, Trace, TraceError, read_trace};

/// What a run leaves.
#[derive(Drop)]
struct PoolOutcome {
    /// Each call of the trace with its place and its reply, in an order in which one directory can have answered them.
    history: Vec<Entry<Numbered<Dir>>>,
    /// The directory that they leave.
    dir: Dir,
    /// What the policy was told in each worker's rounds, by workers.
    rounds: Vec<RoundLog>,
}

// Runs the calls of a trace by a thread for each of its workers, who all take them from one queue, and keeps what the first policy is told.
fn run_queue<Rt: Threads + Wait + Sync, G: Gate + Sync>(
    rt: &Rt,
    gate: &G,
    alloc: Global,
    trace: &Trace,
) -> Result<PoolOutcome, NoMemory>
    requires { MayRun trace.now }
    ensures history { IfOk result (λ o. IsPooled trace.now o.history.items o.dir) }
    ensures ran { IfOk result (λ o. RanFromQueue trace.now o.history.items o.rounds.items) }
    ensures rounds { IfOk result (λ o. HaveFirstRounds trace.now o.rounds.items) }
{
    let calls = dir_calls(alloc, trace)?;
    let policy = load_one(alloc, 0, trace.profile, &trace.policies[0])?;
    let attrs = trace.workers.as_slice();
    // each taker may have to make all the calls
    let spare = (attrs.len() * calls.len()) as u32;
    let Ok(dir) = Dir::open(alloc, trace.names.len() as u32, spare) else {
        return Err(NoMemory);
    };
    match run_pool(rt, alloc, dir, &policy, attrs, calls.as_slice(), true, gate) {
        Ok((dir, history, rounds)) => Ok(PoolOutcome {
            history,
            dir,
            rounds,
        }),
        Err(_) => Err(NoMemory),
    }
}

// Runs the calls of a trace, and tells what came of it.
fn told_of<Rt: Threads + Wait + Sync, G: Gate + Sync>(
    rt: &Rt,
    gate: &G,
    alloc: Global,
    trace: &Trace,
) -> Result<Vec<u8>, NoMemory>
    requires trace { MayRun trace.now }
    ensures { IfOk result (λ text. IsToldOf trace.now text.items) }
{
    let outcome = run_queue(rt, gate, alloc, trace)?;
    let history = outcome.history.as_slice();
    let report = render_pool(alloc, trace, history, &outcome.dir)?;
    let logs = outcome.rounds.as_slice();
    let text = with_rounds(report, trace, b"queue", logs)?;
    Ok(text)
}

/// Runs the calls of the trace that the bytes are, whose memory is given back before the run, and tells its report and its rounds.
pub fn pooled_in_rounds<Rt: Threads + Wait + Sync, G: Gate + Sync>(
    rt: &Rt,
    gate: &G,
    alloc: Global,
    bytes: Vec<u8>,
) -> Result<Vec<u8>, Refusal>
    ensures report { IfOk result (λ text. TellsPool bytes.items text.items) }
    ensures refusal { IfErr result (Due (Refuses bytes.items)) }
{
    let trace = match read_trace(alloc, &bytes) {
        Ok(trace) => trace,
        Err(TraceError::Format { line, what }) => return Err(Refusal::Line { line, what }),
        Err(TraceError::NoMemory) => return Err(Refusal::NoMemory),
    };
    drop(bytes);
    if let Some(Fault { line, what }) = first_fault(&trace) {
        return Err(Refusal::Line { line, what });
    }
    match told_of(rt, gate, alloc, &trace) {
        Ok(text) => Ok(text),
        Err(NoMemory) => Err(Refusal::NoMemory),
    }
}
