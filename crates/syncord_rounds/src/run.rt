//! From the bytes of a trace to its report with the rounds behind it, or to the first bad line.
ghost use Rattle.std.specs.Prelude.{IfOk, IfErr};
ghost use Rattle.syncord_endings.specs.Endings.{Due};
ghost use Rattle.syncord_replay.specs.Replays.{Refuses};
ghost use Rattle.syncord_replay.specs.Runnable.{IsRunnable};
ghost use Rattle.syncord_rounds.specs.Replayed.{IsToldOf, TellsReplay};

use crate::lock::{Lock, lock_for, run_on};
use crate::rounds::with_rounds;
use std::alloc::Global;
use std::sync::Wait;
use std::thread::Threads;
use syn_outer::Gate;
use syncord_endings::Refusal;
use trace_text::{NoMemory, Trace, TraceError, read_trace, render};

// Runs a trace on the lock that is wanted, and tells what came of it.
fn told_of<Rt: Threads + Wait + Sync, G: Gate + Sync>(
    rt: &Rt,
    gate: &G,
    alloc: Global,
    wanted: Option<Lock>,
    trace: &Trace,
) -> Result<Vec<u8>, NoMemory>
    requires trace { IsRunnable trace.now }
    ensures { IfOk result (λ text. IsToldOf wanted trace.now text.items) }
{
    let lock = lock_for(wanted, trace);
    let outcome = run_on(rt, gate, alloc, lock, trace)?;
    let history = outcome.history.as_slice();
    let attaches = outcome.versions.rows();
    let report = render(alloc, trace, history, &outcome.dir, attaches)?;
    let word = lock.word();
    let logs = outcome.rounds.as_slice();
    let text = with_rounds(report, trace, word, logs)?;
    Ok(text)
}

/// Runs the trace that the bytes are, whose memory is given back before the run, and tells its report and its rounds.
pub fn replayed_in_rounds<Rt: Threads + Wait + Sync, G: Gate + Sync>(
    rt: &Rt,
    gate: &G,
    alloc: Global,
    wanted: Option<Lock>,
    bytes: Vec<u8>,
) -> Result<Vec<u8>, Refusal>
    ensures report { IfOk result (λ text. TellsReplay wanted bytes.items text.items) }
    ensures refusal { IfErr result (Due (Refuses bytes.items)) }
{
    let trace = match read_trace(alloc, &bytes) {
        Ok(trace) => trace,
        Err(TraceError::Format { line, what }) => return Err(Refusal::Line { line, what }),
        Err(TraceError::NoMemory) => return Err(Refusal::NoMemory),
    };
    drop(bytes);
    match told_of(rt, gate, alloc, wanted, &trace) {
        Ok(text) => Ok(text),
        Err(NoMemory) => Err(Refusal::NoMemory),
    }
}
