//! The trace that a seed makes, run and summed up.
ghost use Rattle.std.specs.Prelude.{◌≡◌, ◌<◌, ◌≤◌, ◌⊎◌, IfOk};
ghost use Rattle.syncord_endings.specs.Traffic.{through, Failed};
ghost use Rattle.syncord_replay.specs.Runnable.{TakesEach, LeavesRuns};
ghost use Rattle.syncord_replay.specs.Sums.{Summarizes, Concludes};

use crate::manner::Manner;
use crate::outcome::Run;
use std::alloc::Global;
use syn_outer::Sink;
use syncord_endings::{Refusal, deliver, tell_ending};
use trace_text::{NoMemory, Trace, generate, summary};

/// The summary of what a run of the trace that the seed makes leaves.
fn summary_of<M: Manner, F: Fn(Global, &Trace) -> Result<Run, NoMemory>>(
    runner: &F,
    alloc: Global,
    seed: u64,
    workers: u32,
    calls: u32,
) -> Result<Vec<u8>, NoMemory>
    requires takes { TakesEach (F.pre runner.now) (λ t. t.now) }
    requires leaves { LeavesRuns M.ran (F.post runner.now) (λ t. t.now) }
    requires some { 0 < workers }
    requires few_workers { workers ≤ 16 }
    requires few_calls { calls ≤ 65000 }
    ensures { IfOk result (λ text. Summarizes M.ran seed workers calls text.items) }
{
    let trace = generate(alloc, seed, workers, calls)?;
    let outcome = runner(alloc, &trace)?;
    let text = summary(
        alloc,
        seed,
        &trace,
        outcome.history.as_slice(),
        &outcome.dir,
    )?;
    Ok(text)
}

/// Does all of the command `bulk` that follows its words, and answers the status: 0, 4 or 5. It reads nothing. The trace is run by
/// `runner`.
pub fn run_bulk<M: Manner, F: Fn(Global, &Trace) -> Result<Run, NoMemory>, W: Sink, E: Sink>(
    runner: &F,
    alloc: Global,
    seed: u64,
    workers: u32,
    calls: u32,
    out: &mut W,
    err: &mut E,
) -> u8
    requires takes { TakesEach (F.pre runner.now) (λ t. t.now) }
    requires leaves { LeavesRuns M.ran (F.post runner.now) (λ t. t.now) }
    requires some { 0 < workers }
    requires few_workers { workers ≤ 16 }
    requires few_calls { calls ≤ 65000 }
    ensures answer { Concludes (Summarizes M.ran seed workers calls)
        (through W.held W.faults out.old out.new)
        (through E.held E.faults err.old err.new) result }
    ensures complete { ¬ (Failed (through W.held W.faults out.old out.new))
        → (result ≡ 0) ⊎ (result ≡ 5) }
{
    match summary_of::<M, F>(runner, alloc, seed, workers, calls) {
        Ok(text) => {
            let ending = deliver(out, &text);
            tell_ending(err, ending);
            ending.status()
        }
        // of want of memory nothing is told
        Err(NoMemory) => Refusal::NoMemory.status(),
    }
}
