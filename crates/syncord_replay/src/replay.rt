//! From the bytes of a trace to the report of a replay, or to the first bad line.
ghost use Rattle.std.specs.Prelude.{IfOk};
ghost use Rattle.syncord_replay.specs.Runnable.{IsRunnable, TakesEach, LeavesRuns};
ghost use Rattle.syncord_replay.specs.Replays.{IsReportOf};

use crate::manner::Manner;
use crate::outcome::Run;
use std::alloc::Global;
use std::marker::PhantomData;
use syncord_endings::{Refusal, Work};
use trace_text::{NoMemory, Trace, TraceError, read_trace, render};

/// The report of what a run of the trace leaves.
fn report_of<M: Manner, F: Fn(Global, &Trace) -> Result<Run, NoMemory>>(
    runner: &F,
    alloc: Global,
    trace: &Trace,
) -> Result<Vec<u8>, NoMemory>
    requires trace { IsRunnable trace.now }
    requires takes { TakesEach (F.pre runner.now) (λ t. t.now) }
    requires leaves { LeavesRuns M.ran (F.post runner.now) (λ t. t.now) }
    ensures { IfOk result (λ text. IsReportOf M.ran trace.now text.items) }
{
    let outcome = runner(alloc, trace)?;
    let attaches = outcome.versions.rows();
    let text = render(
        alloc,
        trace,
        outcome.history.as_slice(),
        &outcome.dir,
        attaches,
    )?;
    Ok(text)
}

/// The replay of a trace, which `runner` runs in the manner `M`.
#[derive_where(Clone, Copy)]
pub struct Replaying<'a, M, F> {
    pub runner: &'a F,
    pub manner: PhantomData<M>,
}

impl<'a, M: Manner, F: Fn(Global, &Trace) -> Result<Run, NoMemory>> Work for Replaying<'a, M, F> {
    ghost use Rattle.syncord_replay.specs.Runnable.{TakesEach, LeavesRuns};
    ghost use Rattle.syncord_replay.specs.Replays.{Reports, Refuses};

    ghost reports = { λ _ bytes text. Reports M.ran bytes text };

    ghost refuses = { λ _ bytes refusal. Refuses bytes refusal };

    ghost ready = { λ work. TakesEach (F.pre work.runner.now) (λ t. t.now)
        × LeavesRuns M.ran (F.post work.runner.now) (λ t. t.now) };

    // The memory of the bytes is given back before the run.
    fn report(&self, alloc: Global, bytes: Vec<u8>) -> Result<Vec<u8>, Refusal> {
        let trace = match read_trace(alloc, &bytes) {
            Ok(trace) => trace,
            Err(TraceError::Format { line, what }) => return Err(Refusal::Line { line, what }),
            Err(TraceError::NoMemory) => return Err(Refusal::NoMemory),
        };
        drop(bytes);
        match report_of::<M, F>(self.runner, alloc, &trace) {
            Ok(text) => Ok(text),
            Err(NoMemory) => Err(Refusal::NoMemory),
        }
    }
}
