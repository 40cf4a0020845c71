//! From the bytes of a trace to the report of a pool, or to the first bad line.
ghost use Rattle.std.specs.Prelude.{IfOk};
ghost use Rattle.syncord_pool.specs.Runs.{MayRun, TakesEach, LeavesRuns};
ghost use Rattle.syncord_pool.specs.Reports.{IsReportOf};

use crate::manner::PoolManner;
use crate::outcome::PoolRun;
use doc_text::Fault;
use pool_text::{first_fault, render_pool};
use std::alloc::Global;
use std::marker::PhantomData;
use syncord_endings::{Refusal, Work};
use trace_text::{NoMemory, Trace, TraceError, read_trace};

/// The report of what a run of the trace leaves.
fn report_of<M: PoolManner, F: Fn(Global, &Trace) -> Result<PoolRun, NoMemory>>(
    runner: &F,
    alloc: Global,
    trace: &Trace,
) -> Result<Vec<u8>, NoMemory>
    requires trace { MayRun trace.now }
    requires takes { TakesEach (F.pre runner.now) (λ t. t.now) }
    requires leaves { LeavesRuns M.ran (F.post runner.now) (λ t. t.now) }
    ensures { IfOk result (λ text. IsReportOf M.ran trace.now text.items) }
{
    let outcome = runner(alloc, trace)?;
    let text = render_pool(alloc, trace, outcome.history.as_slice(), &outcome.dir)?;
    Ok(text)
}

/// A pool of the calls of a trace, which `runner` runs in the manner `M`.
#[derive_where(Clone, Copy)]
pub struct Pooling<'a, M, F> {
    pub runner: &'a F,
    pub manner: PhantomData<M>,
}

impl<'a, M: PoolManner, F: Fn(Global, &Trace) -> Result<PoolRun, NoMemory>> Work
    for Pooling<'a, M, F> {
    ghost use Rattle.syncord_pool.specs.Runs.{TakesEach, LeavesRuns};
    ghost use Rattle.syncord_pool.specs.Reports.{Reports, Refuses};

    ghost reports = { λ _ bytes text. Reports M.ran bytes text };

    ghost refuses = { λ _ bytes refusal. Refuses bytes refusal };

    ghost ready = { λ work. TakesEach (F.pre work.runner.now) (λ t. t.now)
        × LeavesRuns M.ran (F.post work.runner.now) (λ t. t.now) };

    // The memory of the bytes is given back before the run.
    fn report(&self, alloc: Global, bytes: Vec<u8>) -> Result<Vec<u8>, Refusal> {
        let trace = match read_trace(alloc, &bytes) {
            Ok(trace) => trace,
            Err(TraceError::Format { line, what }) => return Err(Refusal::Line { line, what }),
            Err(TraceError::NoMemory) => return Err(Refusal::NoMemory),
        };
        drop(bytes);
        if let Some(Fault { line, what }) = first_fault(&trace) {
            return Err(Refusal::Line { line, what });
        }
        match report_of::<M, F>(self.runner, alloc, &trace) {
            Ok(text) => Ok(text),
            Err(NoMemory) => Err(Refusal::NoMemory),
        }
    }
}
