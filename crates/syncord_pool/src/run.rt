//! The command `pool` as a call.
ghost use Rattle.std.specs.Prelude.{◌+◌};
ghost use Rattle.syn_outer.specs.Causes.{CallsAtMost};
ghost use Rattle.syncord_endings.specs.Traffic.{through};
ghost use Rattle.syncord_endings.specs.Endings.{Answers, Decides, most_bytes};
ghost use Rattle.syncord_pool.specs.Runs.{TakesEach, LeavesRuns};
ghost use Rattle.syncord_pool.specs.Reports.{Reports, Refuses};

use crate::manner::PoolManner;
use crate::outcome::PoolRun;
use crate::report::Pooling;
use std::alloc::Global;
use std::marker::PhantomData;
use syn_outer::{Sink, Source};
use syncord_endings::perform;
use trace_text::{NoMemory, Trace};

/// Does all of the command `pool` that follows its words, and answers the status. The calls are run by `runner`: who takes which
/// call, and in which order they are made, is left open.
pub fn run_pool<
    M: PoolManner,
    F: Fn(Global, &Trace) -> Result<PoolRun, NoMemory>,
    R: Source,
    W: Sink,
    E: Sink,
>(runner: &F, alloc: Global, src: &mut R, out: &mut W, err: &mut E) -> u8
    requires takes { TakesEach (F.pre runner.now) (λ t. t.now) }
    requires leaves { LeavesRuns M.ran (F.post runner.now) (λ t. t.now) }
    ensures answer { Answers (Reports M.ran) Refuses
        (through R.left R.faults src.old src.new)
        (through W.held W.faults out.old out.new)
        (through E.held E.faults err.old err.new) result }
    ensures complete { Decides Refuses
        (through R.left R.faults src.old src.new)
        (through W.held W.faults out.old out.new) result }
    ensures reads { CallsAtMost (most_bytes + 1) (R.calls src.old) (R.calls src.new) }
{
    let work: Pooling<'_, M, F> = Pooling {
        runner,
        manner: PhantomData,
    };
    perform(&work, alloc, src, out, err)
}
