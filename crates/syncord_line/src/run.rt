//! The command as a call.
ghost use Rattle.std.specs.Prelude.{◌+◌};
ghost use Rattle.syn_outer.specs.Causes.{CallsAtMost};
ghost use Rattle.syncord_endings.specs.Traffic.{through};
ghost use Rattle.syncord_endings.specs.Endings.{Ends, Answers, Decides, most_bytes};
ghost use Rattle.syncord_line.specs.Reports.{Reports, Refuses};

use crate::line::schedule_of;
use crate::locks::write_report;
use shfl_sched::RunError;
use std::alloc::Global;
use syn_outer::{Sink, Source};
use syncord_endings::{Ending, Refusal, read_input, tell_ending};

/// Reads the schedule, runs it, and writes its report in pieces.
fn ending<R: Source, W: Sink>(alloc: Global, src: &mut R, out: &mut W) -> Ending
    ensures ends { Ends Reports Refuses
        (through R.left R.faults src.old src.new)
        (through W.held W.faults out.old out.new) result }
    ensures reads { CallsAtMost (most_bytes + 1) (R.calls src.old) (R.calls src.new) }
{
    let bytes = match read_input(alloc, src) {
        Ok(bytes) => bytes,
        Err(ending) => return ending,
    };
    let schedule = match schedule_of(alloc, &bytes) {
        Ok(schedule) => schedule,
        Err(refusal) => return Ending::NoReport(refusal),
    };
    match write_report(alloc, &schedule, out) {
        Ok(()) => Ending::Done,
        Err(RunError::NoMemory) => Ending::NoReport(Refusal::NoMemory),
        Err(RunError::Write { written }) => Ending::WriteFault(written),
    }
}

/// Does all of the command `line` that follows its words, and answers the status.
pub fn run_line<R: Source, W: Sink, E: Sink>(
    alloc: Global,
    src: &mut R,
    out: &mut W,
    err: &mut E,
) -> u8
    ensures answer { Answers Reports Refuses
        (through R.left R.faults src.old src.new)
        (through W.held W.faults out.old out.new)
        (through E.held E.faults err.old err.new) result }
    ensures complete { Decides Refuses
        (through R.left R.faults src.old src.new)
        (through W.held W.faults out.old out.new) result }
    ensures reads { CallsAtMost (most_bytes + 1) (R.calls src.old) (R.calls src.new) }
{
    let ending = ending(alloc, src, out);
    tell_ending(err, ending);
    ending.status()
}
