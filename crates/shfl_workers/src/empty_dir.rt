//! The directory of a trace before its first call.
ghost use Rattle.std.specs.Prelude.{◌≡◌, IfOk};
ghost use Rattle.trace_text.specs.Traces.{IsWithin};
ghost use Rattle.shfl_workers.specs.Opened.{directory_for};

use dir_table::Dir;
use std::alloc::Global;
use trace_text::{NoMemory, Trace};

/// The longest batch of a round.
pub(crate) const BATCH: u16 = 1024;

/// An empty directory with room for the names of the trace and calls left for its lines.
pub(crate) fn open_directory(alloc: Global, trace: &Trace) -> Result<Dir, NoMemory>
    requires { IsWithin trace.now }
    ensures { IfOk result (λ d. d ≡ directory_for trace.now) }
{
    let Ok(dir) = Dir::open(alloc, trace.names.len() as u32, trace.calls.len() as u32) else {
        return Err(NoMemory);
    };
    Ok(dir)
}
