//! What a command does with its input and its output, whatever is between.
ghost use Rattle.std.specs.Prelude.{◌+◌, IfOk, IfErr, OnOk};
ghost use Rattle.syn_outer.specs.Causes.{CallsAtMost};
ghost use Rattle.syncord_endings.specs.Traffic.{Sound, through};
ghost use Rattle.syncord_endings.specs.Endings.{Reads, EndsUnread, Delivers, most_bytes};

use crate::ending::{Ending, Refusal};
use std::alloc::Global;
use syn_outer::{ReadError, Sink, Source, read_all, write_all};

// The largest input, in bytes.
const MOST_BYTES: usize = 16_777_216;

/// All the input of a command, or how the command ends without it.
pub fn read_input<R: Source>(alloc: Global, src: &mut R) -> Result<Vec<u8>, Ending>
    ensures whole { IfOk result (λ bytes.
        Reads (through R.left R.faults src.old src.new) bytes.items) }
    ensures sound { OnOk result (Sound (through R.left R.faults src.old src.new)) }
    ensures unread { IfErr result (EndsUnread (through R.left R.faults src.old src.new)) }
    // It reads at most once a byte and once for the end, which a source that counts its calls tells.
    ensures reads { CallsAtMost (most_bytes + 1) (R.calls src.old) (R.calls src.new) }
{
    match read_all(alloc, src, MOST_BYTES) {
        Ok(bytes) => Ok(bytes),
        Err(ReadError::ReadFault) => Err(Ending::ReadFault),
        Err(ReadError::TooLarge) => Err(Ending::TooLarge),
        Err(ReadError::NoMemory) => Err(Ending::NoReport(Refusal::NoMemory)),
    }
}

/// Writes a report whole, and says how its command ends.
pub fn deliver<W: Sink>(out: &mut W, text: &[u8]) -> Ending
    ensures { Delivers text.now (through W.held W.faults out.old out.new) result }
{
    match write_all(out, text) {
        Ok(()) => Ending::Done,
        Err(fault) => Ending::WriteFault(fault.written),
    }
}
