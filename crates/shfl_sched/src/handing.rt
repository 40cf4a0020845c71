//! A report that goes to a sink in pieces.
ghost use Rattle.std.specs.Prelude.{◌≡◌, ◌+◌, ◌<◌, ◌≤◌, ◌^◌, [], length, IfErr, OnOk, vec_capacity};
ghost use Rattle.shfl_sched.specs.declared.handing.RunError.TheVariants.{NoMemory as Wants};
ghost use Rattle.shfl_sched.specs.Handing.{HandsOn, StopsAfter};
ghost use Rattle.syn_outer.specs.Bytes.{Took};

use shfl_line::NoMemory;
use std::alloc::AllocError;
use syn_outer::{Sink, write_all};

/// Why a report isn't written whole.
#[derive(Clone, Copy, Debug, PartialEq, Eq)]
pub enum RunError {
    /// Memory ran out before the first byte.
    NoMemory,
    /// The sink failed after so many bytes.
    Write { written: usize },
}

impl From<AllocError> for RunError {
    ghost from_gives = { λ _ e. e ≡ Wants };

    fn from(_: AllocError) -> Self {
        RunError::NoMemory
    }
}

impl From<NoMemory> for RunError {
    ghost from_gives = { λ _ e. e ≡ Wants };

    fn from(_: NoMemory) -> Self {
        RunError::NoMemory
    }
}

// A text that is so long is handed on.
const PIECE: usize = 32_768;

/// Hands a text on behind the bytes that were sent, and leaves its room.
pub fn hand_on<W: Sink>(text: &mut Vec<u8>, sent: &mut usize, out: &mut W) -> Result<(), RunError>
    requires { sent.old + length text.old.items < 2 ^ 64 }
    ensures all { OnOk result (Took (W.held out.old) (W.held out.new) text.old.items) }
    ensures stopped { IfErr result (λ e. StopsAfter sent.old e (W.held out.old) (W.held out.new)
        (W.faults out.old) (W.faults out.new) text.old.items) }
    ensures later { W.faults out.old ≤ W.faults out.new }
    ensures sent { OnOk result (sent.new ≡ sent.old + length text.old.items) }
    ensures empty { OnOk result (text.new.items ≡ []) }
    ensures room { vec_capacity text.new ≡ vec_capacity text.old }
{
    match write_all(out, text) {
        Ok(()) => {
            *sent += text.len();
            text.clear();
            Ok(())
        }
        Err(fault) => Err(RunError::Write {
            written: *sent + fault.written,
        }),
    }
}

/// Hands the text on where it is long, and leaves room behind it.
pub fn make_room<W: Sink>(text: &mut Vec<u8>, sent: &mut usize, out: &mut W) -> Result<(), RunError>
    requires { sent.old + length text.old.items < 2 ^ 64 }
    ensures moved { OnOk result (HandsOn (W.held out.old) (W.held out.new) sent.old sent.new
        text.old.items text.new.items) }
    ensures short { OnOk result (length text.new.items < 32768) }
    ensures stopped { IfErr result (λ e. StopsAfter sent.old e (W.held out.old) (W.held out.new)
        (W.faults out.old) (W.faults out.new) text.old.items) }
    ensures later { W.faults out.old ≤ W.faults out.new }
    ensures room { vec_capacity text.new ≡ vec_capacity text.old }
{
    if text.len() < PIECE {
        return Ok(());
    }
    hand_on(text, sent, out)
}
