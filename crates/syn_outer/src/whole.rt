//! Reading to the end of input, and writing all that there is.
ghost use Rattle.std.specs.Prelude.{◌≡◌, ◌≢◌, ◌<◌, ◌≤◌, ◌+◌, ℕ, length, take, vec_len, IfOk, IfErr, OnOk, IsErrOf};
ghost use Rattle.syn_outer.specs.Causes.{Rose, CallsAtMost};
ghost use Rattle.syn_outer.specs.Bytes.{Took, ReadsWhole, ConsumesMoreThan, ConsumesAtMost};
ghost use Rattle.syn_outer.specs.declared.whole.ReadError.TheVariants.{NoMemory};

use crate::streams::{Failed, Sink, Source};
use std::alloc::{AllocError, Global};

/// Why the input could not be read whole. What was read is dropped.
#[derive(Clone, Copy, Debug, PartialEq, Eq)]
pub enum ReadError {
    /// The source failed.
    ReadFault,
    /// There was more than the limit.
    TooLarge,
    NoMemory,
}

impl From<AllocError> for ReadError {
    ghost from_gives = { λ _ e. e ≡ NoMemory };

    fn from(_: AllocError) -> Self {
        ReadError::NoMemory
    }
}

/// A write failed after so many bytes were taken.
#[derive(Clone, Copy, Debug, PartialEq, Eq)]
pub struct WriteFault {
    pub written: usize,
}

/// Reads to the end of input, at most `limit` bytes.
pub fn read_all<R: Source>(alloc: Global, src: &mut R, limit: usize) -> Result<Vec<u8>, ReadError>
    ensures whole { IfOk result (λ v. ReadsWhole limit (R.left src.old) (R.left src.new) v.items) }

    // It is too large exactly where more than the limit was taken.
    ensures large { IsErrOf result ReadError.TooLarge
        → ConsumesMoreThan limit (R.left src.old) (R.left src.new) }
    ensures small { IfErr result (λ e. e ≢ ReadError.TooLarge
        → ConsumesAtMost limit (R.left src.old) (R.left src.new)) }

    ensures fault { IsErrOf result ReadError.ReadFault
        → Rose (R.faults src.old) (R.faults src.new) }
    // Where a read failed, that is the answer.
    ensures no_fault { OnOk result (R.faults src.new ≡ R.faults src.old) }
    ensures other { IfErr result (λ e. e ≢ ReadError.ReadFault
        → R.faults src.new ≡ R.faults src.old) }
    ensures later { R.faults src.old ≤ R.faults src.new }
    ensures calls { CallsAtMost (limit + 1) (R.calls src.old) (R.calls src.new) }
{
    let mut bytes = Vec::new(alloc);
    let mut buf = [0u8; 4096];
    loop {
        match src.read(&mut buf) {
            Err(Failed) => return Err(ReadError::ReadFault),
            Ok(0) => return Ok(bytes),
            Ok(count) => {
                if count > limit - bytes.len() {
                    return Err(ReadError::TooLarge);
                }
                bytes.extend_from_slice(&buf[..count])?;
            }
        }
    }
}

/// Writes all the bytes, offering all that is left at each call, or says how many were taken.
pub fn write_all<W: Sink>(out: &mut W, bytes: &[u8]) -> Result<(), WriteFault>
    ensures all { OnOk result (Took (W.held out.old) (W.held out.new) bytes.now) }
    ensures part { IfErr result (λ e.
        Took (W.held out.old) (W.held out.new) (take e.written bytes.now)) }
    ensures unfinished { IfErr result (λ e. e.written < length bytes.now) }
    ensures fault { IfErr result (λ _. Rose (W.faults out.old) (W.faults out.new)) }
    ensures later { W.faults out.old ≤ W.faults out.new }
{
    let mut written = 0;
    while written < bytes.len() {
        match out.write(&bytes[written..]) {
            Ok(count) => written += count,
            Err(Failed) => return Err(WriteFault { written }),
        }
    }
    Ok(())
}
