//! Why a text is no program.
ghost use Rattle.bpf_asm.specs.declared.error.AsmError.TheVariants as errors;
ghost use Rattle.std.specs.Prelude.{◌≡◌};

use std::alloc::{AllocError, AllocFailed};
use std::error::Error;
use std::fmt;

/// Why a text is no program.
#[derive(Clone, Copy, Debug, PartialEq, Eq)]
pub enum AsmError {
    /// The first bad line, counted from 1, and the lowest of its faults: 1 unfinished or with a byte that no line has, 2 of no
    /// form, 3 a register above 9, 4 a number out of its range, 5 a name declared before, 6 a name that is not declared or too
    /// far away, 7 an offset into a second half, 8 past the 512th slot, 9 no instruction at all.
    Format { line: u32, what: u8 },
    NoMemory,
}

impl fmt::Display for AsmError {
    fn fmt<W: fmt::Write>(&self, f: &mut fmt::Formatter<W>) -> fmt::Result {
        match self {
            AsmError::Format { line, what } => write!(f, "fault {what} on line {line}"),
            AsmError::NoMemory => f.write_str("out of memory"),
        }
    }
}

impl Error for AsmError {}

impl From<AllocError> for AsmError {
    ghost from_gives = { λ _ e. e ≡ errors.NoMemory };

    fn from(_: AllocError) -> Self {
        AsmError::NoMemory
    }
}

impl<T: Drop> From<AllocFailed<T>> for AsmError {
    ghost from_gives = { λ _ e. e ≡ errors.NoMemory };

    fn from(_: AllocFailed<T>) -> Self {
        AsmError::NoMemory
    }
}
