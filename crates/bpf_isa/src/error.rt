//! Why bytes are no list of instructions.
ghost use Rattle.bpf_isa.specs.declared.error.IsaError.TheVariants as errors;
ghost use Rattle.std.specs.Prelude.{◌≡◌};

use std::alloc::{AllocError, AllocFailed};
use std::error::Error;
use std::fmt;

/// Why bytes are no list of instructions, in the order in which the faults are sought: the lengths, then the first faulty
/// slot, and of its faults the first.
#[derive(Clone, Copy, Debug, PartialEq, Eq)]
pub enum IsaError {
    /// There are no bytes.
    Empty,
    /// The length is no multiple of eight.
    OddLength,
    /// There are more than 512 slots.
    TooLong,
    /// The slot has an opcode that the profile lacks.
    BadOpcode { slot: u32 },
    /// The slot uses a register above 9.
    BadRegister { slot: u32 },
    /// The slot has a field that must be 0 and isn't, or a number of bits that the profile lacks.
    Reserved { slot: u32 },
    /// The slot has a wide load without its second half, or jumps into one.
    HalfWide { slot: u32 },
    NoMemory,
}

/// Memory ran out.
#[derive(Clone, Copy, Debug, PartialEq, Eq)]
pub struct NoMemory;

impl fmt::Display for IsaError {
    fn fmt<W: fmt::Write>(&self, f: &mut fmt::Formatter<W>) -> fmt::Result {
        match self {
            IsaError::Empty => f.write_str("no instructions"),
            IsaError::OddLength => f.write_str("an unfinished slot"),
            IsaError::TooLong => f.write_str("more than 512 slots"),
            IsaError::BadOpcode { slot } => write!(f, "unknown opcode at slot {slot}"),
            IsaError::BadRegister { slot } => write!(f, "register above 9 at slot {slot}"),
            IsaError::Reserved { slot } => write!(f, "reserved field at slot {slot}"),
            IsaError::HalfWide { slot } => write!(f, "half a wide load at slot {slot}"),
            IsaError::NoMemory => f.write_str("out of memory"),
        }
    }
}

impl Error for IsaError {}

impl From<AllocError> for IsaError {
    ghost from_gives = { λ _ e. e ≡ errors.NoMemory };

    fn from(_: AllocError) -> Self {
        IsaError::NoMemory
    }
}

impl<T: Drop> From<AllocFailed<T>> for IsaError {
    ghost from_gives = { λ _ e. e ≡ errors.NoMemory };

    fn from(_: AllocFailed<T>) -> Self {
        IsaError::NoMemory
    }
}

impl fmt::Display for NoMemory {
    fn fmt<W: fmt::Write>(&self, f: &mut fmt::Formatter<W>) -> fmt::Result {
        f.write_str("out of memory")
    }
}

impl Error for NoMemory {}

impl From<AllocError> for NoMemory {
    fn from(_: AllocError) -> Self {
        NoMemory
    }
}

impl<T: Drop> From<AllocFailed<T>> for NoMemory {
    fn from(_: AllocFailed<T>) -> Self {
        NoMemory
    }
}
