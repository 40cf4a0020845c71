//! Why a policy isn't loaded.
use bpf_isa::IsaError;
use bpf_verifier::Refusal;
use std::error::Error;
use std::fmt;

/// One of a policy's two programs.
#[derive(Clone, Copy, Debug, PartialEq, Eq)]
pub enum Hook {
    /// Whether a waiter should join the group.
    Should,
    /// Whether to skip a round.
    Skip,
}

/// What is wrong with a program: it doesn't decode, or it is refused. Never want of memory.
#[derive(Clone, Copy, Debug, PartialEq, Eq)]
pub enum ProgramFault {
    Isa(IsaError),
    Refused(Refusal),
}

/// Why a policy isn't loaded: its first bad program and what is wrong with it, or want of memory.
#[derive(Clone, Copy, Debug, PartialEq, Eq)]
pub enum LoadError {
    Bad { hook: Hook, fault: ProgramFault },
    NoMemory,
}

impl fmt::Display for Hook {
    fn fmt<W: fmt::Write>(&self, f: &mut fmt::Formatter<W>) -> fmt::Result {
        match *self {
            Hook::Should => f.write_str("should"),
            Hook::Skip => f.write_str("skip"),
        }
    }
}

impl fmt::Display for ProgramFault {
    fn fmt<W: fmt::Write>(&self, f: &mut fmt::Formatter<W>) -> fmt::Result {
        match *self {
            ProgramFault::Isa(fault) => write!(f, "{fault}"),
            ProgramFault::Refused(refusal) => write!(f, "{refusal}"),
        }
    }
}

impl Error for ProgramFault {}

impl fmt::Display for LoadError {
    fn fmt<W: fmt::Write>(&self, f: &mut fmt::Formatter<W>) -> fmt::Result {
        match *self {
            LoadError::Bad { hook, fault } => write!(f, "in the program {hook}: {fault}"),
            LoadError::NoMemory => f.write_str("out of memory"),
        }
    }
}

impl Error for LoadError {}
