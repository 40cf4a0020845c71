//! Why bytes are no document.
ghost use Rattle.std.specs.Prelude.{◌≡◌};
ghost use Rattle.policy_text.specs.declared.document_error.DocumentError.TheVariants.{Format, NoMemory as Wants};

use crate::error::NoMemory;
use doc_text::Fault;
use std::alloc::{AllocError, AllocFailed};
use std::error::Error;
use std::fmt;

/// Why bytes are no document, or want of memory.
#[derive(Clone, Copy, Debug, PartialEq, Eq)]
pub enum DocumentError {
    /// The first bad line, counted from 1, and the lowest fault on it.
    Format { line: u32, what: u8 },
    NoMemory,
}

impl fmt::Display for DocumentError {
    fn fmt<W: fmt::Write>(&self, f: &mut fmt::Formatter<W>) -> fmt::Result {
        match self {
            DocumentError::Format { line, what } => write!(f, "line {line}: fault {what}"),
            DocumentError::NoMemory => f.write_str("out of memory"),
        }
    }
}

impl Error for DocumentError {}

impl From<AllocError> for DocumentError {
    ghost from_gives = { λ _ e. e ≡ Wants };

    fn from(_: AllocError) -> Self {
        DocumentError::NoMemory
    }
}

impl<T: Drop> From<AllocFailed<T>> for DocumentError {
    ghost from_gives = { λ _ e. e ≡ Wants };

    fn from(_: AllocFailed<T>) -> Self {
        DocumentError::NoMemory
    }
}

impl From<Fault> for DocumentError {
    ghost from_gives = { λ f e. e ≡ Format f.line f.what };

    fn from(fault: Fault) -> Self {
        DocumentError::Format {
            line: fault.line,
            what: fault.what,
        }
    }
}

impl From<NoMemory> for DocumentError {
    ghost from_gives = { λ _ e. e ≡ Wants };

    fn from(_: NoMemory) -> Self {
        DocumentError::NoMemory
    }
}
