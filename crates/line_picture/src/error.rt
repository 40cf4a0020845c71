//! Why bytes are no report.
ghost use Rattle.std.specs.Prelude.{◌≡◌};
ghost use Rattle.line_picture.specs.declared.error.ReportError.TheVariants.{Format, NoMemory as Wants};

use doc_text::Fault;
use std::alloc::{AllocError, AllocFailed};
use std::error::Error;
use std::fmt;

/// Why bytes are no report, or want of memory.
#[derive(Clone, Copy, Debug, PartialEq, Eq)]
pub enum ReportError {
    /// The first bad line, counted from 1, and the lowest fault on it. 1: a line without its end, or a byte that is
    /// not printable; 2: the first line; 3: an event's line; 4: the counts at the end, or none; 5: a line behind them.
    Format { line: u32, what: u8 },
    NoMemory,
}

impl fmt::Display for ReportError {
    fn fmt<W: fmt::Write>(&self, f: &mut fmt::Formatter<W>) -> fmt::Result {
        match self {
            ReportError::Format { line, what } => write!(f, "line {line}: fault {what}"),
            ReportError::NoMemory => f.write_str("out of memory"),
        }
    }
}

impl Error for ReportError {}

impl From<AllocError> for ReportError {
    ghost from_gives = { λ _ e. e ≡ Wants };

    fn from(_: AllocError) -> Self {
        ReportError::NoMemory
    }
}

impl<T: Drop> From<AllocFailed<T>> for ReportError {
    ghost from_gives = { λ _ e. e ≡ Wants };

    fn from(_: AllocFailed<T>) -> Self {
        ReportError::NoMemory
    }
}

impl From<Fault> for ReportError {
    ghost from_gives = { λ f e. e ≡ Format f.line f.what };

    fn from(fault: Fault) -> Self {
        ReportError::Format {
            line: fault.line,
            what: fault.what,
        }
    }
}
