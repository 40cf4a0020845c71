//! A journal that threads take turns at: one has it out, adds an entry, and puts it back.
#![tactic(auto)]

mod closing;
mod commit;
mod journal;
mod opening;
mod passes;
mod table;
mod view;

pub use closing::Closing;
pub use commit::{Committed, Step};
pub use journal::Journal;
pub use passes::{JournalPass, KnownPrefix};
use std::alloc::{AllocError, AllocFailed};
use std::error::Error;
use std::fmt;
pub use table::JournalTable;
pub use view::{Own, View};

/// A call could not have the memory that it needs.
#[derive(Clone, Copy, Debug, PartialEq, Eq)]
pub struct NoMemory;

impl fmt::Display for NoMemory {
    fn fmt<W: fmt::Write>(&self, f: &mut fmt::Formatter<W>) -> fmt::Result {
        f.write_str("out of memory")
    }
}

impl Error for NoMemory {}

impl From<AllocError> for NoMemory {
    fn from(_: AllocError) -> Self {
        NoMemory
    }
}

impl<T: Drop> From<AllocFailed<T>> for NoMemory {
    fn from(_: AllocFailed<T>) -> Self {
        NoMemory
    }
}
