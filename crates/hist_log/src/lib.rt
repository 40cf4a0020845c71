//! Objects whose replies and states are functions of the state and the call, and their histories.
#![tactic(auto)]

mod entry;
mod legality;
mod merging;
mod numbered;
mod object;
mod trail;

pub use entry::{Entry, Receipt};
pub use legality::legal;
pub use merging::merge;
pub use numbered::{Numbered, NumberedCall};
pub use object::Object;
use std::alloc::{AllocError, AllocFailed};
use std::error::Error;
use std::fmt;
pub use trail::{Mark, Trail};

/// A call could not have the memory that it needs.
#[derive(Clone, Copy, Debug, PartialEq, Eq)]
pub struct NoMemory;

impl fmt::Display for NoMemory {
    fn fmt<W: fmt::Write>(&self, f: &mut fmt::Formatter<W>) -> fmt::Result {
        f.write_str("out of memory")
    }
}

impl Error for NoMemory {}

impl From<AllocError> for NoMemory {
    fn from(_: AllocError) -> Self {
        NoMemory
    }
}

impl<T: Drop> From<AllocFailed<T>> for NoMemory {
    fn from(_: AllocFailed<T>) -> Self {
        NoMemory
    }
}
