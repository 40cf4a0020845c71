//! A directory of regular files: names with numbers, in 64 fixed directories.
#![tactic(auto)]

mod block;
mod block_list;
mod buffer;
mod calls;
mod dir;
mod object;
mod rows;
mod search;
mod view;

pub use calls::{DirCall, DirReply, DirRow};
pub use dir::Dir;
use std::alloc::{AllocError, AllocFailed};
use std::error::Error;
use std::fmt;
pub use view::Rows;

/// A call could not have the memory that it needs.
#[derive(Clone, Copy, Debug, PartialEq, Eq)]
pub struct NoMemory;

impl fmt::Display for NoMemory {
    fn fmt<W: fmt::Write>(&self, f: &mut fmt::Formatter<W>) -> fmt::Result {
        f.write_str("out of memory")
    }
}

impl Error for NoMemory {}

impl From<AllocError> for NoMemory {
    fn from(_: AllocError) -> Self {
        NoMemory
    }
}

impl<T: Drop> From<AllocFailed<T>> for NoMemory {
    fn from(_: AllocFailed<T>) -> Self {
        NoMemory
    }
}
