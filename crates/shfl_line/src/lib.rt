//! The lock as its users see it: who holds it, who waits in which order, and how one step changes that.
#![tactic(auto)]

mod choosers;
mod events;
mod laws;
mod line_state;
mod words;

pub use choosers::{Always, Answer, BySocket, Chooser, Never, Told};
pub use events::{Form, LineEvent, Mode, Role};
pub use laws::laws_of_line_steps;
pub use line_state::LineState;
use std::alloc::AllocError;
use std::error::Error;
use std::fmt;
pub use words::{
    Attr, BATCH, CLOSED, HELD, LockWord, NodeState, PARKED, READER, READY, SHUFFLER, SPIN,
};

/// A call could not have the memory that it needs.
#[derive(Clone, Copy, Debug, PartialEq, Eq)]
pub struct NoMemory;

impl fmt::Display for NoMemory {
    fn fmt<W: fmt::Write>(&self, f: &mut fmt::Formatter<W>) -> fmt::Result {
        f.write_str("there is not enough memory")
    }
}

impl Error for NoMemory {}

impl From<AllocError> for NoMemory {
    fn from(_: AllocError) -> NoMemory {
        NoMemory
    }
}
