//! A lock on words that threads could share, with one seat that knows all of it: the board on which schedules run.
#![tactic(auto)]

mod board;
mod last_read;
mod operation;
mod rule;
mod solo;

pub use solo::Solo;
