//! A log of what the policies of a lock's user were told, round by round, and how documents spell it.
#![tactic(auto)]

mod log;

pub use log::{Note, RoundLog};
