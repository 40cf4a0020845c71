//! A queue of calls, filled once, from which each call is taken by one taker. There is no lock in it.
#![tactic(auto)]

mod closing;
mod opening;
mod queue;
mod rule;

pub use queue::{CallQueue, Taker};
