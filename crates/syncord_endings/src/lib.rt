//! How a command of the program ends: reading, work, writing, the status, and the line on the error stream.
#![tactic(auto)]

mod ending;
mod streams;
mod telling;
mod work;

pub use ending::{Ending, Refusal};
pub use streams::{deliver, read_input};
pub use telling::{tell, tell_ending, tell_ending_as};
pub use work::{Work, perform, perform_as};
