//! Setups of the policy simulator: their documents, read line by line, and how each policy answers.
#![tactic(auto)]

mod answering;
mod costs;
mod faults;
mod front;
mod laws;
mod lines;
mod passes;
mod policies;
mod queueing;
mod read;
mod setup;
mod words;
mod work;

pub use laws::setups_are_read_once;
pub use policy_text::DocumentError as SetupError;
pub use queueing::{FEW_ATTEMPTS, tries_of};
pub use read::read_setup;
pub use setup::{Candidate, Load, Machine, Queueing, Rule, Seeds, SimSetup};
