//! A run of the policy simulator as a schedule: the first events of the run of a policy, which `line` reads; and that its lock is lawful.
#![tactic(auto)]

mod events;
mod laws;
mod named;
mod schedule;

pub use events::{Event, first_events};
pub use laws::runs_are_lawful;
pub use named::candidate_named;
pub use schedule::schedule_of;
