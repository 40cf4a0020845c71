//! Where waiters sleep, and what they do between two looks. Hints alone: no proof of a lock rests on them, and a wrong one costs time, since each
//! sleep but `Sleeper::sleep` has an end.
#![tactic(auto)]

mod backing_off;
mod front;
mod fronts;
mod outside;
mod passing;
mod pauses;
mod sleeper;
mod sleepers;
mod tries;
mod trying;
mod waiter;

pub use backing_off::spins_after;
pub use front::QueueFront;
pub use fronts::QueueFronts;
pub use pauses::{Pause, Pauses, Stand};
pub use sleeper::Sleeper;
pub use sleepers::Sleepers;
pub use tries::Attempted;
pub use waiter::Waiter;
