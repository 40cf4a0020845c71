//! Locks for readers and writers: many values on one set of nodes, each behind a lock of its own; a guard lends the value, and unlocks at its end.
#![tactic(auto)]

mod attempts;
mod closing;
mod guard;
mod locks;
mod refusals;
mod seat;

pub use guard::{ReadGuard, RwHold, WriteGuard};
pub use locks::RwLocks;
pub use refusals::LockError;
pub use seat::RwSeat;
