//! Mutexes: many values on one set of nodes, each behind a lock of its own; a guard lends the value, and unlocks at its end.
#![tactic(auto)]

mod closing;
mod guard;
mod mutexes;
mod seat;

pub use guard::MutexGuard;
pub use mutexes::Mutexes;
pub use seat::{LockError, MutexSeat};
