//! Calls of no fixed worker: they stand in a queue, and each is taken and made once, on one object behind the lock.
#![tactic(auto)]

mod chooser;
mod closing;
mod logged;
mod opening;
mod pool;
mod run;
mod taking;
mod threads;

pub use hist_log::{Numbered, NumberedCall};
pub use pool::{Pool, PoolOf, PoolPass, PoolPassOf};
pub use run::run_pool;
