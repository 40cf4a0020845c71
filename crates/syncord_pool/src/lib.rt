//! The command `pool`: the calls of a trace stand in one queue, and what came of it.
#![tactic(auto)]

mod manner;
mod outcome;
mod report;
mod run;

pub use manner::PoolManner;
pub use outcome::PoolRun;
pub use run::run_pool;
