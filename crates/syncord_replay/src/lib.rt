//! The commands `replay` and `bulk`: a run of a trace, and what came of it.
#![tactic(auto)]

mod bulk;
mod manner;
mod outcome;
mod replay;
mod run;

pub use bulk::run_bulk;
pub use manner::Manner;
pub use outcome::Run;
pub use run::run_replay;
