//! The command `line`: a schedule is read, run on a lock of its form, and reported.
#![tactic(auto)]

mod line;
mod locks;
mod run;

pub use run::run_line;
