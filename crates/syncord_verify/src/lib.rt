//! The command `verify`: hexadecimal digits in, and whether they are a program that the verifier accepts.
#![tactic(auto)]

mod program;
mod report;
mod run;

pub use program::program_in;
pub use run::run_verify;
