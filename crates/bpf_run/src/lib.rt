//! Running an accepted program on a context, one step for each instruction.
#![tactic(auto)]

mod alu;
mod flow;
mod memory;
mod order;
mod running;
mod step;
mod steps;

pub use running::{Ran, counted, run, value};
pub use steps::Steps;
