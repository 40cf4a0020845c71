//! What a policy may cost a call of the simulator: how many others gain while it waits.
#![tactic(auto)]

pub mod waits;

pub use waits::few_gain_during_a_wait;
