//! What the tests of several crates share.
#![tactic(auto)]

mod attrs;
mod draws;
mod marks;
mod queue_gate;
mod recorder;
mod signs;

pub use attrs::{FAR, FORMS, PLAIN};
pub use draws::{Act, Draws, Event};
pub use marks::Mark;
pub use queue_gate::QueueGate;
pub use recorder::Recorder;
pub use signs::{LOOKS, await_sign, give_sign, nap};
