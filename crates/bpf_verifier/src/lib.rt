//! Which lists of BPF instructions may be run: a verifier that accepts exactly the programs that no path through them can lead astray.
#![tactic(auto)]

mod accept;
mod edges;
mod effects;
mod kind;
mod pass;
mod program;
mod reads;
mod refusal;
mod safety;
mod states;

pub use accept::verify;
pub use kind::{CONTEXT_BYTES, Kind, REGISTERS};
pub use program::Program;
pub use refusal::{NoMemory, Refusal};
pub use safety::accepted_runs_safely;
