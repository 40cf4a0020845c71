//! The word machine of the lock: every waiter goes from phase to phase, one atomic operation on one word a step.
#![tactic(auto)]

pub mod asks;
pub mod bits;
pub mod board;
pub mod found;
pub mod local;
pub mod phase;
pub mod plans;
pub mod rows;
pub mod waiter;
pub mod words;
pub mod world;

pub use board::Board;
pub use local::Local;
pub use phase::{Ask, Nap, PassState, Phase, Registers, Rules, Watch};
pub use waiter::Waiter;
pub use words::{Access, Word, opening_words};
pub use world::PlainWorld;
