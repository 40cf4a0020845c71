//! A pass with its share of the board: what a caller outside the language is given, and each thing that it may do with it.
#![tactic(auto)]

mod asked;
mod boxes;
mod calls;
mod opening;
mod policies;
mod ticket;
mod told;

pub use asked::{form_numbered, profile_numbered};
pub use boxes::{boxed_each, shared};
pub use opening::open;
pub use policies::{answer_of, loaded};
pub use ticket::Ticket;
pub use told::{ShflAsk, ShflVerdict, ShflWatch, ask_told, outcome_told, verdict_told, watch_told};
