//! A copy of an object for each pass behind a readers-writer lock: a writer makes its call on every
//! copy, and a reader looks at its own.
#![tactic(auto)]

mod cell;
mod closing;
mod opening;
mod reads;
mod writes;

pub use cell::{KeptRead, RwCell, RwCellOf, RwPass, RwPassOf};
