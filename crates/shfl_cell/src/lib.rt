//! An object behind the lock, with the history of its calls.
#![tactic(auto)]

mod calls;
mod cell;
mod closing;
mod opening;

pub use cell::{CellPass, CellPassOf, ShflCell, ShflCellOf};
