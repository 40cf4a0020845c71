//! Names as they are met, told apart by guesses that are compared, and put in order of their bytes.
#![tactic(auto)]

mod gathered;
mod ordered;

pub use gathered::Gathered;
pub use ordered::{Ordered, put_in_order};
