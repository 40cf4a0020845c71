//! What the words behind the name of `syncord` say: which command, and with which numbers.
#![tactic(auto)]

mod commands;
mod numbers;

pub use commands::Command;
pub use numbers::{BulkWords, bulk_words};
