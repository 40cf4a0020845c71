//! The document and the report of a pool: calls of a trace that stand in one queue, whoever takes them.
#![tactic(auto)]

mod calls;
mod report;

pub use calls::{dir_calls, first_fault};
pub use report::render_pool;
