//! What the run of a pool leaves.
use dir_table::Dir;
use hist_log::{Entry, Numbered};

/// What the run of a pool leaves.
#[derive(Drop)]
pub struct PoolRun {
    /// Each call of the trace with its place and its reply, in an order in which one directory can have answered them.
    pub history: Vec<Entry<Numbered<Dir>>>,
    /// The directory that they leave.
    pub dir: Dir,
}
