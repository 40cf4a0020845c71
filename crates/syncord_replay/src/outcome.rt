//! What the run of a trace leaves.
use dir_table::Dir;
use hist_log::Entry;
use policy_versions::Published;

/// What the run of a trace leaves.
#[derive(Drop)]
pub struct Run {
    /// Each call on the directory with its reply, in an order in which one directory can have answered them.
    pub history: Vec<Entry<Dir>>,
    /// The directory that they leave.
    pub dir: Dir,
    /// The version of each attachment with its policy's place in the trace, as a closed registry has them.
    pub versions: Published,
}
