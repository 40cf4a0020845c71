//! What lies behind each of 64 locks, one directory's names, and the journal by which they are brought forward.
#![tactic(auto)]

mod closing;
mod commit;
mod journal;
mod laws;
mod naming;
mod shard;
mod table;

pub use commit::Committed;
pub use journal::Journal;
pub use laws::{calls_look_at_one_directory, numbers_carry_changes};
pub use naming::{first_dir, last_dir};
pub use shard::Shard;
