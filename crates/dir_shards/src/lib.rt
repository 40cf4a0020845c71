//! A directory of 64 shards, each behind a lock of its own, whose calls take turns at one journal.
#![tactic(auto)]

mod calls;
mod closing;
mod commits;
mod dir_journal;
mod journal_closing;
mod kept_shard;
mod lock_closing;
mod locking;
mod locks;
mod naming;
mod opening;
mod shard_pass;
mod sharded;
mod steps;

pub use shard_pass::ShardPass;
pub use sharded::ShardedDir;
