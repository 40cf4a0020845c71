//! Workers that run the calls of a trace at once, and the policies that they attach meanwhile.
#![tactic(auto)]

mod activity;
mod attaching;
mod cell_dir;
mod empty_dir;
mod policies;
mod prevailing;
mod run;
mod rw_dir;
mod shard_dir;
mod shared_dir;
mod shares;
mod worker;

pub use activity::{Activity, join, run_all, take_apart};
pub use attaching::{Attaching, copies_of};
pub use policies::{load_all, load_one};
pub use prevailing::do_writes_prevail;
pub use run::{Outcome, run_copies, run_on, run_one, run_shards, run_trace};
pub use shared_dir::SharedDir;
pub use shares::shares_of;
pub use worker::work;
