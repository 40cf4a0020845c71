//! The program `syncord` as one call: words and bytes in, a status, a report and an error line out.
#![tactic(auto)]

mod doing;
mod manners;
mod takers;
mod threads;
mod top;

pub use bpf_isa::Profile;
pub use manners::{ByShards, ByTakers, ByThreads};
pub use syncord_asm::{run_asm, run_disasm};
pub use syncord_line::run_line;
pub use syncord_pool::run_pool;
pub use syncord_replay::{run_bulk, run_replay};
pub use syncord_verify::run_verify;
pub use takers::run_by_takers;
pub use threads::{run_by_shards, run_by_threads};
pub use top::syncord;
