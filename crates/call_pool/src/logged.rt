//! A taker's pass and its log.
ghost use Rattle.std.specs.Prelude.{◌≡◌, ◌≤◌, [], map, vec_len, vec_capacity, IfOk};
ghost use Rattle.call_pool.specs.Rounds.{with_log};

use round_log::RoundLog;
use shfl_line::NoMemory;
use std::alloc::Global;

/// A taker's pass, and the log of what the policy is told in its rounds.
#[derive(Drop)]
pub struct Logged<P: Drop> {
    pub pass: P,
    pub log: RoundLog,
}

/// Each pass with a log in which nothing stands yet. `keeps` says whether the logs keep what is told.
pub fn with_logs<P: Drop>(
    alloc: Global,
    passes: Vec<P>,
    keeps: bool,
) -> Result<Vec<Logged<P>>, NoMemory>
    ensures { IfOk result (λ v. v.items ≡ map (with_log keeps) passes.items) }
{
    let mut takers = Vec::with_capacity(alloc, passes.len())?;
    for pass in passes {
        let log = RoundLog::new(alloc, keeps);
        takers.push_reserved(Logged { pass, log });
    }
    Ok(takers)
}

/// The passes and the logs apart again, in the lists that have room for them.
pub fn take_apart<P: Drop>(takers: Vec<Logged<P>>, passes: &mut Vec<P>, logs: &mut Vec<RoundLog>)
    requires passes { (passes.old.items ≡ []) × (vec_len takers ≤ vec_capacity passes.old) }
    requires logs { (logs.old.items ≡ []) × (vec_len takers ≤ vec_capacity logs.old) }
    ensures passes { passes.new.items ≡ map (λ t. t.pass) takers.items }
    ensures logs { logs.new.items ≡ map (λ t. t.log) takers.items }
{
    for taker in takers {
        let Logged { pass, log } = taker;
        passes.push_reserved(pass);
        logs.push_reserved(log);
    }
}
