//! Pools run by threads.
ghost use Rattle.std.specs.Prelude.{IfOk};
ghost use Rattle.syncord_pool.specs.Runs.{MayRun, IsRunOf};
ghost use Rattle.syncord_app.specs.Takers.{RanByTakers};

use dir_table::Dir;
use pool_text::dir_calls;
use shfl_workers::load_one;
use std::alloc::Global;
use std::sync::Wait;
use std::thread::Threads;
use syn_outer::Gate;
use syncord_pool::PoolRun;
use trace_text::{NoMemory, Trace};

/// Runs the calls of a trace by a thread for each of its workers, who all take them from one queue and make them on one directory behind
/// the lock. Where a thread can't be had, the caller does its work. The first policy serves throughout.
pub fn run_by_takers<Rt: Threads + Wait + Sync, G: Gate + Sync>(
    rt: &Rt,
    alloc: Global,
    trace: &Trace,
    gate: &G,
) -> Result<PoolRun, NoMemory>
    requires { MayRun trace.now }
    ensures { IfOk result (IsRunOf RanByTakers trace.now) }
{
    let calls = dir_calls(alloc, trace)?;
    let policy = load_one(alloc, 0, trace.profile, &trace.policies[0])?;
    let attrs = trace.workers.as_slice();
    // each taker may have to make all the calls
    let spare = (attrs.len() * calls.len()) as u32;
    let Ok(dir) = Dir::open(alloc, trace.names.len() as u32, spare) else {
        return Err(NoMemory);
    };
    let Ok((dir, history, _logs)) = call_pool::run_pool(
        rt,
        alloc,
        dir,
        &policy,
        attrs,
        calls.as_slice(),
        false,
        gate,
    ) else {
        return Err(NoMemory);
    };
    Ok(PoolRun { history, dir })
}
