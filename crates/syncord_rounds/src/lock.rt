//! The kinds of lock that a trace's directory may stand behind.
ghost use Rattle.std.specs.Prelude.{◌≡◌, true, map, IfOk};
ghost use Rattle.trace_text.specs.Attachments.{attaches_of};
ghost use Rattle.trace_text.specs.Histories.{IsHistoryOf};
ghost use Rattle.trace_text.specs.Report.{done_of};
ghost use Rattle.trace_text.specs.Traces.{IsWithin};
ghost use Rattle.shfl_workers.specs.Rounds.{HaveRounds};
ghost use Rattle.syncord_replay.specs.Runnable.{IsRunnable};
ghost use Rattle.syncord_rounds.specs.Locks.{IsLockFor, RanOn};

use shfl_workers::{Outcome, do_writes_prevail, run_copies, run_one, run_shards};
use std::alloc::Global;
use std::sync::Wait;
use std::thread::Threads;
use syn_outer::Gate;
use trace_text::{NoMemory, Trace};

/// Behind what the directory stands.
#[derive(Clone, Copy, Debug, PartialEq, Eq)]
pub enum Lock {
    /// One directory behind one lock.
    One,
    /// A copy of the directory for each worker, behind one lock that readers share.
    Copies,
    /// A lock for each of 64 directories.
    Shards,
}

impl Lock {
    ghost use Rattle.syncord_rounds.specs.Locks.{lock_word};

    /// How a report names it.
    pub fn word(self) -> &'static [u8]
        ensures { result.now ≡ lock_word self }
    {
        match self {
            Lock::One => b"one",
            Lock::Copies => b"copies",
            Lock::Shards => b"shards",
        }
    }
}

/// The lock that a trace is run on where this one is wanted.
pub fn lock_for(wanted: Option<Lock>, trace: &Trace) -> Lock
    requires { IsWithin trace.now }
    ensures { IsLockFor wanted trace.now result }
{
    match wanted {
        Some(lock) => lock,
        None => {
            if do_writes_prevail(trace) {
                Lock::One
            } else {
                Lock::Copies
            }
        }
    }
}

/// Runs a trace on this kind of lock by a thread for each of its workers, and keeps what its policies are told.
pub fn run_on<Rt: Threads + Wait + Sync, G: Gate + Sync>(
    rt: &Rt,
    gate: &G,
    alloc: Global,
    lock: Lock,
    trace: &Trace,
) -> Result<Outcome, NoMemory>
    requires { IsRunnable trace.now }
    ensures history { IfOk result (λ o. IsHistoryOf trace.now (map done_of o.history.items) o.dir) }
    ensures ran { IfOk result (λ o. RanOn lock trace.now (map done_of o.history.items)) }
    ensures versions { IfOk result (λ o. o.versions ≡ attaches_of trace.now) }
    ensures rounds { IfOk result (λ o.
        HaveRounds trace.now true (attaches_of trace.now) o.rounds.items) }
{
    match lock {
        Lock::One => run_one(rt, alloc, trace, true, gate),
        Lock::Copies => run_copies(rt, alloc, trace, true, gate),
        Lock::Shards => run_shards(rt, alloc, trace, true, gate),
    }
}
