//! The run of a whole trace.
ghost use Rattle.std.specs.Prelude.{◌≡◌, ◌≤◌, [], map, length, vec_len, IfOk};
ghost use Rattle.std.specs.List.{AllByRecursion};
ghost use Rattle.policy_text.specs.Accepted.{AcceptsSource};
ghost use Rattle.trace_text.specs.Report.{done_of};
ghost use Rattle.trace_text.specs.Traces.{IsWithin};
ghost use Rattle.trace_text.specs.Histories.{IsHistoryOf};
ghost use Rattle.trace_text.specs.Attachments.{attached_in, attaches_of};
ghost use Rattle.policy_versions.specs.Models.{AreFresh};
ghost use Rattle.shfl_table.specs.Books.{HavePlaces};
ghost use Rattle.shfl_workers.specs.Attaching.{Attached};
ghost use Rattle.shfl_workers.specs.Loaded.{AreLoaded};
ghost use Rattle.shfl_workers.specs.LockRuns.{RanByThreads, RanByShards, RanOnCopies, RanOnOne};
ghost use Rattle.shfl_workers.specs.Prevailing.{DoWritesPrevail};
ghost use Rattle.shfl_workers.specs.Receipts.{CountWrites};
ghost use Rattle.shfl_workers.specs.Rounds.{HaveRounds};

use crate::activity::{join, run_all, take_apart};
use crate::attaching::{Attaching, copies_of};
use crate::policies::load_all;
use crate::prevailing::do_writes_prevail;
use crate::shard_dir::Shards;
use crate::shared_dir::SharedDir;
use dir_table::Dir;
use hist_log::Entry;
use policy_versions::{Published, Registry, VersionPass};
use round_log::RoundLog;
use rw_cell::RwCell;
use shfl_cell::ShflCell;
use std::alloc::Global;
use std::sync::Wait;
use std::thread::Threads;
use syn_outer::Gate;
use trace_text::{NoMemory, Trace};

// Whether the workers queue at once, so that the policies reach them. They try before: the calls of a trace are so brief that a hand-over in
// the queue costs many times as much.
const QUEUES_AT_ONCE: bool = false;

/// What a run leaves.
#[derive(Drop)]
pub struct Outcome {
    /// Each call on the directory with its reply, in an order in which one directory can have answered them.
    pub history: Vec<Entry<Dir>>,
    /// The directory that they leave.
    pub dir: Dir,
    /// The version of each attachment with its policy's place in the trace, in order.
    pub versions: Published,
    /// What each worker's policies were told, in rounds, by workers; where it was to be kept, and there was memory for all of it.
    pub rounds: Vec<RoundLog>,
}

// The registry of the declared policies, what worker 0 attaches of them, and a user for each worker.
fn open_registry(
    alloc: Global,
    trace: &Trace,
) -> Result<(Registry, Attaching, Vec<VersionPass>), NoMemory>
    requires within { IsWithin trace.now }
    requires attaches { length (attached_in trace.now.calls.items) ≤ 4096 }
    requires accepted { AllByRecursion (λ p. AcceptsSource trace.now.profile p.source)
        trace.now.policies.items }
    ensures attached { IfOk result (λ r. Attached r.0 [] (attached_in trace.now.calls.items)
        r.1.publisher r.1.copies.items) }
    ensures declared { IfOk result (λ r.
        AreLoaded trace.now.profile trace.now.policies.items r.0.declared) }
    ensures count { IfOk result (λ r. vec_len r.2 ≡ length trace.now.workers.items) }
    ensures users { IfOk result (λ r.
        AreFresh r.0 (length trace.now.workers.items) r.2.items) }
{
    let declared = trace.policies.as_slice();
    let policies = load_all(alloc, trace.profile, declared)?;
    let count = trace.workers.len() as u32;
    let Ok((registry, publisher, users)) = Registry::open(alloc, policies, count) else {
        return Err(NoMemory);
    };
    let calls = trace.calls.as_slice();
    let copies = copies_of(alloc, &registry, calls)?;
    Ok((registry, Attaching { publisher, copies }, users))
}

/// Runs a trace by a worker in a thread for each of its workers, on a directory behind the lock that `D` is. Worker 0 publishes each policy
/// that it attaches at its place among its calls. All memory for the workers is taken before they start, but that of their logs, which
/// keep what their policies are told where `keeps` says so.
pub fn run_on<D: SharedDir + Sync, G: Gate + Sync, R: Threads + Wait + Sync>(
    rt: &R,
    alloc: Global,
    trace: &Trace,
    keeps: bool,
    gate: &G,
) -> Result<Outcome, NoMemory>
    requires within { IsWithin trace.now }
    requires attaches { length (attached_in trace.now.calls.items) ≤ 4096 }
    requires accepted { AllByRecursion (λ p. AcceptsSource trace.now.profile p.source)
        trace.now.policies.items }
    ensures history { IfOk result (λ o. IsHistoryOf trace.now (map done_of o.history.items) o.dir) }
    ensures receipts { IfOk result (λ o. D.receipts o.history.items) }

    // The history was made in the holds of the lock's run.
    ensures ran { IfOk result (λ o. D.ran trace.now (map done_of o.history.items)) }
    ensures versions { IfOk result (λ o. o.versions ≡ attaches_of trace.now) }
    ensures rounds { IfOk result (λ o. HaveRounds trace.now keeps o.versions o.rounds.items) }
{
    let (registry, attaching, users) = open_registry(alloc, trace)?;
    let (shared, passes) = D::open(alloc, trace)?;
    let mut activities = join(alloc, passes, users, keeps, attaching)?;
    let mut passes = Vec::with_capacity(alloc, trace.workers.len())?;
    let mut users = Vec::with_capacity(alloc, trace.workers.len())?;
    let mut rounds = Vec::with_capacity(alloc, trace.workers.len())?;
    let calls = trace.calls.as_slice();
    let lent = activities.as_mut_slice();
    run_all(rt, &shared, &registry, QUEUES_AT_ONCE, gate, calls, lent);
    let publisher = take_apart(alloc, activities, &mut passes, &mut users, &mut rounds);
    let (_policies, versions) = registry.close(publisher, users);
    let (history, dir) = shared.close(alloc, trace, passes)?;
    Ok(Outcome {
        history,
        dir,
        versions,
        rounds,
    })
}

/// Runs a trace by a worker in a thread for each of its workers, whose calls all take turns at one directory, whether they read or write.
pub fn run_one<G: Gate + Sync, R: Threads + Wait + Sync>(
    rt: &R,
    alloc: Global,
    trace: &Trace,
    keeps: bool,
    gate: &G,
) -> Result<Outcome, NoMemory>
    requires within { IsWithin trace.now }
    requires attaches { length (attached_in trace.now.calls.items) ≤ 4096 }
    requires accepted { AllByRecursion (λ p. AcceptsSource trace.now.profile p.source)
        trace.now.policies.items }
    ensures history { IfOk result (λ o. IsHistoryOf trace.now (map done_of o.history.items) o.dir) }
    ensures places { IfOk result (λ o. HavePlaces o.history.items) }
    ensures ran { IfOk result (λ o. RanOnOne trace.now (map done_of o.history.items)) }
    ensures versions { IfOk result (λ o. o.versions ≡ attaches_of trace.now) }
    ensures rounds { IfOk result (λ o. HaveRounds trace.now keeps o.versions o.rounds.items) }
{
    run_on::<ShflCell<Dir>, G, R>(rt, alloc, trace, keeps, gate)
}

/// Runs a trace by a worker in a thread for each of its workers, with a copy of the directory for each, on which reads go on beside each
/// other.
pub fn run_copies<G: Gate + Sync, R: Threads + Wait + Sync>(
    rt: &R,
    alloc: Global,
    trace: &Trace,
    keeps: bool,
    gate: &G,
) -> Result<Outcome, NoMemory>
    requires within { IsWithin trace.now }
    requires attaches { length (attached_in trace.now.calls.items) ≤ 4096 }
    requires accepted { AllByRecursion (λ p. AcceptsSource trace.now.profile p.source)
        trace.now.policies.items }
    ensures history { IfOk result (λ o. IsHistoryOf trace.now (map done_of o.history.items) o.dir) }
    ensures receipts { IfOk result (λ o. CountWrites o.history.items) }
    ensures ran { IfOk result (λ o. RanOnCopies trace.now (map done_of o.history.items)) }
    ensures versions { IfOk result (λ o. o.versions ≡ attaches_of trace.now) }
    ensures rounds { IfOk result (λ o. HaveRounds trace.now keeps o.versions o.rounds.items) }
{
    run_on::<RwCell<Dir>, G, R>(rt, alloc, trace, keeps, gate)
}

/// Runs a trace by a worker in a thread for each of its workers. `Find`, `Count` and `Next` are reads, which go on beside each other, on
/// a copy of the directory for each worker. Where writes prevail (`do_writes_prevail`), all calls take turns at one directory. Worker 0
/// publishes each policy that it attaches at its place among its calls. Memory and logs as with `run_on`.
pub fn run_trace<G: Gate + Sync, R: Threads + Wait + Sync>(
    rt: &R,
    alloc: Global,
    trace: &Trace,
    keeps: bool,
    gate: &G,
) -> Result<Outcome, NoMemory>
    requires within { IsWithin trace.now }
    requires attaches { length (attached_in trace.now.calls.items) ≤ 4096 }
    requires accepted { AllByRecursion (λ p. AcceptsSource trace.now.profile p.source)
        trace.now.policies.items }
    ensures history { IfOk result (λ o. IsHistoryOf trace.now (map done_of o.history.items) o.dir) }

    // Where writes prevail, the receipt of each entry is its place; else it is the number of writes before it.
    ensures places { DoWritesPrevail trace.now
        → IfOk result (λ o. HavePlaces o.history.items) }
    ensures receipts { ¬ DoWritesPrevail trace.now
        → IfOk result (λ o. CountWrites o.history.items) }

    // It was made in the holds of the lock's run: that of the one directory where writes prevail, else that of the copies.
    ensures ran { IfOk result (λ o. RanByThreads trace.now (map done_of o.history.items)) }
    ensures versions { IfOk result (λ o. o.versions ≡ attaches_of trace.now) }
    ensures rounds { IfOk result (λ o. HaveRounds trace.now keeps o.versions o.rounds.items) }
{
    if do_writes_prevail(trace) {
        run_one(rt, alloc, trace, keeps, gate)
    } else {
        run_copies(rt, alloc, trace, keeps, gate)
    }
}

/// Runs a trace by a worker in a thread for each of its workers, on a directory with a lock for each of its shards and one journal, which
/// is the history. Worker 0 publishes each policy that it attaches at its place among its calls. Memory and logs as with `run_on`.
pub fn run_shards<G: Gate + Sync, R: Threads + Wait + Sync>(
    rt: &R,
    alloc: Global,
    trace: &Trace,
    keeps: bool,
    gate: &G,
) -> Result<Outcome, NoMemory>
    requires within { IsWithin trace.now }
    requires attaches { length (attached_in trace.now.calls.items) ≤ 4096 }
    requires accepted { AllByRecursion (λ p. AcceptsSource trace.now.profile p.source)
        trace.now.policies.items }
    ensures history { IfOk result (λ o. IsHistoryOf trace.now (map done_of o.history.items) o.dir) }
    ensures places { IfOk result (λ o. HavePlaces o.history.items) }

    // Each of the locks ran from its opening until it was closed.
    ensures ran { IfOk result (λ o. RanByShards trace.now (map done_of o.history.items)) }
    ensures versions { IfOk result (λ o. o.versions ≡ attaches_of trace.now) }
    ensures rounds { IfOk result (λ o. HaveRounds trace.now keeps o.versions o.rounds.items) }
{
    run_on::<Shards, G, R>(rt, alloc, trace, keeps, gate)
}
