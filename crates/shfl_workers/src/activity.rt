//! What each worker works with, in one list for its thread.
ghost use Rattle.std.specs.List.{AllByRecursion};
ghost use Rattle.trace_text.specs.Traces.{IsCallOf};
ghost use Rattle.std.specs.Prelude.{IsSome, ◌<◌, length, ◌++◌, ◌≡◌, ◌≢◌, ℕ, ◌≤◌, ◌+◌, List, [], ◌∷◌, map, Some, IfOk, All, IsSomeAnd, vec_len, vec_capacity, slice_index_or};
ghost use Rattle.shfl_workers.specs.declared.activity.Activity.{Activity};
ghost use Rattle.shfl_workers.specs.Activities.{Joined, IsAt, Works, unlogged};

use crate::attaching::Attaching;
use crate::shared_dir::SharedDir;
use crate::worker::work;
use policy_versions::{Publisher, Registry, VersionPass};
use round_log::RoundLog;
use std::alloc::Global;
use std::sync::Wait;
use std::thread;
use std::thread::Threads;
use syn_outer::Gate;
use trace_text::{NoMemory, TraceCall};

/// A worker's pass of the directory and of the policies, with the log of its rounds; worker 0 attaches besides.
#[derive(Drop)]
pub struct Activity<P: Drop> {
    pub pass: P,
    pub user: VersionPass,
    pub attaching: Option<Attaching>,
}

/// An activity for each pass and user, of which the first one attaches. `keeps` says whether their logs keep what is told.
pub fn join<P: Drop>(
    alloc: Global,
    passes: Vec<P>,
    users: Vec<VersionPass>,
    keeps: bool,
    attaching: Attaching,
) -> Result<Vec<Activity<P>>, NoMemory>
    requires { vec_len passes ≡ vec_len users }
    ensures { IfOk result (λ v. Joined passes.items users.items keeps (Some attaching) v.items) }
{
    let mut activities = Vec::with_capacity(alloc, passes.len())?;
    let mut users = users.into_iter();
    let mut attaching = Some(attaching);
    for pass in passes {
        let Some(mut user) = users.next() else {
            unreachable!()
        };
        user.begin_log(alloc, keeps);
        let attaching = attaching.take();
        activities.push_reserved(Activity {
            pass,
            user,
            attaching,
        });
    }
    Ok(activities)
}

/// All workers work, each in a thread of its own. Where a thread can't be had, the caller does its work. `moves` is the choosers'.
pub fn run_all<D: SharedDir + Sync, G: Gate + Sync, R: Threads + Wait + Sync>(
    rt: &R,
    dir: &D,
    registry: &Registry,
    moves: bool,
    gate: &G,
    calls: &[TraceCall],
    activities: &mut [Activity<D::Pass>],
)
    requires calls { (workers : ℕ) × (policies : ℕ)
        × AllByRecursion (IsCallOf workers (D.room dir.now) policies) calls.now }
    requires ready { All (IsAt (D.is_pass dir.now) D.worker D.made D.left registry.now
        [] calls.now) activities.old }
    ensures done { All (IsAt (D.is_pass dir.now) D.worker D.made D.left registry.now
        calls.now []) activities.new }
    ensures len { length activities.new ≡ length activities.old }
    ensures works { (k : ℕ) (d : Activity _) → k < length activities.old
        → Works D.worker D.asks calls.now
        (slice_index_or activities.old k d) (slice_index_or activities.new k d) }
{
    let job = |_place: usize, activity: &mut Activity<D::Pass>|
        requires { ((workers : ℕ) × (policies : ℕ)
            × AllByRecursion (IsCallOf workers (D.room dir.now) policies) calls.now)
            × IsAt (D.is_pass dir.now) D.worker D.made D.left registry.now [] calls.now
            activity.now }
        ensures { IsAt (D.is_pass dir.entry.now) D.worker D.made D.left registry.entry.now
            calls.entry.now [] activity.exit.now
            × Works D.worker D.asks calls.entry.now activity.entry.now activity.exit.now }
    {
        let Activity {
            pass,
            user,
            attaching,
        } = activity;
        work(rt, dir, registry, moves, gate, pass, user, attaching, calls);
    };
    thread::for_each_mut(rt, activities, 16, &job);
}

// One worker's parts go to the others' ones, its log apart from its user.
fn part<P: Drop>(
    alloc: Global,
    activity: Activity<P>,
    passes: &mut Vec<P>,
    users: &mut Vec<VersionPass>,
    logs: &mut Vec<RoundLog>,
) -> Option<Attaching>
    requires passes { vec_len passes.old + 1 ≤ vec_capacity passes.old }
    requires users { vec_len users.old + 1 ≤ vec_capacity users.old }
    requires logs { vec_len logs.old + 1 ≤ vec_capacity logs.old }
    ensures passes { passes.new.items ≡ passes.old.items ++ activity.pass ∷ [] }
    ensures users { users.new.items ≡ users.old.items ++ unlogged activity.user ∷ [] }
    ensures logs { logs.new.items ≡ logs.old.items ++ activity.user.log ∷ [] }
    ensures room { (vec_capacity passes.new ≡ vec_capacity passes.old)
        × (vec_capacity users.new ≡ vec_capacity users.old)
        × (vec_capacity logs.new ≡ vec_capacity logs.old) }
    ensures attaching { result ≡ activity.attaching }
{
    let Activity {
        pass,
        mut user,
        attaching,
    } = activity;
    passes.push_reserved(pass);
    logs.push_reserved(user.take_log(alloc));
    users.push_reserved(user);
    attaching
}

// The parts of all of them go behind those that are there.
fn part_all<P: Drop>(
    alloc: Global,
    activities: Vec<Activity<P>>,
    passes: &mut Vec<P>,
    users: &mut Vec<VersionPass>,
    logs: &mut Vec<RoundLog>,
)
    requires passes { vec_len passes.old + vec_len activities ≤ vec_capacity passes.old }
    requires users { vec_len users.old + vec_len activities ≤ vec_capacity users.old }
    requires logs { vec_len logs.old + vec_len activities ≤ vec_capacity logs.old }
    ensures passes { passes.new.items ≡ passes.old.items ++ map (λ a. a.pass) activities.items }
    ensures users { users.new.items
        ≡ users.old.items ++ map (λ a. unlogged a.user) activities.items }
    ensures logs { logs.new.items ≡ logs.old.items ++ map (λ a. a.user.log) activities.items }
{
    for activity in activities {
        drop(part(alloc, activity, passes, users, logs));
    }
}

/// The passes, the users, the logs and the publisher again, in the lists that have room for them.
pub fn take_apart<P: Drop>(
    alloc: Global,
    mut activities: Vec<Activity<P>>,
    passes: &mut Vec<P>,
    users: &mut Vec<VersionPass>,
    logs: &mut Vec<RoundLog>,
) -> Publisher
    requires first { (a : Activity _) × (rest : List _) × (activities.items ≡ a ∷ rest)
        × IsSome a.attaching }
    requires passes { (passes.old.items ≡ []) × (vec_len activities ≤ vec_capacity passes.old) }
    requires users { (users.old.items ≡ []) × (vec_len activities ≤ vec_capacity users.old) }
    requires logs { (logs.old.items ≡ []) × (vec_len activities ≤ vec_capacity logs.old) }
    ensures passes { passes.new.items ≡ map (λ a. a.pass) activities.items }
    ensures users { users.new.items ≡ map (λ a. unlogged a.user) activities.items }
    ensures logs { logs.new.items ≡ map (λ a. a.user.log) activities.items }
    ensures publisher { (a : Activity _) (rest : List _) → activities.items ≡ a ∷ rest
        → IsSomeAnd a.attaching (λ x. result ≡ x.publisher) }
{
    let first = activities.remove(0);
    let Some(attaching) = part(alloc, first, passes, users, logs) else {
        unreachable!()
    };
    part_all(alloc, activities, passes, users, logs);
    let Attaching { publisher, copies } = attaching;
    drop(copies);
    publisher
}
