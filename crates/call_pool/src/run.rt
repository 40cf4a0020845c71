//! Calls on a directory by takers in threads.
ghost use Rattle.std.specs.Prelude.{◌≡◌, ◌*◌, ◌<◌, ◌≤◌, true, All, length, map, vec_len, IfOk};
ghost use Rattle.dir_table.specs.Numbers.{call_numbers, reply_numbers, state_numbers};
ghost use Rattle.dir_table.specs.Meanings.{reply_at, state_after, Admits, IsAdmitted};
ghost use Rattle.hist_log.specs.History.{operations, state_left};
ghost use Rattle.hist_log.specs.Numbers.{numbers, inner};
ghost use Rattle.hist_log.specs.PoolHistories.{IsPoolHistory};
ghost use Rattle.shfl_table.specs.Books.{actions, HavePlaces};
ghost use Rattle.shfl_table.specs.Histories.{HasSeen};
ghost use Rattle.shfl_cell.specs.Cells.{number, HasRunOf};
ghost use Rattle.call_pool.specs.Pools.{IsPassOf, AreNumbered, calls_by};
ghost use Rattle.call_pool.specs.Rounds.{HaveRounds};
ghost use Rattle.call_pool.specs.Runs.{IsLeftBy, IsLeftWithLogs};

use crate::chooser::OnePolicy;
use crate::logged::{take_apart, with_logs};
use crate::pool::{Pool, PoolPass};
use crate::threads::{SharedCalls, take_in_threads};
use dir_table::{Dir, DirCall};
use hist_log::{Entry, Numbered};
use round_log::RoundLog;
use shfl_line::{Attr, NoMemory};
use shfl_policy::Policy;
use std::alloc::Global;
use std::sync::Wait;
use std::thread::Threads;
use syn_outer::Gate;

/// The longest batch of a round.
const BATCH: u16 = 1024;

impl SharedCalls for Pool<Dir> {
    type Pass = PoolPass<Dir>;

    ghost use Rattle.dir_table.specs.Numbers.{call_numbers};
    ghost use Rattle.dir_table.specs.Meanings.{Admits};
    ghost use Rattle.shfl_cell.specs.Cells.{number as number_of};
    ghost use Rattle.shfl_table.specs.Waits.{AsksInRounds};
    ghost use Rattle.call_pool.specs.Pools.{IsPassOf};

    ghost is_pass = { λ pool p. IsPassOf call_numbers Admits pool p };

    ghost number = { λ p. number_of p.cell };

    ghost ended = { λ p. p.taker.ended };

    ghost asks = { λ old new told told'. AsksInRounds old.cell.attr old.cell.decisions
        new.cell.decisions told told' };

    fn take_rest<G: Gate, R: Wait>(
        &self,
        rt: &R,
        pass: &mut PoolPass<Dir>,
        policy: &Policy,
        log: &mut RoundLog,
        gate: &G,
    ) {
        let mut chooser = OnePolicy::new(policy, log);
        self.take_all(rt, pass, &mut chooser, gate);
        let _log = chooser.done(policy);
    }
}

// Closes a pool whose passes stand in the order of their numbers and have all ended.
fn close_in_order(pool: Pool<Dir>, passes: Vec<PoolPass<Dir>>) -> (Dir, Vec<Entry<Numbered<Dir>>>)
    requires pool { All (IsPassOf call_numbers Admits pool) passes.items }
    requires numbered { AreNumbered (λ p. number p.cell) passes.items }
    requires count { (0 < vec_len passes) × (vec_len passes ≡ pool.cell.count) }
    requires ended { All (λ p. p.taker.ended ≡ true) passes.items }
    ensures history { IsPoolHistory call_numbers reply_numbers reply_at state_after
        pool.cell.opening pool.queue.calls result.1.items }
    ensures state { state_numbers result.0
        ≡ state_left (λ state call. state_after state (inner call)) pool.cell.opening
        (operations (numbers call_numbers) reply_numbers result.1.items) }
    ensures taken { All (λ p. calls_by (number p.cell) result.1.items ≡ p.taker.taken)
        passes.items }
    ensures seen { All (λ p. HasSeen
        (actions (numbers call_numbers) reply_numbers result.1.items)
        (number p.cell) p.cell.seen) passes.items }
    ensures workers { All (λ e. e.worker < vec_len passes) result.1.items }
    ensures places { HavePlaces result.1.items }
    ensures run { HasRunOf pool.cell (map (λ p. p.cell) passes.items)
        (actions (numbers call_numbers) reply_numbers result.1.items) }
{
    pool.close(passes)
}

/// Makes these calls on the directory, by a taker in a thread for each of the attributes; the policy serves all of them
/// throughout. The logs are of the takers in the order of their numbers, and have what the policy was told in each one's rounds, where
/// `keeps` says so and there was memory for all of it. All other memory is taken before the takers start.
pub fn run_pool<G: Gate + Sync, R: Threads + Wait + Sync>(
    rt: &R,
    alloc: Global,
    dir: Dir,
    policy: &Policy,
    attrs: &[Attr],
    calls: &[DirCall],
    keeps: bool,
    gate: &G,
) -> Result<(Dir, Vec<Entry<Numbered<Dir>>>, Vec<RoundLog>), NoMemory>
    requires takers { (0 < length attrs.now) × (length attrs.now ≤ 16) }
    requires few { length calls.now ≤ 4096 }
    requires spare { length attrs.now * length calls.now ≤ dir.spare }
    requires admitted { All (IsAdmitted dir.room) calls.now }

    // Each call stands in the history once, with its place in the list.
    ensures history { IfOk result (λ r. IsPoolHistory call_numbers reply_numbers reply_at
        state_after (state_numbers dir) calls.now r.1.items) }
    ensures state { IfOk result (λ r. state_numbers r.0
        ≡ state_left (λ state call. state_after state (inner call)) (state_numbers dir)
        (operations (numbers call_numbers) reply_numbers r.1.items)) }

    // Each entry is one of these takers', and its receipt is its place.
    ensures workers { IfOk result (λ r. All (λ e. e.worker < length attrs.now) r.1.items) }
    ensures places { IfOk result (λ r. HavePlaces r.1.items) }

    // The calls of each worker's entries are just those that its pass took of such a pool, whose holds made the history.
    ensures passes { IfOk result (λ r. IsLeftBy call_numbers reply_numbers Admits
        (state_numbers dir) attrs.now calls.now r.1.items) }

    // Each taker's log has whole rounds, which this policy answered; and of such a pool, it has just what the taker's pass asked.
    ensures rounds { IfOk result (λ r.
        HaveRounds (length attrs.now) policy.now keeps r.2.items) }
    ensures asked { IfOk result (λ r. IsLeftWithLogs call_numbers reply_numbers Admits
        (state_numbers dir) attrs.now calls.now r.1.items keeps r.2.items) }
{
    let (pool, opened) = Pool::<Dir>::open(alloc, dir, attrs, BATCH, calls)?;
    let mut takers = with_logs(alloc, opened, keeps)?;
    let mut passes = Vec::with_capacity(alloc, attrs.len())?;
    let mut logs = Vec::with_capacity(alloc, attrs.len())?;
    take_in_threads(rt, &pool, policy, gate, &mut takers);
    take_apart(takers, &mut passes, &mut logs);
    let (dir, history) = close_in_order(pool, passes);
    Ok((dir, history, logs))
}
