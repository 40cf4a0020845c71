//! The run: turn after turn, the soonest first.
ghost use Rattle.std.specs.Prelude.{◌≡◌, ◌<◌, ◌≤◌, ◌++◌, length, IfOk, IfSome, IsOk};
ghost use Rattle.shfl_core.specs.Runner as runner;
ghost use Rattle.sim_model.specs.Runs as runs;
ghost use Rattle.sim_model.specs.Steps.{made_by, settled};

use crate::bench::{Bench, opening};
use crate::calls::{gained, in_order, mode_of, overtake, served_at, touch_data};
use crate::locks::open_lock;
use crate::steps::{settle, step_lock};
use crate::tries::{attempt, begun, in_vain};
use crate::turns::{Entry, Stand, Turn, soonest};
use crate::waiter::AnyWaiter;
use shfl_core::PlainWorld;
use shfl_line::{Attr, Mode, NoMemory};
use sim_setup::{Adviser, Setup, core_at, plus};
use std::alloc::Global;

/// A run that has ended: what was counted, and the waits in the order of their gains.
#[derive(Drop)]
pub struct Run {
    pub bench: Bench,
    pub waits: Vec<u64>,
}

// The pass makes its next step, whose access begins at this time.
fn step<A: Adviser>(
    setup: &Setup,
    adviser: &A,
    lock: &mut PlainWorld<AnyWaiter>,
    bench: &mut Bench,
    pass: u32,
    at: u64,
)
    requires declared { pass < length lock.old.world.passes }
    requires few { length lock.old.world.passes ≤ 1024 }
    requires rules { lock.old.rules ≡ setup.now.rules }
    ensures lock { lock.new ≡ runner.moved lock.old
        (runs.step_move setup.now (A.answers adviser.now) lock.old.world pass) }
    ensures bench { bench.new ≡ settled setup.now bench.old pass
        (made_by setup.now (A.answers adviser.now) lock.old.world pass) at }
{
    let made = step_lock(setup, adviser, lock, pass);
    settle(setup, bench, pass, &made, at);
}

// The pass asks for the lock, after so many attempts.
fn call(
    setup: &Setup,
    lock: &mut PlainWorld<AnyWaiter>,
    bench: &mut Bench,
    pass: u32,
    tried: u32,
    at: u64,
)
    requires declared { pass < length lock.old.world.passes }
    requires few { length lock.old.world.passes ≤ 1024 }
    requires rules { lock.old.rules ≡ setup.now.rules }
    ensures lock { lock.new ≡ runner.moved lock.old (runs.call_move setup.now bench.old pass) }
    ensures bench { bench.new ≡ runs.with_call setup.now bench.old pass tried at }
{
    let mut draw = bench.draws[pass as usize];
    let mode = mode_of(setup, &mut draw);
    bench.draws[pass as usize] = draw;
    bench.served[pass as usize] = begun(served_at(&bench.served, pass), tried, at);
    lock.acquire(pass, mode);
}

// The pass has the lock, in this mode: how long it has waited.
#[tactic(auto, unfolding(crate::specs::Runs::with_gain))]
fn gain(setup: &Setup, bench: &mut Bench, pass: u32, mode: Mode, stolen: bool, at: u64) -> u64
    requires declared { pass < 1024 }
    requires few { setup.now.work.lines ≤ 64 }
    ensures wait { result ≡ runs.wait_of bench.old pass at }
    ensures bench { bench.new ≡ runs.with_gain setup.now bench.old pass mode stolen at }
{
    let core = core_at(&setup.cores, pass);
    let own = served_at(&bench.served, pass);
    let wait = at.saturating_sub(own.called);
    let read = matches!(mode, Mode::Read);
    overtake(&mut bench.served, setup.passes, own.called);
    bench.served[pass as usize] = gained(own, wait, read, stolen);
    in_order(&mut bench.order, pass, core.attr.socket);
    let ends = touch_data(
        &setup.costs,
        core,
        read,
        setup.work.lines,
        at,
        &mut bench.lines,
        &mut bench.counts.data,
    );
    bench.stands[pass as usize] = Stand::Due {
        at: plus(ends, u64::from(setup.work.hold)),
        turn: Turn::Free,
    };
    wait
}

/// What a pass does at its turn: how long it has waited, where it gains.
pub fn take_turn<A: Adviser>(
    setup: &Setup,
    adviser: &A,
    lock: &mut PlainWorld<AnyWaiter>,
    bench: &mut Bench,
    entry: Entry,
) -> Option<u64>
    requires declared { entry.pass < length lock.old.world.passes }
    requires few { length lock.old.world.passes ≤ 1024 }
    requires rules { lock.old.rules ≡ setup.now.rules }
    requires lines { setup.now.work.lines ≤ 64 }
    ensures lock { lock.new ≡ runs.after_moves lock.old (runs.turn_moves setup.now
        (A.answers adviser.now) lock.old.world bench.old entry.pass entry.turn) }
    ensures bench { bench.new ≡ runs.turn_bench setup.now
        (A.answers adviser.now) lock.old.world bench.old entry.pass entry.at entry.turn }
    ensures wait { result ≡ runs.turn_wait bench.old entry.pass entry.at entry.turn }
{
    let Entry { at, pass, turn } = entry;
    match turn {
        Turn::Call { tried } => {
            if in_vain(setup, lock, bench, pass, tried) {
                attempt(setup, bench, pass, tried, at);
                return None;
            }
            call(setup, lock, bench, pass, tried, at);
        }
        Turn::Step => {}
        Turn::Free => {
            lock.release(pass);
        }
        Turn::Gain { stolen } => {
            let mode = lock.standing(pass).reg.mode;
            return Some(gain(setup, bench, pass, mode, stolen, at));
        }
    }
    step(setup, adviser, lock, bench, pass, at);
    None
}

/// The turn that comes next, unless it comes after the end.
pub fn next_entry(setup: &Setup, bench: &Bench) -> Option<Entry>
    requires { setup.now.passes ≤ 1024 }
    ensures next { result ≡ runs.next_turn setup.now bench.now }
    ensures declared { IfSome result (λ e. e.pass < setup.now.passes) }
{
    match soonest(&bench.stands, setup.passes) {
        Some(entry) if entry.at <= setup.until => Some(entry),
        _ => None,
    }
}

/// Whether a run that stands so has turns left before its end.
pub fn is_cut(setup: &Setup, bench: &Bench) -> bool
    requires { setup.now.passes ≤ 1024 }
    ensures { result ≡ runs.is_cut setup.now bench.now }
{
    next_entry(setup, bench).is_some()
}

/// Up to when a run that stands so has come: its end, or where it is cut the time of the turn that would come next.
pub fn time_reached(setup: &Setup, bench: &Bench) -> u64
    requires { setup.now.passes ≤ 1024 }
    ensures { result ≡ runs.time_reached setup.now bench.now }
{
    match next_entry(setup, bench) {
        None => setup.until,
        Some(entry) => entry.at,
    }
}

// One wait more, where there is one.
fn note(waits: &mut Vec<u64>, wait: Option<u64>) -> Result<(), NoMemory>
    ensures { IsOk result → waits.new.items ≡ waits.old.items ++ runs.listed wait }
{
    match wait {
        None => Ok(()),
        Some(wait) => match waits.push(wait) {
            Ok(()) => Ok(()),
            Err(_) => Err(NoMemory),
        },
    }
}

// Makes so many turns at most.
fn run_turns<A: Adviser>(
    setup: &Setup,
    adviser: &A,
    lock: &mut PlainWorld<AnyWaiter>,
    bench: &mut Bench,
    waits: &mut Vec<u64>,
    most: u32,
) -> Result<(), NoMemory>
    requires passes { length lock.old.world.passes ≡ setup.now.passes }
    requires few { setup.now.passes ≤ 1024 }
    requires rules { lock.old.rules ≡ setup.now.rules }
    requires lines { setup.now.work.lines ≤ 64 }
    ensures run { IsOk result → runs.state_of lock.new bench.new waits.new.items
        ≡ runs.ran setup.now (A.answers adviser.now) most
        (runs.state_of lock.old bench.old waits.old.items) }
{
    for turn in 0..most {
        let Some(entry) = next_entry(setup, bench) else {
            return Ok(());
        };
        let wait = take_turn(setup, adviser, lock, bench, entry);
        note(waits, wait)?;
    }
    Ok(())
}

/// Runs the passes with these attributes until the end, or for so many turns at most.
pub fn simulate<A: Adviser>(
    alloc: Global,
    setup: &Setup,
    attrs: &[Attr],
    adviser: &A,
    most: u32,
) -> Result<Run, NoMemory>
    requires passes { (0 < length attrs.now) × (length attrs.now ≤ 1024) }
    requires limited { (0 < setup.now.rules.limit) × (setup.now.rules.limit ≤ 1024) }
    requires lines { setup.now.work.lines ≤ 64 }
    requires cores { setup.now.passes ≡ length attrs.now }
    ensures bench { IfOk result (λ r. r.bench ≡ (runs.ran setup.now (A.answers adviser.now) most
        (runs.opening_state setup.now attrs.now)).bench) }
    ensures waits { IfOk result (λ r. r.waits.items ≡ (runs.ran setup.now (A.answers adviser.now)
        most (runs.opening_state setup.now attrs.now)).waits) }
{
    let mut lock = open_lock(alloc, attrs, setup.rules)?;
    let mut bench = opening(setup);
    let mut waits = Vec::new(alloc);
    run_turns(setup, adviser, &mut lock, &mut bench, &mut waits, most)?;
    Ok(Run { bench, waits })
}
