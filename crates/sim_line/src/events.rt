//! The moves of a run as the events of a schedule.
ghost use Rattle.std.specs.Prelude.{◌≡◌, ◌<◌, ◌≤◌, ◌++◌, [], length, map, take, IfOk, IsOk};
ghost use Rattle.sim_line.specs.Events as events;
ghost use Rattle.sim_model.specs.Runs as runs;

use shfl_core::PlainWorld;
use shfl_line::{Attr, Mode, NoMemory};
use sim_model::{
    AnyWaiter, Bench, Entry, Turn, in_vain, mode_of, next_entry, open_lock, opening, take_turn,
};
use sim_setup::{Adviser, Setup};
use std::alloc::{AllocError, Global};

/// What a pass does to the lock: it asks for it, alone or as a reader, gives it back, or makes its next step.
#[derive(Clone, Copy, Drop)]
pub enum Event {
    Write(u32),
    Read(u32),
    Free(u32),
    Step(u32),
}

fn call_event(mode: Mode, pass: u32) -> Event
    ensures { result ≡ events.call_event mode pass }
{
    match mode {
        Mode::Write => Event::Write(pass),
        Mode::Read => Event::Read(pass),
    }
}

// The events of a turn, behind those before it.
fn note_turn(
    setup: &Setup,
    lock: &PlainWorld<AnyWaiter>,
    bench: &Bench,
    entry: Entry,
    found: &mut Vec<Event>,
) -> Result<(), AllocError>
    requires declared { entry.pass < length lock.now.world.passes }
    requires few { length lock.now.world.passes ≤ 64 }
    ensures { IsOk result → found.new.items ≡ found.old.items
        ++ events.turn_events setup.now lock.now.world bench.now entry.pass entry.turn }
{
    let pass = entry.pass;
    match entry.turn {
        Turn::Call { tried } => {
            if in_vain(setup, lock, bench, pass, tried) {
                return Ok(());
            }
            let mut draw = bench.draws[pass as usize];
            found.push(call_event(mode_of(setup, &mut draw), pass))?;
        }
        Turn::Step => {}
        Turn::Free => found.push(Event::Free(pass))?,
        Turn::Gain { .. } => return Ok(()),
    }
    found.push(Event::Step(pass))?;
    Ok(())
}

// Makes so many turns at most, until there are so many events.
fn run_events<A: Adviser>(
    setup: &Setup,
    adviser: &A,
    lock: &mut PlainWorld<AnyWaiter>,
    bench: &mut Bench,
    found: &mut Vec<Event>,
    turns: u32,
    most: usize,
) -> Result<(), NoMemory>
    requires passes { length lock.old.world.passes ≡ setup.now.passes }
    requires few { setup.now.passes ≤ 64 }
    requires rules { lock.old.rules ≡ setup.now.rules }
    requires lines { setup.now.work.lines ≤ 64 }
    ensures first { IsOk result → take most found.new.items ≡ take most (found.old.items
        ++ events.events_of setup.now (A.answers adviser.now) turns
        (runs.state_of lock.old bench.old [])) }
{
    for turn in 0..turns {
        if found.len() >= most {
            return Ok(());
        }
        let Some(entry) = next_entry(setup, bench) else {
            return Ok(());
        };
        note_turn(setup, lock, bench, entry, found)?;
        take_turn(setup, adviser, lock, bench, entry);
    }
    Ok(())
}

/// The first events of a run, so many at most: what it does to the lock, as a schedule says it.
pub fn first_events<A: Adviser>(
    alloc: Global,
    setup: &Setup,
    attrs: &[Attr],
    adviser: &A,
    turns: u32,
    most: usize,
) -> Result<Vec<Event>, NoMemory>
    requires passes { (0 < length attrs.now) × (length attrs.now ≤ 64) }
    requires limited { (0 < setup.now.rules.limit) × (setup.now.rules.limit ≤ 1024) }
    requires lines { setup.now.work.lines ≤ 64 }
    requires cores { setup.now.passes ≡ length attrs.now }
    ensures first { IfOk result (λ v. v.items ≡ events.first_events setup.now
        (A.answers adviser.now) turns attrs.now most) }
{
    let mut lock = open_lock(alloc, attrs, setup.rules)?;
    let mut bench = opening(setup);
    let mut found = Vec::new(alloc);
    run_events(
        setup, adviser, &mut lock, &mut bench, &mut found, turns, most,
    )?;
    found.truncate(most);
    Ok(found)
}
