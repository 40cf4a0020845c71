//! Schedules drawn at random run on a lock over shared words as they do on one over plain words, in every form.
mod boards;

ghost use Rattle.std.specs.Prelude.{◌≡◌, ◌<◌, ◌≤◌};
ghost use Rattle.shfl_core.specs.Waiting.{fresh};
ghost use Rattle.shfl_line.specs.declared.events.Form.TheVariants.{Rw as RwForm, Park as ParkForm, RwPark as RwParkForm};

use crate::checks::{holds, same};
use boards::Boards;
use shared_tests::{Draws, PLAIN};
use shfl_core::{Board, Local, PlainWorld, Waiter};
use shfl_line::{Attr, Form, Mode, NoMemory};
use shfl_park::Parked;
use shfl_rw_core::RwLocal;
use shfl_solo::Solo;
use shfl_world::World;
use std::alloc::Global;

/// How many events a schedule has.
const EVENTS: u32 = 2_000;

const OTHER: Attr = Attr {
    socket: 1,
    prio: 2,
    class: 3,
    kind: 4,
};

const ATTRS: [Attr; 7] = [PLAIN, OTHER, PLAIN, PLAIN, OTHER, PLAIN, OTHER];

pub fn sharing(me: u32, attr: Attr, limit: u16) -> RwLocal
    ensures { result ≡ fresh me attr (record { limit = limit; form = RwForm }) }
{
    RwLocal::new(me, attr, limit, Form::Rw)
}

pub fn parking(me: u32, attr: Attr, limit: u16) -> Parked<Local>
    ensures { result ≡ fresh me attr (record { limit = limit; form = ParkForm }) }
{
    Parked::new(Local::new(me, attr, limit))
}

pub fn parking_and_sharing(me: u32, attr: Attr, limit: u16) -> Parked<RwLocal>
    ensures { result ≡ fresh me attr (record { limit = limit; form = RwParkForm }) }
{
    Parked::new(sharing(me, attr, limit))
}

// Whether a schedule runs alike on all boards.
fn runs_alike<W: Waiter + Drop>(boards: &mut Boards<W>, seed: u64) -> bool {
    let mut draws = Draws::new(seed);
    for _ in 0..EVENTS {
        let event = draws.event(ATTRS.len() as u32);
        if !boards.make(event) || !boards.agree() {
            return false;
        }
    }
    true
}

fn spinning(alloc: Global, limit: u16) -> Result<Boards<Local>, NoMemory>
    requires { (0 < limit) × (limit ≤ 1024) }
{
    let plain = PlainWorld::open(alloc, &ATTRS, limit, Local::new)?;
    let world = World::open(alloc, &ATTRS, limit, Local::new)?;
    let solo = Solo::open(alloc, &ATTRS, Form::Spin, limit)?;
    Boards::new(alloc, plain, world, solo, Form::Spin)
}

fn shared(alloc: Global, limit: u16) -> Result<Boards<RwLocal>, NoMemory>
    requires { (0 < limit) × (limit ≤ 1024) }
{
    let plain = PlainWorld::open(alloc, &ATTRS, limit, sharing)?;
    let world = World::open(alloc, &ATTRS, limit, sharing)?;
    let solo = Solo::open(alloc, &ATTRS, Form::Rw, limit)?;
    Boards::new(alloc, plain, world, solo, Form::Rw)
}

fn parked(alloc: Global, limit: u16) -> Result<Boards<Parked<Local>>, NoMemory>
    requires { (0 < limit) × (limit ≤ 1024) }
{
    let plain = PlainWorld::open(alloc, &ATTRS, limit, parking)?;
    let world = World::open(alloc, &ATTRS, limit, parking)?;
    let solo = Solo::open(alloc, &ATTRS, Form::Park, limit)?;
    Boards::new(alloc, plain, world, solo, Form::Park)
}

fn parked_and_shared(alloc: Global, limit: u16) -> Result<Boards<Parked<RwLocal>>, NoMemory>
    requires { (0 < limit) × (limit ≤ 1024) }
{
    let plain = PlainWorld::open(alloc, &ATTRS, limit, parking_and_sharing)?;
    let world = World::open(alloc, &ATTRS, limit, parking_and_sharing)?;
    let solo = Solo::open(alloc, &ATTRS, Form::RwPark, limit)?;
    Boards::new(alloc, plain, world, solo, Form::RwPark)
}

// A batch limit: small ones, and the largest.
fn limit(size: u16) -> u16
    requires { 0 < size }
    ensures { (0 < result) × (result ≤ 1024) }
{
    if size < 3 { size } else { 1024 }
}

#[test]
fn one_caller_takes_the_free_lock_and_gives_it_back(rt: HostRuntime) {
    let attrs = [PLAIN];
    let mut lock = Solo::open(rt.alloc(), &attrs, Form::Spin, 1024).expect(&rt, "memory");
    let begun = lock.acquire(0, Mode::Write);
    holds(&rt, begun);
    let stolen = lock.step(0, false);
    holds(&rt, stolen);
    same(&rt, &lock.word(), &1);
    let given = lock.release(0);
    holds(&rt, given);
    let freed = lock.step(0, false);
    holds(&rt, freed);
    same(&rt, &lock.word(), &0);
}

#[test]
fn writers_that_spin_run_alike(rt: HostRuntime) {
    for size in 1..4u16 {
        let mut boards = spinning(rt.alloc(), limit(size)).expect(&rt, "memory");
        holds(&rt, runs_alike(&mut boards, u64::from(size)));
    }
}

#[test]
fn readers_and_writers_run_alike(rt: HostRuntime) {
    for size in 1..4u16 {
        let mut boards = shared(rt.alloc(), limit(size)).expect(&rt, "memory");
        holds(&rt, runs_alike(&mut boards, u64::from(size)));
    }
}

#[test]
fn writers_that_park_run_alike(rt: HostRuntime) {
    for size in 1..4u16 {
        let mut boards = parked(rt.alloc(), limit(size)).expect(&rt, "memory");
        holds(&rt, runs_alike(&mut boards, u64::from(size)));
    }
}

#[test]
fn readers_and_writers_that_park_run_alike(rt: HostRuntime) {
    for size in 1..4u16 {
        let mut boards = parked_and_shared(rt.alloc(), limit(size)).expect(&rt, "memory");
        holds(&rt, runs_alike(&mut boards, u64::from(size)));
    }
}
