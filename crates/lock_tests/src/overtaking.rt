//! Departures counted over schedules in every form: nobody is preceded by more than the batch limit for each pass of the
//! line that it joined behind.
mod tally;
mod trial;

ghost use Rattle.std.specs.Prelude.{◌≡◌, ◌<◌, ◌≤◌};

use crate::checks::{holds, same};
use crate::one_seat::{parking, parking_and_sharing, sharing};
use shared_tests::{Act, Draws, Event, PLAIN};
use shfl_core::{Local, Waiter};
use shfl_line::{Attr, Form, NoMemory};
use shfl_park::Parked;
use shfl_rw_core::RwLocal;
use shfl_world::World;
use std::alloc::Global;
use trial::{Policy, Trial};

/// How many events a schedule has. Each form has six schedules.
const EVENTS: u32 = 20_000;

// Each pass has a class of its own.
const ATTRS: [Attr; 7] = [
    Attr {
        socket: 3,
        class: 0,
        ..PLAIN
    },
    Attr {
        socket: 0,
        class: 1,
        ..PLAIN
    },
    Attr {
        socket: 1,
        class: 2,
        ..PLAIN
    },
    Attr {
        socket: 2,
        class: 3,
        ..PLAIN
    },
    Attr {
        socket: 0,
        class: 4,
        ..PLAIN
    },
    Attr {
        socket: 1,
        class: 5,
        ..PLAIN
    },
    Attr {
        socket: 3,
        class: 6,
        ..PLAIN
    },
];

fn spinning(alloc: Global, limit: u16) -> Result<Trial<Local>, NoMemory>
    requires { (0 < limit) × (limit ≤ 1024) }
{
    let lock = World::open(alloc, &ATTRS, limit, Local::new)?;
    Trial::new(alloc, lock, Form::Spin, limit)
}

fn shared(alloc: Global, limit: u16) -> Result<Trial<RwLocal>, NoMemory>
    requires { (0 < limit) × (limit ≤ 1024) }
{
    let lock = World::open(alloc, &ATTRS, limit, sharing)?;
    Trial::new(alloc, lock, Form::Rw, limit)
}

fn parked(alloc: Global, limit: u16) -> Result<Trial<Parked<Local>>, NoMemory>
    requires { (0 < limit) × (limit ≤ 1024) }
{
    let lock = World::open(alloc, &ATTRS, limit, parking)?;
    Trial::new(alloc, lock, Form::Park, limit)
}

fn parked_and_shared(alloc: Global, limit: u16) -> Result<Trial<Parked<RwLocal>>, NoMemory>
    requires { (0 < limit) × (limit ≤ 1024) }
{
    let lock = World::open(alloc, &ATTRS, limit, parking_and_sharing)?;
    Trial::new(alloc, lock, Form::RwPark, limit)
}

// Whether a drawn schedule keeps within the bound, whoever answers.
fn stays_within<W: Waiter + Drop>(trial: &mut Trial<W>, seed: u64, policy: Policy) -> bool {
    let mut draws = Draws::new(seed);
    for _ in 0..EVENTS {
        let event = draws.event(ATTRS.len() as u32);
        if !trial.keeps_within(event, &ATTRS, policy) {
            return false;
        }
    }
    true
}

// So with answers that are drawn, and with a policy against one pass.
fn both_stay_within<W: Waiter + Drop>(trial: &mut Trial<W>, size: u16) -> bool {
    let seed = u64::from(size);
    let class = size % 7;
    stays_within(trial, seed, Policy::Drawn) && stays_within(trial, seed, Policy::Against { class })
}

#[test]
fn no_policy_overtakes_a_writer_that_spins_more_often_than_it_may(rt: HostRuntime) {
    for limit in 1..4u16 {
        let mut trial = spinning(rt.alloc(), limit).expect(&rt, "memory");
        holds(&rt, both_stay_within(&mut trial, limit));
    }
}

#[test]
fn no_policy_overtakes_a_reader_more_often_than_it_may(rt: HostRuntime) {
    for limit in 1..4u16 {
        let mut trial = shared(rt.alloc(), limit).expect(&rt, "memory");
        holds(&rt, both_stay_within(&mut trial, limit));
    }
}

#[test]
fn no_policy_overtakes_a_writer_that_parks_more_often_than_it_may(rt: HostRuntime) {
    for limit in 1..4u16 {
        let mut trial = parked(rt.alloc(), limit).expect(&rt, "memory");
        holds(&rt, both_stay_within(&mut trial, limit));
    }
}

#[test]
fn no_policy_overtakes_a_reader_that_parks_more_often_than_it_may(rt: HostRuntime) {
    for limit in 1..4u16 {
        let mut trial = parked_and_shared(rt.alloc(), limit).expect(&rt, "memory");
        holds(&rt, both_stay_within(&mut trial, limit));
    }
}

// A pass, which begins to take the lock or gives it back where it can, and the steps that it makes then. With a limit of
// 2 and a policy by socket, 3 joins behind 1 and 2, and 1, 4, 2 and 5 leave before it.
const OVERTAKEN: [(u32, u32); 22] = [
    (0, 1),
    (1, 4),
    (2, 4),
    (3, 4),
    (4, 4),
    (5, 4),
    (6, 4),
    (1, 19),
    (0, 1),
    (1, 4),
    (4, 2),
    (1, 1),
    (4, 4),
    (2, 16),
    (4, 1),
    (2, 4),
    (5, 2),
    (2, 1),
    (5, 4),
    (3, 5),
    (5, 1),
    (3, 4),
];

// Makes the pass's move where it can, and its steps.
fn plays<W: Waiter + Drop>(trial: &mut Trial<W>, pass: u32, steps: u32) -> bool {
    let acquires = Event {
        act: Act::Write,
        pass,
    };
    let frees = Event {
        act: Act::Free,
        pass,
    };
    let step = Event {
        act: Act::Step { choice: false },
        pass,
    };
    let mut within = trial.keeps_within(acquires, &ATTRS, Policy::BySocket)
        && trial.keeps_within(frees, &ATTRS, Policy::BySocket);
    for _ in 0..steps {
        if !trial.keeps_within(step, &ATTRS, Policy::BySocket) {
            within = false;
        }
    }
    within
}

#[test]
fn a_policy_overtakes_as_often_as_it_may(rt: HostRuntime) {
    let mut trial = spinning(rt.alloc(), 2).expect(&rt, "memory");
    for (at, row) in OVERTAKEN.iter().enumerate() {
        let within = plays(&mut trial, row.0, row.1);
        assert!(rt; within, "row {at}");
    }
    // 2, which joined behind 1, and 3
    same(&rt, &trial.reached(), &2);
}
