//! Two callers.
use crate::checks::{holds, same};
use shared_tests::PLAIN;
use shfl_core::{Access, Local, Nap, Phase, Waiter, Word};
use shfl_line::Mode;
use shfl_park::Parked;

#[test]
fn a_waiter_in_no_batch_dozes(rt: HostRuntime) {
    let mut waiter = Parked::new(Local::new(2, PLAIN, 1024));
    let begun = waiter.acquire(Mode::Write);
    holds(&rt, begun);

    // The lock is held, and pass 1 stands before it: lost, cleared, queued behind 1, linked, looked.
    waiter.take(1, false);
    waiter.take(0, false);
    waiter.take(2, false);
    waiter.take(0, false);
    same(&rt, &waiter.phase(), &Phase::Look);
    waiter.take(0, false);
    same(&rt, &waiter.nap(), &Nap::Doze);
    let announces = Access::Or {
        w: Word::State(2),
        v: 4,
    };
    same(&rt, &waiter.plan(), &announces);
    waiter.take(0, false);
    same(&rt, &waiter.nap(), &Nap::Hear);
}

#[test]
fn a_holder_rings_the_successor_that_sleeps(rt: HostRuntime) {
    let mut waiter = Parked::new(Local::new(0, PLAIN, 1024));
    let begun = waiter.acquire(Mode::Write);
    holds(&rt, begun);

    // The lock is held, and nobody waits: lost, cleared, queued, closed, and a round that is skipped.
    waiter.take(1, false);
    waiter.take(0, false);
    waiter.take(0, false);
    waiter.take(1, false);
    waiter.take(0, true);
    waiter.take(65536, false);

    // Then it is free: seen, taken, and pass 2 stands behind, parked.
    waiter.take(256, false);
    waiter.take(256, false);
    waiter.take(3, false);
    same(&rt, &waiter.phase(), &Phase::Ready);
    waiter.take(4, false);
    same(&rt, &waiter.nap(), &Nap::Ring { whom: 2 });
    let early = waiter.release();
    holds(&rt, !early);
    let rings = Access::Store {
        w: Word::Bell(2),
        v: 1,
    };
    same(&rt, &waiter.plan(), &rings);
    waiter.take(0, false);
    same(&rt, &waiter.nap(), &Nap::Awake);
    let freed = waiter.release();
    holds(&rt, freed);
}
