//! Places to sleep, the fronts of queues, and the pauses, on one thread.
use crate::checks::{holds, same};
use std::alloc::Global;
use std::process::Abort;
use waiter_sleep::{Pause, Pauses, QueueFront, QueueFronts, Sleepers, Stand, Waiter};

// Places for so many waiters.
fn places(rt: &impl Abort, alloc: Global, count: u32) -> Sleepers {
    Sleepers::with_count(alloc, count).ok().expect(rt, "memory")
}

// Four waiters, each with the next one behind it.
fn in_a_row(rt: &impl Abort, alloc: Global) -> Sleepers {
    let sleepers = places(rt, alloc, 4);
    for number in 0..3 {
        sleepers.stands_before(number, number + 1);
    }
    sleepers.stands_last(3);
    sleepers
}

// The waiters of one queue, and its front.
#[derive(Drop)]
struct Queue {
    sleepers: Sleepers,
    front: QueueFront,
}

impl Queue {
    fn new(rt: &impl Abort, alloc: Global) -> Queue {
        Queue {
            sleepers: in_a_row(rt, alloc),
            front: QueueFront::new(),
        }
    }

    fn waiter(&self, number: u32) -> Waiter<'_> {
        Waiter {
            number,
            lock: 0,
            sleepers: &self.sleepers,
            front: Some(&self.front),
        }
    }
}

// Whether the waiter of this number announces that it sleeps: not where it was woken before.
fn announces(sleepers: &Sleepers, number: u32) -> bool {
    match sleepers.place(number) {
        Some(sleeper) => sleeper.announce(),
        None => false,
    }
}

// The waiter announces that it sleeps.
fn sleeps(rt: &impl Abort, sleepers: &Sleepers, number: u32) {
    holds(rt, announces(sleepers, number));
}

// The waiter was woken before it announced that it sleeps.
fn was_woken(rt: &impl Abort, sleepers: &Sleepers, number: u32) {
    holds(rt, !announces(sleepers, number));
}

#[test]
fn a_wake_ends_the_next_sleep(rt: HostRuntime) {
    let sleepers = in_a_row(&rt, rt.alloc());
    sleepers.wake(2);
    sleepers.sleep(&rt, 2);
    sleeps(&rt, &sleepers, 2);
    sleepers.wake(9);
    sleepers.sleep(&rt, 9);
}

#[test]
fn only_who_announced_it_is_roused(rt: HostRuntime) {
    let sleepers = in_a_row(&rt, rt.alloc());
    holds(&rt, !sleepers.rouse(1));
    sleeps(&rt, &sleepers, 1);
    holds(&rt, sleepers.rouse(1));
    holds(&rt, !sleepers.rouse(1));
    was_woken(&rt, &sleepers, 1);
    sleeps(&rt, &sleepers, 1);
}

#[test]
fn a_sleep_with_an_end_tells_whether_a_wake_came(rt: HostRuntime) {
    let sleepers = in_a_row(&rt, rt.alloc());
    let sleeper = sleepers.place(0).expect(&rt, "a place");
    holds(&rt, sleeper.announce());
    holds(&rt, !sleeper.sleep_at_most(&rt, 10));
    holds(&rt, sleeper.announce());
    sleeper.wake();
    holds(&rt, sleeper.sleep_at_most(&rt, 10_000_000));
    holds(&rt, sleeper.announce());
    sleeper.wake();
    sleeper.rise();
    holds(&rt, sleeper.announce());
}

// All four sleep but the one of this number, which has just been made the head.
fn all_but_the_head_sleep(rt: &impl Abort, sleepers: &Sleepers, front: &QueueFront) {
    for number in 1..4 {
        sleeps(rt, sleepers, number);
    }
    sleepers.rouse_heir(front, 0);
    holds(rt, front.is_noted());
}

#[test]
fn who_frees_the_lock_wakes_the_next_three(rt: HostRuntime) {
    let sleepers = in_a_row(&rt, rt.alloc());
    let front = QueueFront::new();
    all_but_the_head_sleep(&rt, &sleepers, &front);
    sleepers.after_free(&front, 0, 9);
    for number in 1..4 {
        was_woken(&rt, &sleepers, number);
    }
    holds(&rt, !front.is_noted());
}

#[test]
fn an_heir_that_slept_is_woken_with_the_next_one(rt: HostRuntime) {
    let sleepers = in_a_row(&rt, rt.alloc());
    let front = QueueFront::new();
    for number in 0..3 {
        sleeps(&rt, &sleepers, number);
    }
    sleepers.rouse_heir(&front, 0);
    was_woken(&rt, &sleepers, 0);
    was_woken(&rt, &sleepers, 1);
    holds(&rt, sleepers.rouse(2));
}

// Who is noted as the head that sleeps.
fn is_asleep(rt: &impl Abort, front: &QueueFront, due: Option<u32>) {
    same(rt, &front.asleep(), &due);
}

#[test]
fn who_frees_the_lock_wakes_the_head_that_sleeps(rt: HostRuntime) {
    let sleepers = in_a_row(&rt, rt.alloc());
    let front = QueueFront::new();
    front.announce(3);
    is_asleep(&rt, &front, Some(3));
    sleeps(&rt, &sleepers, 3);
    sleepers.after_free(&front, 0, 9);
    was_woken(&rt, &sleepers, 3);
    front.rise(2);
    is_asleep(&rt, &front, Some(3));
    front.rise(3);
    is_asleep(&rt, &front, None);
    holds(&rt, !front.is_noted());
}

#[test]
fn a_front_notes_the_head_and_the_heir_apart(rt: HostRuntime) {
    let front = QueueFront::new();
    front.leads_to(65_534);
    front.announce(7);
    is_asleep(&rt, &front, Some(7));
    same(&rt, &front.take_successor(), &Some(65_534));
    same(&rt, &front.take_successor(), &None);
    is_asleep(&rt, &front, Some(7));
}

// The fronts of so many locks.
fn fronts(rt: &impl Abort, alloc: Global, locks: u32) -> QueueFronts {
    QueueFronts::with_count(alloc, locks)
        .ok()
        .expect(rt, "memory")
}

#[test]
fn two_locks_have_two_fronts(rt: HostRuntime) {
    let few = fronts(&rt, rt.alloc(), 2);
    holds(&rt, few.of(1).is_some());
    holds(&rt, few.of(2).is_none());
}

#[test]
fn far_locks_share_a_front(rt: HostRuntime) {
    let many = fronts(&rt, rt.alloc(), 1_000_000);
    let near = many.of(5).expect(&rt, "a front");
    let far = many.of(5 + 64 * 1000).expect(&rt, "a front");
    near.announce(1);
    is_asleep(&rt, far, Some(1));
}

// The first pause after looks in vain that is none, and how many looks came before.
fn first_pause(pauses: &mut Pauses, waiter: &Waiter<'_>, stand: Stand) -> (u32, Pause) {
    for looks in 0..5000 {
        let pause = pauses.after_look(waiter, stand);
        if pause.gives_way() {
            return (looks, pause);
        }
    }
    (5000, Pause::Look)
}

#[test]
fn a_waiter_announces_its_sleep_and_sleeps_longer_each_time(rt: HostRuntime) {
    let queue = Queue::new(&rt, rt.alloc());
    let waiter = queue.waiter(1);
    let mut pauses = Pauses::begin(&waiter);
    same(&rt, &queue.front.waiting(), &1);
    let first = first_pause(&mut pauses, &waiter, Stand::Queued);
    same(&rt, &first, &(101, Pause::Sleep { micros: 50 }));
    pauses.take(&rt, &waiter, first.1);
    let second = pauses.after_look(&waiter, Stand::Queued);
    same(&rt, &second, &Pause::Sleep { micros: 100 });
    pauses.end(&waiter);
    same(&rt, &queue.front.waiting(), &0);
    holds(&rt, !queue.sleepers.rouse(1));
}

#[test]
fn the_head_that_sleeps_is_noted(rt: HostRuntime) {
    let queue = Queue::new(&rt, rt.alloc());
    let waiter = queue.waiter(2);
    let mut pauses = Pauses::begin(&waiter);
    let first = first_pause(&mut pauses, &waiter, Stand::Head);
    same(&rt, &first, &(1001, Pause::Sleep { micros: 50 }));
    is_asleep(&rt, &queue.front, Some(2));
    queue.sleepers.after_free(&queue.front, 0, 9);
    pauses.take(&rt, &waiter, first.1);
    same(&rt, &pauses.after_look(&waiter, Stand::Head), &Pause::Look);
    pauses.end(&waiter);
    is_asleep(&rt, &queue.front, None);
}

#[test]
fn a_waiter_without_a_place_yields(rt: HostRuntime) {
    let sleepers = places(&rt, rt.alloc(), 0);
    let waiter = Waiter {
        number: 1,
        lock: 0,
        sleepers: &sleepers,
        front: None,
    };
    let mut pauses = Pauses::begin(&waiter);
    let queued = first_pause(&mut pauses, &waiter, Stand::Queued);
    same(&rt, &queued, &(100, Pause::Yield));
    pauses.advance();
    let leaving = first_pause(&mut pauses, &waiter, Stand::Leaving);
    same(&rt, &leaving, &(1000, Pause::Yield));
    pauses.end(&waiter);
}
