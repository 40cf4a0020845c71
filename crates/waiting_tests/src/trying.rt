//! What waiters do between attempts in vain, on one thread: when they sleep outside the queue, who calls them, and when they queue.
use crate::checks::same;
use shfl_line::Mode;
use std::alloc::Global;
use std::process::Abort;
use std::sync::Wait;
use waiter_sleep::{Attempted, QueueFront, Sleepers, Waiter};

/// Who waits for one lock, or for others that share its front.
#[derive(Drop)]
struct Room {
    sleepers: Sleepers,
    front: QueueFront,
}

impl Room {
    fn new(rt: &impl Abort, alloc: Global) -> Room {
        Room {
            sleepers: Sleepers::with_count(alloc, 4).ok().expect(rt, "memory"),
            front: QueueFront::new(),
        }
    }

    fn waiter_at(&self, number: u32, lock: u32) -> Waiter<'_> {
        Waiter {
            number,
            lock,
            sleepers: &self.sleepers,
            front: Some(&self.front),
        }
    }

    fn waiter(&self, number: u32) -> Waiter<'_> {
        self.waiter_at(number, 0)
    }

    /// The waiter of this number frees the lock.
    fn free(&self, number: u32) {
        self.sleepers.after_free(&self.front, 0, number);
    }
}

// How many attempts in vain are followed by the next one at once, and what comes then.
fn first_other(waiter: &Waiter<'_>) -> (u32, Attempted) {
    for again in 0..100 {
        let next = waiter.after_attempt(again);
        if next != Attempted::Again {
            return (again, next);
        }
    }
    (100, Attempted::Again)
}

// It tries in vain until it is about to sleep, after so many attempts more.
fn lies_down(rt: &impl Abort, waiter: &Waiter<'_>, attempts: u32) {
    same(rt, &first_other(waiter), &(attempts, Attempted::GivesWay));
}

// It sleeps, and what comes after the next attempt in vain.
fn sleeps<R: Abort + Wait>(rt: &R, waiter: &Waiter<'_>, mode: Mode, due: Attempted) {
    waiter.give_way(rt, mode);
    same(rt, &waiter.after_attempt(9), &due);
}

#[test]
fn who_sleeps_in_vain_queues(rt: HostRuntime) {
    let room = Room::new(&rt, rt.alloc());
    let waiter = room.waiter(1);
    lies_down(&rt, &waiter, 7);
    sleeps(&rt, &waiter, Mode::Write, Attempted::Queues);
    waiter.queue(&rt);
    waiter.end(&rt, Mode::Write);
    lies_down(&rt, &waiter, 7);
    waiter.end(&rt, Mode::Write);
}

#[test]
fn who_frees_the_lock_calls_one_that_sleeps_outside(rt: HostRuntime) {
    let room = Room::new(&rt, rt.alloc());
    let waiter = room.waiter(1);
    lies_down(&rt, &waiter, 7);
    room.free(0);
    sleeps(&rt, &waiter, Mode::Write, Attempted::Again);
    waiter.end(&rt, Mode::Write);
}

#[test]
fn who_frees_the_lock_calls_one_though_the_head_of_another_lock_sleeps(rt: HostRuntime) {
    let room = Room::new(&rt, rt.alloc());
    let waiter = room.waiter(1);
    lies_down(&rt, &waiter, 7);
    room.front.announce(2);
    room.free(0);
    sleeps(&rt, &waiter, Mode::Write, Attempted::Again);
    waiter.end(&rt, Mode::Write);
}

#[test]
fn the_eighth_hold_that_passes_calls_one_to_queue_and_its_holder_steps_aside(rt: HostRuntime) {
    let room = Room::new(&rt, rt.alloc());
    let waiter = room.waiter(1);
    lies_down(&rt, &waiter, 7);
    let beside = room.waiter(2);
    same(&rt, &beside.after_attempt(0), &Attempted::Again);
    for _ in 0..8 {
        room.free(3);
    }
    sleeps(&rt, &waiter, Mode::Write, Attempted::Queues);
    let holder = room.waiter(3);
    lies_down(&rt, &holder, 1);
    holder.end(&rt, Mode::Write);
    lies_down(&rt, &holder, 7);
    holder.end(&rt, Mode::Write);
    beside.end(&rt, Mode::Write);
    waiter.end(&rt, Mode::Write);
}

#[test]
fn a_reader_that_has_the_lock_calls_one_that_sleeps(rt: HostRuntime) {
    let room = Room::new(&rt, rt.alloc());
    let waiter = room.waiter(1);
    lies_down(&rt, &waiter, 7);
    let reader = room.waiter(2);
    same(&rt, &reader.after_attempt(0), &Attempted::Again);
    reader.end(&rt, Mode::Read);
    sleeps(&rt, &waiter, Mode::Read, Attempted::Again);
    waiter.end(&rt, Mode::Read);
}

#[test]
fn who_waits_for_another_lock_of_the_front_queues_in_place_of_sleeping(rt: HostRuntime) {
    let room = Room::new(&rt, rt.alloc());
    let waiter = room.waiter(1);
    lies_down(&rt, &waiter, 7);
    let far = room.waiter_at(2, 64);
    same(&rt, &first_other(&far), &(6, Attempted::Queues));
    far.end(&rt, Mode::Write);
    waiter.end(&rt, Mode::Write);
    lies_down(&rt, &far, 7);
    far.end(&rt, Mode::Write);
}

// After which attempt it queues, having yielded before, from the sixth on.
fn queues_after(rt: &impl Wait, waiter: &Waiter<'_>) -> u32 {
    for tried in 6..100 {
        if waiter.after_attempt(tried) == Attempted::Queues {
            return tried;
        }
        waiter.give_way(rt, Mode::Write);
    }
    100
}

#[test]
fn who_cannot_sleep_yields_and_then_queues(rt: HostRuntime) {
    let room = Room::new(&rt, rt.alloc());
    let waiter = Waiter {
        number: 1,
        lock: 0,
        sleepers: &room.sleepers,
        front: None,
    };
    same(&rt, &first_other(&waiter), &(6, Attempted::GivesWay));
    same(&rt, &queues_after(&rt, &waiter), &38);
    waiter.end(&rt, Mode::Write);
}
