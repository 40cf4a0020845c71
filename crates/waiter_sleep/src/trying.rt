//! What a waiter does before it queues, between its attempts and behind them.
use crate::backing_off::spins_after;
use crate::tries::{Attempted, SPINS};
use crate::waiter::Waiter;
use shfl_line::Mode;
use std::sync::Wait;
use std::thread;

// How many attempts more one makes that can't sleep outside the queue, each after it has given its processor away.
const YIELDS: u32 = 32;

// It has no place to sleep, or no front. `tried` attempts were in vain before this one.
fn yields_or_queues(tried: u32) -> Attempted {
    if spins_after(tried, SPINS) {
        return Attempted::Again;
    }
    if tried >= SPINS.saturating_add(YIELDS) {
        return Attempted::Queues;
    }
    Attempted::GivesWay
}

impl Waiter<'_> {
    /// What comes after its attempt in vain of this number, from 0 on since it came. It has spun already, where that is all.
    pub fn after_attempt(&self, tried: u32) -> Attempted {
        let (Some(sleeper), Some(front)) = (self.place(), self.front) else {
            return yields_or_queues(tried);
        };
        let mut tries = sleeper.remembered().load();
        let next = tries.after_attempt(self, front);
        sleeper.remembered().keep(&tries);
        next
    }

    /// Sleeps outside the queue until a holder calls it, or for 50 milliseconds at most; who can't sleep there yields. What a reader counted in vain may be
    /// what the queue's head found in its way, so it wakes that one before.
    pub fn give_way<R: Wait>(&self, rt: &R, mode: Mode) {
        let (Some(sleeper), Some(front)) = (self.place(), self.front) else {
            thread::yield_now();
            return;
        };
        let mut tries = sleeper.remembered().load();
        if !tries.is_lying_down() {
            thread::yield_now();
            return;
        }
        if matches!(mode, Mode::Read) {
            self.sleepers.rouse_head(front);
        }
        tries.sleeps(rt, front);
        sleeper.remembered().keep(&tries);
    }

    /// It joins the queue.
    pub fn queue<R: Wait>(&self, rt: &R) {
        if let (Some(sleeper), Some(front)) = (self.place(), self.front) {
            let mut tries = sleeper.remembered().load();
            tries.queues(rt, self, front);
            sleeper.remembered().keep(&tries);
        }
    }

    /// It has the lock, after an attempt in vain or from the queue. A reader calls another one that sleeps outside and may share the lock, where nobody else waits awake.
    pub fn end<R: Wait>(&self, rt: &R, mode: Mode) {
        let (Some(sleeper), Some(front)) = (self.place(), self.front) else {
            return;
        };
        let mut tries = sleeper.remembered().load();
        tries.leaves(rt, front);
        sleeper.remembered().forget();
        let outside = front.outside();
        if matches!(mode, Mode::Read) && outside.sleeps() && outside.is_left_alone() {
            let _ = outside.call(self.lock);
        }
    }
}
