//! The places where the waiters of a lock sleep, by their numbers.
ghost use Rattle.std.specs.Prelude.{◌≡◌};

use crate::front::QueueFront;
use crate::passing::Calls;
use crate::sleeper::Sleeper;
use shfl_line::NoMemory;
use std::alloc::Global;
use std::sync::Wait;

// How many waiters behind the one that has the lock next are kept awake, so that none comes late to its turn.
const AHEAD: u32 = 3;

/// Places to sleep for the waiters of the first numbers. Of a waiter without one, nothing is noted, and nobody wakes it.
#[derive(Drop)]
pub struct Sleepers {
    places: Vec<Sleeper>,
}

impl Sleepers {
    /// So many places, for the waiters 0 and on.
    pub fn with_count(alloc: Global, count: u32) -> Result<Sleepers, NoMemory> {
        let mut places = Vec::with_capacity(alloc, count as usize)?;
        for _ in 0..count {
            places.push_reserved(Sleeper::new());
        }
        Ok(Sleepers { places })
    }

    /// The place of the waiter of this number.
    #[inline(always)]
    pub fn place(&self, number: u32) -> Option<&Sleeper> {
        self.places.get(number as usize)
    }

    /// Wakes the waiter of this number where it has announced that it sleeps: whether it has.
    #[inline(always)]
    pub fn rouse(&self, number: u32) -> bool {
        match self.place(number) {
            Some(sleeper) => sleeper.rouse(),
            None => false,
        }
    }

    /// Ends the sleep of the waiter of this number, or else its next one.
    pub fn wake(&self, number: u32) {
        if let Some(sleeper) = self.place(number) {
            sleeper.wake();
        }
    }

    /// The waiter of this number sleeps until it is woken, however long, or not at all where it has no place.
    pub fn sleep<R: Wait>(&self, rt: &R, number: u32) {
        if let Some(sleeper) = self.place(number) {
            sleeper.sleep(rt);
        }
    }

    /// The waiter of the first number has the other's behind it in the queue.
    pub fn stands_before(&self, number: u32, behind: u32) {
        if let Some(sleeper) = self.place(number) {
            sleeper.comes_before(behind);
        }
    }

    /// The waiter of this number is about to join the queue.
    pub fn stands_last(&self, number: u32) {
        if let Some(sleeper) = self.place(number) {
            sleeper.comes_last();
        }
    }

    // Wakes so many waiters that stand behind the one of this number.
    fn rouse_behind(&self, number: u32, count: u32) {
        let mut before = number;
        for _ in 0..count {
            let Some(sleeper) = self.place(before) else {
                return;
            };
            let Some(behind) = sleeper.behind() else {
                return;
            };
            let _ = self.rouse(behind);
            before = behind;
        }
    }

    /// Wakes the waiter that a holder has made the queue's head, and where it came so late that it slept, the next one too.
    pub fn rouse_heir(&self, front: &QueueFront, heir: u32) {
        if self.rouse(heir) {
            self.rouse_behind(heir, 1);
        }
        front.leads_to(heir);
    }

    /// Wakes the queue's head where it sleeps.
    pub fn rouse_head(&self, front: &QueueFront) {
        if let Some(number) = front.asleep() {
            let _ = self.rouse(number);
        }
    }

    // Calls one that sleeps outside the queue, where it is its turn. Whoever calls one to queue steps aside when it comes again.
    fn call_outside(&self, front: &QueueFront, lock: u32, number: u32) {
        let outside = front.outside();
        if !outside.sleeps_for(lock) {
            return;
        }
        match front.passing().passes(outside.is_left_alone()) {
            Calls::Nobody => {}
            Calls::One => {
                let _ = outside.call(lock);
            }
            Calls::OneToQueue => {
                if outside.call(lock) {
                    if let Some(sleeper) = self.place(number) {
                        sleeper.set_aside();
                    }
                }
            }
        }
    }

    // Wakes the head where it sleeps, or else one that sleeps outside the queue; and those whose turn comes after the next one. The head may be another
    // lock's, so where nobody waits awake one outside is called too.
    fn rouse_noted(&self, front: &QueueFront, lock: u32, number: u32) {
        let head = front.asleep();
        if let Some(head) = head {
            let _ = self.rouse(head);
        }
        if head.is_none() || front.outside().is_left_alone() {
            self.call_outside(front, lock, number);
        }
        if let Some(successor) = front.take_successor() {
            self.rouse_behind(successor, AHEAD);
        }
    }

    /// Wakes the queue's head where it sleeps, or calls one that sleeps outside it where none is there; and wakes those whose turn comes after the next
    /// one. It is made for the waiter of this number when it has just freed this lock, so that nobody waits for it; where nobody waits it loads
    /// two words.
    #[inline(always)]
    pub fn after_free(&self, front: &QueueFront, lock: u32, number: u32) {
        if front.is_noted() || front.outside().sleeps() {
            self.rouse_noted(front, lock, number);
        }
    }
}
