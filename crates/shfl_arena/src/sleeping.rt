//! Where threads sleep, and who wakes them: places in the arena, on which no proof rests.
use crate::arena::Arena;
use crate::seats::ArenaSeat;
use shfl_core::{Nap, PassState, Phase, Registers};
use waiter_sleep::{Stand, Waiter};

/// Where a seat stands that looked in vain. In no other phase does it.
pub(crate) fn stand_of(phase: Phase) -> Stand {
    match phase {
        Phase::Look => Stand::Queued,
        Phase::Late => Stand::Leaving,
        _ => Stand::Head,
    }
}

impl<V: Drop> Arena<V> {
    /// The seat at this lock, as its pauses know it.
    pub(crate) fn waiter_at(&self, seat: &ArenaSeat<V>, lock: u32) -> Waiter<'_> {
        Waiter {
            number: seat.number(),
            lock,
            sleepers: &self.sleepers,
            front: self.fronts.of(lock),
        }
    }

    /// The seat at the lock of its last call.
    pub(crate) fn waiter(&self, seat: &ArenaSeat<V>) -> Waiter<'_> {
        self.waiter_at(seat, seat.lock())
    }

    // Wakes the thread that a step has made the head of the lock's queue.
    fn rouse_heir(&self, lock: u32, heir: u32) {
        if let Some(front) = self.fronts.of(lock) {
            self.sleepers.rouse_heir(front, heir);
        }
    }

    // Wakes the head of the lock's queue.
    fn rouse_head(&self, lock: u32) {
        if let Some(front) = self.fronts.of(lock) {
            self.sleepers.rouse_head(front);
        }
    }

    // What a step of a phase tells the others that sleep: who was made ready, or was given the shuffler's flag, is woken, and the head, which a reader's
    // count that was taken back may have kept out; and who stands behind whom is noted.
    fn tell_sleepers(&self, phase: Phase, reg: &Registers, lock: u32) {
        let sleepers = &self.sleepers;
        match phase {
            Phase::Init => sleepers.stands_last(reg.me),
            Phase::Link => sleepers.stands_before(reg.before, reg.me),
            Phase::Place => {
                sleepers.stands_before(reg.prev, reg.after);
                sleepers.stands_before(reg.cand, reg.first);
                sleepers.stands_before(reg.last, reg.cand);
            }
            Phase::Ready => self.rouse_heir(lock, reg.heir),
            // who keeps the flag is awake, and must not end its own next sleep
            Phase::Give => {
                if reg.last != reg.me {
                    let _ = sleepers.rouse(reg.last);
                }
            }
            Phase::Uncount => self.rouse_head(lock),
            _ => {}
        }
    }

    /// Wakes whom the step that a seat has made from here has set going.
    pub(crate) fn rouse_others(&self, before: PassState, seat: &ArenaSeat<V>) {
        match before.nap {
            Nap::Awake => self.tell_sleepers(before.phase, &seat.standing().reg, seat.lock()),
            Nap::Ring { whom } => {
                let _ = self.sleepers.rouse(whom);
            }
            Nap::Doze | Nap::Hear | Nap::Rouse => {}
        }
    }

    /// Wakes the head of a lock's queue where it sleeps, or one that sleeps outside it, and those whose turn comes after the next one. It is made for the
    /// thread of this number when it has just freed the lock; where nobody waits it loads two words.
    #[inline(always)]
    pub(crate) fn rouse_after(&self, lock: u32, number: u32) {
        if let Some(front) = self.fronts.of(lock) {
            self.sleepers.after_free(front, lock, number);
        }
    }
}
