//! The place where one waiter sleeps.
use crate::tries::Remembered;
use crossbeam_utils::CachePadded;
use std::hint;
use std::sync::Wait;
use std::sync::atomic::{AtomicU64, Ordering};
use std::time::Duration;

// Nobody sleeps here, and nobody was woken.
const EMPTY: u64 = 0;

// A wake came, and the waiter hasn't seen it yet.
const NOTIFIED: u64 = 1;

// The waiter sleeps, or has announced that it is about to.
const PARKED: u64 = 2;

// How often a waiter looks for a wake before it sleeps.
const LOOKS: u32 = 100;

#[derive(Drop)]
struct Place {
    state: AtomicU64,
    // The number plus 1 of the waiter behind it in the queue, or 0.
    behind: AtomicU64,
    // 1 where the waiter has called another one to queue since it waited last.
    aside: AtomicU64,
    // What it remembers of its attempts in vain.
    remembered: Remembered,
}

/// Where one waiter sleeps, and which waiter stands behind it in the queue. Its words have cache lines to themselves: it takes 128 bytes.
#[derive(Drop)]
pub struct Sleeper {
    place: CachePadded<Place>,
}

impl Sleeper {
    /// A place where nobody sleeps, with nobody behind it.
    pub fn new() -> Sleeper {
        Sleeper {
            place: CachePadded::new(Place {
                state: AtomicU64::new(EMPTY),
                behind: AtomicU64::new(0),
                aside: AtomicU64::new(0),
                remembered: Remembered::new(),
            }),
        }
    }

    #[inline(always)]
    fn state(&self) -> &AtomicU64 {
        let place: &Place = &self.place;
        &place.state
    }

    // What its waiter remembers of its attempts in vain.
    pub(crate) fn remembered(&self) -> &Remembered {
        let place: &Place = &self.place;
        &place.remembered
    }

    /// The waiter of this number stands behind it now.
    pub fn comes_before(&self, number: u32) {
        let place: &Place = &self.place;
        place.behind.store(u64::from(number) + 1, Ordering::SeqCst);
    }

    /// Nobody stands behind it.
    pub fn comes_last(&self) {
        let place: &Place = &self.place;
        place.behind.store(0, Ordering::SeqCst);
    }

    /// The number of the waiter behind it, where it knows of one.
    pub fn behind(&self) -> Option<u32> {
        let place: &Place = &self.place;
        match place.behind.load(Ordering::SeqCst) {
            0 => None,
            next => Some(((next - 1) & 4294967295) as u32),
        }
    }

    // Its waiter lets one pass the next time that it waits.
    pub(crate) fn set_aside(&self) {
        let place: &Place = &self.place;
        place.aside.store(1, Ordering::SeqCst);
    }

    // Whether it does so now.
    pub(crate) fn takes_aside(&self) -> bool {
        let place: &Place = &self.place;
        let aside = place.aside.load(Ordering::SeqCst) != 0;
        if aside {
            place.aside.store(0, Ordering::SeqCst);
        }
        aside
    }

    // Whether the state was this one, and is the other now.
    fn turns(&self, from: u64, to: u64) -> bool {
        let state = self.state();
        state
            .compare_exchange(from, to, Ordering::SeqCst, Ordering::SeqCst)
            .is_ok()
    }

    // Whether a wake came while the waiter looked.
    fn is_woken_soon(&self) -> bool {
        let state = self.state();
        for _ in 0..LOOKS {
            if state.load(Ordering::SeqCst) == NOTIFIED {
                return self.turns(NOTIFIED, EMPTY);
            }
            hint::spin_loop();
        }
        false
    }

    /// Waits for a wake, however long: it looks a while, and then sleeps. A wake that came before ends it at once.
    pub fn sleep<R: Wait>(&self, rt: &R) {
        if self.is_woken_soon() {
            return;
        }
        let _ = self.turns(EMPTY, PARKED);
        let state = self.state();
        for _ in rt.forever() {
            if self.turns(NOTIFIED, EMPTY) {
                return;
            }
            state.park(rt, PARKED as u32);
        }
    }

    /// Announces that a waiter is about to sleep here, so that `rouse` wakes it from now on. False where a wake came before, which is used
    /// up.
    pub fn announce(&self) -> bool {
        if self.turns(NOTIFIED, EMPTY) {
            return false;
        }
        let _ = self.turns(EMPTY, PARKED);
        true
    }

    /// Sleeps for so many microseconds at most, or not at all where a wake came since the announcement: whether one came. The
    /// announcement stands no more.
    pub fn sleep_at_most<R: Wait>(&self, rt: &R, micros: u32) -> bool {
        let state = self.state();
        state.park_timeout(rt, PARKED as u32, Duration::from_micros(u64::from(micros)));
        state.swap(EMPTY, Ordering::SeqCst) == NOTIFIED
    }

    /// Takes the announcement back, and forgets a wake.
    pub fn rise(&self) {
        let state = self.state();
        state.store(EMPTY, Ordering::SeqCst);
    }

    /// Wakes whoever has announced that it sleeps here, and else does nothing but look: whether there was one.
    #[inline(always)]
    pub fn rouse(&self) -> bool {
        let sleeps = self.state().load(Ordering::SeqCst) == PARKED;
        if sleeps {
            self.wake();
        }
        sleeps
    }

    /// Ends the sleep that is going on here, or else the next one. Only a waiter that really sleeps costs a call of the system.
    pub fn wake(&self) {
        let state = self.state();
        if state.swap(NOTIFIED, Ordering::SeqCst) == PARKED {
            state.wake_one();
        }
    }
}
