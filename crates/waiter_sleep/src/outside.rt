//! Who waits for a lock outside its queue: how many are awake, how many sleep, and how many of these were called and haven't risen yet.
use std::sync::Wait;
use std::sync::atomic::{AtomicU64, Ordering};
use std::time::Duration;

// One that waits awake, one that sleeps, and one that was called, in the word of the counts. Above them stands whose they are, where
// several locks share the word.
const AWAKE: u64 = 1;

const ASLEEP: u64 = 65536;

const CALLED: u64 = 4294967296;

// The most of the first two, and of the third.
const MOST: u64 = 65535;

const MOST_CALLED: u64 = 16383;

const ASLEEP_BIT: u32 = 16;

const CALLED_BIT: u32 = 32;

const OWNER_BIT: u32 = 46;

// Locks whose numbers differ by a multiple of this share a word, and are told apart by the rest.
const SHARING: u32 = 64;

// How often a waiter tries to be counted where others write to the word meanwhile.
const TRIES: u32 = 64;

// A sleeper that nobody calls looks again after so many milliseconds.
const LONGEST_SLEEP: u64 = 50;

// The half of the word of calls that a sleeper compares.
const LOW: u64 = 4294967295;

#[derive(Drop)]
pub(crate) struct Outside {
    counts: AtomicU64,
    // How often somebody was called.
    calls: AtomicU64,
}

fn awake(counts: u64) -> u64 {
    counts & MOST
}

#[inline(always)]
fn asleep(counts: u64) -> u64 {
    counts >> ASLEEP_BIT & MOST
}

fn called(counts: u64) -> u64 {
    counts >> CALLED_BIT & MOST_CALLED
}

// Whose counts these are.
fn owner(counts: u64) -> u64 {
    counts >> OWNER_BIT
}

// What the word has for a lock of which nobody is counted.
fn empty(lock: u32) -> u64 {
    u64::from(lock / SHARING) << OWNER_BIT
}

fn is_empty(counts: u64) -> bool {
    awake(counts) == 0 && asleep(counts) == 0 && called(counts) == 0
}

impl Outside {
    pub(crate) fn new() -> Outside {
        Outside {
            counts: AtomicU64::new(0),
            calls: AtomicU64::new(0),
        }
    }

    #[inline(always)]
    fn counts(&self) -> u64 {
        self.counts.load(Ordering::SeqCst)
    }

    // Whether the counts were these, and are the others now.
    fn turns(&self, from: u64, to: u64) -> bool {
        self.counts
            .compare_exchange(from, to, Ordering::SeqCst, Ordering::SeqCst)
            .is_ok()
    }

    /// Whether somebody sleeps, for whichever lock.
    #[inline(always)]
    pub(crate) fn sleeps(&self) -> bool {
        asleep(self.counts()) != 0
    }

    /// Whether somebody sleeps for this lock.
    pub(crate) fn sleeps_for(&self, lock: u32) -> bool {
        let counts = self.counts();
        asleep(counts) != 0 && owner(counts) == owner(empty(lock))
    }

    /// Whether nobody waits awake, and none that was called is about to.
    pub(crate) fn is_left_alone(&self) -> bool {
        let counts = self.counts();
        awake(counts) == 0 && called(counts) == 0
    }

    /// How many wait, awake or asleep.
    pub(crate) fn waiting(&self) -> u64 {
        let counts = self.counts();
        awake(counts)
            .wrapping_add(asleep(counts))
            .wrapping_add(called(counts))
    }

    // Counts one more for this lock: whether it did. It doesn't where another lock's waiters are counted.
    fn counts_in(&self, lock: u32, one: u64) -> bool {
        for _ in 0..TRIES {
            let found = self.counts();
            let before = if is_empty(found) { empty(lock) } else { found };
            if owner(before) != owner(empty(lock)) {
                return false;
            }
            if self.turns(found, before.wrapping_add(one)) {
                return true;
            }
        }
        false
    }

    /// One more waits awake for this lock: whether it is counted.
    pub(crate) fn enters(&self, lock: u32) -> bool {
        self.counts_in(lock, AWAKE)
    }

    /// One that was counted awake is no more.
    pub(crate) fn leaves(&self) {
        let _ = self.counts.fetch_sub(AWAKE, Ordering::SeqCst);
    }

    /// One that was counted awake, or wasn't counted, is about to sleep: whether it is counted there.
    pub(crate) fn lies_down(&self, lock: u32, is_awake: bool) -> bool {
        if !is_awake {
            return self.counts_in(lock, ASLEEP);
        }
        let _ = self
            .counts
            .fetch_add(ASLEEP.wrapping_sub(AWAKE), Ordering::SeqCst);
        true
    }

    /// One that was counted asleep is awake. It takes up the call, where one is out; else it wasn't called.
    pub(crate) fn rises<R: Wait>(&self, rt: &R) {
        for _ in rt.forever() {
            let found = self.counts();
            let from = if called(found) != 0 { CALLED } else { ASLEEP };
            if self.turns(found, found.wrapping_sub(from).wrapping_add(AWAKE)) {
                return;
            }
        }
    }

    /// Calls the one that has slept longest for this lock, if one sleeps: whether it did. It counts as called until it rises.
    pub(crate) fn call(&self, lock: u32) -> bool {
        for _ in 0..TRIES {
            let found = self.counts();
            let is_its = owner(found) == owner(empty(lock));
            if !is_its || asleep(found) == 0 || called(found) == MOST_CALLED {
                return false;
            }
            if self.turns(found, found.wrapping_sub(ASLEEP).wrapping_add(CALLED)) {
                let _ = self.calls.fetch_add(1, Ordering::SeqCst);
                self.calls.wake_one();
                return true;
            }
        }
        false
    }

    /// How often somebody was called.
    pub(crate) fn calls(&self) -> u64 {
        self.calls.load(Ordering::SeqCst)
    }

    /// Sleeps until somebody is called, or for a while, or not at all where that was so since there were so many calls.
    pub(crate) fn sleep<R: Wait>(&self, rt: &R, calls: u64) {
        self.calls.park_timeout(
            rt,
            (calls & LOW) as u32,
            Duration::from_millis(LONGEST_SLEEP),
        );
    }
}
