//! How many holds have passed those that sleep outside a lock's queue, and whom the next one that ends calls.
use std::sync::atomic::{AtomicU64, Ordering};

// Between two sleepers that are called to queue so many holds pass as passed while the last one came, times this, and within these.
const TIMES_APART: u64 = 8;

const LEAST_APART: u64 = 8;

const MOST_APART: u64 = 1000;

/// Whom the holder that leaves is to call.
#[derive(Drop)]
pub(crate) enum Calls {
    Nobody,
    /// One, who tries again.
    One,
    /// One, who queues.
    OneToQueue,
}

#[derive(Drop)]
pub(crate) struct Passing {
    // The holds that ended while somebody slept. Two that end at once may count as one.
    holds: AtomicU64,
    // How many of them had ended when somebody was called to queue last.
    promoted_at: AtomicU64,
    // 1 where one was called to queue and hasn't come yet.
    promoted: AtomicU64,
    // How many are to end until the next one is called to queue.
    apart: AtomicU64,
}

impl Passing {
    pub(crate) fn new() -> Passing {
        Passing {
            holds: AtomicU64::new(0),
            promoted_at: AtomicU64::new(0),
            promoted: AtomicU64::new(0),
            apart: AtomicU64::new(LEAST_APART),
        }
    }

    /// How many holds have passed sleepers.
    pub(crate) fn holds(&self) -> u64 {
        self.holds.load(Ordering::SeqCst)
    }

    // How many have since this one.
    fn since(&self, at: &AtomicU64, holds: u64) -> u64 {
        holds.wrapping_sub(at.load(Ordering::SeqCst))
    }

    /// A hold has passed those that sleep: whom its holder calls. `alone` says whether nobody else waits awake.
    pub(crate) fn passes(&self, alone: bool) -> Calls {
        let holds = self.holds().wrapping_add(1);
        self.holds.store(holds, Ordering::SeqCst);
        let apart = self.apart.load(Ordering::SeqCst);
        if self.since(&self.promoted_at, holds) >= apart {
            self.promoted_at.store(holds, Ordering::SeqCst);
            self.promoted.store(1, Ordering::SeqCst);
            return Calls::OneToQueue;
        }
        if alone { Calls::One } else { Calls::Nobody }
    }

    /// Whether who was called, and has come, is the one that is to queue.
    pub(crate) fn is_to_queue(&self) -> bool {
        if self.promoted.load(Ordering::SeqCst) == 0
            || self.promoted.swap(0, Ordering::SeqCst) == 0
        {
            return false;
        }
        let came_after = self.since(&self.promoted_at, self.holds());
        let apart = came_after.saturating_mul(TIMES_APART);
        self.apart
            .store(apart.max(LEAST_APART).min(MOST_APART), Ordering::SeqCst);
        true
    }
}
