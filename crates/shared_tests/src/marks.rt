//! How often something happened, and waits for that.
use std::sync::atomic::{AtomicU64, Ordering};
use std::thread;

// How often a wait looks. After one that ends so, no wait with the same sign waits any more.
const LOOKS: u32 = 100_000_000;

/// How often something happened.
#[derive(Drop)]
pub struct Mark {
    count: AtomicU64,
}

impl Mark {
    pub fn new() -> Mark {
        Mark {
            count: AtomicU64::new(0),
        }
    }

    /// Counts one more.
    pub fn set(&self) {
        self.count.fetch_add(1, Ordering::SeqCst);
    }

    /// How often it was set.
    pub fn count(&self) -> u64 {
        self.count.load(Ordering::SeqCst)
    }

    /// Waits until it was set so often; where that takes too many looks, sets `late`.
    pub fn wait(&self, times: u64, late: &Mark) {
        for _ in 0..LOOKS {
            if self.count() >= times || late.count() > 0 {
                return;
            }
            thread::yield_now();
        }
        late.set();
    }
}
