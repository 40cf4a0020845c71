//! The fronts of the queues of many locks.
use crate::front::QueueFront;
use shfl_line::NoMemory;
use std::alloc::Global;

// How many fronts serve the queues of many locks.
const MOST_FRONTS: u32 = 64;

/// The fronts of many locks' queues: up to 64, of 256 bytes each, so that far locks share one. Its hints are then those of whoever came last, and a holder
/// may wake a waiter of another lock, which looks once more than it needs to.
#[derive(Drop)]
pub struct QueueFronts {
    fronts: Vec<QueueFront>,
}

impl QueueFronts {
    /// The fronts for so many locks.
    pub fn with_count(alloc: Global, locks: u32) -> Result<QueueFronts, NoMemory> {
        let count = locks.min(MOST_FRONTS);
        let mut fronts = Vec::with_capacity(alloc, count as usize)?;
        for _ in 0..count {
            fronts.push_reserved(QueueFront::new());
        }
        Ok(QueueFronts { fronts })
    }

    /// The front of the queue of this lock.
    #[inline(always)]
    pub fn of(&self, lock: u32) -> Option<&QueueFront> {
        self.fronts.get((lock % MOST_FRONTS) as usize)
    }
}
