//! The gate of the program.
use std::sync::Wait;
use std::sync::atomic::AtomicU64;
use std::time::Duration;
use syn_outer::{Gate, Point};

// So long a call stays where it holds the lock, in microseconds: longer than a worker tries for it before it queues.
const STAY: u64 = 3_000;

/// Lets each call stay a while where it holds the lock. The calls of a trace are so brief that their workers would hardly ever meet, and
/// their policies would be asked nothing.
#[derive(Drop)]
pub struct Lingering {
    // nobody wakes whoever sleeps at it
    word: AtomicU64,
}

impl Lingering {
    pub fn new() -> Lingering {
        Lingering {
            word: AtomicU64::new(0),
        }
    }
}

impl Gate for Lingering {
    fn at<Rt: Wait>(&self, rt: &Rt, _worker: u32, point: Point) {
        if let Point::Holding = point {
            self.word.park_timeout(rt, 0, Duration::from_micros(STAY));
        }
    }
}
