//! How the threads of a test tell each other how far they are.
use std::sync::Wait;
use std::sync::atomic::{AtomicU64, Ordering};
use std::time::Duration;

/// Sleeps for so many microseconds, on a word that nobody else knows.
pub fn nap<R: Wait>(rt: &R, micros: u32) {
    AtomicU64::new(0).park_timeout(rt, 0, Duration::from_micros(u64::from(micros)));
}

/// How often a thread looks for what another one is to do, before it gives up.
pub const LOOKS: u32 = 100_000;

/// Waits until the sign is at least so high, for a while at most.
pub fn await_sign<R: Wait>(rt: &R, sign: &AtomicU64, least: u64) {
    for _ in 0..LOOKS {
        if sign.load(Ordering::SeqCst) >= least {
            return;
        }
        nap(rt, 100);
    }
}

/// Gives the sign.
pub fn give_sign(sign: &AtomicU64) {
    sign.store(1, Ordering::SeqCst);
}
