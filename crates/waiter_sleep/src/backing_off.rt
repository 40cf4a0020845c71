//! The pauses between attempts, before a waiter queues or sleeps outside the queue.
ghost use Rattle.std.specs.Prelude.{◌≡◌, nat_lt};

use std::hint;

// So many hints long is the first pause; each next one is twice as long, up to so many doublings.
const FIRST_PAUSE: u32 = 20;

const DOUBLINGS: u32 = 3;

/// Spins after the attempt of this number, from 0 on, where it is one of the first ones, so many: whether it is.
pub fn spins_after(tried: u32, first: u32) -> bool
    ensures { result ≡ nat_lt tried first }
{
    if tried >= first {
        return false;
    }
    for _ in 0..FIRST_PAUSE << tried.min(DOUBLINGS) {
        hint::spin_loop();
    }
    true
}
