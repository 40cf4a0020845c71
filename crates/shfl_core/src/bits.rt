//! What single bits of the lock word and of a state word say. In both words bit 0 is named, so each is asked by its own name.
ghost use Rattle.std.specs.Prelude.{◌≡◌};
ghost use Rattle.shfl_line.specs.Words as words;

use shfl_line::{CLOSED, PARKED, SHUFFLER, SPIN};

/// Whether the lock word `lock` says that a writer holds.
#[inline(always)]
pub fn held_of(lock: u64) -> bool
    ensures { result ≡ words.held_of lock }
{
    lock % 2 == 1
}

/// Whether the lock word `lock` says that stealing is disabled.
#[inline(always)]
pub fn closed_of(lock: u64) -> bool
    ensures { result ≡ words.closed_of lock }
{
    lock / CLOSED % 2 == 1
}

/// Whether the state word `state` says that its pass is the queue's head.
#[inline(always)]
pub fn ready_of(state: u64) -> bool
    ensures { result ≡ words.ready_of state }
{
    state % 2 == 1
}

/// Whether the state word `state` has the shuffler's flag.
#[inline(always)]
pub fn shuffler_of(state: u64) -> bool
    ensures { result ≡ words.shuffler_of state }
{
    state / SHUFFLER % 2 == 1
}

/// Whether the state word `state` has its pass's announcement that it parks.
#[inline(always)]
pub fn parked_of(state: u64) -> bool
    ensures { result ≡ words.parked_of state }
{
    state / PARKED % 2 == 1
}

/// Whether the state word `state` tells its pass to spin, since it is in a batch.
#[inline(always)]
pub fn spin_of(state: u64) -> bool
    ensures { result ≡ words.spin_of state }
{
    state / SPIN % 2 == 1
}
