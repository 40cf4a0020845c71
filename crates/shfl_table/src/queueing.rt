//! When a pass that waits for the lock joins the queue.
ghost use Rattle.std.specs.Prelude.{◌≡◌};
ghost use Rattle.shfl_table.specs.Queueing.{attempts_before};

/// When a pass that waits for the lock joins the queue.
#[derive(Clone, Copy, Debug, PartialEq, Eq, Drop)]
pub enum Queueing {
    /// With its first step, unless that finds the lock free.
    AtOnce,
    /// After so many attempts in vain at most.
    After { attempts: u32 },
    /// At once where the chooser may move waiters up, and else after up to `MOST_ATTEMPTS` attempts.
    ByPolicy,
}

/// How many attempts a pass makes at most before it queues, where its chooser moves nobody up. Mostly it makes some ten, and sleeps in between.
pub const MOST_ATTEMPTS: u32 = 1000;

/// How many attempts a pass makes at most before it queues, where the chooser may move waiters up or may not.
#[inline(always)]
pub(crate) fn attempts_before(queueing: Queueing, moves_waiters: bool) -> u32
    ensures { result ≡ attempts_before queueing moves_waiters }
{
    match queueing {
        Queueing::AtOnce => 0,
        Queueing::After { attempts } => attempts,
        Queueing::ByPolicy => { if moves_waiters { 0 } else { MOST_ATTEMPTS } }
    }
}
