//! Where passes sleep: places in the board, on which no proof rests.
ghost use Rattle.std.specs.Prelude.{◌≡◌};

use crate::board::SharedBoard;
use crate::kept::Kept;
use crate::passes::Pass;
use shfl_core::Phase;
use std::sync::Wait;
use waiter_sleep::{Stand, Waiter};

/// Where a pass stands that looked in vain. In no other phase does it.
pub(crate) fn stand_of(phase: Phase) -> Stand {
    match phase {
        Phase::Look => Stand::Queued,
        Phase::Late => Stand::Leaving,
        _ => Stand::Head,
    }
}

impl<V: Kept + Drop> SharedBoard<V> {
    /// The pass of this number, as its pauses know it.
    pub(crate) fn waiter(&self, number: u32) -> Waiter<'_> {
        Waiter {
            number,
            lock: 0,
            sleepers: &self.sleepers,
            front: Some(&self.front),
        }
    }
}

impl<V: Kept + Drop> Pass<V> {
    /// Waits until another pass wakes this one, or not at all where one did so since the last sleep. It looks a while before it
    /// sleeps, and a sleeping thread uses no processor time. No word and no view changes, and nobody's step waits for it. It is made
    /// for a pass that has parked and found its wakeup flag unset. A pass without a place to sleep goes on at once.
    pub fn sleep<R: Wait>(&self, rt: &R, board: &SharedBoard<V>)
        requires board { self.now.board ≡ board.now.id }
    {
        board.sleepers.sleep(rt, self.number());
    }

    /// Wakes the pass of this number from its sleep, or keeps it from the next one. No word and no view changes. It is made for a
    /// pass that has set the other one's wakeup flag. Where that one has no place to sleep it does nothing.
    pub fn wake<R: Wait>(&self, _rt: &R, board: &SharedBoard<V>, whom: u32)
        requires board { self.now.board ≡ board.now.id }
    {
        board.sleepers.wake(whom);
    }
}
