//! The tries that a seat makes before it queues.
ghost use Rattle.std.specs.Prelude.{◌≡◌, ◌<◌, true, false, None};
ghost use Rattle.shfl_core.specs.Plan as plan;
ghost use Rattle.shfl_core.specs.Waiting.{MayUse};
ghost use Rattle.shfl_arena.specs.Threads.{mode_held};
ghost use Rattle.shfl_arena.specs.Waits.{TookAtOnce, TriedInVain, WaitsFor, attempts_before};

use crate::arena::Arena;
use crate::seats::ArenaSeat;
use shfl_line::Mode;
use std::sync::Wait;
use waiter_sleep::Attempted;

/// How many attempts a seat makes at most before it queues, where the chooser moves nobody up. Mostly it makes some ten, and sleeps in between.
pub const MOST_ATTEMPTS: u32 = 1000;

/// How many attempts a seat makes at most before it queues, where the chooser may move waiters up or may not.
#[inline(always)]
pub(crate) fn attempts_before(moves_waiters: bool) -> u32
    ensures { result ≡ attempts_before moves_waiters }
{
    if moves_waiters { 1 } else { MOST_ATTEMPTS }
}

// What comes after the attempt of this number in vain at a lock: whether the seat tries again.
fn tries_again<V: Drop, Rt: Wait>(
    rt: &Rt,
    arena: &Arena<V>,
    seat: &ArenaSeat<V>,
    lock: u32,
    mode: Mode,
    tried: u32,
) -> bool {
    let waiter = arena.waiter_at(seat, lock);
    match waiter.after_attempt(tried) {
        Attempted::Again => true,
        Attempted::Queues => false,
        Attempted::GivesWay => {
            waiter.give_way(rt, mode);
            true
        }
    }
}

/// Makes at most so many attempts to take a lock without queueing, with pauses between them: whether the seat holds it. Each attempt fails while
/// stealing is disabled, as it is while others queue.
pub(crate) fn try_first<V: Drop, Rt: Wait>(
    rt: &Rt,
    arena: &Arena<V>,
    seat: &mut ArenaSeat<V>,
    lock: u32,
    mode: Mode,
    attempts: u32,
) -> bool
    requires arena { seat.old.arena ≡ arena.now.id }
    requires rests { plan.moving seat.old.own ≡ false }
    requires lock { lock < seat.old.arena.shape.locks }
    requires mode { MayUse seat.old.arena.rules.form mode }
    requires free { mode_held lock seat.old.holds ≡ None }
    ensures waited { result ≡ true → WaitsFor lock mode seat.old seat.new }
    ensures rests { plan.moving seat.new.own ≡ false }
    ensures won { result ≡ true → TookAtOnce attempts lock mode seat.old seat.new }
    ensures lost { result ≡ false → TriedInVain mode attempts seat.old seat.new }
    ensures asked { seat.new.decisions ≡ seat.old.decisions }
{
    for tried in 0..attempts {
        if seat.attempt(arena, lock, mode).is_ok() {
            if tried != 0 {
                arena.waiter_at(seat, lock).end(rt, mode);
            }
            return true;
        }
        if !tries_again(rt, arena, seat, lock, mode, tried) {
            return false;
        }
    }
    false
}
