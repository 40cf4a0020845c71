//! The loop in which a seat waits for a lock.
ghost use Rattle.std.specs.Prelude.{◌≡◌, ◌<◌, false, true, None, Some};
ghost use Rattle.shfl_line.specs.Policies.{Adds};
ghost use Rattle.shfl_line.specs.declared.events.Mode.TheVariants.{Write};
ghost use Rattle.shfl_core.specs.Asking.{end_told, is_last_of_round, question_told, step_told};
ghost use Rattle.shfl_core.specs.Plan as plan;
ghost use Rattle.shfl_core.specs.Waiting.{MayUse};
ghost use Rattle.shfl_arena.specs.SeatSteps.{TakesStep};
ghost use Rattle.shfl_arena.specs.Threads.{mode_held};
ghost use Rattle.shfl_arena.specs.ValueMoves.{HasInFront};
ghost use Rattle.shfl_arena.specs.Waits.{AsksInRounds, Frees, TriesAtMost, WaitsFor, attempts_before};

use crate::arena::Arena;
use crate::outcomes::{Outcome, outcome_of};
use crate::pausing::pause_after;
use crate::seats::ArenaSeat;
use crate::trying::{attempts_before, try_first};
use shfl_core::{Ask, Nap, Phase};
use shfl_line::{Attr, Chooser, Mode};
use std::sync::Wait;
use waiter_sleep::Pauses;

// The policy's answer to what the next step asks. The first question of a round opens it.
fn answer<C: Chooser, Rt: Wait>(rt: &Rt, chooser: &mut C, anchor: &Attr, ask: Ask) -> bool
    ensures home { C.home chooser.new ≡ C.home chooser.old }
    ensures told { Adds (C.told chooser.old) (C.told chooser.new)
        (question_told anchor.now ask result) }
{
    match ask {
        Ask::Nothing => false,
        Ask::Skip { batch } => {
            chooser.begin(rt);
            chooser.skip(anchor, batch)
        }
        Ask::Should { waiter, batch } => chooser.should(anchor, &waiter, batch),
    }
}

// Closes a round whose last step this was.
fn close_round<C: Chooser>(chooser: &mut C, ended: bool)
    ensures home { C.home chooser.new ≡ C.home chooser.old }
    ensures told { Adds (C.told chooser.old) (C.told chooser.new) (end_told ended) }
{
    if ended {
        chooser.end();
    }
}

// Whether the next step ends a round.
fn ends_round(phase: Phase, nap: Nap) -> bool
    ensures { result ≡ is_last_of_round phase nap }
{
    matches!(nap, Nap::Awake) && matches!(phase, Phase::Give)
}

// One step, with what goes round it, and what came of it.
fn step_on<V: Drop, C: Chooser, Rt: Wait>(
    rt: &Rt,
    arena: &Arena<V>,
    seat: &mut ArenaSeat<V>,
    anchor: &Attr,
    chooser: &mut C,
) -> Outcome
    requires arena { seat.old.arena ≡ arena.now.id }
    requires moving { plan.moving seat.old.own ≡ true }
    ensures home { C.home chooser.new ≡ C.home chooser.old }
    ensures row { (choice : _) × TakesStep seat.old choice seat.new
        × Adds (C.told chooser.old) (C.told chooser.new)
        (step_told anchor.now seat.old.arena.rules seat.old.own choice) }
{
    let before = seat.standing();
    let ask = seat.ask();
    let choice = answer(rt, chooser, anchor, ask);
    let found = seat.step_found(arena, choice);
    close_round(chooser, ends_round(before.phase, before.nap));
    arena.rouse_others(before, seat);
    outcome_of(before, found, seat.standing())
}

// Disables stealing again where the queue's head found it enabled.
fn keep_disabled<V: Drop>(arena: &Arena<V>, seat: &mut ArenaSeat<V>, lock: u32, outcome: Outcome)
    requires arena { seat.old.arena ≡ arena.now.id }
    requires lock { lock < seat.old.arena.shape.locks }
    ensures { seat.new ≡ seat.old }
{
    if matches!(outcome, Outcome::InVainOpen) {
        seat.disable_stealing(arena, lock);
    }
}

/// Takes a lock that the seat doesn't hold, in a mode, and waits until it holds the lock and owes no step. It tries without queueing, once
/// where the chooser may move waiters up and else up to `MOST_ATTEMPTS` times, and then queues; while it tries it asks nothing. The
/// chooser answers what the steps ask: it is opened before a round's first question, and closed after the round's last step. `anchor`
/// has the attributes of the thread. A step that looked in vain is followed by a pause, and no other but the last of a round that moved
/// nobody: the thread spins, and then sleeps until it is made ready, or finds the lock freed, or for a while. At the queue's head a look in vain that
/// finds stealing enabled disables it.
pub fn wait_for<V: Drop, C: Chooser, Rt: Wait>(
    rt: &Rt,
    arena: &Arena<V>,
    seat: &mut ArenaSeat<V>,
    lock: u32,
    mode: Mode,
    anchor: &Attr,
    chooser: &mut C,
)
    requires arena { seat.old.arena ≡ arena.now.id }
    requires rests { plan.moving seat.old.own ≡ false }
    requires lock { lock < seat.old.arena.shape.locks }
    requires mode { MayUse seat.old.arena.rules.form mode }
    requires free { mode_held lock seat.old.holds ≡ None }
    ensures home { C.home chooser.new ≡ C.home chooser.old }
    ensures rests { plan.moving seat.new.own ≡ false }
    ensures waited { WaitsFor lock mode seat.old seat.new }
    ensures tried { TriesAtMost (attempts_before (C.moves_waiters chooser.old)) lock mode
        seat.old seat.new }
    ensures asked { AsksInRounds anchor.now seat.old.decisions seat.new.decisions
        (C.told chooser.old) (C.told chooser.new) }
{
    let attempts = attempts_before(chooser.may_move_waiters());
    if try_first(rt, arena, seat, lock, mode, attempts) {
        return;
    }
    arena.waiter_at(seat, lock).queue(rt);
    let _ = seat.acquire(lock, mode);
    let mut pauses = Pauses::begin(&arena.waiter(seat));
    for _ in rt.forever() {
        if !seat.moving() {
            pauses.end(&arena.waiter(seat));
            arena.waiter_at(seat, lock).end(rt, mode);
            return;
        }
        let outcome = step_on(rt, arena, seat, anchor, chooser);
        keep_disabled(arena, seat, lock, outcome);
        pause_after(rt, arena, seat, &mut pauses, outcome);
    }
    unreachable!()
}

/// Frees a lock that the seat holds in this mode, with its value in and in front where it has one, and wakes the queue's head where that sleeps, and those
/// who come next, or one that sleeps outside the queue.
#[inline(always)]
pub fn free<V: Drop>(arena: &Arena<V>, seat: &mut ArenaSeat<V>, lock: u32, mode: Mode)
    requires arena { seat.old.arena ≡ arena.now.id }
    requires rests { plan.moving seat.old.own ≡ false }
    requires lock { lock < seat.old.arena.shape.locks }
    requires holds { mode_held lock seat.old.holds ≡ Some mode }
    requires value { mode ≡ Write → lock < seat.old.arena.table.slots
        → HasInFront lock seat.old.values }
    ensures { Frees lock mode seat.old seat.new }
{
    seat.leave(arena, lock, mode);
    arena.rouse_after(lock, seat.number());
}
