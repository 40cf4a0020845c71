//! A seat that keeps which locks it holds, and how.
ghost use Rattle.std.specs.Prelude.{◌≡◌, ◌≢◌, ◌<◌, ℕ, true, false, [], IfOk, IsSome, OnErr, None, Some};
ghost use Rattle.shfl_line.specs.declared.events.Mode.{Mode as HeldMode};
ghost use Rattle.shfl_core.specs.Plan as plan;
ghost use Rattle.shfl_core.specs.Waiting.{MayUse};
ghost use Rattle.shfl_arena.specs.SeatModels.{entering};
ghost use Rattle.shfl_arena.specs.SeatSteps.{TakesStep, WinsAttempt, LosesAttempt};
ghost use Rattle.shfl_arena.specs.Threads.{mode_held};
ghost use Rattle.shfl_arena.specs.Waits.{Frees};
ghost use Rattle.shfl_seats.specs.declared.answers.Answer.TheVariants.{Done, Busy, Held, NotHeld, Bad, NoMemory as NoRoom};

use crate::answers::Answer;
use crate::held::{Stand, forget, gather, note, spread, won};
use shfl_arena::{Arena, ArenaSeat};
use shfl_line::{Attr, Mode, NoMemory};
use std::alloc::Global;
use std::marker::Model;

/// A seat with the locks that it holds. Whether it rests and holds none, or one alone, is told by one word.
#[derive(Drop)]
pub(crate) struct KeptSeat {
    pub(crate) stand: Stand,
    pub(crate) others: Vec<(u32, Mode)>,
    pub(crate) seat: ArenaSeat<()>,
}

impl Model for KeptSeat {
    ghost use Rattle.std.specs.Prelude.{◌≡◌, ◌<◌, true, vec_len, vec_capacity};
    ghost use Rattle.shfl_seats.specs.declared.held.Stand.TheVariants.{InList};
    ghost use Rattle.shfl_core.specs.Plan.{moving};
    ghost use Rattle.shfl_arena.specs.SeatModels.{SeatModel};
    ghost use Rattle.shfl_seats.specs.Tickets.{Agree};
    ghost use Rattle.shfl_seats.specs.Listed.{HasBlankPass, LeavesEmpty, listed};

    ghost Value = { SeatModel (Unit {0}) };

    ghost view = { λ k. k.seat };

    ghost invariant = { λ k. Agree (listed k.stand k.others.items) k.seat.holds
        × LeavesEmpty k.stand k.others.items
        × HasBlankPass k.stand k.seat.own
        × (moving k.seat.own ≡ true
        → (k.stand ≡ InList) × (vec_len k.others < vec_capacity k.others)) };
}

impl KeptSeat {
    /// A seat that holds nothing.
    pub(crate) fn new(alloc: Global, seat: ArenaSeat<()>) -> KeptSeat
        requires { (seat.holds ≡ []) × (plan.moving seat.own ≡ false) }
        ensures { result ≡ seat }
    {
        KeptSeat {
            stand: Stand::Idle,
            others: Vec::new(alloc),
            seat,
        }
    }

    // Attempts a lock beside others that the seat holds. That is rare, and stays out of line so that the usual way is short.
    #[cold]
    #[inline(never)]
    fn attempt_beside(&mut self, arena: &Arena<()>, lock: u32, mode: Mode) -> Answer
        requires arena { self.old.arena ≡ arena.now.id }
        requires rests { plan.moving self.old.own ≡ false }
        requires lock { lock < self.old.arena.shape.locks }
        requires mode { MayUse self.old.arena.rules.form mode }
        ensures held { result ≡ Held → IsSome (mode_held lock self.old.holds) }
        ensures won { result ≡ Done → WinsAttempt lock mode self.old self.new }
        ensures lost { result ≡ Busy → (word : ℕ) × LosesAttempt lock mode word self.old self.new }
        ensures others { (result ≢ NotHeld) × (result ≢ Bad) }
        ensures same { result ≢ Done → result ≢ Busy → self.new ≡ self.old }
    {
        if self.hold(lock).is_some() {
            return Answer::Held;
        }
        if !spread(&mut self.stand, &mut self.others) {
            return Answer::NoMemory;
        }
        if self.seat.attempt(arena, lock, mode).is_err() {
            gather(&mut self.stand, &mut self.others);
            return Answer::Busy;
        }
        note(&mut self.stand, &mut self.others, lock, Some(mode));
        Answer::Done
    }

    /// Takes a lock by an attempt, or finds a word that refuses it, or holds it already, or finds no memory to note the hold. Who holds none
    /// goes the shorter way.
    #[inline(always)]
    pub(crate) fn attempt(&mut self, arena: &Arena<()>, lock: u32, mode: Mode) -> Answer
        requires arena { self.old.arena ≡ arena.now.id }
        requires rests { plan.moving self.old.own ≡ false }
        requires lock { lock < self.old.arena.shape.locks }
        requires mode { MayUse self.old.arena.rules.form mode }
        ensures held { result ≡ Held → IsSome (mode_held lock self.old.holds) }
        ensures won { result ≡ Done → WinsAttempt lock mode self.old self.new }
        ensures lost { result ≡ Busy → (word : ℕ) × LosesAttempt lock mode word self.old self.new }
        ensures others { (result ≢ NotHeld) × (result ≢ Bad) }
        ensures same { result ≢ Done → result ≢ Busy → self.new ≡ self.old }
    {
        if matches!(self.stand, Stand::Bare) {
            if self.seat.attempt_blank(arena, lock, mode).is_ok() {
                self.stand = won(lock, mode);
                return Answer::Done;
            }
            self.stand = Stand::Idle;
            return Answer::Busy;
        }
        if !matches!(self.stand, Stand::Idle) {
            return self.attempt_beside(arena, lock, mode);
        }
        if self.seat.attempt(arena, lock, mode).is_ok() {
            self.stand = won(lock, mode);
            return Answer::Done;
        }
        Answer::Busy
    }

    /// Begins to take a lock; or nothing changes, where there is no memory to note the hold.
    pub(crate) fn acquire(&mut self, lock: u32, mode: Mode) -> Result<(), NoMemory>
        requires rests { plan.moving self.old.own ≡ false }
        requires lock { lock < self.old.arena.shape.locks }
        requires mode { MayUse self.old.arena.rules.form mode }
        requires free { mode_held lock self.old.holds ≡ None }
        ensures ok { IfOk result (λ _. self.new ≡ record self.old {
          lock = lock;
          own = entering self.old.own.reg.me mode;
        }) }
        ensures err { OnErr result (self.new ≡ self.old) }
    {
        if !spread(&mut self.stand, &mut self.others) {
            return Err(NoMemory);
        }
        let _ = self.seat.acquire(lock, mode);
        Ok(())
    }

    /// Makes one step, as the seat does, and notes how it holds the lock where it has come to rest.
    pub(crate) fn step(&mut self, arena: &Arena<()>, choice: bool) -> bool
        requires arena { self.old.arena ≡ arena.now.id }
        ensures moving { result ≡ plan.moving self.old.own }
        ensures still { result ≡ false → self.new ≡ self.old }
        ensures row { result ≡ true → TakesStep self.old choice self.new }
    {
        if !self.seat.step(arena, choice) {
            return false;
        }
        if !self.seat.moving() {
            let lock = self.seat.lock();
            let hold = self.seat.hold();
            note(&mut self.stand, &mut self.others, lock, hold);
        }
        true
    }

    // Gives back one of several locks, or what it doesn't hold. That is rare, and stays out of line so that the usual way is short.
    #[cold]
    #[inline(never)]
    fn release_other(&mut self, arena: &Arena<()>, lock: u32) -> Answer
        requires arena { self.old.arena ≡ arena.now.id }
        requires no_values { self.old.arena.table.slots ≡ 0 }
        requires rests { plan.moving self.old.own ≡ false }
        requires lock { lock < self.old.arena.shape.locks }
        ensures not_held { result ≡ NotHeld → mode_held lock self.old.holds ≡ None }
        ensures held { result ≡ Done → (mode : HeldMode)
            × (mode_held lock self.old.holds ≡ Some mode) × Frees lock mode self.old self.new }
        ensures others { (result ≢ Busy) × (result ≢ Held) × (result ≢ Bad) × (result ≢ NoRoom) }
        ensures refused { result ≢ Done → self.new ≡ self.old }
    {
        let Some(mode) = self.hold(lock) else {
            return Answer::NotHeld;
        };
        self.seat.leave(arena, lock, mode);
        forget(&mut self.stand, &mut self.others, lock);
        Answer::Done
    }

    /// Gives back a lock in the mode in which it holds it. Where it doesn't hold it, nothing changes.
    #[inline(always)]
    pub(crate) fn release(&mut self, arena: &Arena<()>, lock: u32) -> Answer
        requires arena { self.old.arena ≡ arena.now.id }
        requires no_values { self.old.arena.table.slots ≡ 0 }
        requires rests { plan.moving self.old.own ≡ false }
        requires lock { lock < self.old.arena.shape.locks }
        ensures not_held { result ≡ NotHeld → mode_held lock self.old.holds ≡ None }
        ensures held { result ≡ Done → (mode : HeldMode)
            × (mode_held lock self.old.holds ≡ Some mode) × Frees lock mode self.old self.new }
        ensures others { (result ≢ Busy) × (result ≢ Held) × (result ≢ Bad) × (result ≢ NoRoom) }
        ensures refused { result ≢ Done → self.new ≡ self.old }
    {
        match self.stand {
            Stand::Writes { lock: one } if one == lock => {
                self.seat.leave(arena, lock, Mode::Write);
                self.stand = Stand::Bare;
                Answer::Done
            }
            Stand::Owns { lock: one } if one == lock => {
                self.seat.leave(arena, lock, Mode::Write);
                self.stand = Stand::Idle;
                Answer::Done
            }
            Stand::Reads { lock: one } if one == lock => {
                self.seat.leave(arena, lock, Mode::Read);
                self.stand = Stand::Idle;
                Answer::Done
            }
            _ => self.release_other(arena, lock),
        }
    }

    /// Disables stealing at a lock, beside the steps.
    pub(crate) fn disable_stealing(&mut self, arena: &Arena<()>, lock: u32)
        requires arena { self.old.arena ≡ arena.now.id }
        requires lock { lock < self.old.arena.shape.locks }
        ensures { self.new ≡ self.old }
    {
        self.seat.disable_stealing(arena, lock);
    }

    /// Gives the thread other attributes, which the policies of all locks see from now on.
    pub(crate) fn set_attr(&mut self, arena: &Arena<()>, attr: &Attr)
        requires arena { self.old.arena ≡ arena.now.id }
        requires rests { plan.moving self.old.own ≡ false }
        ensures { self.new ≡ self.old }
    {
        self.seat.set_attr(arena, attr);
    }
}
