//! What a caller does with a seat. Each argument is judged when it runs: what doesn't fit is an answer, and then nothing changes.
ghost use Rattle.std.specs.Prelude.{◌≡◌, ◌≢◌, ◌↔◌, ◌<◌, ℕ, true, false, not, IsTrue, IsSome, Some, None};
ghost use Rattle.shfl_core.specs.Plan as plan;
ghost use Rattle.shfl_core.specs.Waiting.{MayUse};
ghost use Rattle.shfl_arena.specs.SeatModels.{entering};
ghost use Rattle.shfl_arena.specs.SeatSteps.{TakesStep, WinsAttempt, LosesAttempt};
ghost use Rattle.shfl_arena.specs.Threads.{mode_held};
ghost use Rattle.shfl_arena.specs.Waits.{Frees};
ghost use Rattle.shfl_line.specs.declared.events.Mode.{Mode};
ghost use Rattle.shfl_line.specs.declared.events.Mode.TheVariants.{Write};
ghost use Rattle.shfl_seats.specs.Tickets.{MayUseLock};
ghost use Rattle.shfl_seats.specs.Told.{came_of};
ghost use Rattle.shfl_seats.specs.declared.answers.Answer.TheVariants.{Done, Busy, Held, NotHeld, Bad, NoMemory as NoRoom};
ghost use Rattle.shfl_seats.specs.declared.answers.Progress.TheVariants.{Rests};

use crate::answers::{Answer, Progress, came_of};
use crate::ticket::SeatTicket;
use shfl_core::found::shares;
use shfl_line::{Attr, Mode};

impl SeatTicket {
    // Whether the form of the locks has this mode.
    #[inline(always)]
    fn admits(&self, mode: Mode) -> bool
        ensures { IsTrue result ↔ MayUse self.now.seat.arena.rules.form mode }
    {
        matches!(mode, Mode::Write) || shares(self.seat.form())
    }

    // Whether there is such a lock that may be taken in this mode, and the seat has no step to make.
    fn may_use(&self, lock: u32, mode: Mode) -> bool
        ensures { IsTrue result ↔ MayUseLock lock mode self.now }
    {
        !self.moving() && lock < self.share.locks && self.admits(mode)
    }

    // The same of a seat that took its last lock in this mode and gave it back. False doesn't mean that it may not.
    #[inline(always)]
    fn may_use_again(&self, lock: u32, mode: Mode) -> bool
        ensures { result ≡ true → MayUseLock lock mode self.now }
    {
        self.seat.is_free(mode) && lock < self.share.locks && self.admits(mode)
    }

    // An attempt of a seat that stands otherwise, or of what doesn't fit. That is rarer, and stays out of line so that the usual way is short.
    #[inline(never)]
    fn attempt_otherwise(&mut self, lock: u32, mode: Mode) -> Answer
        ensures bad { (result ≡ Bad) ↔ ¬ (MayUseLock lock mode self.old) }
        ensures held { result ≡ Held → IsSome (mode_held lock self.old.seat.holds) }
        ensures done { result ≡ Done → WinsAttempt lock mode self.old.seat self.new.seat }
        ensures busy { result ≡ Busy
            → (word : ℕ) × LosesAttempt lock mode word self.old.seat self.new.seat }
        ensures others { result ≢ NotHeld }
        ensures refused { result ≢ Done → result ≢ Busy → self.new ≡ self.old }
        ensures kept { self.new ≡ record self.old { seat = self.new.seat } }
    {
        if !self.may_use(lock, mode) {
            return Answer::Bad;
        }
        self.seat.attempt(&self.share.arena, lock, mode)
    }

    /// Takes a lock by one operation, behind a look at its word that changes nothing, or finds a word that refuses it. It waits for nobody.
    #[inline(always)]
    pub fn attempt(&mut self, lock: u32, mode: Mode) -> Answer
        ensures bad { (result ≡ Bad) ↔ ¬ (MayUseLock lock mode self.old) }
        ensures held { result ≡ Held → IsSome (mode_held lock self.old.seat.holds) }
        ensures done { result ≡ Done → WinsAttempt lock mode self.old.seat self.new.seat }
        ensures busy { result ≡ Busy
            → (word : ℕ) × LosesAttempt lock mode word self.old.seat self.new.seat }
        ensures others { result ≢ NotHeld }
        ensures refused { result ≢ Done → result ≢ Busy → self.new ≡ self.old }
        ensures kept { self.new ≡ record self.old { seat = self.new.seat } }
    {
        if !self.may_use_again(lock, mode) {
            return self.attempt_otherwise(lock, mode);
        }
        self.seat.attempt(&self.share.arena, lock, mode)
    }

    /// Begins to take a lock: steps follow until it is held.
    pub fn acquire(&mut self, lock: u32, mode: Mode) -> Answer
        ensures bad { (result ≡ Bad) ↔ ¬ (MayUseLock lock mode self.old) }
        ensures held { result ≡ Held → IsSome (mode_held lock self.old.seat.holds) }
        ensures free { result ≡ Done → mode_held lock self.old.seat.holds ≡ None }
        ensures done { result ≡ Done → self.new ≡ record self.old {
          seat = record self.old.seat {
            lock = lock;
            own = entering self.old.seat.own.reg.me mode;
          };
        } }
        ensures others { (result ≢ NotHeld) × (result ≢ Busy) }
        ensures refused { result ≢ Done → self.new ≡ self.old }
    {
        if !self.may_use(lock, mode) {
            return Answer::Bad;
        }
        if self.hold(lock).is_some() {
            return Answer::Held;
        }
        match self.seat.acquire(lock, mode) {
            Ok(()) => Answer::Done,
            Err(_) => Answer::NoMemory,
        }
    }

    /// Makes one step, which is one atomic operation on one word, and tells what came of it. `choice` answers what it asks. It waits for
    /// nobody, and takes no memory.
    #[inline(always)]
    pub fn step(&mut self, choice: bool) -> Progress
        ensures rests { plan.moving self.old.seat.own ≡ false
            → (result ≡ Rests) × (self.new ≡ self.old) }
        ensures row { plan.moving self.old.seat.own ≡ true
            → TakesStep self.old.seat choice self.new.seat }
        ensures told { plan.moving self.old.seat.own ≡ true → result
            ≡ came_of self.old.seat.own.nap self.old.seat.own.phase self.new.seat.own.phase }
        ensures kept { self.new ≡ record self.old { seat = self.new.seat } }
    {
        let nap = self.seat.nap();
        let before = self.seat.phase();
        if !self.seat.step(&self.share.arena, choice) {
            return Progress::Rests;
        }
        came_of(nap, before, self.seat.phase())
    }

    // Gives back a lock that isn't held alone by a writer's attempt that won, or what doesn't fit. That stays out of line too.
    #[inline(never)]
    fn release_otherwise(&mut self, lock: u32) -> Answer
        ensures bad { (result ≡ Bad) ↔ ¬ (MayUseLock lock Write self.old) }
        ensures not_held { result ≡ NotHeld → mode_held lock self.old.seat.holds ≡ None }
        ensures done { result ≡ Done → (mode : Mode)
            × (mode_held lock self.old.seat.holds ≡ Some mode)
            × Frees lock mode self.old.seat self.new.seat }
        ensures others { (result ≢ Held) × (result ≢ Busy) × (result ≢ NoRoom) }
        ensures refused { result ≢ Done → self.new ≡ self.old }
        ensures kept { self.new ≡ record self.old { seat = self.new.seat } }
    {
        let reads = self.seat.reads_alone(lock) && lock < self.share.locks;
        if !reads && !self.may_use(lock, Mode::Write) {
            return Answer::Bad;
        }
        self.seat.release(&self.share.arena, lock)
    }

    /// Gives a lock back, in the mode in which the seat holds it, by one operation.
    #[inline(always)]
    pub fn release(&mut self, lock: u32) -> Answer
        ensures bad { (result ≡ Bad) ↔ ¬ (MayUseLock lock Write self.old) }
        ensures not_held { result ≡ NotHeld → mode_held lock self.old.seat.holds ≡ None }
        ensures done { result ≡ Done → (mode : Mode)
            × (mode_held lock self.old.seat.holds ≡ Some mode)
            × Frees lock mode self.old.seat self.new.seat }
        ensures others { (result ≢ Held) × (result ≢ Busy) × (result ≢ NoRoom) }
        ensures refused { result ≢ Done → self.new ≡ self.old }
        ensures kept { self.new ≡ record self.old { seat = self.new.seat } }
    {
        if !self.seat.writes_alone(lock) || lock >= self.share.locks {
            return self.release_otherwise(lock);
        }
        self.seat.release(&self.share.arena, lock)
    }

    /// Disables stealing at a lock, beside the steps: for the queue's head, which looked in vain. False where there is no such lock.
    pub fn disable_stealing(&mut self, lock: u32) -> bool
        ensures answer { IsTrue result ↔ (lock < self.old.seat.arena.shape.locks) }
        ensures same { self.new ≡ self.old }
    {
        if lock >= self.share.locks {
            return false;
        }
        self.seat.disable_stealing(&self.share.arena, lock);
        true
    }

    /// Gives the thread other attributes. False, and nothing changes, where it has a step to make.
    pub fn set_attr(&mut self, attr: Attr) -> bool
        ensures answer { result ≡ not (plan.moving self.old.seat.own) }
        ensures refused { result ≡ false → self.new ≡ self.old }
        ensures after { result ≡ true → self.new ≡ record self.old { attr = attr } }
    {
        if self.moving() {
            return false;
        }
        self.seat.set_attr(&self.share.arena, &attr);
        self.attr = attr;
        true
    }
}
