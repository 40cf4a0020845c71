//! What a caller does with a ticket.
ghost use Rattle.std.specs.Prelude.{◌≡◌, ◌+◌, ℕ, true, false, not, ◌&&◌, Some, None};
ghost use Rattle.shfl_core.specs.Plan as plan;
ghost use Rattle.shfl_core.specs.Waiting.{MayUse};
ghost use Rattle.shfl_line.specs.declared.events.Mode.TheVariants.{Write};
ghost use Rattle.shfl_line.specs.Words.{IsLockWord};
ghost use Rattle.shfl_table.specs.Outcomes.{IsOutcome, waits_at_head};
ghost use Rattle.shfl_table.specs.PassSteps.{Refuses};
ghost use Rattle.shfl_table.specs.declared.outcomes.Outcome.TheVariants.{Resting};
ghost use Rattle.shfl_ticket.specs.Tickets.{TakesStep, acquires, releases, wins, loses};

use crate::ticket::Ticket;
use shfl_line::Mode;
use shfl_table::Outcome;

impl Ticket {
    /// Begins to take the lock: steps follow until it is held. False, and nothing changes, unless the pass is idle.
    #[inline(always)]
    pub fn acquire(&mut self, mode: Mode) -> bool
        requires mode { MayUse self.old.board.rules.form mode }
        ensures answer { result ≡ plan.is_idle self.old.own.phase }
        ensures after { self.new ≡ acquires mode self.old }
    {
        self.pass.acquire(mode)
    }

    /// Takes the lock by one operation, or finds a word that refuses it, which is false. It waits for nobody. A pass that isn't idle, as
    /// one that holds the lock, is refused too, and nothing changes.
    pub fn attempt(&mut self, mode: Mode) -> bool
        requires mode { MayUse self.old.board.rules.form mode }
        ensures misused { plan.is_idle self.old.own.phase ≡ false
            → (result ≡ false) × (self.new ≡ self.old) }
        ensures won { result ≡ true → self.new ≡ wins mode self.old }
        ensures refused { plan.is_idle self.old.own.phase ≡ true → result ≡ false
            → (word : ℕ) × Refuses mode word × (self.new ≡ loses mode word self.old) }
    {
        self.idle() && self.pass.attempt(&self.share.board, mode).is_ok()
    }

    /// Makes one step, which is one atomic operation on one word, and tells what came of it. `choice` answers what it asks. Nothing
    /// changes where the pass has no step to make. It waits for nobody, and takes no memory.
    #[inline(always)]
    pub fn advance(&mut self, choice: bool) -> Outcome
        ensures resting { plan.moving self.old.own ≡ false
            → (result ≡ Resting) × (self.new ≡ self.old) }
        ensures row { plan.moving self.old.own ≡ true
            → (s : TakesStep choice self.old self.new)
            × IsOutcome self.old.own s.found self.new.own result }
    {
        self.pass.advance(&self.share.board, choice)
    }

    /// Disables stealing again, by one operation beside the steps: for the queue's head, which finds it enabled while it waits. The
    /// pass stands as it stood, and the lock word that was found is told. None, and nothing changes, for a pass that doesn't wait at
    /// the queue's head. It waits for nobody.
    pub fn disable_stealing(&mut self) -> Option<u64>
        ensures refused { waits_at_head self.old.own ≡ false
            → (result ≡ None) × (self.new ≡ self.old) }
        ensures made { waits_at_head self.old.own ≡ true
            → (word : ℕ) × (result ≡ Some word) × IsLockWord word
            × (self.new ≡ record self.old { steps_taken = self.old.steps_taken + 1 }) }
    {
        self.pass.disable_stealing(&self.share.board)
    }

    /// Makes one step, which is one atomic operation on one word. `choice` answers what it asks. False, and nothing changes, where
    /// the pass has no step to make. It waits for nobody, and takes no memory.
    #[inline(always)]
    pub fn step(&mut self, choice: bool) -> bool
        ensures moving { result ≡ plan.moving self.old.own }
        ensures still { result ≡ false → self.new ≡ self.old }
        ensures row { result ≡ true → TakesStep choice self.old self.new }
    {
        self.pass.step(&self.share.board, choice)
    }

    /// Begins to free the lock: one step follows. False, and nothing changes, unless the pass holds the lock and owes no step.
    #[inline(always)]
    pub fn release(&mut self) -> bool
        ensures answer { result ≡ plan.is_resting self.old.own }
        ensures after { self.new ≡ releases self.old }
    {
        let _ = self.pass.held();
        self.pass.release()
    }

    /// Acquires and makes the first step. True where the pass then holds the lock and owes no step.
    #[inline(always)]
    pub fn enter(&mut self, mode: Mode) -> bool
        requires idle { plan.is_idle self.old.own.phase ≡ true }
        requires mode { MayUse self.old.board.rules.form mode }
        ensures step { TakesStep false (acquires mode self.old) self.new }
        ensures holds { result
            ≡ (plan.is_held self.new.own.phase && not (plan.moving self.new.own)) }
    {
        let _ = self.acquire(mode);
        let _ = self.step(false);
        self.held() && !self.moving()
    }

    /// Releases and makes the first step. True where steps are left.
    #[inline(always)]
    pub fn leave(&mut self) -> bool
        requires rests { plan.is_resting self.old.own ≡ true }
        ensures step { TakesStep false (releases self.old) self.new }
        ensures left { result ≡ plan.moving self.new.own }
    {
        let _ = self.release();
        let _ = self.step(false);
        self.moving()
    }
}
