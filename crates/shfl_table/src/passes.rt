//! The passes of a board, and their steps.
ghost use Rattle.std.specs.Prelude.{◌≡◌, true, false, length};
ghost use Rattle.shfl_core.specs.Plan as plan;
ghost use Rattle.shfl_core.specs.Take as taking;
ghost use Rattle.shfl_core.specs.Waiting as waiting;
ghost use Rattle.shfl_core.specs.Waiting.{MayUse};
ghost use Rattle.shfl_laws.specs.Holds.{hold_of};
ghost use Rattle.shfl_table.specs.Outcomes.{IsOutcome};
ghost use Rattle.shfl_table.specs.PassModel.{AreIn};
ghost use Rattle.shfl_table.specs.PassSteps.{AsksOfCandidate, TakesStep};
ghost use Rattle.shfl_table.specs.Places.{place_count};
ghost use Rattle.shfl_table.specs.declared.outcomes.Outcome.TheVariants.{Resting};

use crate::board::SharedBoard;
use crate::kept::Kept;
use crate::operation::operate;
use crate::outcomes::{Outcome, outcome_of};
use crate::view::View;
use atomic_table::Seat;
use shfl_core::asks::{acquire_row_in_place, ask_row, is_moving, release_row_in_place, watch_row};
use shfl_core::rows::take_row_in_place;
use shfl_core::{Ask, Nap, PassState, Phase, Rules, Watch};
use shfl_line::Mode;
use std::marker::{Brand, Model};

/// A caller's right to use the lock of a board. It crosses threads.
#[derive(Drop)]
pub struct Pass<V: Kept> {
    pub(crate) own: PassState,
    pub(crate) rules: Rules,
    pub(crate) seat: Seat<Option<V>, View>,
}

impl<V: Kept> Model for Pass<V> {
    ghost use Rattle.shfl_table.specs.PassInvariant.{PassInvariant};
    ghost use Rattle.shfl_table.specs.PassModel.{PassModel};
    ghost use Rattle.shfl_table.specs.Places.{values_of};

    ghost Value = { PassModel V };

    ghost view = { λ p. record {
      board = record { table = p.seat.table_id; rules = p.rules; attrs = p.seat.me.0.attrs };
      own = p.own;
      steps_taken = p.seat.me.0.steps_taken;
      found = p.seat.me.0.found;
      decisions = p.seat.me.0.decisions;
      attempts = p.seat.me.0.attempts;
      initial_state = p.seat.me.0.initial_state;
      history = p.seat.me.0.history;
      values = values_of p.seat.me.1;
    } };

    ghost invariant = { λ p. PassInvariant V.initial_state V.history p.rules p.own p.seat.table_id
        p.seat.me };
}

impl<V: Kept + Drop> Pass<V> {
    /// Its place among the passes of the board, from 0 on.
    #[inline(always)]
    pub fn number(&self) -> u32
        ensures { result ≡ self.now.own.reg.me }
    {
        self.own.reg.me
    }

    /// Where it stands: phase, registers and park state.
    #[inline(always)]
    pub fn standing(&self) -> PassState
        ensures { result ≡ self.now.own }
    {
        self.own
    }

    /// Its phase.
    #[inline(always)]
    pub fn phase(&self) -> Phase
        ensures { result ≡ self.now.own.phase }
    {
        self.own.phase
    }

    /// Whether it is awake or parked, or between the two.
    #[inline(always)]
    pub fn nap(&self) -> Nap
        ensures { result ≡ self.now.own.nap }
    {
        self.own.nap
    }

    /// Whether it holds the lock. A pass has the places that its hold gives it, and no others. It may still owe the step that wakes
    /// the pass that it made ready: `resting` says that it owes none.
    #[inline(always)]
    pub fn held(&self) -> bool
        ensures answer { result ≡ plan.is_held self.now.own.phase }
        ensures places { length self.now.values
            ≡ place_count (hold_of self.now.own) self.now.own.reg.me self.now.board.table.slots }
    {
        matches!(self.own.phase, Phase::Held)
    }

    /// Whether it holds the lock and owes no step, so that it may release.
    #[inline(always)]
    pub fn resting(&self) -> bool
        ensures { result ≡ plan.is_resting self.now.own }
    {
        matches!(self.own.phase, Phase::Held) && matches!(self.own.nap, Nap::Awake)
    }

    /// Whether it has a step to make.
    #[inline(always)]
    pub fn moving(&self) -> bool
        ensures { result ≡ plan.moving self.now.own }
    {
        is_moving(self.own)
    }

    /// What its next step asks the policy. A question of a candidate tells the attributes with which the candidate was opened.
    #[inline(always)]
    pub fn ask(&self) -> Ask
        ensures answer { result ≡ waiting.ask self.now.board.rules self.now.own }
        ensures candidate { AsksOfCandidate self.now }
    {
        ask_row(self.rules, self.own)
    }

    /// Whom its next step may make ready or group, and so wake.
    #[inline(always)]
    pub fn watch(&self) -> Watch
        ensures { result ≡ waiting.watch_at self.now.own.reg self.now.own.phase }
    {
        watch_row(self.own)
    }

    /// Begins to take the lock: steps follow until it is held. False, and nothing changes, unless the pass is idle.
    #[inline(always)]
    pub fn acquire(&mut self, mode: Mode) -> bool
        requires mode { MayUse self.old.board.rules.form mode }
        ensures answer { result ≡ plan.is_idle self.old.own.phase }
        ensures after { self.new ≡ record self.old { own = taking.acquired mode self.old.own } }
    {
        acquire_row_in_place(mode, &mut self.own)
    }

    /// Begins to free the lock, with all values put back: one step follows. False, and nothing changes, unless the pass holds the
    /// lock and owes no step.
    #[inline(always)]
    pub fn release(&mut self) -> bool
        requires within { plan.is_resting self.old.own ≡ true
            → AreIn V.history self.old.history self.old.values }
        ensures answer { result ≡ plan.is_resting self.old.own }
        ensures after { self.new ≡ record self.old { own = taking.released self.old.own } }
    {
        release_row_in_place(&mut self.own)
    }

    /// Makes one step, which is one atomic operation on one word, and tells what came of it. `choice` answers what it asks. Nothing
    /// changes where the pass has no step to make. It waits for nobody, and takes no memory.
    #[inline(always)]
    pub fn advance(&mut self, board: &SharedBoard<V>, choice: bool) -> Outcome
        requires board { self.old.board ≡ board.now.id }
        ensures resting { plan.moving self.old.own ≡ false
            → (result ≡ Resting) × (self.new ≡ self.old) }
        ensures row { plan.moving self.old.own ≡ true
            → (s : TakesStep V.initial_state V.history self.old choice self.new)
            × IsOutcome self.old.own s.found self.new.own result }
    {
        if !is_moving(self.own) {
            return Outcome::Resting;
        }
        let own = self.own;
        let table = &board.table;
        let found = operate::<V, Brand>(&table.shared, &mut self.seat, self.rules, own, choice);
        take_row_in_place(self.rules, own.reg.me, &mut self.own, found, choice);
        outcome_of(own, found, self.own)
    }

    /// Makes one step, as `advance` does. False, and nothing changes, where the pass has no step to make.
    #[inline(always)]
    pub fn step(&mut self, board: &SharedBoard<V>, choice: bool) -> bool
        requires board { self.old.board ≡ board.now.id }
        ensures moving { result ≡ plan.moving self.old.own }
        ensures still { result ≡ false → self.new ≡ self.old }
        ensures row { result ≡ true
            → TakesStep V.initial_state V.history self.old choice self.new }
    {
        let moving = is_moving(self.own);
        let _ = self.advance(board, choice);
        moving
    }
}
