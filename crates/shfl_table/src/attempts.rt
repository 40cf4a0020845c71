//! Attempts: the lock is had at once, or not at all.
ghost use Rattle.std.specs.Prelude.{◌≡◌, true, IfOk, IfErr};
ghost use Rattle.shfl_core.specs.Plan as plan;
ghost use Rattle.shfl_core.specs.Waiting.{MayUse};
ghost use Rattle.shfl_table.specs.PassSteps.{TriesOnce, WinsAttempt, LosesAttempt};

use crate::board::SharedBoard;
use crate::kept::Kept;
use crate::operation::attempt_once;
use crate::passes::Pass;
use shfl_core::asks::attempt_row_in_place;
use shfl_line::Mode;
use std::fmt;
use std::marker::Brand;

/// The lock wasn't to be had at once: the lock word that was found.
#[derive(Clone, Copy, Debug, PartialEq, Eq, Drop)]
pub struct Busy {
    pub word: u64,
}

impl fmt::Display for Busy {
    fn fmt<W: fmt::Write>(&self, f: &mut fmt::Formatter<W>) -> fmt::Result {
        f.write_str("the lock is held, or others wait for it")
    }
}

impl std::error::Error for Busy {}

impl<V: Kept + Drop> Pass<V> {
    // The first operation of an attempt.
    #[inline(always)]
    fn attempt_first(&mut self, board: &SharedBoard<V>, mode: Mode) -> u64
        requires board { self.old.board ≡ board.now.id }
        requires idle { plan.is_idle self.old.own.phase ≡ true }
        requires mode { MayUse self.old.board.rules.form mode }
        ensures { TriesOnce V.initial_state V.history self.old mode result self.new }
    {
        let table = &board.table;
        let found = attempt_once::<V, Brand>(&table.shared, &mut self.seat, self.rules, mode);
        attempt_row_in_place(mode, &mut self.own, found);
        found
    }

    /// Takes the lock by one operation, or finds a word that refuses it: under `Write` any but 0, under `Read` one that a writer has
    /// or whose stealing is disabled. A refused reader takes its count back, by a second operation. It waits for nobody.
    #[inline(always)]
    pub fn attempt(&mut self, board: &SharedBoard<V>, mode: Mode) -> Result<(), u64>
        requires board { self.old.board ≡ board.now.id }
        requires idle { plan.is_idle self.old.own.phase ≡ true }
        requires mode { MayUse self.old.board.rules.form mode }
        ensures ok { IfOk result (λ _.
            WinsAttempt V.initial_state V.history mode self.old self.new) }
        ensures err { IfErr result (λ word. LosesAttempt mode word self.old self.new) }
    {
        let found = self.attempt_first(board, mode);
        if self.held() {
            return Ok(());
        }
        let _ = self.step(board, false);
        Err(found)
    }
}
