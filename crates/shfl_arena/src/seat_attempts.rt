//! A seat's attempts: each takes a lock by one operation, or finds a word that refuses it.
ghost use Rattle.std.specs.Prelude.{◌≡◌, ◌<◌, true, false, IfOk, IfErr, None};
ghost use Rattle.shfl_core.specs.Plan as plan;
ghost use Rattle.shfl_core.specs.Waiting.{MayUse, idle};
ghost use Rattle.shfl_arena.specs.SeatSteps.{WinsAttempt, LosesAttempt, TriesOnce};
ghost use Rattle.shfl_arena.specs.Threads.{mode_held};

use crate::arena::Arena;
use crate::attempting::attempt_once;
use crate::seats::ArenaSeat;
use crate::shape::lock_place_by;
use shfl_core::PassState;
use shfl_core::asks::{attempt_row_in_place, idle_pass};
use shfl_line::Mode;
use std::marker::Brand;

// Blanks the registers of a pass, and makes it idle. Who knows that they are blank writes nothing.
#[inline(always)]
fn make_blank(own: &mut PassState, is_blank: bool)
    requires { is_blank ≡ true → own.old ≡ idle own.old.reg.me }
    ensures { own.new ≡ idle own.old.reg.me }
{
    if !is_blank {
        *own = idle_pass(own.reg.me);
    }
}

impl<V: Drop> ArenaSeat<V> {
    // The first step of an attempt.
    #[inline(always)]
    fn attempt_first(&mut self, arena: &Arena<V>, lock: u32, mode: Mode, is_blank: bool) -> u64
        requires arena { self.old.arena ≡ arena.now.id }
        requires rests { plan.moving self.old.own ≡ false }
        requires blank { is_blank ≡ true → self.old.own ≡ idle self.old.own.reg.me }
        requires lock { lock < self.old.arena.shape.locks }
        requires mode { MayUse self.old.arena.rules.form mode }
        requires free { mode_held lock self.old.holds ≡ None }
        ensures { TriesOnce lock mode result self.old self.new }
    {
        let shared = &arena.table.shared;
        let at = lock_place_by(self.shape.spread, self.stride, lock);
        let found = attempt_once::<V, Brand>(
            shared,
            &mut self.seat,
            self.shape,
            self.rules,
            lock,
            at,
            mode,
        );
        // (not before, since the operation would wait for what is written first)
        make_blank(&mut self.own, is_blank);
        self.lock = lock;
        attempt_row_in_place(mode, &mut self.own, found);
        found
    }

    // An attempt. Who knows that the registers are blank, as after a writer's attempt and leave, is spared writing them.
    #[inline(always)]
    fn attempt_from(
        &mut self,
        arena: &Arena<V>,
        lock: u32,
        mode: Mode,
        is_blank: bool,
    ) -> Result<(), u64>
        requires arena { self.old.arena ≡ arena.now.id }
        requires rests { plan.moving self.old.own ≡ false }
        requires blank { is_blank ≡ true → self.old.own ≡ idle self.old.own.reg.me }
        requires lock { lock < self.old.arena.shape.locks }
        requires mode { MayUse self.old.arena.rules.form mode }
        requires free { mode_held lock self.old.holds ≡ None }
        ensures ok { IfOk result (λ _. WinsAttempt lock mode self.old self.new) }
        ensures err { IfErr result (λ word. LosesAttempt lock mode word self.old self.new) }
    {
        let found = self.attempt_first(arena, lock, mode, is_blank);
        if self.held() {
            return Ok(());
        }
        let _ = self.step(arena, false);
        Err(found)
    }

    /// Takes a lock that it doesn't hold by one operation, or finds a word that refuses it: under `Write` any but 0, under `Read` one
    /// that a writer has or whose stealing is disabled. Under `Write` it looks at the word first, and where that refuses it makes no
    /// operation. A refused reader takes its count back, by a second operation. It waits for nobody.
    #[inline(always)]
    pub fn attempt(&mut self, arena: &Arena<V>, lock: u32, mode: Mode) -> Result<(), u64>
        requires arena { self.old.arena ≡ arena.now.id }
        requires rests { plan.moving self.old.own ≡ false }
        requires lock { lock < self.old.arena.shape.locks }
        requires mode { MayUse self.old.arena.rules.form mode }
        requires free { mode_held lock self.old.holds ≡ None }
        ensures ok { IfOk result (λ _. WinsAttempt lock mode self.old self.new) }
        ensures err { IfErr result (λ word. LosesAttempt lock mode word self.old self.new) }
    {
        self.attempt_from(arena, lock, mode, false)
    }

    /// The same of a seat whose pass is as one that did nothing, as after a writer's attempt that took its lock and the leave of that
    /// lock: it is spared blanking it.
    #[inline(always)]
    pub fn attempt_blank(&mut self, arena: &Arena<V>, lock: u32, mode: Mode) -> Result<(), u64>
        requires arena { self.old.arena ≡ arena.now.id }
        requires blank { self.old.own ≡ idle self.old.own.reg.me }
        requires lock { lock < self.old.arena.shape.locks }
        requires mode { MayUse self.old.arena.rules.form mode }
        requires free { mode_held lock self.old.holds ≡ None }
        ensures ok { IfOk result (λ _. WinsAttempt lock mode self.old self.new) }
        ensures err { IfErr result (λ word. LosesAttempt lock mode word self.old self.new) }
    {
        self.attempt_from(arena, lock, mode, true)
    }
}
