//! The seats of an arena, and their calls.
ghost use Rattle.std.specs.Prelude.{◌≡◌, ◌<◌, ◌∷◌, true, false, not, None, Some};
ghost use Rattle.shfl_line.specs.declared.events.Mode.TheVariants.{Write};
ghost use Rattle.shfl_core.specs.Plan as plan;
ghost use Rattle.shfl_core.specs.Take as take;
ghost use Rattle.shfl_core.specs.Waiting.{MayUse};
ghost use Rattle.shfl_core.specs.declared.phase.Phase.TheVariants.{Idle};
ghost use Rattle.shfl_arena.specs.SeatModels.{entering, leaving};
ghost use Rattle.shfl_arena.specs.SeatSteps.{TakesStep};
ghost use Rattle.shfl_arena.specs.Threads.{mode_held};
ghost use Rattle.shfl_arena.specs.ValueMoves.{HasInFront};
ghost use Rattle.shfl_arena.specs.Waits.{Frees};

use crate::arena::Arena;
use crate::leaving::leave_once;
use crate::operation::{disable_once, operate, store_attribute};
use crate::shape::{Shape, lock_place_by};
use crate::view::SeatView;
use atomic_table::Seat;
use shfl_core::asks::{idle_pass, is_moving};
use shfl_core::rows::take_row_in_place;
use shfl_core::{PassState, Phase, Rules};
use shfl_line::{Attr, Mode};
use std::marker::{Brand, Model};

/// A thread's right to use the locks of an arena. It waits at one lock at most, and holds any number. It crosses threads.
#[derive(Drop)]
pub struct ArenaSeat<V> {
    pub(crate) own: PassState,
    pub(crate) lock: u32,
    pub(crate) rules: Rules,
    pub(crate) shape: Shape,
    // How many words it is from one lock's word to the next one's: each attempt is spared asking the shape.
    pub(crate) stride: u32,
    pub(crate) seat: Seat<Option<V>, SeatView>,
}

impl<V> Model for ArenaSeat<V> {
    ghost use Rattle.std.specs.Prelude.{◌≡◌};
    ghost use Rattle.shfl_arena.specs.ArenaWords.{lock_place};
    ghost use Rattle.shfl_arena.specs.SeatModels.{SeatInvariant, SeatModel};

    ghost Value = { SeatModel V };

    ghost view = { λ s. record {
      arena = record { table = s.seat.table_id; rules = s.rules; shape = s.shape };
      lock = s.lock;
      own = s.own;
      holds = s.seat.me.0.thread.holds;
      steps_taken = s.seat.me.0.steps_taken;
      decisions = s.seat.me.0.decisions;
      values = s.seat.me.1;
    } };

    ghost invariant = { λ s. SeatInvariant s.shape s.rules s.own s.lock s.seat.table_id s.seat.me
        × (s.stride ≡ lock_place s.shape.spread 1) };
}

// The first phase of a way in.
#[inline(always)]
fn entry_phase(mode: Mode) -> Phase
    ensures { result ≡ take.entry mode }
{
    match mode {
        Mode::Write => Phase::Steal,
        Mode::Read => Phase::Count,
    }
}

// A pass that has just begun to take a lock.
#[inline(always)]
fn entering_pass(number: u32, mode: Mode) -> PassState
    ensures { result ≡ entering number mode }
{
    let mut pass = idle_pass(number);
    pass.phase = entry_phase(mode);
    pass.reg.mode = mode;
    pass
}

// The last phase of a way out.
#[inline(always)]
fn exit_phase(mode: Mode) -> Phase
    ensures { result ≡ take.exit mode }
{
    match mode {
        Mode::Write => Phase::Release,
        Mode::Read => Phase::ReadRelease,
    }
}

// A pass that has just begun to give a lock back.
#[inline(always)]
fn leaving_pass(number: u32, mode: Mode) -> PassState
    ensures { result ≡ leaving number mode }
{
    let mut pass = idle_pass(number);
    pass.phase = exit_phase(mode);
    pass.reg.mode = mode;
    pass
}

impl<V: Drop> ArenaSeat<V> {
    /// Begins to take a lock that it doesn't hold: steps follow until it is held. False, and nothing changes, where the seat has a step
    /// to make.
    #[inline(always)]
    pub fn acquire(&mut self, lock: u32, mode: Mode) -> bool
        requires lock { lock < self.old.arena.shape.locks }
        requires mode { MayUse self.old.arena.rules.form mode }
        requires free { mode_held lock self.old.holds ≡ None }
        ensures answer { result ≡ not (plan.moving self.old.own) }
        ensures refused { result ≡ false → self.new ≡ self.old }
        ensures after { result ≡ true → self.new ≡ record self.old {
          lock = lock;
          own = entering self.old.own.reg.me mode;
        } }
    {
        if is_moving(self.own) {
            return false;
        }
        self.own = entering_pass(self.own.reg.me, mode);
        self.lock = lock;
        true
    }

    /// Begins to free a lock that it holds in this mode; one step follows. A lock with a value is given back with the value, which must be
    /// in and in front. False, and nothing changes, where the seat has a step to make.
    #[inline(always)]
    pub fn release(&mut self, lock: u32, mode: Mode) -> bool
        requires lock { lock < self.old.arena.shape.locks }
        requires holds { mode_held lock self.old.holds ≡ Some mode }
        requires value { mode ≡ Write → lock < self.old.arena.table.slots
            → HasInFront lock self.old.values }
        ensures answer { result ≡ not (plan.moving self.old.own) }
        ensures refused { result ≡ false → self.new ≡ self.old }
        ensures after { result ≡ true → self.new ≡ record self.old {
          lock = lock;
          own = leaving self.old.own.reg.me mode;
        } }
    {
        if is_moving(self.own) {
            return false;
        }
        self.own = leaving_pass(self.own.reg.me, mode);
        self.lock = lock;
        true
    }

    // Makes one step, and tells the word that it found.
    #[inline(always)]
    pub(crate) fn step_found(&mut self, arena: &Arena<V>, choice: bool) -> u64
        requires arena { self.old.arena ≡ arena.now.id }
        requires moving { plan.moving self.old.own ≡ true }
        ensures { (s : TakesStep self.old choice self.new) × (s.found ≡ result) }
    {
        let own = self.own;
        let shared = &arena.table.shared;
        let found = operate::<V, Brand>(
            shared,
            &mut self.seat,
            self.shape,
            self.rules,
            self.lock,
            own,
            choice,
        );
        take_row_in_place(self.rules, own.reg.me, &mut self.own, found, choice);
        found
    }

    /// Makes one step, which is one atomic operation on one word. `choice` answers what it asks. False, and nothing changes, where
    /// the seat has no step to make. It waits for nobody, and takes no memory.
    #[inline(always)]
    pub fn step(&mut self, arena: &Arena<V>, choice: bool) -> bool
        requires arena { self.old.arena ≡ arena.now.id }
        ensures moving { result ≡ plan.moving self.old.own }
        ensures still { result ≡ false → self.new ≡ self.old }
        ensures row { result ≡ true → TakesStep self.old choice self.new }
    {
        if !is_moving(self.own) {
            return false;
        }
        let _ = self.step_found(arena, choice);
        true
    }

    /// Gives back a lock that it holds in this mode, with its value in and in front where it has one: `release` and the step that follows, in
    /// one. Nobody is woken, which `free` does besides; it is for callers whose threads wait in places of their own.
    #[inline(always)]
    pub fn leave(&mut self, arena: &Arena<V>, lock: u32, mode: Mode)
        requires arena { self.old.arena ≡ arena.now.id }
        requires rests { plan.moving self.old.own ≡ false }
        requires lock { lock < self.old.arena.shape.locks }
        requires holds { mode_held lock self.old.holds ≡ Some mode }
        requires value { mode ≡ Write → lock < self.old.arena.table.slots
            → HasInFront lock self.old.values }
        ensures frees { Frees lock mode self.old self.new }
        ensures own { self.new.own ≡ record self.old.own { phase = Idle } }
    {
        let shared = &arena.table.shared;
        let at = lock_place_by(self.shape.spread, self.stride, lock);
        let _ = leave_once::<V, Brand>(
            shared,
            &mut self.seat,
            self.shape,
            self.rules,
            lock,
            at,
            mode,
        );
        self.own.phase = Phase::Idle;
        self.lock = lock;
    }

    /// Disables stealing at a lock, beside the steps: the lock's word says so, and nothing else changes. It is made for the queue's
    /// head, where somebody who left has enabled stealing after this head had disabled it.
    #[inline(always)]
    pub fn disable_stealing(&mut self, arena: &Arena<V>, lock: u32)
        requires arena { self.old.arena ≡ arena.now.id }
        requires lock { lock < self.old.arena.shape.locks }
        ensures { self.new ≡ self.old }
    {
        let shared = &arena.table.shared;
        disable_once(shared, &mut self.seat, self.shape, lock);
    }

    /// Gives the thread other attributes, which the policies of all locks see from now on.
    #[inline(always)]
    pub fn set_attr(&mut self, arena: &Arena<V>, attr: &Attr)
        requires arena { self.old.arena ≡ arena.now.id }
        requires rests { plan.moving self.old.own ≡ false }
        ensures { self.new ≡ self.old }
    {
        let shared = &arena.table.shared;
        store_attribute(
            shared,
            &mut self.seat,
            self.shape,
            self.own.reg.me,
            attr.pack(),
        );
    }
}
