//! A thread's right to lock values for reading and writing.
ghost use Rattle.std.specs.Prelude.{◌≡◌, ◌≢◌, ◌<◌, ◌≤◌, ◌∷◌, [], IfOk, IfErr, IfSome, IsNone, true, false, None, length};
ghost use Rattle.shfl_arena.specs.SeatModels.{IsNewAt};
ghost use Rattle.shfl_arena.specs.Threads.{mode_held};
ghost use Rattle.shfl_arena.specs.Waits.{AsksInRounds};
ghost use Rattle.shfl_core.specs.Plan.{shares};
ghost use Rattle.shfl_line.specs.declared.events.Mode.{Mode};
ghost use Rattle.shfl_line.specs.declared.events.Mode.TheVariants.{Read, Write};
ghost use Rattle.shfl_rwlock.specs.declared.refusals.LockError.TheVariants.{Busy};
ghost use Rattle.shfl_rwlock.specs.RwSeats.{MayLock, Refuses};

use crate::guard::{ReadGuard, RwHold, WriteGuard};
use crate::refusals::LockError;
use shfl_arena::{Arena, ArenaSeat, free, wait_for};
use shfl_line::{Attr, Chooser, Mode};
use std::alloc::Global;
use std::marker::Model;
use std::sync::{RwLock, Wait};

/// A thread's right to lock values, some at the same time, each to read or to write it.
#[derive(Drop)]
pub struct RwSeat<'a, T: Drop> {
    arena: &'a Arena<()>,
    values: &'a [RwLock<T>],
    seat: ArenaSeat<()>,
    attr: Attr,
    locks: u32,
    most: usize,
    // The locks that it has, each with its mode, the one taken last at the end.
    held: Vec<(u32, Mode)>,
}

impl<'a, T: Drop> Model for RwSeat<'a, T> {
    ghost use Rattle.std.specs.Prelude.{◌≡◌, ◌≤◌, length, vec_capacity, reverse};
    ghost use Rattle.shfl_rwlock.specs.RwSeats.{RwSeatModel, HoldsJust};

    ghost Value = { RwSeatModel };

    ghost view = { λ s. record {
      locks = s.locks;
      most = s.most;
      attr = s.attr;
      decisions = s.seat.decisions;
      held = reverse s.held.items;
    } };

    ghost invariant = { λ s. HoldsJust s.arena.now.id (reverse s.held.items) s.seat
        × (s.locks ≡ s.arena.now.id.shape.locks) × (length s.values.now ≡ s.locks)
        × (s.most ≤ vec_capacity s.held) };
}

// How this list says that the lock is held.
fn mode_in(held: &[(u32, Mode)], lock: u32) -> Option<Mode>
    ensures { result ≡ mode_held lock held.now }
{
    for entry in held {
        if entry.0 == lock {
            return Some(entry.1);
        }
    }
    None
}

impl<'a, T: Drop> RwSeat<'a, T> {
    pub(crate) fn new(
        alloc: Global,
        arena: &'a Arena<()>,
        values: &'a [RwLock<T>],
        locks: u32,
        seat: ArenaSeat<()>,
        attr: Attr,
        most: usize,
    ) -> Result<RwSeat<'a, T>, ArenaSeat<()>>
        requires seat { IsNewAt arena.now.id seat }
        requires slots { arena.now.id.table.slots ≡ 0 }
        requires form { shares arena.now.id.rules.form ≡ true }
        requires locks { locks ≡ arena.now.id.shape.locks }
        requires values { length values.now ≡ locks }
        ensures ok { IfOk result (λ s. (s.locks ≡ locks) × (s.held ≡ [])
            × (s.most ≡ most)) }
        ensures asks { IfOk result (λ s. (s.attr ≡ attr) × (s.decisions ≡ seat.decisions)) }
        ensures err { IfErr result (λ s. s ≡ seat) }
    {
        let Ok(held) = Vec::with_capacity(alloc, most) else {
            return Err(seat);
        };
        Ok(RwSeat {
            arena,
            values,
            seat,
            attr,
            locks,
            most,
            held,
        })
    }

    /// How it has locked this one, if it has.
    pub fn mode(&self, lock: u32) -> Option<Mode>
        ensures { result ≡ mode_held lock self.now.held }
    {
        mode_in(self.held.as_slice(), lock)
    }

    // Why it may not have this lock, if it may not.
    pub(crate) fn refusal(&self, lock: u32) -> Option<LockError>
        ensures some { IfSome result (λ e. Refuses self.now lock e) }
        ensures not_busy { IfSome result (λ e. e ≢ Busy) }
        ensures none { IsNone result → MayLock self.now lock }
    {
        if lock >= self.locks {
            return Some(LockError::NoSuchLock);
        }
        if self.mode(lock).is_some() {
            return Some(LockError::Held);
        }
        if self.held.len() >= self.most {
            return Some(LockError::Full);
        }
        None
    }

    // What lends the value of this lock.
    pub(crate) fn lender(&self, lock: u32) -> &'a RwLock<T>
        requires { lock < self.now.locks }
    {
        let values = self.values;
        &values[lock as usize]
    }

    // Waits for the lock in this mode.
    fn take<C: Chooser, Rt: Wait>(&mut self, rt: &Rt, lock: u32, mode: Mode, chooser: &mut C)
        requires { MayLock self.old lock }
        ensures home { C.home chooser.new ≡ C.home chooser.old }
        ensures held { self.new ≡ record self.old {
          decisions = self.new.decisions;
          held = (lock, mode) ∷ self.old.held;
        } }
        ensures asked { AsksInRounds self.old.attr self.old.decisions self.new.decisions
            (C.told chooser.old) (C.told chooser.new) }
    {
        let attr = self.attr;
        wait_for(rt, self.arena, &mut self.seat, lock, mode, &attr, chooser);
        self.held.push_reserved((lock, mode));
    }

    // Takes the lock in this mode by an attempt, where its word allows it.
    pub(crate) fn try_take(&mut self, lock: u32, mode: Mode) -> bool
        requires { MayLock self.old lock }
        ensures held { result ≡ true → self.new ≡ record self.old {
          held = (lock, mode) ∷ self.old.held;
        } }
        ensures still { result ≡ false → self.new ≡ self.old }
    {
        if self.seat.attempt(self.arena, lock, mode).is_err() {
            return false;
        }
        self.held.push_reserved((lock, mode));
        true
    }

    // Gives the lock back, where it is the one taken last; else it stays locked.
    pub(crate) fn give_back(&mut self, lock: u32)
        ensures last { (mode : Mode) (rest : _) → self.old.held ≡ (lock, mode) ∷ rest
            → self.new ≡ record self.old { held = rest } }
    {
        match self.held.pop() {
            Some((last, mode)) if last == lock => free(self.arena, &mut self.seat, lock, mode),
            Some(other) => self.held.push_reserved(other),
            None => {}
        }
    }

    /// Locks a value to read it, and waits for it as `wait_for` of `shfl_arena` does. No seat has it to write, before the guard ends.
    pub fn read<C: Chooser, Rt: Wait>(
        &mut self,
        rt: &Rt,
        lock: u32,
        chooser: &mut C,
    ) -> Result<ReadGuard<'_, 'a, T>, LockError>
        ensures home { C.home chooser.new ≡ C.home chooser.old }
        ensures lock { IfOk result (λ g. g.hold.lock ≡ lock) }
        ensures held { IfOk result (λ g. g.hold.seat.now ≡ record self.old {
          decisions = g.hold.seat.now.decisions;
          held = (lock, Read) ∷ self.old.held;
        }) }
        ensures asked { IfOk result (λ g. AsksInRounds self.old.attr self.old.decisions
            g.hold.seat.now.decisions (C.told chooser.old) (C.told chooser.new)) }
        ensures same_reference { IfOk result (λ g.
            g.hold.seat.ghost_name ≡ self.entry.ghost_name) }
        ensures allowed { IfOk result (λ _. MayLock self.old lock) }
        ensures refused { IfErr result (λ e. Refuses self.old lock e) }
        ensures not_busy { IfErr result (λ e. e ≢ Busy) }
        ensures unasked { IfErr result (λ _. C.told chooser.new ≡ C.told chooser.old) }
    {
        if let Some(refusal) = self.refusal(lock) {
            return Err(refusal);
        }
        let lender = self.lender(lock);
        self.take(rt, lock, Mode::Read, chooser);
        let value = lender.read(rt);
        let hold = RwHold::new(self, lock);
        Ok(ReadGuard { value, hold })
    }

    /// Locks a value to write it, and waits for it likewise. No other seat has it, before the guard ends.
    pub fn write<C: Chooser, Rt: Wait>(
        &mut self,
        rt: &Rt,
        lock: u32,
        chooser: &mut C,
    ) -> Result<WriteGuard<'_, 'a, T>, LockError>
        ensures home { C.home chooser.new ≡ C.home chooser.old }
        ensures lock { IfOk result (λ g. g.hold.lock ≡ lock) }
        ensures held { IfOk result (λ g. g.hold.seat.now ≡ record self.old {
          decisions = g.hold.seat.now.decisions;
          held = (lock, Write) ∷ self.old.held;
        }) }
        ensures asked { IfOk result (λ g. AsksInRounds self.old.attr self.old.decisions
            g.hold.seat.now.decisions (C.told chooser.old) (C.told chooser.new)) }
        ensures same_reference { IfOk result (λ g.
            g.hold.seat.ghost_name ≡ self.entry.ghost_name) }
        ensures allowed { IfOk result (λ _. MayLock self.old lock) }
        ensures refused { IfErr result (λ e. Refuses self.old lock e) }
        ensures not_busy { IfErr result (λ e. e ≢ Busy) }
        ensures unasked { IfErr result (λ _. C.told chooser.new ≡ C.told chooser.old) }
    {
        if let Some(refusal) = self.refusal(lock) {
            return Err(refusal);
        }
        let lender = self.lender(lock);
        self.take(rt, lock, Mode::Write, chooser);
        let value = lender.write(rt);
        let hold = RwHold::new(self, lock);
        Ok(WriteGuard { value, hold })
    }
}
