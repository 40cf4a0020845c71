//! A thread's right to lock mutexes.
ghost use Rattle.std.specs.Prelude.{◌≡◌, ◌≢◌, ◌↔◌, ◌<◌, ◌≤◌, ◌∷◌, [], IfOk, IfErr, IsOk, IfSome, IsNone, true, false, Some, Err, length};
ghost use Rattle.shfl_arena.specs.SeatModels.{IsNewAt};
ghost use Rattle.shfl_arena.specs.Waits.{AsksInRounds};
ghost use Rattle.shfl_mutex.specs.Held.{is_among};
ghost use Rattle.shfl_mutex.specs.MutexSeats.{Refuses};
ghost use Rattle.shfl_mutex.specs.declared.seat.LockError.TheVariants.{Busy};

use crate::guard::MutexGuard;
use shfl_arena::{Arena, ArenaSeat};
use shfl_line::{Attr, Chooser, Mode};
use std::alloc::Global;
use std::marker::Model;
use std::sync::Wait;

/// Why a mutex isn't locked.
#[derive(Clone, Copy, Debug, PartialEq, Eq, Drop)]
pub enum LockError {
    /// There are fewer mutexes.
    NoSuchLock,
    /// This seat has locked it.
    Held,
    /// This seat has locked as many as it may at the same time.
    Full,
    /// Another seat has it, or is to have it. Only an attempt answers so.
    Busy,
}

/// A thread's right to lock mutexes, some at the same time.
#[derive(Drop)]
pub struct MutexSeat<'a, T: Drop> {
    arena: &'a Arena<T>,
    locks: u32,
    seat: ArenaSeat<T>,
    attr: Attr,
    most: usize,
    // The locks that it has, the one taken last at the end.
    held: Vec<u32>,
}

impl<'a, T: Drop> Model for MutexSeat<'a, T> {
    ghost use Rattle.std.specs.Prelude.{◌≡◌, ◌≤◌, vec_capacity, reverse};
    ghost use Rattle.shfl_mutex.specs.MutexSeats.{MutexSeatModel, HoldsJust};

    ghost Value = { MutexSeatModel };

    ghost view = { λ s. record {
      arena = s.arena.now.id;
      locks = s.locks;
      most = s.most;
      attr = s.attr;
      decisions = s.seat.decisions;
      held = reverse s.held.items;
    } };

    ghost invariant = { λ s. HoldsJust s.arena.now.id (reverse s.held.items) s.seat
        × (s.locks ≡ s.arena.now.id.shape.locks) × (s.most ≤ vec_capacity s.held) };
}

impl<'a, T: Drop> MutexSeat<'a, T> {
    pub(crate) fn new(
        alloc: Global,
        arena: &'a Arena<T>,
        locks: u32,
        seat: ArenaSeat<T>,
        attr: Attr,
        most: usize,
    ) -> Result<MutexSeat<'a, T>, ArenaSeat<T>>
        requires seat { IsNewAt arena.now.id seat }
        requires slots { arena.now.id.table.slots ≡ arena.now.id.shape.locks }
        requires locks { locks ≡ arena.now.id.shape.locks }
        ensures ok { IfOk result (λ s. (s.arena ≡ arena.now.id) × (s.locks ≡ locks)
            × (s.held ≡ []) × (s.most ≡ most)) }
        ensures asks { IfOk result (λ s. (s.attr ≡ attr) × (s.decisions ≡ seat.decisions)) }
        ensures err { IfErr result (λ s. s ≡ seat) }
    {
        let Ok(held) = Vec::with_capacity(alloc, most) else {
            return Err(seat);
        };
        Ok(MutexSeat {
            arena,
            locks,
            seat,
            attr,
            most,
            held,
        })
    }

    /// Whether it has locked this mutex.
    pub fn is_held(&self, lock: u32) -> bool
        ensures { result ≡ is_among lock self.now.held }
    {
        self.held.contains(&lock)
    }

    /// Gives back the seat with which it was entered, if it has locked nothing: that one may enter again, and the closing takes it. Else it
    /// stays as it is.
    pub fn leave(self) -> Result<ArenaSeat<T>, MutexSeat<'a, T>>
        ensures ok { IfOk result (IsNewAt self.entry.arena) }
        ensures exact { IsOk result ↔ (self.entry.held ≡ []) }
        ensures err { IfErr result (λ s. s ≡ self.entry) }
    {
        if !self.held.is_empty() {
            return Err(self);
        }
        let MutexSeat { seat, .. } = self;
        Ok(seat)
    }

    // Why it may not lock this mutex, if it may not.
    fn refusal(&self, lock: u32) -> Option<LockError>
        ensures some { IfSome result (λ e. Refuses self.now lock e) }
        ensures not_busy { IfSome result (λ e. e ≢ Busy) }
        ensures inside { IsNone result → lock < self.now.locks }
        ensures free { IsNone result → is_among lock self.now.held ≡ false }
        ensures room { IsNone result → length self.now.held < self.now.most }
    {
        if lock >= self.locks {
            return Some(LockError::NoSuchLock);
        }
        if self.is_held(lock) {
            return Some(LockError::Held);
        }
        if self.held.len() >= self.most {
            return Some(LockError::Full);
        }
        None
    }

    /// Locks a mutex, and waits for it as `wait_for` of `shfl_arena` does; the value comes out, and no other seat has it before `put_back`.
    pub fn take<C: Chooser, Rt: Wait>(
        &mut self,
        rt: &Rt,
        lock: u32,
        chooser: &mut C,
    ) -> Result<T, LockError>
        ensures home { C.home chooser.new ≡ C.home chooser.old }
        ensures held { IfOk result (λ _. self.new ≡ record self.old {
          decisions = self.new.decisions;
          held = lock ∷ self.old.held;
        }) }
        ensures asked { AsksInRounds self.old.attr self.old.decisions self.new.decisions
            (C.told chooser.old) (C.told chooser.new) }
        ensures refused { IfErr result (λ e. Refuses self.old lock e) }
        ensures not_busy { IfErr result (λ e. e ≢ Busy) }
        ensures unasked { IfErr result (λ _. C.told chooser.new ≡ C.told chooser.old) }
        ensures unchanged { IfErr result (λ _. self.new ≡ self.old) }
    {
        if let Some(refusal) = self.refusal(lock) {
            return Err(refusal);
        }
        let attr = self.attr;
        let value = self.seat.lock_value(rt, self.arena, lock, &attr, chooser);
        self.held.push_reserved(lock);
        Ok(value)
    }

    /// Locks a mutex that it sees free, by one operation, and the value comes out likewise.
    pub fn try_take(&mut self, lock: u32) -> Result<T, LockError>
        ensures held { IfOk result (λ _. self.new ≡ record self.old {
          held = lock ∷ self.old.held;
        }) }
        ensures refused { IfErr result (λ e. Refuses self.old lock e) }
        ensures unchanged { IfErr result (λ _. self.new ≡ self.old) }
    {
        if let Some(refusal) = self.refusal(lock) {
            return Err(refusal);
        }
        if self.seat.attempt(self.arena, lock, Mode::Write).is_err() {
            return Err(LockError::Busy);
        }
        let value = self.seat.take_value(self.arena, lock);
        self.held.push_reserved(lock);
        Ok(value)
    }

    /// Puts the value of the mutex that it has locked last back and unlocks it. Of another mutex the value is given back, and nothing changes.
    pub fn put_back(&mut self, lock: u32, value: T) -> Result<(), T>
        ensures last { (rest : _) → self.old.held ≡ lock ∷ rest
            → IsOk result × (self.new ≡ record self.old { held = rest }) }
        ensures unchanged { IfErr result (λ back. (back ≡ value) × (self.new ≡ self.old)) }
    {
        match self.held.pop() {
            Some(last) if last == lock => {
                self.seat.unlock_value(self.arena, lock, value);
                Ok(())
            }
            Some(other) => {
                self.held.push_reserved(other);
                Err(value)
            }
            None => Err(value),
        }
    }

    /// Locks a mutex, and waits for it as `wait_for` of `shfl_arena` does. The guard has the value that the last one left, and no other seat has it
    /// before the guard ends.
    pub fn lock<C: Chooser, Rt: Wait>(
        &mut self,
        rt: &Rt,
        lock: u32,
        chooser: &mut C,
    ) -> Result<MutexGuard<'_, 'a, T>, LockError>
        ensures home { C.home chooser.new ≡ C.home chooser.old }
        ensures lock { IfOk result (λ g. g.lock ≡ lock) }
        ensures held { IfOk result (λ g. g.seat.now ≡ record self.old {
          decisions = g.seat.now.decisions;
          held = lock ∷ self.old.held;
        }) }
        ensures asked { IfOk result (λ g. AsksInRounds self.old.attr self.old.decisions
            g.seat.now.decisions (C.told chooser.old) (C.told chooser.new)) }
        ensures same_reference { IfOk result (λ g. g.seat.ghost_name ≡ self.entry.ghost_name) }
        ensures refused { IfErr result (λ e. Refuses self.old lock e) }
        ensures not_busy { IfErr result (λ e. e ≢ Busy) }
        ensures unasked { IfErr result (λ _. C.told chooser.new ≡ C.told chooser.old) }
    {
        let value = self.take(rt, lock, chooser)?;
        Ok(MutexGuard::new(self, lock, value))
    }

    /// Locks a mutex that it sees free, by one operation.
    pub fn try_lock(&mut self, lock: u32) -> Result<MutexGuard<'_, 'a, T>, LockError>
        ensures lock { IfOk result (λ g. g.lock ≡ lock) }
        ensures held { IfOk result (λ g. g.seat.now ≡ record self.old {
          held = lock ∷ self.old.held;
        }) }
        ensures same_reference { IfOk result (λ g. g.seat.ghost_name ≡ self.entry.ghost_name) }
        ensures refused { IfErr result (λ e. Refuses self.old lock e) }
    {
        let value = self.try_take(lock)?;
        Ok(MutexGuard::new(self, lock, value))
    }
}
