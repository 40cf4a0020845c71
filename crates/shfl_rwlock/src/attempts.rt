//! Attempts: a lock is taken by one operation, or not.
ghost use Rattle.std.specs.Prelude.{◌≡◌, ◌∷◌, IfOk, IfErr};
ghost use Rattle.shfl_line.specs.declared.events.Mode.TheVariants.{Read, Write};
ghost use Rattle.shfl_rwlock.specs.RwSeats.{MayLock, Refuses};

use crate::guard::{ReadGuard, RwHold, WriteGuard};
use crate::refusals::LockError;
use crate::seat::RwSeat;
use shfl_line::Mode;

impl<'a, T: Drop> RwSeat<'a, T> {
    /// Locks a value to read it, by one operation, where nobody writes it and nobody is to have it before.
    pub fn try_read(&mut self, lock: u32) -> Result<ReadGuard<'_, 'a, T>, LockError>
        ensures lock { IfOk result (λ g. g.hold.lock ≡ lock) }
        ensures held { IfOk result (λ g. g.hold.seat.now ≡ record self.old {
          held = (lock, Read) ∷ self.old.held;
        }) }
        ensures same_reference { IfOk result (λ g.
            g.hold.seat.ghost_name ≡ self.entry.ghost_name) }
        ensures allowed { IfOk result (λ _. MayLock self.old lock) }
        ensures refused { IfErr result (λ e. Refuses self.old lock e) }
    {
        if let Some(refusal) = self.refusal(lock) {
            return Err(refusal);
        }
        let lender = self.lender(lock);
        if !self.try_take(lock, Mode::Read) {
            return Err(LockError::Busy);
        }
        let Some(value) = lender.try_read() else {
            self.give_back(lock);
            return Err(LockError::Busy);
        };
        let hold = RwHold::new(self, lock);
        Ok(ReadGuard { value, hold })
    }

    /// Locks a value to write it, by one operation, where it sees it free.
    pub fn try_write(&mut self, lock: u32) -> Result<WriteGuard<'_, 'a, T>, LockError>
        ensures lock { IfOk result (λ g. g.hold.lock ≡ lock) }
        ensures held { IfOk result (λ g. g.hold.seat.now ≡ record self.old {
          held = (lock, Write) ∷ self.old.held;
        }) }
        ensures same_reference { IfOk result (λ g.
            g.hold.seat.ghost_name ≡ self.entry.ghost_name) }
        ensures allowed { IfOk result (λ _. MayLock self.old lock) }
        ensures refused { IfErr result (λ e. Refuses self.old lock e) }
    {
        if let Some(refusal) = self.refusal(lock) {
            return Err(refusal);
        }
        let lender = self.lender(lock);
        if !self.try_take(lock, Mode::Write) {
            return Err(LockError::Busy);
        }
        let Some(value) = lender.try_write() else {
            self.give_back(lock);
            return Err(LockError::Busy);
        };
        let hold = RwHold::new(self, lock);
        Ok(WriteGuard { value, hold })
    }
}
