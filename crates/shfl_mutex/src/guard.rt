//! The guard of a mutex.
ghost use Rattle.std.specs.Prelude.{◌≡◌, ◌∷◌};

use crate::seat::MutexSeat;
use std::ops::{Deref, DerefMut};

/// A mutex that is locked, with its value. At its end the value goes back and the mutex is unlocked.
pub struct MutexGuard<'s, 'a, T: Drop> {
    /// The seat, which may lock others while this one is locked.
    pub seat: &'s mut MutexSeat<'a, T>,
    lock: u32,
    pub value: T,
}

impl<'s, 'a, T: Drop> MutexGuard<'s, 'a, T> {
    pub(crate) fn new(seat: &'s mut MutexSeat<'a, T>, lock: u32, value: T) -> MutexGuard<'s, 'a, T>
        ensures same_reference { result.seat.ghost_name ≡ seat.entry.ghost_name }
        ensures seat { result.seat.now ≡ seat.old }
        ensures lock { result.lock ≡ lock }
        ensures value { result.value ≡ value }
    {
        MutexGuard { seat, lock, value }
    }
}

impl<'s, 'a, T: Drop> Drop for MutexGuard<'s, 'a, T> {
    fn drop(self)
        ensures unlocked { (rest : _) → self.entry.seat.now.held ≡ self.entry.lock ∷ rest
            → self.exit.0.now ≡ record self.entry.seat.now { held = rest } }
    {
        let MutexGuard { seat, lock, value } = self;
        let _ = seat.put_back(lock, value);
    }
}

impl<T: Drop> Deref for MutexGuard<'_, '_, T> {
    type Target = T;

    ghost deref_gives = { λ guard value. value ≡ guard.value };

    fn deref(&self) -> &T {
        &self.value
    }
}

impl<T: Drop> DerefMut for MutexGuard<'_, '_, T> {
    ghost deref_mut_gives = { λ guard value. value ≡ guard.value };

    fn deref_mut(&mut self) -> &mut T {
        &mut self.value
    }
}
