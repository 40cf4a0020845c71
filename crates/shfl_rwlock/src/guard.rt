//! The guards of a lock for readers and writers.
ghost use Rattle.std.specs.Prelude.{◌≡◌, ◌∷◌};
ghost use Rattle.std.specs.Sync.RwLock.{read_guard_value, write_guard_value};
ghost use Rattle.shfl_line.specs.declared.events.Mode.{Mode};

use crate::seat::RwSeat;
use std::ops::{Deref, DerefMut};
use std::sync::{RwLockReadGuard, RwLockWriteGuard};

/// A lock that a seat has. At its end the lock is given back.
pub struct RwHold<'s, 'a, T: Drop> {
    /// The seat, which may lock others while it has this one.
    pub seat: &'s mut RwSeat<'a, T>,
    lock: u32,
}

impl<'s, 'a, T: Drop> RwHold<'s, 'a, T> {
    pub(crate) fn new(seat: &'s mut RwSeat<'a, T>, lock: u32) -> RwHold<'s, 'a, T>
        ensures same_reference { result.seat.ghost_name ≡ seat.entry.ghost_name }
        ensures seat { result.seat.now ≡ seat.old }
        ensures lock { result.lock ≡ lock }
    {
        RwHold { seat, lock }
    }
}

impl<'s, 'a, T: Drop> Drop for RwHold<'s, 'a, T> {
    fn drop(self)
        ensures unlocked { (mode : Mode) (rest : _)
            → self.entry.seat.now.held ≡ (self.entry.lock, mode) ∷ rest
            → self.exit.0.now ≡ record self.entry.seat.now { held = rest } }
    {
        let RwHold { seat, lock } = self;
        seat.give_back(lock);
    }
}

/// One of several that read a value. The value comes first in it, so that its loan ends before the lock is given back.
#[derive(Drop)]
pub struct ReadGuard<'s, 'a, T: Drop> {
    pub value: RwLockReadGuard<'a, T>,
    pub hold: RwHold<'s, 'a, T>,
}

/// The one that writes a value. The value comes first in it, likewise.
#[derive(Drop)]
pub struct WriteGuard<'s, 'a, T: Drop> {
    pub value: RwLockWriteGuard<'a, T>,
    pub hold: RwHold<'s, 'a, T>,
}

impl<T: Drop> Deref for ReadGuard<'_, '_, T> {
    type Target = T;

    ghost deref_gives = { λ guard value. value ≡ read_guard_value guard.value };

    fn deref(&self) -> &T {
        &self.value
    }
}

impl<T: Drop> Deref for WriteGuard<'_, '_, T> {
    type Target = T;

    ghost deref_gives = { λ guard value. value ≡ write_guard_value guard.value };

    fn deref(&self) -> &T {
        &self.value
    }
}

impl<T: Drop> DerefMut for WriteGuard<'_, '_, T> {
    ghost deref_mut_gives = { λ guard value. value ≡ write_guard_value guard.value };

    fn deref_mut(&mut self) -> &mut T {
        &mut self.value
    }
}
