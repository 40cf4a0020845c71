//! Mutexes: a lock with the value that it keeps, which is out with the seat that has locked it.
ghost use Rattle.std.specs.Prelude.{◌≡◌, ◌≢◌, ◌∷◌, ◌<◌, ℕ, false, IfSome, IsNone, None, Some};
ghost use Rattle.atomic_table.specs.Table.{rest};
ghost use Rattle.shfl_line.specs.declared.events.Mode.TheVariants.{Write};
ghost use Rattle.shfl_core.specs.Plan as plan;
ghost use Rattle.shfl_arena.specs.Mutexes.{Locks, Unlocks};
ghost use Rattle.shfl_arena.specs.Threads.{mode_held};
ghost use Rattle.shfl_arena.specs.ValueMoves.{IsOutInFront};
ghost use Rattle.shfl_arena.specs.Waits.{AsksInRounds};

use crate::arena::Arena;
use crate::seats::ArenaSeat;
use crate::waiting::{free, wait_for};
use shfl_line::{Attr, Chooser, Mode};
use std::sync::Wait;

impl<V: Drop> ArenaSeat<V> {
    /// Locks a mutex that it hasn't locked, and hands out the value. It waits as `wait_for`. No other seat has the value, or comes to have
    /// it, before `unlock_value` puts one back.
    pub fn lock_value<C: Chooser, Rt: Wait>(
        &mut self,
        rt: &Rt,
        arena: &Arena<V>,
        lock: u32,
        anchor: &Attr,
        chooser: &mut C,
    ) -> V
        requires arena { self.old.arena ≡ arena.now.id }
        requires rests { plan.moving self.old.own ≡ false }
        requires lock { lock < self.old.arena.shape.locks }
        requires slot { lock < self.old.arena.table.slots }
        requires free { mode_held lock self.old.holds ≡ None }
        ensures home { C.home chooser.new ≡ C.home chooser.old }
        ensures locked { Locks lock self.old self.new }
        ensures asked { AsksInRounds anchor.now self.old.decisions self.new.decisions
            (C.told chooser.old) (C.told chooser.new) }
    {
        wait_for(rt, arena, self, lock, Mode::Write, anchor, chooser);
        self.take_value(arena, lock)
    }

    /// Locks a mutex that it hasn't locked and sees free, by one operation, and hands out the value; or nothing, and then it holds what it held before.
    pub fn try_lock_value(&mut self, arena: &Arena<V>, lock: u32) -> Option<V>
        requires arena { self.old.arena ≡ arena.now.id }
        requires rests { plan.moving self.old.own ≡ false }
        requires lock { lock < self.old.arena.shape.locks }
        requires slot { lock < self.old.arena.table.slots }
        requires free { mode_held lock self.old.holds ≡ None }
        ensures locked { IfSome result (λ _. Locks lock self.old self.new) }
        ensures rests { plan.moving self.new.own ≡ false }
        ensures asked { self.new.decisions ≡ self.old.decisions }
        ensures holds { IsNone result → self.new.holds ≡ self.old.holds }
        ensures values { IsNone result → self.new.values ≡ self.old.values }
    {
        if self.attempt(arena, lock, Mode::Write).is_err() {
            return None;
        }
        Some(self.take_value(arena, lock))
    }

    /// Puts a value back into a mutex that it has locked last, of those that it still has, and unlocks the mutex. It waits for nobody.
    pub fn unlock_value(&mut self, arena: &Arena<V>, lock: u32, value: V)
        requires arena { self.old.arena ≡ arena.now.id }
        requires rests { plan.moving self.old.own ≡ false }
        requires lock { lock < self.old.arena.shape.locks }
        requires slot { lock < self.old.arena.table.slots }
        requires holds { mode_held lock self.old.holds ≡ Some Write }
        requires out { IsOutInFront lock self.old.values }
        ensures { Unlocks lock self.old self.new }
    {
        self.put_value(arena, lock, value);
        free(arena, self, lock, Mode::Write);
    }
}
