//! The value of a lock is taken out and put back, by the seat that holds the lock as a writer.
ghost use Rattle.std.specs.Prelude.{◌≡◌, ◌∷◌, false, None, Some};
ghost use Rattle.atomic_table.specs.Table.{rest, turned};
ghost use Rattle.shfl_core.specs.Plan as plan;
ghost use Rattle.shfl_arena.specs.ValueMoves.{HasInFront, IsOutInFront};

use crate::arena::Arena;
use crate::seats::ArenaSeat;

impl<V: Drop> ArenaSeat<V> {
    /// The value in front goes behind the others.
    #[inline(always)]
    pub fn turn(&mut self)
        requires rests { plan.moving self.old.own ≡ false }
        ensures { self.new ≡ record self.old { values = turned self.old.values } }
    {
        self.seat.turn();
    }

    /// Takes out the value of a lock that is in front. It waits for nobody.
    #[inline(always)]
    pub fn take_value(&mut self, arena: &Arena<V>, lock: u32) -> V
        requires arena { self.old.arena ≡ arena.now.id }
        requires rests { plan.moving self.old.own ≡ false }
        requires front { HasInFront lock self.old.values }
        ensures value { self.old.values ≡ (lock, Some result) ∷ rest self.old.values }
        ensures out { self.new ≡ record self.old {
          values = (lock, None) ∷ rest self.old.values;
        } }
    {
        let shared = &arena.table.shared;
        let Some(value) = shared.exchange(&mut self.seat, lock as usize, None) else {
            unreachable!()
        };
        value
    }

    /// Puts a value into the place of a lock that is in front and empty.
    #[inline(always)]
    pub fn put_value(&mut self, arena: &Arena<V>, lock: u32, value: V)
        requires arena { self.old.arena ≡ arena.now.id }
        requires rests { plan.moving self.old.own ≡ false }
        requires front { IsOutInFront lock self.old.values }
        ensures { self.new ≡ record self.old {
          values = (lock, Some value) ∷ rest self.old.values;
        } }
    {
        let shared = &arena.table.shared;
        let _ = shared.exchange(&mut self.seat, lock as usize, Some(value));
    }
}
