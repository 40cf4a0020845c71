//! The closing of mutexes gives their values back.
ghost use Rattle.std.specs.Prelude.{◌≡◌, All, IfOk, IfErr, vec_len};
ghost use Rattle.shfl_arena.specs.SeatModels.{IsNewAt};

use crate::mutexes::Mutexes;
use shfl_arena::ArenaSeat;
use std::alloc::Global;

impl<T: Drop> Mutexes<T> {
    /// A value for each mutex, in their order, for all seats: as many as there are threads, each as it was opened or as `MutexSeat::leave`
    /// gave it back. Without memory for the values the mutexes and the seats are given back.
    pub fn close(
        self,
        alloc: Global,
        seats: Vec<ArenaSeat<T>>,
    ) -> Result<Vec<T>, (Mutexes<T>, Vec<ArenaSeat<T>>)>
        requires seats { All (IsNewAt self.id) seats.items }
        requires all { vec_len seats ≡ self.threads }
        ensures len { IfOk result (λ v. vec_len v ≡ self.id.shape.locks) }
        ensures err { IfErr result (λ r. (r.0 ≡ self) × (r.1 ≡ seats)) }
    {
        let Ok(room) = Vec::with_capacity(alloc, self.locks as usize) else {
            return Err((self, seats));
        };
        let Mutexes { arena, locks: _ } = self;
        Ok(arena.close(seats, room))
    }
}
