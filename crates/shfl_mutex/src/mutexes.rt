//! Values behind locks, and the seats of the threads that lock them.
ghost use Rattle.std.specs.Prelude.{◌≡◌, ◌<◌, ◌≤◌, [], All, IfOk, IfErr, length, vec_len};
ghost use Rattle.shfl_arena.specs.SeatModels.{IsNewAt};
ghost use Rattle.shfl_core.specs.Words.{most_passes};

use crate::seat::MutexSeat;
use shfl_arena::{Arena, ArenaSeat, Shape};
use shfl_line::{Attr, Form, NoMemory};
use std::alloc::Global;
use std::marker::Model;

/// Values, each behind a lock of its own. All locks share one set of nodes, a node for each thread.
#[derive(Drop)]
pub struct Mutexes<T: Drop> {
    pub(crate) arena: Arena<T>,
    pub(crate) locks: u32,
}

impl<T: Drop> Model for Mutexes<T> {
    ghost use Rattle.std.specs.Prelude.{◌≡◌};
    ghost use Rattle.shfl_arena.specs.SeatModels.{ArenaModel};

    ghost Value = { ArenaModel };

    ghost view = { λ m. m.arena };

    ghost invariant = { λ m. (m.arena.id.table.slots ≡ m.arena.id.shape.locks)
        × (m.locks ≡ m.arena.id.shape.locks) };
}

// The queue of each lock takes batches of so many from one socket at most.
const LIMIT: u16 = 1024;

impl<T: Drop> Mutexes<T> {
    /// A lock for each value, 1 to 2^24, and a seat for each of these threads, 1 to 65,535, with its attributes. In the forms `Park` and
    /// `RwPark` waiters of the queue have wakeup words of their own. A lock takes 16 bytes beside its value, or, `spread`, a cache line for each of its two words.
    pub fn open(
        alloc: Global,
        values: Vec<T>,
        spread: bool,
        attrs: &[Attr],
        form: Form,
    ) -> Result<(Mutexes<T>, Vec<ArenaSeat<T>>), NoMemory>
        requires locks { (0 < vec_len values) × (vec_len values ≤ 16777216) }
        requires threads { (0 < length attrs.now) × (length attrs.now ≤ most_passes) }
        ensures locks { IfOk result (λ r. r.0.id.shape.locks ≡ vec_len values) }
        ensures threads { IfOk result (λ r. r.0.threads ≡ length attrs.now) }
        ensures count { IfOk result (λ r. vec_len r.1 ≡ length attrs.now) }
        ensures fresh { IfOk result (λ r. All (IsNewAt r.0.id) r.1.items) }
    {
        let locks = values.len() as u32;
        let shape = Shape { locks, spread };
        let (arena, seats) = Arena::open(alloc, shape, attrs, form, LIMIT, values)?;
        Ok((Mutexes { arena, locks }, seats))
    }

    /// How many there are.
    pub fn len(&self) -> u32
        ensures { result ≡ self.now.id.shape.locks }
    {
        self.locks
    }

    /// A thread's right to lock them, `most` at the same time. The thread has these attributes, which a policy may ask for. No memory is taken after
    /// this; without memory the seat is given back.
    pub fn enter(
        &self,
        alloc: Global,
        seat: ArenaSeat<T>,
        attr: Attr,
        most: usize,
    ) -> Result<MutexSeat<'_, T>, ArenaSeat<T>>
        requires { IsNewAt self.now.id seat }
        ensures ok { IfOk result (λ s. (s.arena ≡ self.now.id)
            × (s.locks ≡ self.now.id.shape.locks) × (s.held ≡ []) × (s.most ≡ most)) }
        ensures asks { IfOk result (λ s. (s.attr ≡ attr) × (s.decisions ≡ seat.decisions)) }
        ensures err { IfErr result (λ s. s ≡ seat) }
    {
        MutexSeat::new(alloc, &self.arena, self.locks, seat, attr, most)
    }
}
