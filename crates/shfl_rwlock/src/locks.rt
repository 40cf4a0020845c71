//! Values behind locks for readers and writers, and the seats of the threads that lock them.
ghost use Rattle.std.specs.Prelude.{◌≡◌, ◌<◌, ◌≤◌, [], true, All, IfOk, IfErr, length, vec_len};
ghost use Rattle.shfl_arena.specs.SeatModels.{IsNewAt};
ghost use Rattle.shfl_core.specs.Plan.{shares};
ghost use Rattle.shfl_core.specs.Words.{most_passes};

use crate::seat::RwSeat;
use shfl_arena::{Arena, ArenaSeat, Shape};
use shfl_line::{Attr, Form, NoMemory};
use std::alloc::Global;
use std::marker::Model;
use std::sync::RwLock;

/// Values, each behind a lock of its own, which several may read at a time or one may write. All locks share one set of nodes, a node for each
/// thread.
#[derive(Drop)]
pub struct RwLocks<T: Drop> {
    // Who may have a value, and who waits for it.
    pub(crate) arena: Arena<()>,
    // Each lends its value to those whom the arena lets at it, so nobody waits there.
    pub(crate) values: Vec<RwLock<T>>,
    locks: u32,
}

impl<T: Drop> Model for RwLocks<T> {
    ghost use Rattle.std.specs.Prelude.{◌≡◌, true, vec_len};
    ghost use Rattle.shfl_arena.specs.SeatModels.{ArenaModel};
    ghost use Rattle.shfl_core.specs.Plan.{shares};

    ghost Value = { ArenaModel };

    ghost view = { λ r. r.arena };

    ghost invariant = { λ r. (r.arena.id.table.slots ≡ 0)
        × (shares r.arena.id.rules.form ≡ true)
        × (r.locks ≡ r.arena.id.shape.locks)
        × (vec_len r.values ≡ r.locks) };
}

// The queue of each lock takes batches of so many from one socket at most.
const LIMIT: u16 = 1024;

// Each value in a lock of the library's.
fn laid<T: Drop>(alloc: Global, values: Vec<T>) -> Result<Vec<RwLock<T>>, NoMemory>
    ensures { IfOk result (λ v. vec_len v ≡ vec_len values) }
{
    let mut kept = Vec::with_capacity(alloc, values.len())?;
    for value in values {
        kept.push_reserved(RwLock::new(value));
    }
    Ok(kept)
}

impl<T: Drop> RwLocks<T> {
    /// A lock for each value, 1 to 2^24, and a seat for each of these threads, 1 to 65,535, with its attributes. The form is `Rw`, or `RwPark`,
    /// whose waiters have wakeup words of their own. A lock takes 16 bytes beside its value in a `std::sync::RwLock`, or, `spread`, a cache line for each of its two words.
    pub fn open(
        alloc: Global,
        values: Vec<T>,
        spread: bool,
        attrs: &[Attr],
        form: Form,
    ) -> Result<(RwLocks<T>, Vec<ArenaSeat<()>>), NoMemory>
        requires locks { (0 < vec_len values) × (vec_len values ≤ 16777216) }
        requires threads { (0 < length attrs.now) × (length attrs.now ≤ most_passes) }
        requires form { shares form ≡ true }
        ensures locks { IfOk result (λ r. r.0.id.shape.locks ≡ vec_len values) }
        ensures count { IfOk result (λ r. vec_len r.1 ≡ length attrs.now) }
        ensures fresh { IfOk result (λ r. All (IsNewAt r.0.id) r.1.items) }
    {
        let locks = values.len() as u32;
        let shape = Shape { locks, spread };
        let none = Vec::new(alloc);
        let (arena, seats) = Arena::open(alloc, shape, attrs, form, LIMIT, none)?;
        let values = laid(alloc, values)?;
        let opened = RwLocks {
            arena,
            values,
            locks,
        };
        Ok((opened, seats))
    }

    /// How many there are.
    pub fn len(&self) -> u32
        ensures { result ≡ self.now.id.shape.locks }
    {
        self.locks
    }

    /// A thread's right to lock them, `most` at the same time. The thread has these attributes, which a policy may ask for. No memory is taken after
    /// this; without memory the seat is given back.
    pub fn enter(
        &self,
        alloc: Global,
        seat: ArenaSeat<()>,
        attr: Attr,
        most: usize,
    ) -> Result<RwSeat<'_, T>, ArenaSeat<()>>
        requires { IsNewAt self.now.id seat }
        ensures ok { IfOk result (λ s. (s.locks ≡ self.now.id.shape.locks) × (s.held ≡ [])
            × (s.most ≡ most)) }
        ensures asks { IfOk result (λ s. (s.attr ≡ attr) × (s.decisions ≡ seat.decisions)) }
        ensures err { IfErr result (λ s. s ≡ seat) }
    {
        RwSeat::new(
            alloc,
            &self.arena,
            self.values.as_slice(),
            self.locks,
            seat,
            attr,
            most,
        )
    }
}
