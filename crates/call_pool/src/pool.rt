//! The pool and its passes.
ghost use Rattle.std.specs.Prelude.{◌≡◌};
ghost use Rattle.shfl_cell.specs.Cells.{number};

use call_queue::{CallQueue, Taker};
use hist_log::{Numbered, Object};
use shfl_cell::{CellPassOf, ShflCellOf};
use shfl_table::{Book, Kept};
use std::marker::Model;

/// The most passes of a pool.
pub(crate) const MOST: usize = 16;

/// Calls in a queue, and a value behind the lock. It is generic in the value, since a struct over `O` that holds a board of
/// books is not shown to cross threads.
#[derive(Drop)]
pub struct PoolOf<C: Copy, V: Kept + Drop> {
    pub(crate) queue: CallQueue<C>,
    pub(crate) cell: ShflCellOf<V>,
}

/// Calls in a queue, and the object behind the lock on which they are made.
pub type Pool<O> = PoolOf<<O as Object>::Call, Book<Numbered<O>>>;

impl<C: Copy, V: Kept + Drop> Model for PoolOf<C, V> {
    ghost use Rattle.std.specs.Prelude.{◌≡◌, ◌<◌, ◌≤◌};
    ghost use Rattle.call_pool.specs.Pools.{PoolModel};

    ghost Value = { PoolModel C };

    ghost view = { λ p. record { queue = p.queue; cell = p.cell } };

    ghost invariant = { λ p. (p.queue.takers ≡ p.cell.count)
        × (0 < p.cell.count) × (p.cell.count ≤ 16) };
}

/// A caller's right to take calls from the pool.
#[derive(Drop)]
pub struct PoolPassOf<C: Copy, V: Kept + Drop> {
    pub(crate) taker: Taker<C>,
    pub(crate) cell: CellPassOf<V>,
    // Room for the cell's passes at the closing, which takes no memory. A pool that threads share can't have it.
    pub(crate) room: Vec<CellPassOf<V>>,
}

/// A caller's right to take calls from a pool with an object.
pub type PoolPass<O> = PoolPassOf<<O as Object>::Call, Book<Numbered<O>>>;

impl<C: Copy, V: Kept + Drop> Model for PoolPassOf<C, V> {
    ghost use Rattle.std.specs.Prelude.{◌≡◌, ◌≤◌, [], vec_capacity};
    ghost use Rattle.call_pool.specs.Pools.{PoolPassModel};

    ghost Value = { PoolPassModel C };

    ghost view = { λ p. record { taker = p.taker; cell = p.cell } };

    ghost invariant = { λ p. (p.room.items ≡ []) × (16 ≤ vec_capacity p.room) };
}

impl<C: Copy, V: Kept + Drop> PoolPassOf<C, V> {
    /// Whether it was answered that no call is left.
    pub fn ended(&self) -> bool
        ensures { result ≡ self.now.taker.ended }
    {
        self.taker.ended()
    }

    /// The pass's number, from 0.
    pub fn number(&self) -> u32
        ensures { result ≡ number self.now.cell }
    {
        self.cell.number()
    }
}
