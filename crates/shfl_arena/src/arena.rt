//! The arena: the words that threads share, and the values behind its locks.
use crate::view::{LawfulArena, Opening, SeatView};
use atomic_table::Table;
use std::alloc::Global;
use std::marker::Model;
use waiter_sleep::{QueueFronts, Sleepers};

/// Many locks on words that threads share, with a value behind each of the first ones, or none. Its seats make their steps.
#[derive(Drop)]
pub struct Arena<V: Drop> {
    pub(crate) table: Table<Option<V>, SeatView, Opening, LawfulArena, Global>,
    // One for each of the first threads, mostly for all. No proof rests on them, nor on the next.
    pub(crate) sleepers: Sleepers,
    // What is known of the heads of the locks' queues.
    pub(crate) fronts: QueueFronts,
}

impl<V: Drop> Model for Arena<V> {
    ghost use Rattle.std.specs.Prelude.{◌≡◌, ◌<◌};
    ghost use Rattle.shfl_arena.specs.ArenaWords.{word_count};
    ghost use Rattle.shfl_arena.specs.SeatModels.{ArenaModel};

    ghost Value = { ArenaModel };

    ghost view = { λ a. record {
      id = record {
        table = a.table.shared.table_id;
        rules = a.table.shared.key.rules;
        shape = a.table.shared.key.shape;
      };
      threads = a.table.shared.key.threads;
    } };

    ghost invariant = { λ a. (a.table.shared.table_id.words
        ≡ word_count a.table.shared.key.shape a.table.shared.key.threads)
        × (0 < a.table.shared.key.shape.locks)
        × (0 < a.table.shared.key.threads) };
}
