//! The board: the words and the values that threads share.
use crate::kept::Kept;
use crate::view::{LawfulBoard, Opening, View};
use atomic_table::Table;
use std::alloc::Global;
use std::marker::Model;
use waiter_sleep::{QueueFront, Sleepers};

/// A lock on words that threads share, with values behind it. Its passes make its steps.
#[derive(Drop)]
pub struct SharedBoard<V: Kept + Drop> {
    pub(crate) table: Table<Option<V>, View, Opening<V>, LawfulBoard, Global>,
    // Room for the values at the end, so that the closing takes no memory.
    pub(crate) room: Vec<V>,
    // One for each of the first passes, mostly for all. No proof rests on them, nor on the next.
    pub(crate) sleepers: Sleepers,
    // What is known of the queue's head.
    pub(crate) front: QueueFront,
}

impl<V: Kept + Drop> Model for SharedBoard<V> {
    ghost use Rattle.std.specs.Prelude.{◌≡◌, ◌≤◌, [], vec_capacity};
    ghost use Rattle.shfl_core.specs.Words.{wide};
    ghost use Rattle.shfl_core.specs.Lawful.{count};
    ghost use Rattle.shfl_table.specs.Histories.{initial_state_of};
    ghost use Rattle.shfl_laws.specs.Moves.{told_terms};
    ghost use Rattle.shfl_table.specs.PassModel.{BoardModel};

    ghost Value = { BoardModel };

    ghost view = { λ b. record {
      id = record {
        table = b.table.shared.table_id;
        rules = b.table.shared.key.rules;
        attrs = (told_terms b.table.shared.key.rules b.table.shared.key.count
            b.table.shared.key.words.value.items).attrs;
      };
      count = b.table.shared.key.count;
      initial_state = initial_state_of V.initial_state b.table.shared.key.values.value.items;
    } };

    ghost invariant = { λ b. (b.table.shared.table_id.words ≡ wide (count (told_terms
        b.table.shared.key.rules b.table.shared.key.count b.table.shared.key.words.value.items)))
        × (b.room.items ≡ []) × (b.table.shared.table_id.slots ≤ vec_capacity b.room) };
}
