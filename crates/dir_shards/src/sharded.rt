//! The directory with its locks and its journal.
use crate::dir_journal::DirJournal;
use crate::kept_shard::KeptShard;
use dir_table::DirRow;
use shard_rows::Shard;
use shared_journal::JournalTable;
use shfl_table::SharedBoard;
use std::marker::Model;

/// 64 directories, each behind a lock of its own, and the journal of all their calls.
#[derive(Drop)]
pub struct ShardedDir {
    pub(crate) boards: Vec<SharedBoard<KeptShard>>,
    pub(crate) table: JournalTable<DirJournal>,
    // Room for what the closing gathers, so that it takes no memory.
    pub(crate) kept: Vec<KeptShard>,
    pub(crate) shards: Vec<Shard>,
    pub(crate) rows: Vec<DirRow>,
}

impl Model for ShardedDir {
    ghost use Rattle.std.specs.Prelude.{map, slice_index};
    ghost use Rattle.std.specs.Vec.{vec_capacity};
    ghost use Rattle.dir_shards.specs.ShardPasses.{ShardedDirModel};
    ghost use Rattle.dir_shards.specs.ShardedDirs.{ShardedInvariant};

    ghost Value = { ShardedDirModel };

    ghost view = { λ d. record {
      locks = map (λ b. b.id) d.boards.items;
      journal = d.table.id;
      room = slice_index d.table.opening 0;
      allowed = d.table.allowed;
    } };

    ghost invariant = { λ d. ShardedInvariant d.boards.items d.table d.kept.items d.shards.items
        d.rows.items (vec_capacity d.kept) (vec_capacity d.shards) (vec_capacity d.rows) };
}
