//! What lies behind a directory's lock.
ghost use Rattle.std.specs.Prelude.{◌≡◌, [], IfOk};
ghost use Rattle.dir_shards.specs.KeptShards.{shard_after};

use crate::dir_journal::DirJournal;
use shard_rows::Shard;
use shared_journal::KnownPrefix;
use shfl_line::NoMemory;
use shfl_table::Kept;
use std::alloc::Global;
use std::marker::Model;

/// The names of one directory, and the beginning of the journal after which they are so.
#[derive(Drop)]
pub struct KeptShard {
    shard: Shard,
    known: KnownPrefix<DirJournal>,
}

impl Model for KeptShard {
    ghost use Rattle.std.specs.Prelude.{◌≡◌};
    ghost use Rattle.dir_shards.specs.KeptShards.{KeptShardModel, shard_after};

    ghost Value = { KeptShardModel };

    ghost view = { λ k. record {
      table = k.known.table;
      room = k.shard.room;
      dir = k.shard.dir;
      list = k.known.list;
    } };

    ghost invariant = { λ k. k.shard ≡ shard_after k.shard.room k.shard.dir k.known.list };
}

impl Kept for KeptShard {
    ghost use Rattle.std.specs.Prelude.{[]};
    ghost use Rattle.dir_shards.specs.KeptShards.{state_of};

    ghost initial_state = { λ k. state_of k };

    ghost history = { λ _. [] };
}

impl KeptShard {
    /// A directory without a name, before any entry. The memory for its names is taken here.
    pub fn open(
        alloc: Global,
        dir: u8,
        room: u32,
        known: KnownPrefix<DirJournal>,
    ) -> Result<KeptShard, NoMemory>
        requires { known.list ≡ [] }
        ensures { IfOk result (λ k.
            k ≡ record { table = known.table; room = room; dir = dir; list = [] }) }
    {
        let Ok(shard) = Shard::open(alloc, dir, room) else {
            return Err(NoMemory);
        };
        Ok(KeptShard { shard, known })
    }

    /// The names of a directory after a beginning of the journal.
    pub fn new(shard: Shard, known: KnownPrefix<DirJournal>) -> KeptShard
        requires { shard ≡ shard_after shard.room shard.dir known.list }
        ensures { result ≡ record {
          table = known.table;
          room = shard.room;
          dir = shard.dir;
          list = known.list;
        } }
    {
        KeptShard { shard, known }
    }

    /// The names, and the beginning of the journal.
    pub fn into_parts(self) -> (Shard, KnownPrefix<DirJournal>)
        ensures shard { result.0 ≡ shard_after self.room self.dir self.list }
        ensures known { result.1 ≡ record { table = self.table; list = self.list } }
    {
        let KeptShard { shard, known } = self;
        (shard, known)
    }
}
