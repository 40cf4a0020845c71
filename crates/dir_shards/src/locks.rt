//! The locks of the directories, and a pass of each for every pass of the whole.
ghost use Rattle.std.specs.Prelude.{◌≡◌, ℕ, ◌<◌, ◌≤◌, [], map, length, vec_len, slice_get, IfOk, OnOk, Some};
ghost use Rattle.shfl_line.specs.Words.{attr_word};
ghost use Rattle.shfl_line.specs.declared.events.Form.TheVariants.{Park};
ghost use Rattle.shfl_table.specs.PassModel.{BoardModel, fresh_pass};
ghost use Rattle.dir_shards.specs.KeptShards.{lock_state};
ghost use Rattle.dir_shards.specs.Locks.{LockPass};
ghost use Rattle.dir_shards.specs.ShardPasses.{ShardPassModel, MayAdd, with_lock, with_locks};
ghost use Rattle.dir_shards.specs.ShardedDirs.{IsLockOf, IsFirst};

use crate::dir_journal::DirJournal;
use crate::kept_shard::KeptShard;
use crate::shard_pass::ShardPass;
use shared_journal::{JournalTable, KnownPrefix};
use shfl_line::{Attr, Form, NoMemory};
use shfl_table::{Pass, SharedBoard, open};
use std::alloc::Global;

/// How many directories there are.
pub const DIRS: u8 = 64;

// The lock of an empty directory.
fn open_lock(
    alloc: Global,
    dir: u8,
    room: u32,
    attrs: &[Attr],
    limit: u16,
    known: KnownPrefix<DirJournal>,
) -> Result<(SharedBoard<KeptShard>, Vec<Pass<KeptShard>>), NoMemory>
    requires some { 0 < length attrs.now }
    requires few { length attrs.now ≤ 64 }
    requires limited { (0 < limit) × (limit ≤ 1024) }
    requires known { known.list ≡ [] }
    ensures lock { IfOk result (λ r. IsLockOf known.table room (length attrs.now) dir r.0) }
    ensures rules { IfOk result (λ r. r.0.id.rules ≡ record { limit = limit; form = Park }) }
    ensures attrs { IfOk result (λ r. r.0.id.attrs ≡ map attr_word attrs.now) }
    ensures count { IfOk result (λ r. vec_len r.1 ≡ length attrs.now) }
    ensures passes { IfOk result (λ r. (i : ℕ) → i < vec_len r.1 → slice_get r.1.items i
        ≡ Some (fresh_pass (lock_state known.table room dir) r.0.id i)) }
{
    let kept = KeptShard::open(alloc, dir, room, known)?;
    let mut values = Vec::with_capacity(alloc, 1)?;
    values.push_reserved(kept);
    open(alloc, attrs, Form::Park, limit, values)
}

// Each pass has its own of the new lock too.
fn deal(
    board: &SharedBoard<KeptShard>,
    mut passes: Vec<Pass<KeptShard>>,
    all: &mut [ShardPass],
) -> Result<(), NoMemory>
    requires len { vec_len passes ≡ length all.old }
    requires may { (k : ℕ) (p : ShardPassModel) (q : LockPass) → slice_get all.old k ≡ Some p
        → slice_get passes.items k ≡ Some q → MayAdd p q × (q.board ≡ board.now.id) }
    ensures { OnOk result (all.new ≡ map (with_lock board.now.id) all.old) }
{
    while let Some(pass) = passes.pop() {
        all[passes.len()].add_lock(pass)?;
    }
    Ok(())
}

/// A lock for each directory, and for each pass its own of each lock.
pub fn open_locks(
    alloc: Global,
    table: &JournalTable<DirJournal>,
    mut known: KnownPrefix<DirJournal>,
    room: u32,
    attrs: &[Attr],
    limit: u16,
    all: &mut [ShardPass],
) -> Result<Vec<SharedBoard<KeptShard>>, NoMemory>
    requires some { 0 < length attrs.now }
    requires few { length attrs.now ≤ 64 }
    requires limited { (0 < limit) × (limit ≤ 1024) }
    requires known { (known.table ≡ table.now.id) × (known.list ≡ []) }
    requires len { length all.old ≡ length attrs.now }
    requires first { (k : ℕ) (p : ShardPassModel) → slice_get all.old k ≡ Some p
        → IsFirst table.now.id room k p }
    ensures count { IfOk result (λ v. vec_len v ≡ 64) }
    ensures locks { IfOk result (λ v. (dir : ℕ) (lock : BoardModel)
        → slice_get v.items dir ≡ Some lock
        → IsLockOf table.now.id room (length attrs.now) dir lock) }
    ensures rules { IfOk result (λ v. (dir : ℕ) (lock : BoardModel)
        → slice_get v.items dir ≡ Some lock
        → lock.id.rules ≡ record { limit = limit; form = Park }) }
    ensures attrs { IfOk result (λ v. (dir : ℕ) (lock : BoardModel)
        → slice_get v.items dir ≡ Some lock → lock.id.attrs ≡ map attr_word attrs.now) }
    ensures passes { IfOk result (λ v.
        all.new ≡ map (with_locks (map (λ b. b.id) v.items)) all.old) }
{
    let mut boards = Vec::with_capacity(alloc, DIRS as usize)?;
    for dir in 0..DIRS {
        let next = known.split(table);
        let (board, passes) = open_lock(alloc, dir, room, attrs, limit, next)?;
        deal(&board, passes, all)?;
        boards.push_reserved(board);
    }
    Ok(boards)
}
