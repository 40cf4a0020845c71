//! The locks are closed, one directory's after another's.
ghost use Rattle.std.specs.Prelude.{◌≡◌, ℕ, ◌+◌, ◌<◌, ◌≤◌, [], All, length, map, reverse, vec_len, vec_capacity, slice_get, Some};
ghost use Rattle.shfl_table.specs.PassModel.{BoardModel};
ghost use Rattle.dir_shards.specs.KeptShards.{state_of};
ghost use Rattle.dir_shards.specs.ShardPasses.{AreAll, without_last};
ghost use Rattle.dir_shards.specs.Closings.{EndsOn, HasRunAt, without_locks};

use crate::kept_shard::KeptShard;
use crate::shard_pass::ShardPass;
use shfl_table::{Closing, SharedBoard};

// What lies behind a lock, once each pass has given back its own of it, which is its last one.
fn close_lock(board: SharedBoard<KeptShard>, passes: &mut [ShardPass]) -> KeptShard
    requires some { 0 < length passes.old }
    requires last { All (EndsOn board.id) passes.old }
    requires all { AreAll board.count passes.old }
    requires one { board.id.table.slots ≡ 1 }
    ensures passes { passes.new ≡ map without_last passes.old }
    ensures kept { state_of result ≡ board.initial_state }
    ensures asked { All (λ p. length p.decisions ≡ length p.locks) passes.old }
    ensures run { (dir : ℕ) → All (λ p. length p.locks ≡ dir + 1) passes.old
        → HasRunAt dir board.count board.id passes.old }
{
    let first = passes[0].take_last();
    let mut closing = Closing::new(board, first);
    for k in 1..passes.len() {
        let pass = passes[k].take_last();
        closing.give(pass);
    }
    let mut values = closing.finish();
    let Some(kept) = values.pop() else {
        unreachable!()
    };
    kept
}

/// Closes all locks, from the last directory's on, and puts what lies behind them into the list.
pub fn close_locks(
    mut boards: Vec<SharedBoard<KeptShard>>,
    passes: &mut [ShardPass],
    kept: &mut Vec<KeptShard>,
)
    requires some { 0 < length passes.old }
    requires locks { All (λ p. p.locks ≡ map (λ b. b.id) boards.items) passes.old }
    requires boards { All (λ b. (b.id.table.slots ≡ 1) × AreAll b.count passes.old) boards.items }
    requires empty { kept.old.items ≡ [] }
    requires reserved { vec_len boards ≤ vec_capacity kept.old }
    ensures passes { map without_locks passes.new ≡ map without_locks passes.old }
    ensures kept { map state_of kept.new.items
        ≡ reverse (map (λ b. b.initial_state) boards.items) }
    ensures runs { (dir : ℕ) (b : BoardModel) → slice_get boards.items dir ≡ Some b
        → HasRunAt dir b.count b.id passes.old }
{
    while let Some(board) = boards.pop() {
        kept.push_reserved(close_lock(board, passes));
    }
}
