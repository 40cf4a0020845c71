//! A directory's lock is taken, and freed.
ghost use Rattle.std.specs.Prelude.{◌≡◌, ◌<◌, ℕ, true, false, map, length, slice_get, Some};
ghost use Rattle.shfl_table.specs.Waits.{AsksInRounds};
ghost use Rattle.dir_shards.specs.KeptShards.{state_of};
ghost use Rattle.dir_shards.specs.Locks.{LockPass, IsFree, HasOut, IsSamePass, TakesAt, FreesAt, as_free, decisions_at, AreOfLocks};

use crate::kept_shard::KeptShard;
use shfl_line::{Attr, Chooser, Mode};
use shfl_table::{Pass, SharedBoard, free, wait_for};
use std::sync::Wait;
use syn_outer::Gate;

// Takes the lock, and what lies behind it.
fn take_lock<C: Chooser, G: Gate, Rt: Wait>(
    rt: &Rt,
    board: &SharedBoard<KeptShard>,
    pass: &mut Pass<KeptShard>,
    attr: &Attr,
    chooser: &mut C,
    gate: &G,
) -> KeptShard
    requires board { pass.old.board ≡ board.now.id }
    requires free { IsFree pass.old }
    ensures same { IsSamePass pass.old pass.new }
    ensures out { HasOut pass.new }
    ensures kept { state_of result ≡ pass.old.initial_state }
    ensures asked { AsksInRounds attr.now pass.old.decisions pass.new.decisions
        (C.told chooser.old) (C.told chooser.new) }
    ensures home { C.home chooser.new ≡ C.home chooser.old }
    ensures in_round { C.in_round chooser.old ≡ false → C.in_round chooser.new ≡ false }
{
    wait_for(rt, board, pass, Mode::Write, attr, chooser, gate);
    pass.take_value(board, 0)
}

// Puts back what lies behind the lock, and frees it.
fn free_lock(board: &SharedBoard<KeptShard>, pass: &mut Pass<KeptShard>, kept: KeptShard)
    requires board { pass.old.board ≡ board.now.id }
    requires out { HasOut pass.old }
    requires kept { state_of kept ≡ pass.old.initial_state }
    ensures { (word : ℕ) × (pass.new ≡ as_free word pass.old) }
{
    pass.put_value(board, 0, kept);
    free(board, pass);
}

/// Takes the lock of a place, and what lies behind it. The gate is called while the pass waits in the queue.
pub fn lock_at<C: Chooser, G: Gate, Rt: Wait>(
    rt: &Rt,
    boards: &[SharedBoard<KeptShard>],
    passes: &mut [Pass<KeptShard>],
    place: usize,
    attr: &Attr,
    chooser: &mut C,
    gate: &G,
) -> KeptShard
    requires within { place < length passes.old }
    requires locks { AreOfLocks passes.old (map (λ b. b.id) boards.now) }
    requires free { (p : LockPass) → slice_get passes.old place ≡ Some p → IsFree p }
    ensures takes { TakesAt place passes.old result passes.new }
    ensures asked { AsksInRounds attr.now (decisions_at passes.old place)
        (decisions_at passes.new place) (C.told chooser.old) (C.told chooser.new) }
    ensures home { C.home chooser.new ≡ C.home chooser.old }
    ensures in_round { C.in_round chooser.old ≡ false → C.in_round chooser.new ≡ false }
{
    let board = &boards[place];
    let pass = &mut passes[place];
    take_lock(rt, board, pass, attr, chooser, gate)
}

/// Puts back what lies behind the lock of a place, and frees the lock.
pub fn free_at(
    boards: &[SharedBoard<KeptShard>],
    passes: &mut [Pass<KeptShard>],
    place: usize,
    kept: KeptShard,
)
    requires within { place < length passes.old }
    requires locks { AreOfLocks passes.old (map (λ b. b.id) boards.now) }
    requires out { (p : LockPass) → slice_get passes.old place ≡ Some p
        → HasOut p × (state_of kept ≡ p.initial_state) }
    ensures { FreesAt place passes.old passes.new }
{
    let board = &boards[place];
    let pass = &mut passes[place];
    free_lock(board, pass, kept);
}
