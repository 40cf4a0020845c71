//! The journal's table is closed.
ghost use Rattle.std.specs.Prelude.{◌≡◌, ℕ, ◌<◌, ◌≤◌, ◌++◌, [], All, length, map, reverse, vec_len, vec_capacity, slice_index};
ghost use Rattle.shared_journal.specs.Entries.{StartsWith};
ghost use Rattle.dir_shards.specs.Commits.{calls_by};
ghost use Rattle.dir_shards.specs.ShardPasses.{AreAll};
ghost use Rattle.dir_shards.specs.Closings.{GaveBack, HasSeen, shard_of};

use crate::dir_journal::DirJournal;
use crate::kept_shard::KeptShard;
use crate::shard_pass::ShardPass;
use shard_rows::{Journal, Shard};
use shared_journal::{Closing, JournalTable};

// A table that has taken the passes back.
fn give_passes(table: JournalTable<DirJournal>, mut passes: Vec<ShardPass>) -> Closing<DirJournal>
    requires some { 0 < vec_len passes }
    requires table { All (λ p. p.journal ≡ table.id) passes.items }
    ensures table { result.table ≡ table }
    ensures passes { All (GaveBack result.lists result.numbers) passes.items }
{
    let Some(first) = passes.pop() else {
        unreachable!()
    };
    let mut closing = Closing::new(table, first.into_journal());
    while let Some(pass) = passes.pop() {
        closing.give(pass.into_journal());
    }
    closing
}

// It takes back what lay behind the locks, the last one first. The names are put into the list.
fn give_kept(closing: &mut Closing<DirJournal>, mut kept: Vec<KeptShard>, shards: &mut Vec<Shard>)
    requires table { All (λ k. k.table ≡ closing.old.table.id) kept.items }
    requires empty { shards.old.items ≡ [] }
    requires reserved { vec_len kept ≤ vec_capacity shards.old }
    ensures closing { closing.new ≡ record closing.old {
      lists = map (λ k. k.list) kept.items ++ closing.old.lists;
    } }
    ensures shards { shards.new.items ≡ map shard_of (reverse kept.items) }
{
    while let Some(next) = kept.pop() {
        let (shard, known) = next.into_parts();
        closing.give_prefix(known);
        shards.push_reserved(shard);
    }
}

/// The journal, once all passes and what lay behind the locks are given back. The names are put into the list, those of the last one
/// first.
pub fn close_journal(
    table: JournalTable<DirJournal>,
    passes: Vec<ShardPass>,
    kept: Vec<KeptShard>,
    shards: &mut Vec<Shard>,
) -> Journal
    requires some { 0 < vec_len passes }
    requires passes { All (λ p. p.journal ≡ table.id) passes.items }
    requires all { AreAll (length table.allowed) passes.items }
    requires kept { All (λ k. k.table ≡ table.id) kept.items }
    requires empty { shards.old.items ≡ [] }
    requires reserved { vec_len kept ≤ vec_capacity shards.old }
    ensures seen { All (HasSeen result.entries) passes.items }
    ensures nobody_else { (k : ℕ) → length table.allowed ≤ k → calls_by k result.entries ≡ [] }
    ensures opening { (result.room ≡ slice_index table.opening 0)
        × (result.limit ≡ slice_index table.opening 1) }
    ensures begins { All (λ k. StartsWith result.entries k.list) kept.items }
    ensures shards { shards.new.items ≡ map shard_of (reverse kept.items) }
{
    let mut closing = give_passes(table, passes);
    give_kept(&mut closing, kept, shards);
    let DirJournal { journal } = closing.finish();
    journal
}
