//! The opening of a sharded directory.
ghost use Rattle.std.specs.Prelude.{◌≡◌, ℕ, ◌<◌, ◌≤◌, [], ◌∷◌, All, map, length, sum, vec_len, slice_get, slice_index, slice_index_or, IfOk, Some};
ghost use Rattle.shfl_line.specs.Words.{attr_word};
ghost use Rattle.shfl_line.specs.declared.events.Form.TheVariants.{Park};
ghost use Rattle.shared_journal.specs.Models as shared;
ghost use Rattle.shared_journal.specs.Models.{nothing_known};
ghost use Rattle.dir_shards.specs.ShardPasses.{IsPassOf, AreInOrder, fresh, fresh_with, no_attr, with_locks};

use crate::dir_journal::DirJournal;
use crate::locks::{DIRS, open_locks};
use crate::shard_pass::ShardPass;
use crate::sharded::ShardedDir;
use shard_rows::Journal;
use shared_journal::{JournalPass, JournalTable, KnownPrefix};
use shfl_line::{Attr, NoMemory};
use std::alloc::Global;

// How many calls there may be in all.
fn sum_of(calls: &[u32]) -> u32
    requires { sum calls.now ≤ 65536 }
    ensures { result ≡ sum calls.now }
{
    calls.iter().sum()
}

// An empty journal at a table of its own, and a pass for each of `calls`.
fn open_journal(
    alloc: Global,
    room: u32,
    calls: &[u32],
) -> Result<
    (
        JournalTable<DirJournal>,
        Vec<JournalPass<DirJournal>>,
        KnownPrefix<DirJournal>,
    ),
    NoMemory,
>
    requires few { length calls.now ≤ 16 }
    requires calls { sum calls.now ≤ 65536 }
    ensures table { IfOk result (λ r. (r.0.allowed ≡ calls.now)
        × (r.0.opening ≡ room ∷ sum calls.now ∷ []) × (r.0.limit ≡ sum calls.now)) }
    ensures count { IfOk result (λ r. vec_len r.1 ≡ length calls.now) }
    ensures passes { IfOk result (λ r. (k : ℕ) → k < length calls.now
        → slice_get r.1.items k ≡ Some (shared.fresh_pass r.0.id r.0.opening r.0.limit k
        (slice_index calls.now k))) }
    ensures prefix { IfOk result (λ r. r.2 ≡ nothing_known r.0.id) }
{
    let Ok(journal) = Journal::open(alloc, room, sum_of(calls)) else {
        return Err(NoMemory);
    };
    let Ok(opened) = JournalTable::open(alloc, DirJournal { journal }, calls) else {
        return Err(NoMemory);
    };
    Ok(opened)
}

// A pass that has no lock yet, of the journal's one.
fn first_pass(
    alloc: Global,
    table: &JournalTable<DirJournal>,
    calls: &[u32],
    attrs: &[Attr],
    k: usize,
    journal: JournalPass<DirJournal>,
) -> Result<ShardPass, NoMemory>
    requires place { (k < length calls.now) × (length attrs.now ≡ length calls.now) }
    requires fresh { journal ≡ shared.fresh_pass table.now.id table.now.opening table.now.limit k
        (slice_index calls.now k) }
    ensures { IfOk result (λ p. p ≡ fresh_with [] table.now.id (slice_index table.now.opening 0) k
        (slice_index calls.now k) (slice_index_or attrs.now k no_attr)) }
{
    Ok(ShardPass {
        passes: Vec::with_capacity(alloc, DIRS as usize)?,
        journal,
        attr: attrs[k],
    })
}

// A pass that has no lock yet, for each of the journal's.
fn first_passes(
    alloc: Global,
    table: &JournalTable<DirJournal>,
    calls: &[u32],
    attrs: &[Attr],
    journals: Vec<JournalPass<DirJournal>>,
) -> Result<Vec<ShardPass>, NoMemory>
    requires len { (vec_len journals ≡ length calls.now) × (length attrs.now ≡ length calls.now) }
    requires fresh { (i : ℕ) → i < vec_len journals → slice_get journals.items i
        ≡ Some (shared.fresh_pass table.now.id table.now.opening table.now.limit i
        (slice_index calls.now i)) }
    ensures count { IfOk result (λ v. vec_len v ≡ length calls.now) }
    ensures fresh { IfOk result (λ v. (i : ℕ) → i < vec_len v
        → slice_get v.items i ≡ Some (fresh_with [] table.now.id (slice_index table.now.opening 0)
        i (slice_index calls.now i) (slice_index_or attrs.now i no_attr))) }
{
    let mut all = Vec::with_capacity(alloc, calls.len())?;
    let mut k = 0;
    for journal in journals {
        all.push_reserved(first_pass(alloc, table, calls, attrs, k, journal)?);
        k += 1;
    }
    Ok(all)
}

impl ShardedDir {
    /// 64 empty directories, each behind a lock in whose queue waiters sleep, with a pass for each of the attributes. Pass k may make
    /// `calls[k]` calls; names are below `room`, and `limit` is the longest batch of a round. The memory for every directory's names
    /// and for the journal is taken here.
    pub fn open(
        alloc: Global,
        room: u32,
        attrs: &[Attr],
        limit: u16,
        calls: &[u32],
    ) -> Result<(ShardedDir, Vec<ShardPass>), NoMemory>
        requires some { 0 < length calls.now }
        requires few { length calls.now ≤ 16 }
        requires attrs { length attrs.now ≡ length calls.now }
        requires limited { (0 < limit) × (limit ≤ 1024) }
        requires calls { sum calls.now ≤ 65536 }
        ensures dir { IfOk result (λ r. (r.0.room ≡ room) × (r.0.allowed ≡ calls.now)) }
        ensures locks { IfOk result (λ r. (length r.0.locks ≡ 64)
            × All (λ l. l.rules ≡ record { limit = limit; form = Park }) r.0.locks) }
        ensures attrs { IfOk result (λ r.
            All (λ l. l.attrs ≡ map attr_word attrs.now) r.0.locks) }
        ensures count { IfOk result (λ r. vec_len r.1 ≡ length calls.now) }
        ensures passes { IfOk result (λ r. (k : ℕ) → k < length calls.now
            → slice_get r.1.items k ≡ Some (fresh r.0 k
            (slice_index calls.now k) (slice_index_or attrs.now k no_attr))) }
        ensures own { IfOk result (λ r. All (IsPassOf r.0) r.1.items) }
        ensures in_order { IfOk result (λ r. AreInOrder r.1.items) }
    {
        let (table, journals, known) = open_journal(alloc, room, calls)?;
        let mut passes = first_passes(alloc, &table, calls, attrs, journals)?;
        let boards = open_locks(alloc, &table, known, room, attrs, limit, &mut passes)?;
        let dir = ShardedDir {
            boards,
            table,
            kept: Vec::with_capacity(alloc, DIRS as usize)?,
            shards: Vec::with_capacity(alloc, DIRS as usize)?,
            rows: Vec::with_capacity(alloc, sum_of(calls) as usize)?,
        };
        Ok((dir, passes))
    }
}
