//! The closing of a sharded directory.
ghost use Rattle.std.specs.Prelude.{◌≡◌, ℕ, ◌<◌, ◌≤◌, [], All, length, vec_len, vec_capacity};
ghost use Rattle.std.specs.FinMap.{entries};
ghost use Rattle.dir_table.specs.Meanings.{IsAdmitted};
ghost use Rattle.dir_table.specs.Names.{entries_of};
ghost use Rattle.shfl_table.specs.Books.{HavePlaces};
ghost use Rattle.shard_rows.specs.Replay.{opening, left_by};
ghost use Rattle.shard_rows.specs.Values.{names_after};
ghost use Rattle.dir_shards.specs.Commits.{IsLegalFor, calls_by};
ghost use Rattle.dir_shards.specs.ShardPasses.{IsPassOf, AreAll};
ghost use Rattle.dir_shards.specs.Closings.{HasSeen, AreInPlace, HasRunOfEach};

use crate::journal_closing::close_journal;
use crate::lock_closing::close_locks;
use crate::shard_pass::ShardPass;
use crate::sharded::ShardedDir;
use dir_table::{Dir, DirRow};
use hist_log::Entry;
use shard_rows::{Journal, Shard};

// The rows of all directories, in order.
fn put_all(journal: &Journal, shards: Vec<Shard>, rows: &mut Vec<DirRow>)
    requires count { vec_len shards ≡ 64 }
    requires shards { AreInPlace journal.now shards.items }
    requires empty { rows.old.items ≡ [] }
    requires reserved { journal.now.limit ≤ vec_capacity rows.old }
    ensures { entries_of rows.new.items ≡ entries (names_after journal.now) }
{
    journal.legal();
    for mut shard in shards {
        shard.put_rows(journal, rows);
    }
}

impl ShardedDir {
    /// Gives the rows of all directories in order and the journal, for all passes of the directory. Takes no memory.
    pub fn close(self, mut passes: Vec<ShardPass>) -> (Vec<DirRow>, Vec<Entry<Dir>>)
        requires dir { All (IsPassOf self) passes.items }
        requires some { 0 < vec_len passes }
        requires all { AreAll (length self.allowed) passes.items }
        ensures legal { IsLegalFor self.room result.1.items }

        // The rows are those of the map that the journal leaves.
        ensures rows { entries_of result.0.items
            ≡ entries (left_by (opening self.room) result.1.items).names }

        // The journal begins with what each pass saw last, and has no more of its entries.
        ensures seen { All (HasSeen result.1.items) passes.items }
        ensures nobody_else { (k : ℕ) → length self.allowed ≤ k
            → calls_by k result.1.items ≡ [] }
        ensures places { HavePlaces result.1.items }
        ensures admitted { All (λ e. IsAdmitted self.room e.call) result.1.items }

        // All that was done to each lock is one list of changes, in which each pass asked what it tells, and nobody else did anything.
        ensures run { HasRunOfEach self passes.items }
    {
        let ShardedDir {
            boards,
            table,
            mut kept,
            mut shards,
            mut rows,
        } = self;
        close_locks(boards, &mut passes, &mut kept);
        let journal = close_journal(table, passes, kept, &mut shards);
        put_all(&journal, shards, &mut rows);
        (rows, journal.into_entries())
    }
}
