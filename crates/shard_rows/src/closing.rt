//! All rows, one directory after another, once no call is left.
ghost use Rattle.std.specs.Prelude.{◌≡◌, ◌+◌, ◌≤◌};
ghost use Rattle.std.specs.Vec.{vec_capacity};
ghost use Rattle.dir_table.specs.Names.{entries_of};
ghost use Rattle.shard_rows.specs.Values.{IsUpTo, caught_up, rows_below};

use crate::journal::Journal;
use crate::shard::Shard;
use dir_table::DirRow;

impl Shard {
    /// Brings the names forward, and puts their rows behind those of the lesser directories. No memory is taken.
    pub fn put_rows(&mut self, journal: &Journal, rows: &mut Vec<DirRow>)
        requires up_to { IsUpTo journal.now.entries self.old }
        requires room { self.old.room ≡ journal.now.room }
        requires lesser { entries_of rows.old.items ≡ rows_below journal.now self.old.dir }
        requires reserved { journal.now.limit ≤ vec_capacity rows.old }
        ensures shard { self.new ≡ caught_up journal.now.entries self.old }
        ensures rows { entries_of rows.new.items ≡ rows_below journal.now (self.old.dir + 1) }
        ensures capacity { vec_capacity rows.new ≡ vec_capacity rows.old }
    {
        journal.legal();
        self.bring_forward(journal);
        self.push_rows(rows);
    }
}
