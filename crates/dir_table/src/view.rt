//! The rows of a directory for its readers.
ghost use Rattle.std.specs.Prelude.{◌≡◌, ◌<◌, ◌^◌, length};
ghost use Rattle.std.specs.Iterator.{YieldsFirstRef, item_count};
ghost use Rattle.dir_table.specs.Blocks.{joined, AreFilled};

use crate::block_list::{BlockList, rows_between};
use crate::calls::DirRow;
use std::marker::Model;

/// The rows of a directory that are left to be read, in order of directory and name.
#[derive(Drop)]
pub struct Rows<'a> {
    first: &'a [DirRow],
    list: &'a BlockList,
    // the blocks from here on are left
    next: usize,
}

impl<'a> Model for Rows<'a> {
    ghost use Rattle.std.specs.Prelude.{List, ◌++◌, drop};
    ghost use Rattle.dir_table.specs.declared.calls.DirRow.{DirRow};
    ghost use Rattle.dir_table.specs.Blocks.{joined, AreReadable};

    ghost Value = { List DirRow };

    ghost view = { λ r. r.first.now ++ joined (drop r.next r.list.now.blocks) };

    ghost invariant = { λ r. AreReadable r.first.now r.list.now.blocks r.next };
}

impl<'a> Rows<'a> {
    /// The rows of the blocks.
    pub(crate) fn of(list: &'a BlockList) -> Rows<'a>
        requires filled { AreFilled list.now.blocks }
        requires few { length (joined list.now.blocks) < 2 ^ 32 }
        ensures { result ≡ joined list.entry.now.blocks }
    {
        Rows {
            first: list.rows_of(0),
            list,
            next: 1,
        }
    }

    /// How many rows are left.
    pub fn len(&self) -> usize
        ensures { result ≡ length self.now }
    {
        self.first.len() + rows_between(self.list, self.next, self.list.len())
    }
}

impl<'a> Iterator for Rows<'a> {
    type Item = &'a DirRow;

    ghost next_gives = { YieldsFirstRef (λ rows. rows) };

    ghost remaining = { item_count (λ rows. rows) };

    fn next(&mut self) -> Option<&'a DirRow> {
        if let Some((row, rest)) = self.first.split_first() {
            self.first = rest;
            return Some(row);
        }
        if self.next == self.list.len() {
            return None;
        }
        let (row, rest) = self.list.rows_of(self.next).split_first()?;
        self.first = rest;
        self.next += 1;
        Some(row)
    }
}
