//! Blocks of rows, and spots in them.
ghost use Rattle.std.specs.Prelude.{◌≡◌, ◌<◌, ◌≤◌, List, [], length, slice_index_or, slice_set, take, drop};
ghost use Rattle.std.specs.List.{insert, remove};
ghost use Rattle.dir_table.specs.declared.calls.DirRow.{DirRow};
ghost use Rattle.dir_table.specs.Blocks.{block_room, half_room, first_row};

use crate::calls::DirRow;
use arrayvec::ArrayVec;
use std::marker::Model;

/// How many rows a block has memory for.
pub const BLOCK_ROOM: usize = 128;

/// How many rows the two halves of a full block have.
pub const HALF_ROOM: usize = 64;

/// Where a row is, or where it would go: in which block, and before which of its rows.
#[derive(Clone, Copy)]
pub struct Spot {
    pub block: usize,
    pub at: usize,
}

impl Spot {
    /// Where the rows begin.
    pub fn first() -> Spot {
        Spot { block: 0, at: 0 }
    }
}

/// Up to 128 rows, which lie in the block itself.
#[derive(Drop)]
pub struct Block {
    rows: ArrayVec<DirRow, 128>,
}

impl Model for Block {
    ghost use Rattle.std.specs.Prelude.{List};
    ghost use Rattle.dir_table.specs.declared.calls.DirRow.{DirRow};

    ghost Value = { List DirRow };

    ghost view = { λ b. b.rows.items };
}

impl Block {
    /// A block with no row.
    pub fn new() -> Block
        ensures { result ≡ [] }
    {
        Block {
            rows: ArrayVec::new(),
        }
    }

    /// The same rows again.
    pub fn copy(&self) -> Block
        ensures { result ≡ self.now }
    {
        Block {
            rows: rows_again(self.rows.as_slice()),
        }
    }

    /// The rows.
    pub fn as_slice(&self) -> &[DirRow]
        ensures { result.now ≡ self.now }
    {
        self.rows.as_slice()
    }

    /// Puts a row in the place of the one at `at`.
    pub fn replace(&mut self, at: usize, row: DirRow)
        requires { at < length self.old }
        ensures { self.new ≡ slice_set self.old at row }
    {
        self.rows.as_mut_slice()[at] = row;
    }

    /// Puts a row before the one at `at`.
    pub fn insert(&mut self, at: usize, row: DirRow)
        requires within { at ≤ length self.old }
        requires room { length self.old < block_room }
        ensures { self.new ≡ insert self.old at row }
    {
        self.rows.insert(at, row);
    }

    /// Takes the row at `at` away.
    pub fn remove(&mut self, at: usize) -> DirRow
        requires { at < length self.old }
        ensures row { result ≡ slice_index_or self.old at result }
        ensures rows { self.new ≡ remove self.old at }
    {
        self.rows.remove(at)
    }

    /// Moves the upper half of the rows of a full block into one of their own.
    pub fn split(&mut self) -> Block
        requires { length self.old ≡ block_room }
        ensures lower { self.new ≡ take half_room self.old }
        ensures upper { result ≡ drop half_room self.old }
    {
        let upper = rows_again(&self.rows.as_slice()[HALF_ROOM..]);
        self.rows.truncate(HALF_ROOM);
        Block { rows: upper }
    }
}

// The same rows in memory of a block.
fn rows_again(rows: &[DirRow]) -> ArrayVec<DirRow, 128>
    requires { length rows.now ≤ block_room }
    ensures { result.items ≡ rows.now }
{
    let mut again = ArrayVec::new();
    again.try_extend_from_slice(rows).unwrap();
    again
}

/// The first of the rows. Of none it is the one with the least numbers.
pub fn first_row(rows: &[DirRow]) -> DirRow
    ensures { result ≡ first_row rows.now }
{
    rows.first().copied().unwrap_or_default()
}

/// The first row once `row` stands at `at`, where `first` was the first one.
#[tactic(auto, using(crate::proofs::Firsts::put_first, crate::proofs::Firsts::put_behind, crate::proofs::Firsts::set_first, crate::proofs::Firsts::set_behind))]
pub fn first_with(first: DirRow, at: usize, row: DirRow) -> DirRow
    ensures put_in { (rows : List DirRow) → first ≡ first_row rows → at ≤ length rows
        → result ≡ first_row (insert rows at row) }
    ensures replaced { (rows : List DirRow) → first ≡ first_row rows → at < length rows
        → result ≡ first_row (slice_set rows at row) }
{
    if at == 0 { row } else { first }
}

/// The first of the rows once the one at `at` is gone, where `first` was the first one.
#[tactic(auto, using(crate::proofs::Firsts::removed_behind))]
pub fn first_without(first: DirRow, at: usize, rows: &[DirRow]) -> DirRow
    ensures { (before : List DirRow) → first ≡ first_row before → at < length before
        → rows.now ≡ remove before at → result ≡ first_row rows.now }
{
    if at == 0 { first_row(rows) } else { first }
}
