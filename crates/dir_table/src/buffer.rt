//! Rows in blocks in memory that is taken at the start, so that an edit moves the rows of one block at most.
ghost use Rattle.std.specs.Prelude.{◌≡◌, ◌+◌, ◌<◌, ◌^◌, [], length, replicate, slice_index_or, slice_set, IfOk};
ghost use Rattle.std.specs.List.{insert, remove};
ghost use Rattle.dir_table.specs.declared.calls.DirRow.{DirRow};
ghost use Rattle.dir_table.specs.Blocks.{joined, rows_before, block_at, AreFilled, IsRow, IsGap};
ghost use Rattle.dir_table.specs.Buffers.{rows_in};

use crate::NoMemory;
use crate::block::{BLOCK_ROOM, HALF_ROOM, Spot};
use crate::block_list::BlockList;
use crate::calls::DirRow;
use std::alloc::Global;
use std::marker::Model;

/// Rows in blocks, memory for more of them, and how many each directory has.
#[derive(Drop)]
pub struct RowBuffer {
    blocks: BlockList,
    spare: usize,
    counts: [u32; 256],
}

impl Model for RowBuffer {
    ghost use Rattle.dir_table.specs.Buffers.{Buffered, AreBuffered};

    ghost Value = { Buffered };

    ghost view = { λ b. record {
      blocks = b.blocks.blocks;
      spare = b.spare;
    } };

    ghost invariant = { λ b. AreBuffered b.blocks.blocks b.spare b.blocks.left b.counts };
}

impl RowBuffer {
    /// A buffer with no row, and with memory for `spare` rows.
    pub fn open(alloc: Global, spare: usize) -> Result<RowBuffer, NoMemory>
        requires { spare < 2 ^ 32 }
        ensures rows { IfOk result (λ b. joined b.blocks ≡ []) }
        ensures spare { IfOk result (λ b. b.spare ≡ spare) }
    {
        let blocks = BlockList::open(alloc, spare.div_ceil(HALF_ROOM) + 1)?;
        Ok(RowBuffer {
            blocks,
            spare,
            counts: none_counted(),
        })
    }

    /// The same rows again with the same memory for more of them.
    pub fn copy(&self, alloc: Global) -> Result<RowBuffer, NoMemory>
        ensures { IfOk result (λ b. b ≡ self.now) }
    {
        Ok(RowBuffer {
            blocks: self.blocks.copy(alloc)?,
            spare: self.spare,
            counts: self.counts,
        })
    }

    /// The blocks of the rows, in order.
    pub fn blocks(&self) -> &BlockList
        ensures blocks { result.now.blocks ≡ self.now.blocks }
        ensures filled { AreFilled self.now.blocks }
    {
        &self.blocks
    }

    /// How many rows the directory has.
    pub fn count(&self, dir: u8) -> u32
        ensures { result ≡ rows_in dir (joined self.now.blocks) }
    {
        self.counts[dir as usize]
    }

    /// Puts a row in the place of the one at the spot, which is of the same directory.
    pub fn replace(&mut self, spot: Spot, row: DirRow)
        requires there { IsRow self.old.blocks spot }
        requires same { (none : DirRow)
            → (slice_index_or (block_at self.old.blocks spot.block) spot.at none).dir ≡ row.dir }
        ensures rows { joined self.new.blocks
            ≡ slice_set (joined self.old.blocks) (rows_before self.old.blocks spot) row }
        ensures spare { self.new.spare ≡ self.old.spare }
    {
        self.blocks.replace(spot, row);
    }

    /// Puts a row in at the spot.
    pub fn insert(&mut self, spot: Spot, row: DirRow)
        requires gap { IsGap self.old.blocks spot }
        requires spare { 0 < self.old.spare }
        requires few { length (joined self.old.blocks) < 4294967295 }
        ensures rows { joined self.new.blocks
            ≡ insert (joined self.old.blocks) (rows_before self.old.blocks spot) row }
        ensures spare { self.new.spare + 1 ≡ self.old.spare }
    {
        self.spare -= 1;
        self.counts[row.dir as usize] += 1;
        self.blocks.insert(spot, row);
        if self.blocks.rows_of(spot.block).len() == BLOCK_ROOM {
            self.blocks.split(spot.block);
        }
    }

    /// Takes the row at the spot away.
    pub fn remove(&mut self, spot: Spot) -> DirRow
        requires { IsRow self.old.blocks spot }
        ensures row { result ≡ slice_index_or (joined self.old.blocks)
            (rows_before self.old.blocks spot) result }
        ensures rows { joined self.new.blocks
            ≡ remove (joined self.old.blocks) (rows_before self.old.blocks spot) }
        ensures spare { self.new.spare ≡ self.old.spare }
    {
        let row = self.blocks.remove(spot);
        self.counts[row.dir as usize] -= 1;
        if spot.block > 0 && self.blocks.rows_of(spot.block).is_empty() {
            self.blocks.give_back(spot.block);
        }
        row
    }
}

// No row of any directory.
fn none_counted() -> [u32; 256]
    ensures { result ≡ replicate 256 0 }
{
    [0; 256]
}
