//! Blocks in order, each in a slot of its own. Memory for all slots is taken at the start, and that of a slot is first touched when it is used.
ghost use Rattle.std.specs.Prelude.{◌≡◌, ◌+◌, ◌<◌, ◌≤◌, ◌^◌, ◌∷◌, [], length, slice_index_or, slice_set, take, IfOk};
ghost use Rattle.std.specs.List.{insert, remove};
ghost use Rattle.std.specs.Vec.{vec_capacity};
ghost use Rattle.dir_table.specs.Blocks.{joined, block_at, block_room, first_row, halved, IsRow, IsGap};
ghost use Rattle.dir_table.specs.Slots.{blocks_in, AreHeld};

use crate::NoMemory;
use crate::block::{Block, Spot, first_row, first_with, first_without};
use crate::calls::DirRow;
use std::alloc::Global;
use std::marker::Model;

/// Blocks in order, and memory for more of them.
#[derive(Drop)]
pub struct BlockList {
    slots: Vec<Block>,
    // the slots of the blocks, in the order of the blocks
    order: Vec<u32>,
    // the slots whose blocks were given back
    free: Vec<u32>,
    // the first rows of the blocks, in the order of the blocks: they lie side by side, which the blocks don't
    firsts: Vec<DirRow>,
}

impl Model for BlockList {
    ghost use Rattle.std.specs.Prelude.{◌-◌, length};
    ghost use Rattle.std.specs.Vec.{vec_capacity};
    ghost use Rattle.dir_table.specs.Slots.{Listed, blocks_in, AreListed};

    ghost Value = { Listed };

    ghost view = { λ b. record {
      blocks = blocks_in b.slots.items b.order.items;
      left = vec_capacity b.slots - length b.order.items;
    } };

    ghost invariant = { λ b. AreListed b.slots b.order b.free b.firsts };
}

// The same blocks again, in a list with memory for `room`.
fn copied_blocks(alloc: Global, from: &[Block], room: usize) -> Result<Vec<Block>, NoMemory>
    requires { length from.now ≤ room }
    ensures rows { IfOk result (λ v. v.items ≡ from.now) }
    ensures room { IfOk result (λ v. vec_capacity v ≡ room) }
{
    let mut blocks = Vec::with_capacity(alloc, room)?;
    for block in from {
        blocks.push_reserved(block.copy());
    }
    Ok(blocks)
}

// The same again, in a list with memory for `room`.
fn copied<T: Copy>(alloc: Global, from: &[T], room: usize) -> Result<Vec<T>, NoMemory>
    ensures items { IfOk result (λ v. v.items ≡ from.now) }
    ensures room { IfOk result (λ v. room ≤ vec_capacity v) }
{
    let mut again = Vec::with_capacity(alloc, room)?;
    again.extend_from_slice(from)?;
    Ok(again)
}

// Puts a block before the one at `at`: into a free slot, or into a new one where none is free.
fn insert_block(
    slots: &mut Vec<Block>,
    order: &mut Vec<u32>,
    free: &mut Vec<u32>,
    at: usize,
    block: Block,
)
    requires held { AreHeld slots.old order.old free.old }
    requires left { length order.old.items < vec_capacity slots.old }
    requires within { at ≤ length order.old.items }
    ensures held { AreHeld slots.new order.new free.new }
    ensures left { vec_capacity slots.new ≡ vec_capacity slots.old }
    ensures count { length order.new.items ≡ length order.old.items + 1 }
    ensures blocks { blocks_in slots.new.items order.new.items
        ≡ insert (blocks_in slots.old.items order.old.items) at block }
{
    match free.pop() {
        Some(slot) => {
            slots[slot as usize] = block;
            order.insert(at, slot).unwrap();
        }
        None => {
            order.insert(at, slots.len() as u32).unwrap();
            slots.push_reserved(block);
        }
    }
}

impl BlockList {
    /// A block with no row, and memory for `room` blocks with this one.
    pub fn open(alloc: Global, room: usize) -> Result<BlockList, NoMemory>
        requires some { 0 < room }
        requires numbered { room < 2 ^ 32 }
        ensures blocks { IfOk result (λ b. b.blocks ≡ [] ∷ []) }
        ensures left { IfOk result (λ b. b.left + 1 ≡ room) }
    {
        let mut slots = Vec::with_capacity(alloc, room)?;
        let mut order = Vec::with_capacity(alloc, room)?;
        let free = Vec::with_capacity(alloc, room)?;
        let mut firsts = Vec::with_capacity(alloc, room)?;
        slots.push_reserved(Block::new());
        order.push_reserved(0);
        firsts.push_reserved(first_row(&[]));
        Ok(BlockList {
            slots,
            order,
            free,
            firsts,
        })
    }

    /// The same blocks again with the same memory for more of them.
    pub fn copy(&self, alloc: Global) -> Result<BlockList, NoMemory>
        ensures { IfOk result (λ b. b ≡ self.now) }
    {
        let room = self.slots.capacity();
        Ok(BlockList {
            slots: copied_blocks(alloc, self.slots.as_slice(), room)?,
            order: copied(alloc, self.order.as_slice(), room)?,
            free: copied(alloc, self.free.as_slice(), room)?,
            firsts: copied(alloc, self.firsts.as_slice(), room)?,
        })
    }

    /// How many blocks there are.
    pub fn len(&self) -> usize
        ensures { result ≡ length self.now.blocks }
    {
        self.order.len()
    }

    /// The rows of a block.
    pub fn rows_of(&self, block: usize) -> &[DirRow]
        requires { block < length self.now.blocks }
        ensures { result.now ≡ block_at self.now.blocks block }
    {
        self.slots[self.order[block] as usize].as_slice()
    }

    /// The first row of a block that has rows.
    #[tactic(auto, using(crate::proofs::Firsts::begun_at))]
    pub fn first_of(&self, block: usize) -> &DirRow
        requires { block < length self.now.blocks }
        ensures { result.now ≡ first_row (block_at self.now.blocks block) }
    {
        &self.firsts[block]
    }

    /// Puts a row in the place of the one at the spot.
    pub fn replace(&mut self, spot: Spot, row: DirRow)
        requires { IsRow self.old.blocks spot }
        ensures blocks { self.new.blocks ≡ slice_set self.old.blocks spot.block
            (slice_set (block_at self.old.blocks spot.block) spot.at row) }
        ensures left { self.new.left ≡ self.old.left }
    {
        let slot = self.order[spot.block] as usize;
        self.slots[slot].replace(spot.at, row);
        self.firsts[spot.block] = first_with(self.firsts[spot.block], spot.at, row);
    }

    /// Puts a row in at the spot.
    pub fn insert(&mut self, spot: Spot, row: DirRow)
        requires gap { IsGap self.old.blocks spot }
        requires room { length (block_at self.old.blocks spot.block) < block_room }
        ensures blocks { self.new.blocks ≡ slice_set self.old.blocks spot.block
            (insert (block_at self.old.blocks spot.block) spot.at row) }
        ensures left { self.new.left ≡ self.old.left }
    {
        let slot = self.order[spot.block] as usize;
        self.slots[slot].insert(spot.at, row);
        self.firsts[spot.block] = first_with(self.firsts[spot.block], spot.at, row);
    }

    /// Takes the row at the spot away.
    pub fn remove(&mut self, spot: Spot) -> DirRow
        requires { IsRow self.old.blocks spot }
        ensures row { result
            ≡ slice_index_or (block_at self.old.blocks spot.block) spot.at result }
        ensures blocks { self.new.blocks ≡ slice_set self.old.blocks spot.block
            (remove (block_at self.old.blocks spot.block) spot.at) }
        ensures left { self.new.left ≡ self.old.left }
    {
        let slot = self.order[spot.block] as usize;
        let block = &mut self.slots[slot];
        let row = block.remove(spot.at);
        self.firsts[spot.block] = first_without(self.firsts[spot.block], spot.at, block.as_slice());
        row
    }

    /// Makes two blocks of a full one.
    pub fn split(&mut self, full: usize)
        requires known { full < length self.old.blocks }
        requires full { length (block_at self.old.blocks full) ≡ block_room }
        requires left { 0 < self.old.left }
        ensures blocks { self.new.blocks ≡ halved self.old.blocks full }
        ensures left { self.new.left + 1 ≡ self.old.left }
    {
        let slot = self.order[full] as usize;
        let upper = self.slots[slot].split();
        let first = first_row(upper.as_slice());
        insert_block(
            &mut self.slots,
            &mut self.order,
            &mut self.free,
            full + 1,
            upper,
        );
        self.firsts.insert(full + 1, first).unwrap();
    }

    /// Takes a block away, whose slot is free then.
    pub fn give_back(&mut self, block: usize)
        requires { block < length self.old.blocks }
        ensures blocks { self.new.blocks ≡ remove self.old.blocks block }
        ensures left { self.new.left ≡ self.old.left + 1 }
    {
        let slot = self.order.remove(block);
        self.free.push_reserved(slot);
        self.firsts.remove(block);
    }
}

/// How many rows the blocks have from `start` up to `end`.
pub fn rows_between(list: &BlockList, start: usize, end: usize) -> usize
    requires order { start ≤ end }
    requires within { end ≤ length list.now.blocks }
    requires few { length (joined list.now.blocks) < 2 ^ 32 }
    ensures { length (joined (take start list.now.blocks)) + result
        ≡ length (joined (take end list.now.blocks)) }
{
    let mut count = 0;
    for block in start..end {
        count += list.rows_of(block).len();
    }
    count
}
