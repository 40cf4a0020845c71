//! Where rows in blocks are, which stand in order of directory and name.
ghost use Rattle.std.specs.Prelude.{◌≡◌, ◌+◌, ◌-◌, ◌<◌, ◌≤◌, ◌^◌, length, slice_index_or, drop, Bool, true, false, if◌then◌else◌};
ghost use Rattle.std.specs.List.{slice_get};
ghost use Rattle.std.specs.List.Sorted.{IsPartitionedBy, IsPartitionPoint};
ghost use Rattle.dir_table.specs.declared.calls.DirRow.{DirRow};
ghost use Rattle.dir_table.specs.Blocks.{joined, rows_before, is_below, begins_with, AreFilled, IsGap, IsCut};
ghost use Rattle.dir_table.specs.Rows.{AreInOrder};

use crate::block::Spot;
use crate::block_list::BlockList;
use crate::calls::DirRow;

// Whether the row is of a lesser directory, or of this one and a name below `name`.
fn is_below(row: &DirRow, dir: u8, name: u64) -> bool
    ensures { result ≡ is_below (dir, name) row.now }
{
    (row.dir < dir) | ((row.dir == dir) & (u64::from(row.name) < name))
}

// The count where it passes, or none: without a branch.
fn count_if(passes: bool, count: usize) -> usize
    ensures { result ≡ (if passes then count else 0) }
{
    count * usize::from(passes)
}

// How many of the blocks but the first, which stand in order, begin below. No step branches on what it finds, since no processor could foretell it.
fn begun_below(list: &BlockList, dir: u8, name: u64) -> usize
    requires filled { AreFilled list.now.blocks }
    requires in_order { IsPartitionedBy (begins_with (is_below (dir, name)))
        (drop 1 list.now.blocks) }
    ensures within { result ≤ length (drop 1 list.now.blocks) }
    ensures point { IsPartitionPoint
        (λ rows. begins_with (is_below (dir, name)) rows ≡ true)
        (λ rows. begins_with (is_below (dir, name)) rows ≡ false)
        (drop 1 list.now.blocks) result }
{
    let mut begun = 0;
    let mut left = list.len() - 1;
    while left > 0 {
        let half = left - left / 2;
        let below = is_below(list.first_of(begun + half), dir, name);
        begun += count_if(below, half);
        left /= 2;
    }
    begun
}

/// Where the rows begin that are not below. It is the end of a block, and not the start of the next one.
pub fn cut(list: &BlockList, dir: u8, name: u64) -> Spot
    requires filled { AreFilled list.now.blocks }
    requires in_order { AreInOrder (joined list.now.blocks) }
    ensures gap { IsGap list.now.blocks result }
    ensures cut { IsCut (joined list.now.blocks) (dir, name) (rows_before list.now.blocks result) }
    ensures start { result.at ≡ 0 → rows_before list.now.blocks result ≡ 0 }
{
    let block = begun_below(list, dir, name);
    let rows = list.rows_of(block);
    let at = rows.partition_point(|row| is_below(row, dir, name));
    Spot { block, at }
}

// Whether the spot is where all rows begin, or behind a row of its block that is below.
fn is_behind_below(rows: &[DirRow], spot: Spot, dir: u8, name: u64) -> bool
    requires { spot.at ≤ length rows.now }
    ensures start { result ≡ true → spot.at ≡ 0 → spot.block ≡ 0 }
    ensures below { (none : DirRow) → result ≡ true → 0 < spot.at
        → is_below (dir, name) (slice_index_or rows.now (spot.at - 1) none) ≡ true }
{
    if spot.at == 0 {
        spot.block == 0
    } else {
        is_below(&rows[spot.at - 1], dir, name)
    }
}

// Whether the rows that are not below begin at the spot, as the rows on both sides of it tell. At the start of a block but the first it isn't looked.
fn begins_at(list: &BlockList, spot: Spot, dir: u8, name: u64) -> bool
    requires filled { AreFilled list.now.blocks }
    requires in_order { AreInOrder (joined list.now.blocks) }
    ensures gap { result ≡ true → IsGap list.now.blocks spot }
    ensures cut { result ≡ true
        → IsCut (joined list.now.blocks) (dir, name) (rows_before list.now.blocks spot) }
    ensures start { result ≡ true → spot.at ≡ 0 → rows_before list.now.blocks spot ≡ 0 }
{
    if spot.block >= list.len() {
        return false;
    }
    let rows = list.rows_of(spot.block);
    if spot.at > rows.len() || !is_behind_below(rows, spot, dir, name) {
        return false;
    }
    match row_from(list, spot) {
        Some(row) => !is_below(&row, dir, name),
        None => true,
    }
}

/// The same as `cut`, which looks at a spot first.
pub fn cut_near(list: &BlockList, near: Spot, dir: u8, name: u64) -> Spot
    requires filled { AreFilled list.now.blocks }
    requires in_order { AreInOrder (joined list.now.blocks) }
    ensures gap { IsGap list.now.blocks result }
    ensures cut { IsCut (joined list.now.blocks) (dir, name) (rows_before list.now.blocks result) }
    ensures start { result.at ≡ 0 → rows_before list.now.blocks result ≡ 0 }
{
    if begins_at(list, near, dir, name) {
        near
    } else {
        cut(list, dir, name)
    }
}

/// The row at the spot, or the one behind it.
pub fn row_from(list: &BlockList, spot: Spot) -> Option<DirRow>
    requires filled { AreFilled list.now.blocks }
    requires gap { IsGap list.now.blocks spot }
    ensures { result ≡ slice_get (joined list.now.blocks) (rows_before list.now.blocks spot) }
{
    let rows = list.rows_of(spot.block);
    if spot.at < rows.len() {
        return Some(rows[spot.at]);
    }
    if spot.block < list.len() - 1 {
        list.rows_of(spot.block + 1).first().copied()
    } else {
        None
    }
}
