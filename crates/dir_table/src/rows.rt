//! Rows in order of directory and name, in blocks.
ghost use Rattle.std.specs.Prelude.{◌≡◌, ℕ, ◌+◌, ◌<◌, ◌≤◌, ◌==◌, ◌&&◌, option_map, filter, find, IfOk, IfErr, OnSome, IfNone, length, slice_index_or};
ghost use Rattle.std.specs.FinMap as map_of;
ghost use Rattle.std.specs.FinMap.{put};
ghost use Rattle.std.specs.FinMap.Entries.{where_key};
ghost use Rattle.dir_table.specs.Names.{place_cmp, is_other, entries_of};
ghost use Rattle.dir_table.specs.Rows.{AreInOrder, IsAt, IsGapFor, BeginAfter};
ghost use Rattle.dir_table.specs.declared.calls.DirRow.{DirRow};
ghost use Rattle.dir_table.specs.Blocks.{joined, rows_before, block_at, AreFilled, IsRow, IsGap};
ghost use Rattle.dir_table.specs.Answers.{comes_after};

use crate::block::Spot;
use crate::block_list::BlockList;
use crate::buffer::RowBuffer;
use crate::calls::DirRow;
use crate::search::{cut, cut_near, row_from};

/// Where the row of the name is, or where it would go: at the spot where it was looked for first, or elsewhere.
fn place_of(list: &BlockList, near: Spot, dir: u8, name: u32) -> Result<Spot, Spot>
    requires filled { AreFilled list.now.blocks }
    requires in_order { AreInOrder (joined list.now.blocks) }
    ensures row { IfOk result (IsRow list.now.blocks) }
    ensures gap { IfErr result (IsGap list.now.blocks) }
    ensures found { IfOk result (λ spot.
        IsAt (entries_of (joined list.now.blocks)) (dir, name) (rows_before list.now.blocks spot)) }
    ensures own { IfOk result (λ spot. (none : DirRow)
        → (slice_index_or (block_at list.now.blocks spot.block) spot.at none).dir ≡ dir) }
    ensures absent { IfErr result (λ spot.
        IsGapFor (entries_of (joined list.now.blocks)) (dir, name)
        (rows_before list.now.blocks spot)) }
{
    let end = cut_near(list, near, dir, u64::from(name) + 1);
    if end.at == 0 {
        return Err(end);
    }
    let last = Spot {
        block: end.block,
        at: end.at - 1,
    };
    let row = list.rows_of(last.block)[last.at];
    if row.dir == dir && row.name == name {
        Ok(last)
    } else {
        Err(end)
    }
}

// Behind the row of the spot.
fn behind(spot: Spot) -> Spot {
    Spot {
        block: spot.block,
        at: spot.at.saturating_add(1),
    }
}

/// The number of the name.
pub fn number_of(rows: &RowBuffer, dir: u8, name: u32) -> Option<u64>
    requires { AreInOrder (joined rows.now.blocks) }
    ensures { result ≡ map_of.find place_cmp (dir, name) (entries_of (joined rows.now.blocks)) }
{
    let list = rows.blocks();
    match place_of(list, Spot::first(), dir, name) {
        Ok(spot) => Some(list.rows_of(spot.block)[spot.at].ino),
        Err(_) => None,
    }
}

/// Puts a row in its place, where there is none of its name, and answers the number of the one that there is. It looks at `near` first, and
/// tells there where the place was.
pub fn add_row(rows: &mut RowBuffer, near: &mut Spot, row: DirRow) -> Option<u64>
    requires in_order { AreInOrder (joined rows.old.blocks) }
    requires spare { 0 < rows.old.spare }
    requires few { length (joined rows.old.blocks) < 4294967295 }
    ensures number { result
        ≡ map_of.find place_cmp (row.dir, row.name) (entries_of (joined rows.old.blocks)) }
    ensures put { IfNone result (entries_of (joined rows.new.blocks)
        ≡ put place_cmp (row.dir, row.name) row.ino (entries_of (joined rows.old.blocks))) }
    ensures len { length (joined rows.new.blocks) ≤ length (joined rows.old.blocks) + 1 }
    ensures spare { rows.old.spare ≤ rows.new.spare + 1 }
    ensures there { OnSome result (rows.new ≡ rows.old) }
{
    let list = rows.blocks();
    match place_of(list, *near, row.dir, row.name) {
        Ok(spot) => {
            *near = behind(spot);
            Some(list.rows_of(spot.block)[spot.at].ino)
        }
        Err(spot) => {
            *near = spot;
            rows.insert(spot, row);
            None
        }
    }
}

/// Puts a row in its place, or in that of the row that has its name, which it looks for as `add_row` does.
pub fn put_row(rows: &mut RowBuffer, near: &mut Spot, row: DirRow)
    requires in_order { AreInOrder (joined rows.old.blocks) }
    requires spare { 0 < rows.old.spare }
    requires few { length (joined rows.old.blocks) < 4294967295 }
    ensures put { entries_of (joined rows.new.blocks)
        ≡ put place_cmp (row.dir, row.name) row.ino (entries_of (joined rows.old.blocks)) }
    ensures len { length (joined rows.new.blocks) ≤ length (joined rows.old.blocks) + 1 }
    ensures spare { rows.old.spare ≤ rows.new.spare + 1 }
{
    match place_of(rows.blocks(), *near, row.dir, row.name) {
        Ok(spot) => {
            *near = behind(spot);
            rows.replace(spot, row)
        }
        Err(spot) => {
            *near = spot;
            rows.insert(spot, row)
        }
    }
}

/// Removes the row of the name, which it looks for as `add_row` does, and answers its number.
pub fn remove_row(rows: &mut RowBuffer, near: &mut Spot, dir: u8, name: u32) -> Option<u64>
    requires { AreInOrder (joined rows.old.blocks) }
    ensures number { result
        ≡ map_of.find place_cmp (dir, name) (entries_of (joined rows.old.blocks)) }
    ensures removed { entries_of (joined rows.new.blocks)
        ≡ where_key place_cmp (is_other (dir, name)) (entries_of (joined rows.old.blocks)) }
    ensures fewer { length (joined rows.new.blocks) ≤ length (joined rows.old.blocks) }
    ensures one_fewer { OnSome result
        (length (joined rows.new.blocks) < length (joined rows.old.blocks)) }
    ensures absent { IfNone result (rows.new ≡ rows.old) }
    ensures spare { rows.new.spare ≡ rows.old.spare }
{
    match place_of(rows.blocks(), *near, dir, name) {
        Ok(spot) => {
            *near = behind(spot);
            Some(rows.remove(spot).ino)
        }
        Err(spot) => {
            *near = spot;
            None
        }
    }
}

/// How many names the directory has.
pub fn count_of(rows: &RowBuffer, dir: u8) -> u32
    ensures { result
        ≡ length (filter (λ e. e.0.0 == dir) (entries_of (joined rows.now.blocks))) }
{
    rows.count(dir)
}

/// The first name of the directory after this one.
pub fn next_of(rows: &RowBuffer, dir: u8, after: Option<u32>) -> Option<u32>
    requires { AreInOrder (joined rows.now.blocks) }
    ensures { result ≡ option_map (λ e. e.0.1)
        (find (λ e. (e.0.0 == dir) && comes_after after e.0.1)
        (entries_of (joined rows.now.blocks))) }
{
    let list = rows.blocks();
    match row_from(list, place_after(list, dir, after)) {
        Some(row) if row.dir == dir => Some(row.name),
        _ => None,
    }
}

// Where the names of the directory after this one begin.
fn place_after(list: &BlockList, dir: u8, after: Option<u32>) -> Spot
    requires filled { AreFilled list.now.blocks }
    requires in_order { AreInOrder (joined list.now.blocks) }
    ensures gap { IsGap list.now.blocks result }
    ensures begin { BeginAfter (joined list.now.blocks) dir after
        (rows_before list.now.blocks result) }
{
    match after {
        None => cut(list, dir, 0),
        Some(name) => cut(list, dir, u64::from(name) + 1),
    }
}
