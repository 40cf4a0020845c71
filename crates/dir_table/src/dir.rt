//! The directory.
ghost use Rattle.std.specs.Prelude.{◌≡◌, ◌≢◌, ℕ, ◌<◌, ◌≤◌, ◌↔◌, ◌-◌, All, Option, IfOk, IsSome, IsNone, if◌then◌else◌};
ghost use Rattle.std.specs.FinMap.{get, empty, entries, contains_key};
ghost use Rattle.dir_table.specs.declared.calls.DirCall.{DirCall};
ghost use Rattle.dir_table.specs.Names.{Place, entries_of};
ghost use Rattle.dir_table.specs.Directory.{Directory, IsInRange, OthersStay, spent};
ghost use Rattle.dir_table.specs.Answers.{reply_to, after, IsLeastAfter, NoneAfter};
ghost use Rattle.dir_table.specs.Meanings.{IsAdmitted};

use crate::NoMemory;
use crate::block::Spot;
use crate::buffer::RowBuffer;
use crate::calls::{DirReply, DirRow};
use crate::rows::{add_row, count_of, next_of, number_of, put_row, remove_row};
use crate::view::Rows;
use hist_log::{Mark, Trail};
use std::alloc::Global;
use std::marker::Model;

/// The names of 64 directories, each with the number of its file.
#[derive(Drop)]
pub struct Dir {
    rows: RowBuffer,
    next_number: u64,
    room: u32,
    spare: u32,
    // where the last call that writes found its name, and its new name: no clause speaks of them
    found: Spot,
    found_new: Spot,
}

impl Model for Dir {
    ghost use Rattle.dir_table.specs.Directory.{Directory, coded_directory};
    ghost use Rattle.dir_table.specs.Rows.{IsConsistent, names_of};
    ghost use Rattle.dir_table.specs.Blocks.{joined};

    ghost Value = { Directory };

    ghost coded = { coded_directory };

    ghost view = { λ d. record {
      names = names_of (joined d.rows.blocks);
      next_number = d.next_number;
      room = d.room;
      spare = d.spare;
    } };

    ghost invariant = { λ d. IsConsistent (joined d.rows.blocks) d.rows.spare
        d.next_number d.room d.spare };
}

impl Dir {
    /// An empty directory for `room` names and `calls` calls that write, for which all memory is
    /// taken here.
    pub fn open(alloc: Global, room: u32, calls: u32) -> Result<Dir, NoMemory>
        requires { calls ≤ 65536 }
        ensures { IfOk result (λ d.
            d ≡ record { names = empty; next_number = 1; room = room; spare = calls }) }
    {
        Ok(Dir {
            rows: RowBuffer::open(alloc, calls as usize)?,
            next_number: 1,
            room,
            spare: calls,
            found: Spot::first(),
            found_new: Spot::first(),
        })
    }

    /// The same directory again, with memory of its own.
    pub fn copy(&self, alloc: Global) -> Result<Dir, NoMemory>
        ensures { IfOk result (λ d. d ≡ self.now) }
    {
        Ok(Dir {
            rows: self.rows.copy(alloc)?,
            next_number: self.next_number,
            room: self.room,
            spare: self.spare,
            found: self.found,
            found_new: self.found_new,
        })
    }

    /// How many calls that write are left.
    pub fn spare(&self) -> u32
        ensures { result ≡ self.now.spare }
    {
        self.spare
    }

    // Uses up one of the calls that are left.
    pub(crate) fn spend(&mut self)
        requires { 0 < self.old.spare }
        ensures { self.new ≡ spent self.old }
    {
        self.spare -= 1;
    }

    /// Where the last call that writes found its names.
    pub(crate) fn found(&self) -> Trail {
        Trail {
            first: mark_of(self.found),
            second: mark_of(self.found_new),
        }
    }

    /// The next call that writes looks for its names here first.
    pub(crate) fn look_at(&mut self, trail: &Trail)
        ensures { self.new ≡ self.old }
    {
        self.found = spot_of(trail.first);
        self.found_new = spot_of(trail.second);
    }

    /// The rows in order of directory and name.
    pub fn rows(&self) -> Rows<'_>
        ensures all { entries_of result ≡ entries self.now.names }
        ensures in_range { All (λ row. IsInRange self.now.room row.dir row.name) result }
    {
        Rows::of(self.rows.blocks())
    }

    /// Makes a file with the next number, where there is none of this name.
    pub fn make(&mut self, dir: u8, name: u32) -> DirReply
        requires in_range { IsInRange self.old.room dir name }
        requires left { 0 < self.old.spare }
        ensures reply { result ≡ reply_to self.old (DirCall.Make dir name) }
        ensures exists { (result ≡ DirReply.Exists) ↔ IsSome (get self.old.names (dir, name)) }
        ensures after { self.new ≡ spent (after self.old (DirCall.Make dir name)) }
        ensures others { OthersStay self.old self.new (dir, name) }
    {
        self.spare -= 1;
        let ino = self.next_number;
        match add_row(&mut self.rows, &mut self.found, DirRow { dir, name, ino }) {
            Some(_) => DirReply::Exists,
            None => {
                self.next_number += 1;
                DirReply::Ino(ino)
            }
        }
    }

    /// Removes the name.
    pub fn drop_name(&mut self, dir: u8, name: u32) -> DirReply
        requires in_range { IsInRange self.old.room dir name }
        requires left { 0 < self.old.spare }
        ensures reply { result ≡ reply_to self.old (DirCall.Drop dir name) }
        ensures absent { (result ≡ DirReply.Absent) ↔ IsNone (get self.old.names (dir, name)) }
        ensures after { self.new ≡ spent (after self.old (DirCall.Drop dir name)) }
        ensures others { OthersStay self.old self.new (dir, name) }
    {
        self.spare -= 1;
        done_if(remove_row(&mut self.rows, &mut self.found, dir, name).is_some())
    }

    /// Gives the file another name, in the place of one that has that name. Onto itself it changes
    /// nothing.
    pub fn rename(&mut self, dir: u8, name: u32, to_dir: u8, to_name: u32) -> DirReply
        requires in_range { IsInRange self.old.room dir name
            × IsInRange self.old.room to_dir to_name }
        requires left { 0 < self.old.spare }
        ensures reply { result ≡ reply_to self.old (DirCall.Rename dir name to_dir to_name) }
        ensures absent { (result ≡ DirReply.Absent) ↔ IsNone (get self.old.names (dir, name)) }
        ensures after { self.new ≡ spent (after self.old (DirCall.Rename dir name to_dir to_name)) }
        ensures others { (other : Place) → other ≢ (dir, name) → other ≢ (to_dir, to_name)
            → get self.new.names other ≡ get self.old.names other }
    {
        self.spare -= 1;
        if dir == to_dir && name == to_name {
            return done_if(number_of(&self.rows, dir, name).is_some());
        }
        match remove_row(&mut self.rows, &mut self.found, dir, name) {
            Some(ino) => {
                put_row(
                    &mut self.rows,
                    &mut self.found_new,
                    DirRow {
                        dir: to_dir,
                        name: to_name,
                        ino,
                    },
                );
                DirReply::Done
            }
            None => DirReply::Absent,
        }
    }

    /// The number of the file of this name.
    pub fn find(&self, dir: u8, name: u32) -> DirReply
        requires { IsInRange self.now.room dir name }
        ensures reply { result ≡ reply_to self.now (DirCall.Find dir name) }
        ensures absent { (result ≡ DirReply.Absent) ↔ IsNone (get self.now.names (dir, name)) }
    {
        match number_of(&self.rows, dir, name) {
            Some(ino) => DirReply::Ino(ino),
            None => DirReply::Absent,
        }
    }

    /// How many names the directory has.
    pub fn count(&self, dir: u8) -> DirReply
        requires { dir < 64 }
        ensures { result ≡ reply_to self.now (DirCall.Count dir) }
    {
        DirReply::Number(count_of(&self.rows, dir))
    }

    /// The least name of the directory above `after`, or its least name.
    pub fn next(&self, dir: u8, after: Option<u32>) -> DirReply
        requires { IsAdmitted self.now.room (DirCall.Next dir after) }
        ensures reply { result ≡ reply_to self.now (DirCall.Next dir after) }
        ensures least { (name : ℕ) → result ≡ DirReply.Name name
            → IsLeastAfter self.now.names dir after name }
        ensures end { result ≡ DirReply.End → NoneAfter self.now.names dir after }
    {
        match next_of(&self.rows, dir, after) {
            Some(name) => DirReply::Name(name),
            None => DirReply::End,
        }
    }
}

fn mark_of(spot: Spot) -> Mark {
    Mark {
        part: spot.block,
        at: spot.at,
    }
}

fn spot_of(mark: Mark) -> Spot {
    Spot {
        block: mark.part,
        at: mark.at,
    }
}

// `Done` where the name was there.
fn done_if(there: bool) -> DirReply
    ensures { result ≡ (if there then DirReply.Done else DirReply.Absent) }
{
    if there {
        DirReply::Done
    } else {
        DirReply::Absent
    }
}
