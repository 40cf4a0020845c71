//! The names of one directory, behind its lock.
ghost use Rattle.std.specs.Prelude.{◌≡◌, ℕ, List, ◌+◌, ◌<◌, ◌≤◌, ◌==◌, ◌++◌, length, if◌then◌else◌, IfOk};
ghost use Rattle.std.specs.FinMap.{empty, entries};
ghost use Rattle.std.specs.Vec.{vec_capacity};
ghost use Rattle.dir_table.specs.Names.{entries_of};
ghost use Rattle.shard_rows.specs.Values.{ShardValue, IsUpTo, shard_alone};
ghost use Rattle.shard_rows.specs.Shares.{with_number, advanced, first_named, start_of};
ghost use Rattle.shard_rows.specs.Replay.{DirEntry, number_of};
ghost use Rattle.dir_table.specs.Answers.{reply_to, name_reply, next_name};
ghost use Rattle.dir_table.specs.declared.calls.DirReply.{DirReply};
ghost use Rattle.dir_table.specs.Meanings.{IsAdmitted};
ghost use Rattle.dir_table.specs.Directory.{IsInRange};

use crate::table::NumberTable;
use dir_table::{DirCall, DirReply, DirRow, NoMemory};
use std::alloc::Global;
use std::marker::Model;

/// The names of one directory after the first entries of a journal, and the memory for all names.
#[derive(Drop)]
pub struct Shard {
    table: NumberTable,
    dir: u8,
    known: u32,
}

impl Model for Shard {
    ghost use Rattle.shard_rows.specs.Values.{ShardValue, coded_shard};
    ghost use Rattle.shard_rows.specs.Tables.{rows_of};
    ghost use Rattle.dir_table.specs.Rows.{names_of};

    ghost Value = { ShardValue };

    ghost coded = { coded_shard };

    ghost view = { λ s. record {
      dir = s.dir;
      names = names_of (rows_of s.dir s.table.numbers);
      known = s.known;
      room = s.table.room;
    } };
}

impl Shard {
    /// A directory with no name, before any entry. The memory for a number for each of `room` names is taken here.
    pub fn open(alloc: Global, dir: u8, room: u32) -> Result<Shard, NoMemory>
        ensures shard { IfOk result (λ s.
            s ≡ record { dir = dir; names = empty; known = 0; room = room }) }
        ensures up_to { IfOk result (λ s. (entries : List DirEntry) → IsUpTo entries s) }
    {
        Ok(Shard {
            table: NumberTable::open(alloc, room)?,
            dir,
            known: 0,
        })
    }

    /// Which directory it is.
    pub fn dir(&self) -> u8
        ensures { result ≡ self.now.dir }
    {
        self.dir
    }

    /// After how many entries of the journal.
    pub fn known(&self) -> u32
        ensures { result ≡ self.now.known }
    {
        self.known
    }

    // Follows an entry more, beside which the number stands.
    pub(crate) fn follow(&mut self, call: &DirCall, number: u64)
        requires admitted { IsAdmitted self.old.room call.now }
        requires known { self.old.known < 65536 }
        ensures { self.new ≡ record self.old {
          names = advanced self.old.dir self.old.names call.now number;
          known = self.old.known + 1;
        } }
    {
        self.advance(call, number);
        self.known += 1;
    }

    // Goes on to a later place, where the entries between leave the names as they are.
    pub(crate) fn skip_to(&mut self, known: u32)
        ensures { self.new ≡ record self.old { known = known } }
    {
        self.known = known;
    }

    // Puts the rows behind those of the list.
    pub(crate) fn push_rows(&self, rows: &mut Vec<DirRow>)
        requires { length rows.old.items + length (entries self.now.names) ≤ vec_capacity rows.old }
        ensures rows { entries_of rows.new.items
            ≡ entries_of rows.old.items ++ entries self.now.names }
        ensures capacity { vec_capacity rows.new ≡ vec_capacity rows.old }
    {
        self.table.push_rows(self.dir, rows);
    }

    // What the call is answered by a directory with these names and this next number.
    pub(crate) fn answer(&self, call: &DirCall, next_number: u64) -> Answered
        requires admitted { IsAdmitted self.now.room call.now }
        requires named { first_named call.now ≡ self.now.dir }
        ensures reply { result.reply ≡ reply_to (shard_alone self.now next_number) call.now }
        ensures number { result.number ≡ number_of (shard_alone self.now next_number) call.now }
    {
        match *call {
            DirCall::Make { name, .. } => made(self.table.get(name), next_number),
            DirCall::Drop { name, .. } => Answered {
                reply: done_if(self.table.get(name)),
                number: 0,
            },
            DirCall::Rename {
                dir,
                name,
                to_dir,
                to_name,
            } => {
                let number = self.table.get(name);
                Answered {
                    reply: done_if(number),
                    number: if dir == to_dir && name == to_name {
                        0
                    } else {
                        number
                    },
                }
            }
            DirCall::Find { name, .. } => read(found(self.table.get(name))),
            DirCall::Count { .. } => read(DirReply::Number(self.table.count())),
            DirCall::Next { after, .. } => read(self.next(after)),
        }
    }

    // The least name that comes after this one.
    fn next(&self, after: Option<u32>) -> DirReply
        ensures { result ≡ name_reply (next_name self.now.names self.now.dir after) }
    {
        match self.table.first_from(start_of(after)) {
            Some(name) => DirReply::Name(name),
            None => DirReply::End,
        }
    }

    // Sets the number of the name, where it is one of this directory; 0 takes the name away.
    fn set(&mut self, dir: u8, name: u32, number: u64)
        requires { name < self.old.room }
        ensures { self.new ≡ record self.old {
          names = with_number self.old.dir self.old.names dir name number;
        } }
    {
        if dir == self.dir {
            self.table.set(name, number);
        }
    }

    // Changes the names as the call does beside which the number stands.
    fn advance(&mut self, call: &DirCall, number: u64)
        requires { IsAdmitted self.old.room call.now }
        ensures { self.new ≡ record self.old {
          names = advanced self.old.dir self.old.names call.now number;
        } }
    {
        match *call {
            DirCall::Make { dir, name } => {
                if number != 0 {
                    self.set(dir, name, number);
                }
            }
            DirCall::Drop { dir, name } => self.set(dir, name, 0),
            DirCall::Rename {
                dir,
                name,
                to_dir,
                to_name,
            } => {
                if number != 0 {
                    self.set(dir, name, 0);
                    self.set(to_dir, to_name, number);
                }
            }
            DirCall::Find { .. } | DirCall::Count { .. } | DirCall::Next { .. } => {}
        }
    }
}

/// A reply, and the number that the call gives or moves, or 0.
#[derive(Clone, Copy)]
pub(crate) struct Answered {
    pub reply: DirReply,
    pub number: u64,
}

// With which name those after this one begin.
fn start_of(after: Option<u32>) -> usize
    ensures { result ≡ start_of after }
{
    match after {
        None => 0,
        Some(name) => name as usize + 1,
    }
}

// A read gives and moves no number.
fn read(reply: DirReply) -> Answered
    ensures { result ≡ record { reply = reply; number = 0 } }
{
    Answered { reply, number: 0 }
}

// A name that is there is made again, or a new one with the next number.
fn made(there: u64, next_number: u64) -> Answered
    ensures new { there ≡ 0
        → result ≡ record { reply = DirReply.Ino next_number; number = next_number } }
    ensures exists { 0 < there → result ≡ record { reply = DirReply.Exists; number = 0 } }
{
    if there == 0 {
        Answered {
            reply: DirReply::Ino(next_number),
            number: next_number,
        }
    } else {
        read(DirReply::Exists)
    }
}

// `Done` where the name has a number.
fn done_if(there: u64) -> DirReply
    ensures done { 0 < there → result ≡ DirReply.Done }
    ensures absent { there ≡ 0 → result ≡ DirReply.Absent }
{
    if there == 0 {
        DirReply::Absent
    } else {
        DirReply::Done
    }
}

// The number, where the name has one.
fn found(there: u64) -> DirReply
    ensures found { 0 < there → result ≡ DirReply.Ino there }
    ensures absent { there ≡ 0 → result ≡ DirReply.Absent }
{
    if there == 0 {
        DirReply::Absent
    } else {
        DirReply::Ino(there)
    }
}
