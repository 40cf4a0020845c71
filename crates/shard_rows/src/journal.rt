//! The journal: all calls in one order, with the number that each gave or moved.
ghost use Rattle.std.specs.Prelude.{◌≡◌, ℕ, ◌+◌, ◌<◌, ◌≤◌, ◌++◌, [], ◌∷◌, All, Some, IfOk, length, vec_len, slice_get, slice_index, slice_set};
ghost use Rattle.dir_table.specs.Meanings.{IsAdmitted};
ghost use Rattle.dir_table.specs.Answers.{reply_to};
ghost use Rattle.shard_rows.specs.Replay.{DirEntry, opening, left_by, numbers_of, number_of, entry_by, IsLegal};
ghost use Rattle.shard_rows.specs.Shares.{next_after, first_named, last_named};
ghost use Rattle.shard_rows.specs.Values.{JournalValue, NamedBelow, names_after, rows_below};
ghost use Rattle.std.specs.FinMap.{entries};
ghost use Rattle.hist_log.specs.History as history;
ghost use Rattle.hist_log.specs.History.{operations};
ghost use Rattle.dir_table.specs.Numbers.{call_numbers, reply_numbers, state_numbers};
ghost use Rattle.dir_table.specs.Meanings.{reply_at, state_after};

use crate::naming::{first_dir, last_dir};
use crate::shard::Answered;
use dir_table::{Dir, DirCall, NoMemory};
use hist_log::Entry;
use std::alloc::Global;
use std::marker::Model;

/// The entries of all directories' calls, legal from the empty directory on, and the memory for `limit` of them.
#[derive(Drop)]
pub struct Journal {
    entries: Vec<Entry<Dir>>,
    numbers: Vec<u64>,
    // For each directory the place behind the last entry that names it.
    newest: Vec<u32>,
    next_number: u64,
    room: u32,
    limit: u32,
}

impl Model for Journal {
    ghost use Rattle.std.specs.Vec.{vec_capacity};
    ghost use Rattle.shard_rows.specs.Values.{JournalValue, IsKept};

    ghost Value = { JournalValue };

    ghost view = { λ j. record {
      entries = j.entries.items;
      room = j.room;
      limit = j.limit;
    } };

    ghost invariant = { λ j. IsKept j.entries.items j.numbers.items j.newest.items
        j.next_number j.room j.limit (vec_capacity j.entries) (vec_capacity j.numbers) };
}

// The next number after a call that gives this number.
fn next_after(call: &DirCall, number: u64, next_number: u64) -> u64
    requires { next_number ≤ 65537 }
    ensures { result ≡ next_after call.now number next_number }
{
    match *call {
        DirCall::Make { .. } if number != 0 => next_number + 1,
        _ => next_number,
    }
}

// Notes the place behind an entry at the directories that its call names.
fn note(newest: &mut Vec<u32>, call: &DirCall, behind: u32)
    requires within { (first_named call.now < vec_len newest.old)
        × (last_named call.now < vec_len newest.old) }
    ensures { newest.new.items ≡ slice_set
        (slice_set newest.old.items (first_named call.now) behind) (last_named call.now) behind }
{
    newest[first_dir(call) as usize] = behind;
    newest[last_dir(call) as usize] = behind;
}

impl Journal {
    /// A journal with no entry. The memory for `limit` entries is taken here; names are below `room`.
    pub fn open(alloc: Global, room: u32, limit: u32) -> Result<Journal, NoMemory>
        requires { limit ≤ 65536 }
        ensures { IfOk result (λ j. j ≡ record { entries = []; room = room; limit = limit }) }
    {
        Ok(Journal {
            entries: Vec::with_capacity(alloc, limit as usize)?,
            numbers: Vec::with_capacity(alloc, limit as usize)?,
            newest: Vec::from_slice(alloc, &[0; 64])?,
            next_number: 1,
            room,
            limit,
        })
    }

    /// How many entries there are.
    pub fn len(&self) -> u32
        ensures len { result ≡ length self.now.entries }
        ensures within { length self.now.entries ≤ self.now.limit }
        ensures few { self.now.limit ≤ 65536 }
    {
        self.entries.len() as u32
    }

    /// The number that the next new file gets.
    pub fn next_number(&self) -> u64
        ensures { result ≡ (left_by (opening self.now.room) self.now.entries).next_number }
    {
        self.next_number
    }

    // The call at the place.
    pub(crate) fn call(&self, place: u32) -> DirCall
        requires { place < length self.now.entries }
        ensures call { (e : DirEntry) × (slice_get self.now.entries place ≡ Some e)
            × (result ≡ e.call) }
        ensures admitted { IsAdmitted self.now.room result }
    {
        self.entries[place as usize].call
    }

    // The number that the call at the place gave or moved, or 0.
    pub(crate) fn number(&self, place: u32) -> u64
        requires { place < length self.now.entries }
        ensures { result
            ≡ slice_index (numbers_of (opening self.now.room) self.now.entries) place }
    {
        self.numbers[place as usize]
    }

    // No entry from this place on names the directory.
    pub(crate) fn newest(&self, dir: u8) -> u32
        ensures { NamedBelow self.now.entries dir result }
    {
        match self.newest.get(dir as usize) {
            Some(place) => *place,
            None => self.len(),
        }
    }

    // Puts an entry behind the others.
    pub(crate) fn push(&mut self, worker: u32, call: &DirCall, answered: Answered)
        requires left { length self.old.entries < self.old.limit }
        requires admitted { IsAdmitted self.old.room call.now }
        requires reply { answered.reply
            ≡ reply_to (left_by (opening self.old.room) self.old.entries) call.now }
        requires number { answered.number
            ≡ number_of (left_by (opening self.old.room) self.old.entries) call.now }
        ensures { self.new ≡ record self.old {
          entries = self.old.entries
              ++ entry_by worker call.now answered.reply (length self.old.entries) ∷ [];
        } }
    {
        let behind = self.len() + 1;
        let receipt = self.entries.len() as u64;
        self.entries.push_reserved(Entry {
            worker,
            call: *call,
            reply: answered.reply,
            receipt,
        });
        self.numbers.push_reserved(answered.number);
        note(&mut self.newest, call, behind);
        self.next_number = next_after(call, answered.number, self.next_number);
    }

    /// What is so of every journal.
    pub fn legal(&self)
        ensures legal { IsLegal (opening self.now.room) self.now.entries }
        ensures admitted { All (λ e. IsAdmitted self.now.room e.call) self.now.entries }
        ensures placed { (i : ℕ) (e : DirEntry) → slice_get self.now.entries i ≡ Some e
            → e.receipt ≡ i }
        ensures history { history.IsLegal reply_at state_after
            (state_numbers (opening self.now.room))
            (operations call_numbers reply_numbers self.now.entries) }
        ensures within { length self.now.entries ≤ self.now.limit }
        ensures first { rows_below self.now 0 ≡ [] }
        ensures last { rows_below self.now 64 ≡ entries (names_after self.now) }
    {
        let _ = &self.entries;
    }

    /// The entries, in order.
    pub fn into_entries(self) -> Vec<Entry<Dir>>
        ensures entries { result.items ≡ self.entries }
        ensures legal { IsLegal (opening self.room) self.entries }
        ensures admitted { All (λ e. IsAdmitted self.room e.call) self.entries }
        ensures placed { (i : ℕ) (e : DirEntry) → slice_get self.entries i ≡ Some e
            → e.receipt ≡ i }
    {
        self.entries
    }
}
