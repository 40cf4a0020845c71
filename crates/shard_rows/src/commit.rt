//! A call of one or two directories: their names are brought forward, the call is answered, and its entry and its changes are made.
ghost use Rattle.std.specs.Prelude.{◌≡◌, ◌≢◌, ℕ, ◌+◌, ◌<◌, ◌≤◌, ◌++◌, [], ◌∷◌, length, true, false};
ghost use Rattle.dir_table.specs.Meanings.{IsAdmitted};
ghost use Rattle.dir_table.specs.Answers.{reply_to};
ghost use Rattle.dir_table.specs.declared.calls.DirCall.{DirCall};
ghost use Rattle.shard_rows.specs.Replay.{opening, left_by, entry_by};
ghost use Rattle.shard_rows.specs.Shares.{first_named};
ghost use Rattle.shard_rows.specs.Values.{JournalValue, ShardValue, IsUpTo, caught_up};

use crate::journal::Journal;
use crate::shard::Shard;
use dir_table::{DirCall, DirReply};

/// What a call is answered, and the place of its entry in the journal.
#[derive(Clone, Copy, Debug, PartialEq, Eq)]
pub struct Committed {
    pub reply: DirReply,
    pub place: u64,
}

impl Shard {
    /// Brings the names forward by the entries that they lack. Only these are looked at, and none where none of them names the directory.
    /// No memory is taken.
    pub fn bring_forward(&mut self, journal: &Journal)
        requires up_to { IsUpTo journal.now.entries self.old }
        requires room { self.old.room ≡ journal.now.room }
        ensures { self.new ≡ caught_up journal.now.entries self.old }
    {
        if journal.newest(self.dir()) <= self.known() {
            self.skip_to(journal.len());
            return;
        }
        for place in self.known()..journal.len() {
            let call = journal.call(place);
            self.follow(&call, journal.number(place));
        }
    }
}

impl Journal {
    /// A call whose directories are all this one. No memory is taken.
    pub fn commit_in(&mut self, shard: &mut Shard, worker: u32, call: &DirCall) -> Committed
        requires up_to { IsUpTo self.old.entries shard.old }
        requires room { shard.old.room ≡ self.old.room }
        requires left { length self.old.entries < self.old.limit }
        requires admitted { IsAdmitted self.old.room call.now }
        requires named { first_named call.now ≡ shard.old.dir }
        ensures reply { result.reply
            ≡ reply_to (left_by (opening self.old.room) self.old.entries) call.now }
        ensures place { result.place ≡ length self.old.entries }
        ensures journal { self.new ≡ record self.old {
          entries = self.old.entries
              ++ entry_by worker call.now result.reply result.place ∷ [];
        } }
        ensures shard { shard.new ≡ caught_up self.new.entries shard.old }
        ensures up_to { IsUpTo self.new.entries shard.new }
        ensures others { (other : ShardValue) → IsUpTo self.old.entries other
            → IsUpTo self.new.entries other }
    {
        shard.bring_forward(self);
        let place = u64::from(self.len());
        let answered = shard.answer(call, self.next_number());
        self.push(worker, call, answered);
        shard.follow(call, answered.number);
        Committed {
            reply: answered.reply,
            place,
        }
    }

    /// A rename over two directories, which both change by one entry. No memory is taken.
    pub fn commit_over(
        &mut self,
        from: &mut Shard,
        to: &mut Shard,
        worker: u32,
        call: &DirCall,
    ) -> Committed
        requires from { IsUpTo self.old.entries from.old }
        requires to { IsUpTo self.old.entries to.old }
        requires room { (from.old.room ≡ self.old.room) × (to.old.room ≡ self.old.room) }
        requires left { length self.old.entries < self.old.limit }
        requires admitted { IsAdmitted self.old.room call.now }
        requires named { first_named call.now ≡ from.old.dir }
        ensures reply { result.reply
            ≡ reply_to (left_by (opening self.old.room) self.old.entries) call.now }
        ensures place { result.place ≡ length self.old.entries }
        ensures journal { self.new ≡ record self.old {
          entries = self.old.entries
              ++ entry_by worker call.now result.reply result.place ∷ [];
        } }
        ensures from { from.new ≡ caught_up self.new.entries from.old }
        ensures to { to.new ≡ caught_up self.new.entries to.old }
        ensures up_to { IsUpTo self.new.entries from.new × IsUpTo self.new.entries to.new }
        ensures others { (other : ShardValue) → IsUpTo self.old.entries other
            → IsUpTo self.new.entries other }
    {
        from.bring_forward(self);
        to.bring_forward(self);
        let place = u64::from(self.len());
        let answered = from.answer(call, self.next_number());
        self.push(worker, call, answered);
        from.follow(call, answered.number);
        to.follow(call, answered.number);
        Committed {
            reply: answered.reply,
            place,
        }
    }
}
