//! What a call does with the journal while it has it out.
ghost use Rattle.std.specs.Prelude.{◌≡◌, ◌⊎◌};
ghost use Rattle.shard_rows.specs.Shares.{first_named};
ghost use Rattle.shard_rows.specs.Values.{caught_up};
ghost use Rattle.dir_shards.specs.Commits.{MayEnter, Enters};

use crate::dir_journal::DirJournal;
use dir_table::{DirCall, DirReply};
use shard_rows::{Journal, Shard, first_dir};
use shared_journal::Step;

/// A call, with the names of the directory that it names first.
pub struct CallIn {
    pub shard: Shard,
    pub call: DirCall,
}

/// A reply, with the names after the call.
pub struct AnsweredIn {
    pub reply: DirReply,
    pub shard: Shard,
}

impl Step<DirJournal> for CallIn {
    ghost use Rattle.std.specs.Prelude.{◌≡◌};
    ghost use Rattle.shard_rows.specs.Shares.{first_named};
    ghost use Rattle.shard_rows.specs.Values.{caught_up};
    ghost use Rattle.dir_shards.specs.Commits.{MayEnter, Enters};

    type Answer = AnsweredIn;

    ghost ready = { λ s _ j. MayEnter j.journal s.call s.shard
        × (first_named s.call ≡ s.shard.dir) };

    ghost done = { λ s number j answer k. Enters number s.call answer.reply j.journal k.journal
        × (answer.shard ≡ caught_up k.journal.entries s.shard) };

    fn run(self, number: u32, journal: &mut DirJournal) -> AnsweredIn {
        let CallIn { mut shard, call } = self;
        let committed = journal.journal.commit_in(&mut shard, number, &call);
        journal.journal.legal();
        AnsweredIn {
            reply: committed.reply,
            shard,
        }
    }
}

/// A rename over two directories, with the names of both.
pub struct CallOver {
    pub lower: Shard,
    pub higher: Shard,
    pub call: DirCall,
}

/// A reply, with the names of both directories after the call.
pub struct AnsweredOver {
    pub reply: DirReply,
    pub lower: Shard,
    pub higher: Shard,
}

// The rename, from whichever of the two directories it names first.
fn enter_over(
    journal: &mut Journal,
    lower: &mut Shard,
    higher: &mut Shard,
    number: u32,
    call: &DirCall,
) -> DirReply
    requires lower { MayEnter journal.old call.now lower.old }
    requires higher { MayEnter journal.old call.now higher.old }
    requires named { (first_named call.now ≡ lower.old.dir)
        ⊎ (first_named call.now ≡ higher.old.dir) }
    ensures entered { Enters number call.now result journal.old journal.new }
    ensures lower { lower.new ≡ caught_up journal.new.entries lower.old }
    ensures higher { higher.new ≡ caught_up journal.new.entries higher.old }
{
    if first_dir(call) == lower.dir() {
        let committed = journal.commit_over(lower, higher, number, call);
        return committed.reply;
    }
    let committed = journal.commit_over(higher, lower, number, call);
    committed.reply
}

impl Step<DirJournal> for CallOver {
    ghost use Rattle.std.specs.Prelude.{◌≡◌, ◌⊎◌};
    ghost use Rattle.shard_rows.specs.Shares.{first_named};
    ghost use Rattle.shard_rows.specs.Values.{caught_up};
    ghost use Rattle.dir_shards.specs.Commits.{MayEnter, Enters};

    type Answer = AnsweredOver;

    ghost ready = { λ s _ j. MayEnter j.journal s.call s.lower × MayEnter j.journal s.call s.higher
        × ((first_named s.call ≡ s.lower.dir) ⊎ (first_named s.call ≡ s.higher.dir)) };

    ghost done = { λ s number j answer k. Enters number s.call answer.reply j.journal k.journal
        × (answer.lower ≡ caught_up k.journal.entries s.lower)
        × (answer.higher ≡ caught_up k.journal.entries s.higher) };

    fn run(self, number: u32, journal: &mut DirJournal) -> AnsweredOver {
        let CallOver {
            mut lower,
            mut higher,
            call,
        } = self;
        let reply = enter_over(&mut journal.journal, &mut lower, &mut higher, number, &call);
        journal.journal.legal();
        AnsweredOver {
            reply,
            lower,
            higher,
        }
    }
}
