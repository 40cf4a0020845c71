//! Two directories of the 64 beside one whole directory.
ghost use Rattle.std.specs.Prelude.{◌<◌};
ghost use Rattle.dir_table.specs.Meanings.{IsAdmitted};

use crate::checks::same;
use crate::directory::opened;
use crate::shard::shard;
use dir_table::{Dir, DirCall};
use hist_log::Object;
use shard_rows::{Committed, Journal, Shard, first_dir, last_dir};
use shared_tests::Draws;
use std::alloc::Global;
use std::marker::Model;
use std::process::Abort;

const ROOM: u32 = 6;

const LIMIT: u32 = 2000;

// Directories 0 and 5, by shards and a journal, and a whole directory.
#[derive(Drop)]
struct Pair {
    journal: Journal,
    first: Shard,
    second: Shard,
    whole: Dir,
}

impl Model for Pair {
    ghost use Rattle.std.specs.Prelude.{◌≡◌};
    ghost use Rattle.shard_rows.specs.Values.{JournalValue, IsUpTo};

    ghost Value = { JournalValue };

    ghost view = { λ p. p.journal };

    ghost invariant = { λ p. IsUpTo p.journal.entries p.first × IsUpTo p.journal.entries p.second
        × (p.first.room ≡ 6) × (p.second.room ≡ 6) × (p.journal.room ≡ 6) × (p.whole.room ≡ 6)
        × (p.journal.limit ≡ 2000) × (p.first.dir ≡ 0) × (p.second.dir ≡ 5) };
}

impl Pair {
    // Does the call at its directories.
    fn commits(&mut self, rt: &impl Abort, call: &DirCall) -> Committed
        requires { IsAdmitted 6 call.now }
    {
        assert!(rt; self.journal.len() < LIMIT);
        if first_dir(call) == 0 {
            if last_dir(call) == 0 {
                self.journal.commit_in(&mut self.first, 1, call)
            } else {
                self.journal
                    .commit_over(&mut self.first, &mut self.second, 1, call)
            }
        } else {
            assert!(rt; first_dir(call) == 5);
            if last_dir(call) == 5 {
                self.journal.commit_in(&mut self.second, 2, call)
            } else {
                self.journal
                    .commit_over(&mut self.second, &mut self.first, 2, call)
            }
        }
    }

    // Does the call on both sides, and compares the replies.
    fn does(&mut self, rt: &impl Abort, call: &DirCall)
        requires { IsAdmitted 6 call.now }
    {
        let place = u64::from(self.journal.len());
        let made = self.commits(rt, call);
        assert!(rt; self.whole.spare() > 0);
        let reply = self.whole.apply(call);
        same(rt, &made.reply, &reply);
        same(rt, &made.place, &place);
    }
}

fn drawn_dir(draws: &mut Draws) -> u8
    ensures { result < 64 }
{
    if draws.below(2) == 0 { 0 } else { 5 }
}

fn drawn_call(draws: &mut Draws) -> DirCall
    ensures { IsAdmitted 6 result }
{
    let dir = drawn_dir(draws);
    let name = draws.below(6);
    match draws.below(8) {
        0 | 1 => DirCall::Make { dir, name },
        2 => DirCall::Drop { dir, name },
        3 | 4 => {
            let to_dir = drawn_dir(draws);
            let to_name = draws.below(6);
            DirCall::Rename {
                dir,
                name,
                to_dir,
                to_name,
            }
        }
        5 => DirCall::Find { dir, name },
        6 => DirCall::Count { dir },
        _ => DirCall::Next {
            dir,
            after: Some(name),
        },
    }
}

// All empty.
fn empty_pair(rt: &impl Abort, alloc: Global) -> Pair {
    let journal = Journal::open(alloc, ROOM, LIMIT).ok();
    Pair {
        journal: journal.expect(rt, "a journal"),
        first: shard(rt, alloc, 0, ROOM),
        second: shard(rt, alloc, 5, ROOM),
        whole: opened(rt, alloc, ROOM, LIMIT),
    }
}

#[test]
fn drawn_calls_are_answered_as_by_one_directory(rt: HostRuntime) {
    let mut pair = empty_pair(&rt, rt.alloc());
    let mut draws = Draws::new(7);
    for _ in 0..LIMIT {
        let call = drawn_call(&mut draws);
        pair.does(&rt, &call);
    }
}
