//! Two directories of the 64 and their journal, under one caller.
ghost use Rattle.std.specs.Prelude.{◌≡◌, List, []};
ghost use Rattle.shard_rows.specs.Replay.{DirEntry};
ghost use Rattle.shard_rows.specs.Values.{IsUpTo};

use crate::checks::same;
use dir_table::{DirCall, DirReply};
use shard_rows::{Committed, Journal, Shard};
use std::alloc::Global;
use std::process::Abort;

const MAKE: DirCall = DirCall::Make { dir: 0, name: 0 };

const MOVE: DirCall = DirCall::Rename {
    dir: 0,
    name: 0,
    to_dir: 5,
    to_name: 0,
};

const FIND: DirCall = DirCall::Find { dir: 5, name: 0 };

/// It had this reply, at this place.
fn is_at(rt: &impl Abort, made: &Committed, reply: DirReply, place: u64) {
    same(rt, &made.reply, &reply);
    same(rt, &made.place, &place);
}

/// An empty journal of a room of one name.
fn opened(rt: &impl Abort, alloc: Global) -> Journal
    ensures { result ≡ record { entries = []; room = 1; limit = 3 } }
{
    Journal::open(alloc, 1, 3).ok().expect(rt, "a journal")
}

/// A directory of that room which has no names.
pub(crate) fn shard(rt: &impl Abort, alloc: Global, dir: u8, room: u32) -> Shard
    ensures shard { (result.dir ≡ dir) × (result.room ≡ room) }
    ensures up_to { (entries : List DirEntry) → IsUpTo entries result }
{
    Shard::open(alloc, dir, room).ok().expect(rt, "a directory")
}

#[test]
fn a_name_goes_to_another_directory(rt: HostRuntime) {
    let mut journal = opened(&rt, rt.alloc());
    let mut first = shard(&rt, rt.alloc(), 0, 1);
    let mut second = shard(&rt, rt.alloc(), 5, 1);
    let made = journal.commit_in(&mut first, 0, &MAKE);
    let moved = journal.commit_over(&mut first, &mut second, 1, &MOVE);
    let found = journal.commit_in(&mut second, 0, &FIND);
    is_at(&rt, &made, DirReply::Ino(1), 0);
    is_at(&rt, &moved, DirReply::Done, 1);
    is_at(&rt, &found, DirReply::Ino(1), 2);
}
