//! A directory under one caller and as an object.
ghost use Rattle.std.specs.Prelude.{◌≡◌, ◌<◌, ◌≤◌};
ghost use Rattle.dir_table.specs.Meanings.{IsAdmitted};

use crate::checks::{holds, is_told, same};
use dir_table::{Dir, DirCall, DirReply, DirRow, NoMemory};
use hist_log::{Entry, Object, legal, merge};
use std::alloc::Global;
use std::process::Abort;

/// An empty directory.
pub(crate) fn opened(rt: &impl Abort, alloc: Global, room: u32, calls: u32) -> Dir
    requires { calls ≤ 65536 }
    ensures room { result.room ≡ room }
    ensures spare { result.spare ≡ calls }
{
    Dir::open(alloc, room, calls).ok().expect(rt, "a directory")
}

// The same directory again.
fn copied(rt: &impl Abort, alloc: Global, dir: &Dir) -> Dir
    ensures { result ≡ dir.now }
{
    dir.copy(alloc).ok().expect(rt, "memory")
}

// Does the call, where one is left, and compares the reply.
fn does(rt: &impl Abort, dir: &mut Dir, call: DirCall, reply: DirReply)
    requires { IsAdmitted dir.old.room call }
    ensures { dir.new.room ≡ dir.old.room }
{
    assert!(rt; dir.spare() > 0);
    same(rt, &dir.apply(&call), &reply);
}

// The rows are these: directory, name and number of a file.
fn has(rt: &impl Abort, dir: &Dir, rows: &[(u8, u32, u64)]) {
    same(rt, &dir.rows().len(), &rows.len());
    for (row, due) in dir.rows().zip(rows) {
        let (dir, name, ino) = *due;
        same(rt, row, &DirRow { dir, name, ino });
    }
}

const MAKE_FIRST: DirCall = DirCall::Make { dir: 0, name: 0 };

const MAKE_SECOND: DirCall = DirCall::Make { dir: 1, name: 1 };

const ONTO_ITSELF: DirCall = DirCall::Rename {
    dir: 0,
    name: 0,
    to_dir: 0,
    to_name: 0,
};

const OVER_THE_OTHER: DirCall = DirCall::Rename {
    dir: 0,
    name: 0,
    to_dir: 1,
    to_name: 1,
};

const FIND_FIRST: DirCall = DirCall::Find { dir: 0, name: 0 };

const FIND_SECOND: DirCall = DirCall::Find { dir: 1, name: 1 };

const LEAST: DirCall = DirCall::Next {
    dir: 1,
    after: None,
};

const BEHIND_SECOND: DirCall = DirCall::Next {
    dir: 1,
    after: Some(1),
};

// Makes two names, and gives the first one's file the second name.
fn write_two(rt: &impl Abort, dir: &mut Dir)
    requires { dir.old.room ≡ 2 }
    ensures { dir.new.room ≡ 2 }
{
    does(rt, dir, MAKE_FIRST, DirReply::Ino(1));
    does(rt, dir, MAKE_FIRST, DirReply::Exists);
    does(rt, dir, ONTO_ITSELF, DirReply::Done);
    does(rt, dir, MAKE_SECOND, DirReply::Ino(2));
    does(rt, dir, OVER_THE_OTHER, DirReply::Done);
}

#[test]
fn calls_are_answered_by_the_names_that_are_there(rt: HostRuntime) {
    let mut dir = opened(&rt, rt.alloc(), 2, 10);
    write_two(&rt, &mut dir);
    does(&rt, &mut dir, FIND_SECOND, DirReply::Ino(1));
    does(&rt, &mut dir, FIND_FIRST, DirReply::Absent);
    let count = DirCall::Count { dir: 1 };
    does(&rt, &mut dir, count, DirReply::Number(1));
    does(&rt, &mut dir, LEAST, DirReply::Name(1));
    does(&rt, &mut dir, BEHIND_SECOND, DirReply::End);
    has(&rt, &dir, &[(1, 1, 1)]);
}

// Makes the name, where a call is left.
fn makes(rt: &impl Abort, dir: &mut Dir, name: u32, ino: u64)
    requires { name < dir.old.room }
    ensures { dir.new.room ≡ dir.old.room }
{
    does(rt, dir, DirCall::Make { dir: 0, name }, DirReply::Ino(ino));
}

// Drops the name, where a call is left.
fn drops(rt: &impl Abort, dir: &mut Dir, name: u32)
    requires { name < dir.old.room }
    ensures { dir.new.room ≡ dir.old.room }
{
    does(rt, dir, DirCall::Drop { dir: 0, name }, DirReply::Done);
}

const SEVEN_ROWS: [(u8, u32, u64); 7] = [
    (0, 0, 6),
    (0, 2, 8),
    (0, 3, 4),
    (0, 4, 3),
    (0, 5, 7),
    (0, 6, 2),
    (0, 7, 1),
];

#[test]
fn names_come_in_at_either_end_and_in_the_middle(rt: HostRuntime) {
    let mut dir = opened(&rt, rt.alloc(), 8, 9);
    makes(&rt, &mut dir, 7, 1);
    makes(&rt, &mut dir, 6, 2);
    makes(&rt, &mut dir, 4, 3);
    makes(&rt, &mut dir, 3, 4);
    makes(&rt, &mut dir, 1, 5);
    makes(&rt, &mut dir, 0, 6);
    makes(&rt, &mut dir, 5, 7);
    makes(&rt, &mut dir, 2, 8);
    drops(&rt, &mut dir, 1);
    has(&rt, &dir, &SEVEN_ROWS);
}

// Makes a thousand names, the last of them first.
fn fill(rt: &impl Abort, dir: &mut Dir)
    requires { dir.old.room ≡ 1000 }
    ensures { dir.new.room ≡ 1000 }
{
    for name in 0..1000 {
        makes(rt, dir, 999 - name, u64::from(name) + 1);
    }
}

// A row for each of the thousand names, in order.
fn is_full(rt: &impl Abort, dir: &Dir) {
    same(rt, &dir.rows().len(), &1000);
    same(rt, &dir.count(0), &DirReply::Number(1000));
    for (place, row) in dir.rows().enumerate() {
        same(rt, &(row.name as usize), &place);
    }
}

// Drops all names but the least.
fn drop_all_but_the_least(rt: &impl Abort, dir: &mut Dir)
    requires { dir.old.room ≡ 1000 }
    ensures { dir.new.room ≡ 1000 }
{
    for name in 1..1000 {
        drops(rt, dir, name);
    }
}

// Makes the other names again.
fn fill_again(rt: &impl Abort, dir: &mut Dir)
    requires { dir.old.room ≡ 1000 }
    ensures { dir.new.room ≡ 1000 }
{
    for name in 1..1000 {
        makes(rt, dir, name, u64::from(name) + 1000);
    }
}

// A copy has the same thousand rows.
fn is_copied(rt: &impl Abort, alloc: Global, dir: &Dir) {
    let copied = copied(rt, alloc, dir);
    same(rt, &copied.rows().len(), &1000);
    for (row, other) in dir.rows().zip(copied.rows()) {
        same(rt, row, other);
    }
}

#[test]
fn blocks_are_divided_given_back_and_used_again(rt: HostRuntime) {
    let mut dir = opened(&rt, rt.alloc(), 1000, 3000);
    fill(&rt, &mut dir);
    is_full(&rt, &dir);
    drop_all_but_the_least(&rt, &mut dir);
    has(&rt, &dir, &[(0, 0, 1000)]);
    same(&rt, &dir.next(0, Some(0)), &DirReply::End);
    fill_again(&rt, &mut dir);
    is_copied(&rt, rt.alloc(), &dir);
}

// The write of worker 0 and the read of worker 1, which had these replies, make a legal history, the read last.
fn is_merged(rt: &impl Abort, alloc: Global, opening: &mut Dir, made: DirReply, found: DirReply)
    requires room { opening.old.room ≡ 1 }
    requires spare { opening.old.spare ≡ 2 }
{
    let writes = [Entry {
        worker: 0,
        call: MAKE_FIRST,
        reply: made,
        receipt: 0,
    }];
    let mut own = Vec::new(alloc);
    let read = Entry {
        worker: 1,
        call: FIND_FIRST,
        reply: found,
        receipt: 1,
    };
    own.push(read).ok().expect(rt, "memory");
    let mut reads = Vec::new(alloc);
    reads.push(Vec::new(alloc)).ok().expect(rt, "memory");
    reads.push(own).ok().expect(rt, "memory");
    let merged = merge(alloc, &writes, &reads).ok().expect(rt, "memory");
    assert_eq!(rt; merged.len(), 2);
    same(rt, &merged[0].receipt, &0);
    same(rt, &merged[1].receipt, &1);
    holds(rt, legal(opening, &merged));
}

#[test]
fn a_write_is_read_back_and_merged(rt: HostRuntime) {
    let alloc = rt.alloc();
    let mut first = opened(&rt, alloc, 1, 2);
    let mut second = copied(&rt, alloc, &first);
    let mut opening = copied(&rt, alloc, &first);
    let made = DirReply::Ino(1);
    does(&rt, &mut first, MAKE_FIRST, made);
    does(&rt, &mut second, MAKE_FIRST, made);
    let found = second.look(&FIND_FIRST);
    same(&rt, &found, &DirReply::Ino(1));
    is_merged(&rt, alloc, &mut opening, made, found);
}

#[test]
fn want_of_memory_is_told(rt: HostRuntime) {
    is_told(&rt, rt.alloc(), &NoMemory, "out of memory");
}
