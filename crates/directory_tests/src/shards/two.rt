//! Two passes and one name, on one thread.
ghost use Rattle.std.specs.Prelude.{◌≡◌, ◌<◌, All, length, vec_len, IfOk};
ghost use Rattle.dir_table.specs.Meanings.{IsAdmitted};
ghost use Rattle.dir_shards.specs.ShardPasses.{IsPassOf, AreInOrder};

use crate::checks::same;
use dir_shards::{ShardPass, ShardedDir};
use dir_table::{Dir, DirCall, DirReply, DirRow};
use hist_log::Entry;
use shared_tests::PLAIN;
use shfl_line::Never;
use std::process::Abort;
use std::sync::Wait;
use syn_outer::OpenGate;

// A call by the pass of a number, where it has one left.
fn call_by<R: Wait>(
    rt: &R,
    dir: &ShardedDir,
    passes: &mut [ShardPass],
    number: usize,
    call: &DirCall,
) -> Option<(DirReply, u64)>
    requires within { number < length passes.old }
    requires admitted { IsAdmitted dir.now.room call.now }
    requires dir { All (IsPassOf dir.now) passes.old }
    requires in_order { AreInOrder passes.old }
    ensures dir { All (IsPassOf dir.now) passes.new }
    ensures in_order { AreInOrder passes.new }
{
    let pass = &mut passes[number];
    if pass.left() == 0 {
        return None;
    }
    let (reply, receipt) = dir.apply(rt, pass, &mut Never, &OpenGate, call);
    Some((reply, receipt.place))
}

// What a directory ends with whose passes stand in order.
fn close_in_order(dir: ShardedDir, passes: Vec<ShardPass>) -> (Vec<DirRow>, Vec<Entry<Dir>>)
    requires dir { All (IsPassOf dir) passes.items }
    requires some { 0 < vec_len passes }
    requires all { vec_len passes ≡ length dir.allowed }
    requires in_order { AreInOrder passes.items }
{
    dir.close(passes)
}

// What the two passes are answered: one makes a name, the other moves it, the first moves it back, and the other looks for it.
fn to_and_fro<R: Wait>(
    rt: &R,
    dir: &ShardedDir,
    passes: &mut [ShardPass],
) -> [Option<(DirReply, u64)>; 5]
    requires two { length passes.old ≡ 2 }
    requires room { dir.now.room ≡ 1 }
    requires dir { All (IsPassOf dir.now) passes.old }
    requires in_order { AreInOrder passes.old }
    ensures dir { All (IsPassOf dir.now) passes.new }
    ensures in_order { AreInOrder passes.new }
{
    let make = DirCall::Make { dir: 0, name: 0 };
    let there = DirCall::Rename {
        dir: 0,
        name: 0,
        to_dir: 5,
        to_name: 0,
    };
    let back = DirCall::Rename {
        dir: 5,
        name: 0,
        to_dir: 0,
        to_name: 0,
    };
    let find = DirCall::Find { dir: 5, name: 0 };
    let made = call_by(rt, dir, passes, 0, &make);
    let went = call_by(rt, dir, passes, 1, &there);
    let came = call_by(rt, dir, passes, 0, &back);
    let found = call_by(rt, dir, passes, 1, &find);
    let none_left = call_by(rt, dir, passes, 0, &find);
    [made, went, came, found, none_left]
}

// What they are answered, and at which places.
const DUE: [Option<(DirReply, u64)>; 5] = [
    Some((DirReply::Ino(1), 0)),
    Some((DirReply::Done, 1)),
    Some((DirReply::Done, 2)),
    Some((DirReply::Absent, 3)),
    None,
];

// What the directory ends with: its one name, and their four calls.
fn ends(rt: &impl Abort, rows: &[DirRow], entries: &[Entry<Dir>]) {
    let row = DirRow {
        dir: 0,
        name: 0,
        ino: 1,
    };
    same(rt, &rows, &[row].as_slice());
    same(rt, &entries.len(), &4);
}

#[test]
fn a_name_goes_to_another_directory_and_back(rt: HostRuntime) {
    let opened = ShardedDir::open(rt.alloc(), 1, &[PLAIN, PLAIN], 1024, &[2, 2]);
    let (dir, mut passes) = opened.expect(&rt, "a directory");
    let answered = to_and_fro(&rt, &dir, &mut passes);
    same(&rt, &answered, &DUE);
    let (rows, entries) = close_in_order(dir, passes);
    ends(&rt, &rows, &entries);
}
