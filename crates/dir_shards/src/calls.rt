//! Calls of the directory.
ghost use Rattle.std.specs.Prelude.{◌≡◌, ◌<◌, false, None, Some};
ghost use Rattle.dir_table.specs.Meanings.{IsAdmitted};
ghost use Rattle.dir_shards.specs.Naming.{other_named, locks_of};
ghost use Rattle.dir_shards.specs.ShardPasses.{IsPassOf, MakesCall, Asks};

use crate::commits::{commit_in, commit_over};
use crate::locking::{free_at, lock_at};
use crate::naming::other_dir;
use crate::shard_pass::ShardPass;
use crate::sharded::ShardedDir;
use dir_table::{DirCall, DirReply};
use hist_log::Receipt;
use shard_rows::first_dir;
use shfl_line::Chooser;
use std::sync::Wait;
use syn_outer::{Gate, Point};

impl ShardedDir {
    // A call of one directory.
    fn apply_in<C: Chooser, G: Gate, Rt: Wait>(
        &self,
        rt: &Rt,
        pass: &mut ShardPass,
        chooser: &mut C,
        gate: &G,
        call: &DirCall,
    ) -> (DirReply, Receipt)
        requires pass { IsPassOf self.now pass.old }
        requires left { 0 < pass.old.left }
        requires admitted { IsAdmitted pass.old.room call.now }
        requires alone { other_named call.now ≡ None }
        ensures made { MakesCall pass.old call.now result.0 result.1.place pass.new }
        ensures asked { Asks pass.old pass.new (locks_of call.now)
            (C.told chooser.old) (C.told chooser.new) }
        ensures home { C.home chooser.new ≡ C.home chooser.old }
        ensures in_round { C.in_round chooser.old ≡ false → C.in_round chooser.new ≡ false }
    {
        let ShardPass {
            passes,
            journal,
            attr,
        } = pass;
        let boards = self.boards.as_slice();
        let passes = passes.as_mut_slice();
        let dir = first_dir(call) as usize;
        let worker = journal.number();
        gate.at(rt, worker, Point::BeforeCall);
        let kept = lock_at(rt, boards, passes, dir, attr, chooser, gate);
        gate.at(rt, worker, Point::Holding);
        let (reply, receipt, kept) = commit_in(rt, &self.table, journal, kept, call);
        free_at(boards, passes, dir, kept);
        gate.at(rt, worker, Point::AfterCall);
        (reply, receipt)
    }

    // A rename over two directories.
    fn apply_over<C: Chooser, G: Gate, Rt: Wait>(
        &self,
        rt: &Rt,
        pass: &mut ShardPass,
        chooser: &mut C,
        gate: &G,
        call: &DirCall,
        other: u8,
    ) -> (DirReply, Receipt)
        requires pass { IsPassOf self.now pass.old }
        requires left { 0 < pass.old.left }
        requires admitted { IsAdmitted pass.old.room call.now }
        requires over { other_named call.now ≡ Some other }
        ensures made { MakesCall pass.old call.now result.0 result.1.place pass.new }
        ensures asked { Asks pass.old pass.new (locks_of call.now)
            (C.told chooser.old) (C.told chooser.new) }
        ensures home { C.home chooser.new ≡ C.home chooser.old }
        ensures in_round { C.in_round chooser.old ≡ false → C.in_round chooser.new ≡ false }
    {
        let ShardPass {
            passes,
            journal,
            attr,
        } = pass;
        let boards = self.boards.as_slice();
        let passes = passes.as_mut_slice();
        let first = first_dir(call);
        let (low, high) = (first.min(other) as usize, first.max(other) as usize);
        let worker = journal.number();
        gate.at(rt, worker, Point::BeforeCall);
        let lower = lock_at(rt, boards, passes, low, attr, chooser, gate);
        let higher = lock_at(rt, boards, passes, high, attr, chooser, gate);
        gate.at(rt, worker, Point::Holding);
        let (reply, receipt, lower, higher) = commit_over(
            rt,
            &self.table,
            journal,
            lower,
            higher,
            call,
        );
        free_at(boards, passes, high, higher);
        free_at(boards, passes, low, lower);
        gate.at(rt, worker, Point::AfterCall);
        (reply, receipt)
    }

    /// Makes a call: takes the lock of its directory, for a rename over two directories the lower one's first; takes the journal out,
    /// waiting while it is out; puts the call's entry behind the others, and the journal back; and frees the locks. The gate is called
    /// before the first lock is asked for, while the pass waits in a queue, once all locks are held, and after they are free. The
    /// receipt is the entry's place in the journal. Takes no memory.
    pub fn apply<C: Chooser, G: Gate, Rt: Wait>(
        &self,
        rt: &Rt,
        pass: &mut ShardPass,
        chooser: &mut C,
        gate: &G,
        call: &DirCall,
    ) -> (DirReply, Receipt)
        requires pass { IsPassOf self.now pass.old }
        requires left { 0 < pass.old.left }
        requires admitted { IsAdmitted pass.old.room call.now }
        ensures made { MakesCall pass.old call.now result.0 result.1.place pass.new }
        ensures asked { Asks pass.old pass.new (locks_of call.now)
            (C.told chooser.old) (C.told chooser.new) }
        ensures home { C.home chooser.new ≡ C.home chooser.old }
        ensures in_round { C.in_round chooser.old ≡ false → C.in_round chooser.new ≡ false }
    {
        match other_dir(call) {
            None => self.apply_in(rt, pass, chooser, gate, call),
            Some(other) => self.apply_over(rt, pass, chooser, gate, call, other),
        }
    }
}
