//! A directory with a lock for each of its shards.
ghost use Rattle.std.specs.Prelude.{◌≡◌, length, map, vec_len, IfOk};
ghost use Rattle.dir_shards.specs.ShardPasses.{IsPassOf};
ghost use Rattle.shfl_table.specs.Books.{HavePlaces};
ghost use Rattle.trace_text.specs.Report.{done_of};
ghost use Rattle.trace_text.specs.Traces.{IsWithin};
ghost use Rattle.trace_text.specs.Histories.{IsHistoryOf};
ghost use Rattle.shfl_workers.specs.ShardDirs.{HasMade};
ghost use Rattle.shfl_workers.specs.LockRuns.{RanByShards};
ghost use Rattle.shfl_workers.specs.Opened.{AreShardsFor};
ghost use Rattle.shfl_workers.specs.Passes.{AtEachPlace, IsDone};

use crate::empty_dir::{BATCH, open_directory};
use crate::shared_dir::SharedDir;
use crate::shares::shares_of;
use dir_shards::{ShardPass, ShardedDir};
use dir_table::{Dir, DirCall};
use hist_log::{Entry, legal};
use shfl_line::Chooser;
use std::alloc::Global;
use std::sync::Wait;
use syn_outer::Gate;
use trace_text::{NoMemory, Trace};

/// The directories behind their locks, and one that makes the calls of their journal again.
#[derive(Drop)]
pub(crate) struct Shards {
    locks: ShardedDir,
    replica: Dir,
}

impl SharedDir for Shards {
    type Pass = ShardPass;

    ghost use Rattle.std.specs.Prelude.{◌≡◌};
    ghost use Rattle.dir_shards.specs.Naming.{locks_of};
    ghost use Rattle.dir_shards.specs.ShardPasses.{IsPassOf, Asks};
    ghost use Rattle.shfl_table.specs.Books.{HavePlaces};
    ghost use Rattle.shfl_workers.specs.ShardDirs.{HasMade};
    ghost use Rattle.shfl_workers.specs.Opened.{AreShardsFor};
    ghost use Rattle.shfl_workers.specs.LockRuns.{RanByShards};

    ghost opened = { λ t s. AreShardsFor t s };

    ghost room = { λ s. s.locks.room };

    ghost is_pass = { λ s p. IsPassOf s.locks p };

    ghost worker = { λ p. p.number };

    ghost made = { λ p calls. HasMade p calls };

    ghost left = { λ p. p.left };

    ghost asks = { λ old call new told told'. Asks old new (locks_of call) told told' };

    ghost receipts = { λ entries. HavePlaces entries };

    ghost ran = { λ t history. RanByShards t history };

    fn open(alloc: Global, trace: &Trace) -> Result<(Self, Vec<ShardPass>), NoMemory> {
        let shares = shares_of(alloc, trace)?;
        let replica = open_directory(alloc, trace)?;
        let room = trace.names.len() as u32;
        let attrs = trace.workers.as_slice();
        let counts = shares.as_slice();
        let Ok((locks, passes)) = ShardedDir::open(alloc, room, attrs, BATCH, counts) else {
            return Err(NoMemory);
        };
        Ok((Shards { locks, replica }, passes))
    }

    fn worker_of(pass: &ShardPass) -> u32 {
        pass.number()
    }

    fn call<C: Chooser, G: Gate, R: Wait>(
        &self,
        rt: &R,
        pass: &mut ShardPass,
        chooser: &mut C,
        gate: &G,
        call: &DirCall,
    ) {
        let _ = self.locks.apply(rt, pass, chooser, gate, call);
    }

    fn close(
        self,
        alloc: Global,
        trace: &Trace,
        passes: Vec<ShardPass>,
    ) -> Result<(Vec<Entry<Dir>>, Dir), NoMemory>
        requires within { IsWithin trace.now }
        requires opened { AreShardsFor trace.now self }
        requires count { vec_len passes ≡ length trace.now.workers.items }
        requires passes { AtEachPlace (IsDone (IsPassOf self.locks) (λ p. p.number) HasMade
            trace.now.calls.items) passes.items }
        ensures history { IfOk result (λ r. IsHistoryOf trace.now (map done_of r.0.items) r.1) }
        ensures receipts { IfOk result (λ r. HavePlaces r.0.items) }
        ensures ran { IfOk result (λ r. RanByShards trace.now (map done_of r.0.items)) }
    {
        let _ = alloc;
        let _ = trace;
        let Shards { locks, mut replica } = self;
        let (_rows, history) = locks.close(passes);
        let _ = legal(&mut replica, history.as_slice());
        Ok((history, replica))
    }
}
