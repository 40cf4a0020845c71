//! A directory with a copy for each worker, behind a readers-writer lock.
ghost use Rattle.std.specs.Prelude.{◌≡◌, ◌<◌, ◌+◌, ◌++◌, ◌∷◌, [], false, List, slice_index, length, map, vec_len, All, IfOk};
ghost use Rattle.dir_table.specs.declared.calls.DirCall.{DirCall as DirCallValue};
ghost use Rattle.dir_table.specs.Meanings.{IsAdmitted};
ghost use Rattle.rw_cell.specs.RwCells.{number, IsPassOf};
ghost use Rattle.shfl_table.specs.Waits.{AsksInRounds};
ghost use Rattle.trace_text.specs.Report.{done_of};
ghost use Rattle.trace_text.specs.Traces.{IsWithin};
ghost use Rattle.trace_text.specs.Histories.{IsHistoryOf};
ghost use Rattle.shfl_workers.specs.RwDirs.{HasMade, mode_of};
ghost use Rattle.shfl_workers.specs.LockRuns.{RanOnCopies};
ghost use Rattle.shfl_workers.specs.Opened.{directory_for, IsCellFor};
ghost use Rattle.shfl_workers.specs.Passes.{AtEachPlace, IsDone};
ghost use Rattle.shfl_workers.specs.Receipts.{CountWrites};
ghost use Rattle.round_log.specs.Logs.{InRounds};

use crate::empty_dir::{BATCH, open_directory};
use crate::shared_dir::SharedDir;
use crate::shares::shares_of;
use dir_table::{Dir, DirCall};
use hist_log::{Entry, Object, merge};
use rw_cell::{RwCellOf, RwPass};
use shfl_line::{Chooser, Form};
use shfl_table::Book;
use std::alloc::Global;
use std::sync::Wait;
use syn_outer::Gate;
use trace_text::{NoMemory, Trace};

// An empty directory for each worker.
fn directories_for(alloc: Global, trace: &Trace) -> Result<Vec<Dir>, NoMemory>
    requires { IsWithin trace.now }
    ensures len { IfOk result (λ v. vec_len v ≡ length trace.now.workers.items) }
    ensures empty { IfOk result (λ v. All (λ d. d ≡ directory_for trace.now) v.items) }
{
    let mut dirs = Vec::with_capacity(alloc, trace.workers.len())?;
    for number in 0..trace.workers.len() {
        let _ = number;
        dirs.push(open_directory(alloc, trace)?)?;
    }
    Ok(dirs)
}

impl SharedDir for RwCellOf<Book<Dir>, Entry<Dir>, Dir> {
    type Pass = RwPass<Dir>;

    ghost use Rattle.std.specs.Prelude.{◌≡◌, slice_index};
    ghost use Rattle.shfl_table.specs.Waits.{AsksInRounds};
    ghost use Rattle.rw_cell.specs.RwCells.{number, IsPassOf};
    ghost use Rattle.shfl_workers.specs.RwDirs.{HasMade};
    ghost use Rattle.shfl_workers.specs.Opened.{IsCellFor};
    ghost use Rattle.shfl_workers.specs.LockRuns.{RanOnCopies};
    ghost use Rattle.shfl_workers.specs.Receipts.{CountWrites};

    ghost opened = { λ t c. IsCellFor t c };

    ghost room = { λ c. slice_index c.opening 0 };

    ghost is_pass = { λ c p. IsPassOf c p };

    ghost worker = { λ p. number p };

    ghost made = { λ p calls. HasMade p calls };

    ghost left = { λ p. p.left };

    ghost asks = { λ old _ new told told'.
        AsksInRounds old.attr old.decisions new.decisions told told' };

    ghost receipts = { λ entries. CountWrites entries };

    ghost ran = { λ t history. RanOnCopies t history };

    fn open(alloc: Global, trace: &Trace) -> Result<(Self, Vec<RwPass<Dir>>), NoMemory> {
        let shares = shares_of(alloc, trace)?;
        let dirs = directories_for(alloc, trace)?;
        let attrs = trace.workers.as_slice();
        let counts = shares.as_slice();
        let Ok(opened) = RwCellOf::open(alloc, dirs, attrs, Form::RwPark, BATCH, counts) else {
            return Err(NoMemory);
        };
        Ok(opened)
    }

    fn worker_of(pass: &RwPass<Dir>) -> u32 {
        pass.number()
    }

    fn call<C: Chooser, G: Gate, R: Wait>(
        &self,
        rt: &R,
        pass: &mut RwPass<Dir>,
        chooser: &mut C,
        gate: &G,
        call: &DirCall,
    )
        requires pass { IsPassOf self.now pass.old }
        requires left { 0 < pass.old.left }
        requires admitted { IsAdmitted (slice_index self.now.opening 0) call.now }
        ensures pass { IsPassOf self.now pass.new }
        ensures worker { number pass.new ≡ number pass.old }
        ensures left { pass.new.left + 1 ≡ pass.old.left }
        ensures made { (calls : List DirCallValue) → HasMade pass.old calls
            → HasMade pass.new (calls ++ call.now ∷ []) }
        ensures asked { AsksInRounds pass.old.attr pass.old.decisions pass.new.decisions
            (C.told chooser.old) (C.told chooser.new) }
        ensures home { C.home chooser.new ≡ C.home chooser.old }
        ensures whole { InRounds (C.told chooser.old) (C.told chooser.new) }
        ensures in_round { C.in_round chooser.old ≡ false → C.in_round chooser.new ≡ false }

        // A read holds the lock beside other readers, and a write alone.
        ensures mode { pass.new.reg.mode ≡ mode_of call.now }
    {
        if Dir::is_read(call) {
            let _ = self.read(rt, pass, chooser, gate, call);
        } else {
            let _ = self.write(rt, pass, chooser, gate, call);
        }
    }

    fn close(
        self,
        alloc: Global,
        trace: &Trace,
        passes: Vec<RwPass<Dir>>,
    ) -> Result<(Vec<Entry<Dir>>, Dir), NoMemory>
        requires within { IsWithin trace.now }
        requires opened { IsCellFor trace.now self }
        requires count { vec_len passes ≡ length trace.now.workers.items }
        requires passes { AtEachPlace
            (IsDone (IsPassOf self) number HasMade trace.now.calls.items) passes.items }
        ensures history { IfOk result (λ r. IsHistoryOf trace.now (map done_of r.0.items) r.1) }
        ensures receipts { IfOk result (λ r. CountWrites r.0.items) }
        ensures ran { IfOk result (λ r. RanOnCopies trace.now (map done_of r.0.items)) }
    {
        let _ = trace;
        let (mut dirs, writes, reads) = self.close(passes);
        let Ok(history) = merge(alloc, writes.as_slice(), reads.as_slice()) else {
            return Err(NoMemory);
        };
        let Some(dir) = dirs.pop() else {
            unreachable!()
        };
        Ok((history, dir))
    }
}
