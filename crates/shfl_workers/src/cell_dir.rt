//! One directory behind a lock.
ghost use Rattle.std.specs.Prelude.{◌≡◌, length, map, vec_len, IfOk};
ghost use Rattle.shfl_cell.specs.Cells.{number};
ghost use Rattle.shfl_table.specs.Books.{HavePlaces};
ghost use Rattle.trace_text.specs.Report.{done_of};
ghost use Rattle.trace_text.specs.Traces.{IsWithin};
ghost use Rattle.trace_text.specs.Histories.{IsHistoryOf};
ghost use Rattle.shfl_workers.specs.CellDirs.{IsPassOf, HasMade};
ghost use Rattle.shfl_workers.specs.LockRuns.{RanOnOne};
ghost use Rattle.shfl_workers.specs.Opened.{IsOneFor};
ghost use Rattle.shfl_workers.specs.Passes.{AtEachPlace, IsDone};

use crate::empty_dir::{BATCH, open_directory};
use crate::shared_dir::SharedDir;
use crate::shares::shares_of;
use dir_table::{Dir, DirCall};
use hist_log::Entry;
use shfl_cell::{CellPass, ShflCellOf};
use shfl_line::{Chooser, Form};
use shfl_table::Book;
use std::alloc::Global;
use std::sync::Wait;
use syn_outer::Gate;
use trace_text::{NoMemory, Trace};

impl SharedDir for ShflCellOf<Book<Dir>> {
    type Pass = CellPass<Dir>;

    ghost use Rattle.std.specs.Prelude.{slice_index};
    ghost use Rattle.shfl_cell.specs.Cells.{number};
    ghost use Rattle.shfl_table.specs.Books.{HavePlaces};
    ghost use Rattle.shfl_table.specs.Waits.{AsksInRounds};
    ghost use Rattle.shfl_workers.specs.CellDirs.{IsPassOf, HasMade};
    ghost use Rattle.shfl_workers.specs.Opened.{IsOneFor};
    ghost use Rattle.shfl_workers.specs.LockRuns.{RanOnOne};

    ghost opened = { λ t c. IsOneFor t c };

    ghost room = { λ c. slice_index c.opening 0 };

    ghost is_pass = { λ c p. IsPassOf c p };

    ghost worker = { λ p. number p };

    ghost made = { λ p calls. HasMade p calls };

    ghost left = { λ p. p.left };

    ghost asks = { λ old _ new told told'.
        AsksInRounds old.attr old.decisions new.decisions told told' };

    ghost receipts = { λ entries. HavePlaces entries };

    ghost ran = { λ t history. RanOnOne t history };

    fn open(alloc: Global, trace: &Trace) -> Result<(Self, Vec<CellPass<Dir>>), NoMemory> {
        let shares = shares_of(alloc, trace)?;
        let dir = open_directory(alloc, trace)?;
        let attrs = trace.workers.as_slice();
        let counts = shares.as_slice();
        let Ok(opened) = ShflCellOf::open(alloc, dir, attrs, Form::Park, BATCH, counts) else {
            return Err(NoMemory);
        };
        Ok(opened)
    }

    fn worker_of(pass: &CellPass<Dir>) -> u32 {
        pass.number()
    }

    fn call<C: Chooser, G: Gate, R: Wait>(
        &self,
        rt: &R,
        pass: &mut CellPass<Dir>,
        chooser: &mut C,
        gate: &G,
        call: &DirCall,
    ) {
        let _ = self.apply(rt, pass, chooser, gate, call);
    }

    fn close(
        self,
        alloc: Global,
        trace: &Trace,
        passes: Vec<CellPass<Dir>>,
    ) -> Result<(Vec<Entry<Dir>>, Dir), NoMemory>
        requires within { IsWithin trace.now }
        requires opened { IsOneFor trace.now self }
        requires count { vec_len passes ≡ length trace.now.workers.items }
        requires passes { AtEachPlace
            (IsDone (IsPassOf self) number HasMade trace.now.calls.items) passes.items }
        ensures history { IfOk result (λ r. IsHistoryOf trace.now (map done_of r.0.items) r.1) }
        ensures receipts { IfOk result (λ r. HavePlaces r.0.items) }
        ensures ran { IfOk result (λ r. RanOnOne trace.now (map done_of r.0.items)) }
    {
        let _ = alloc;
        let _ = trace;
        let (dir, history) = self.close(passes);
        Ok((history, dir))
    }
}
