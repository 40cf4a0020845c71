//! A directory that several workers call, each by a pass of its own.
ghost use Rattle.std.specs.Prelude.{◌≡◌, ℕ, ◌+◌, ◌<◌, false, List, [], ◌∷◌, ◌++◌, map, length, vec_len, IfOk};
ghost use Rattle.dir_table.specs.declared.calls.DirCall.{DirCall};
ghost use Rattle.dir_table.specs.Meanings.{IsAdmitted};
ghost use Rattle.trace_text.specs.Report.{done_of};
ghost use Rattle.trace_text.specs.Traces.{IsWithin};
ghost use Rattle.trace_text.specs.Histories.{IsHistoryOf};
ghost use Rattle.shfl_workers.specs.Passes.{AtEachPlace, IsReady, IsDone};
ghost use Rattle.round_log.specs.Logs.{InRounds};

use dir_table::{Dir, DirCall};
use hist_log::Entry;
use shfl_line::Chooser;
use std::alloc::Global;
use std::sync::Wait;
use syn_outer::Gate;
use trace_text::{NoMemory, Trace};

/// A directory behind a lock.
pub trait SharedDir: Drop {
    type Pass: Drop + Send;

    ghost use Rattle.std.specs.Prelude.{ℕ, List, Option};
    ghost use Rattle.dir_table.specs.declared.calls.DirCall.{DirCall};
    ghost use Rattle.dir_table.specs.declared.calls.DirReply.{DirReply};
    ghost use Rattle.dir_table.specs.declared.dir.Dir.{Dir as DirValue};
    ghost use Rattle.hist_log.specs.declared.entry.Entry.{Entry as EntryValue};
    ghost use Rattle.shfl_line.specs.declared.choosers.Told.{Told};
    ghost use Rattle.trace_text.specs.declared.trace.Trace.{Trace};
    ghost use Rattle.trace_text.specs.Report.{Done};

    /// It was opened for the calls of this trace, empty.
    ghost opened: { Trace → Self → Type 0 };

    /// The names of its calls are below this number.
    ghost room: { Self → ℕ };

    /// The pass is one of the directory.
    ghost is_pass: { Self → Self.Pass → Type 0 };

    /// Whose pass it is.
    ghost worker: { Self.Pass → ℕ };

    /// The pass made these calls, in order, and no other ones.
    ghost made: { Self.Pass → List DirCall → Type 0 };

    /// How many calls the pass may still make.
    ghost left: { Self.Pass → ℕ };

    /// By this call the pass asked its policy just what a chooser was told between these two lists.
    ghost asks: { Self.Pass → DirCall → Self.Pass → (told told' : Option (List Told)) → Type 0 };

    /// The receipt of each entry is what its call was given at this lock.
    ghost receipts: { List (EntryValue DirValue DirCall DirReply) → Type 0 };

    /// For this trace the lock ran from its opening until it was closed, and its holds made this history.
    ghost ran: { Trace → List Done → Type 0 };

    /// An empty directory for the calls of a trace, with a pass for each of its workers.
    fn open(alloc: Global, trace: &Trace) -> Result<(Self, Vec<Self::Pass>), NoMemory>
    where
        Self: Sized,
        requires { IsWithin trace.now }
        ensures opened { IfOk result (λ r. opened trace.now r.0) }
        ensures room { IfOk result (λ r. room r.0 ≡ length trace.now.names.items) }
        ensures count { IfOk result (λ r. vec_len r.1 ≡ length trace.now.workers.items) }
        ensures passes { IfOk result (λ r. AtEachPlace
            (IsReady (is_pass r.0) worker made left trace.now.calls.items) r.1.items) };

    /// Whose pass it is.
    fn worker_of(pass: &Self::Pass) -> u32
        ensures { result ≡ worker pass.now };

    /// Makes a call, which waits for the lock. Takes no memory.
    fn call<C: Chooser, G: Gate, R: Wait>(
        &self,
        rt: &R,
        pass: &mut Self::Pass,
        chooser: &mut C,
        gate: &G,
        call: &DirCall,
    )
        requires pass { is_pass self.now pass.old }
        requires left { 0 < left pass.old }
        requires admitted { IsAdmitted (room self.now) call.now }
        ensures pass { is_pass self.now pass.new }
        ensures worker { worker pass.new ≡ worker pass.old }
        ensures left { left pass.new + 1 ≡ left pass.old }
        ensures made { (calls : List DirCall) → made pass.old calls
            → made pass.new (calls ++ call.now ∷ []) }
        ensures asked { asks pass.old call.now pass.new
            (C.told chooser.old) (C.told chooser.new) }
        ensures home { C.home chooser.new ≡ C.home chooser.old }
        ensures whole { InRounds (C.told chooser.old) (C.told chooser.new) }
        ensures in_round { C.in_round chooser.old ≡ false → C.in_round chooser.new ≡ false };

    /// A history of the trace whose calls the passes have made, and the directory that it leaves.
    fn close(
        self,
        alloc: Global,
        trace: &Trace,
        passes: Vec<Self::Pass>,
    ) -> Result<(Vec<Entry<Dir>>, Dir), NoMemory>
    where
        Self: Sized,
        requires within { IsWithin trace.now }
        requires opened { opened trace.now self }
        requires count { vec_len passes ≡ length trace.now.workers.items }
        requires passes { AtEachPlace
            (IsDone (is_pass self) worker made trace.now.calls.items) passes.items }
        ensures history { IfOk result (λ r. IsHistoryOf trace.now (map done_of r.0.items) r.1) }
        ensures receipts { IfOk result (λ r. receipts r.0.items) }
        ensures ran { IfOk result (λ r. ran trace.now (map done_of r.0.items)) };
}
