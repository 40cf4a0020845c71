//! What each command does.
ghost use Rattle.std.specs.Prelude.{◌≡◌, ◌≢◌, ◌+◌, [], IfOk};
ghost use Rattle.syn_outer.specs.Causes.{CallsAtMost};
ghost use Rattle.syncord_endings.specs.Endings.{most_bytes};
ghost use Rattle.syncord_endings.specs.Traffic.{through, Takes};
ghost use Rattle.shfl_workers.specs.LockRuns.{RanByThreads, RanByShards};
ghost use Rattle.command_words.specs.declared.numbers.BulkWords.{BulkWords as Numbers};
ghost use Rattle.syncord_replay.specs.Runnable.{IsRunnable, IsRunOf};
ghost use Rattle.syncord_pool.specs.Runs as pooled;
ghost use Rattle.command_words.specs.declared.commands.Command.TheVariants.{Bulk};
ghost use Rattle.command_words.specs.Commands.{IsPossible};
ghost use Rattle.syncord_app.specs.Outcomes.{Does};
ghost use Rattle.syncord_app.specs.Takers.{RanByTakers};

use crate::manners::{ByShards, ByTakers, ByThreads};
use crate::takers::run_by_takers;
use crate::threads::{run_by_shards, run_by_threads};
use command_words::{BulkWords, Command};
use std::alloc::Global;
use std::sync::Wait;
use std::thread::Threads;
use syn_outer::{Gate, Sink, Source};
use syncord_asm::{run_asm, run_disasm};
use syncord_line::run_line;
use syncord_pool::{PoolRun, run_pool};
use syncord_replay::{Run, run_bulk, run_replay};
use syncord_verify::run_verify;
use trace_text::{NoMemory, Trace};

/// Does what a command says, and answers the status.
#[tactic(auto, using(syncord_endings::proofs::Unread::calls_stay))]
pub(crate) fn do_command<Rt: Threads + Wait + Sync, R: Source, W: Sink, E: Sink, G: Gate + Sync>(
    rt: &Rt,
    alloc: Global,
    command: Command,
    src: &mut R,
    out: &mut W,
    err: &mut E,
    gate: &G,
) -> u8
    requires { IsPossible command }
    ensures does { Does command
        (through R.left R.faults src.old src.new)
        (through W.held W.faults out.old out.new)
        (through E.held E.faults err.old err.new) result }
    ensures silent { result ≢ 0 → result ≢ 4 → Takes
        (through W.held W.faults out.old out.new) [] }
    ensures reads { CallsAtMost (most_bytes + 1) (R.calls src.old) (R.calls src.new) }
    ensures unread { (numbers : Numbers) → command ≡ Bulk numbers → src.new ≡ src.old }
{
    let runner = |alloc: Global, trace: &Trace| -> Result<Run, NoMemory>
        requires { IsRunnable trace.now }
        ensures { IfOk result (IsRunOf RanByThreads trace.now) }
    { run_by_threads(rt, alloc, trace, gate) };
    let sharded = |alloc: Global, trace: &Trace| -> Result<Run, NoMemory>
        requires { IsRunnable trace.now }
        ensures { IfOk result (IsRunOf RanByShards trace.now) }
    { run_by_shards(rt, alloc, trace, gate) };
    let takers = |alloc: Global, trace: &Trace| -> Result<PoolRun, NoMemory>
        requires { pooled.MayRun trace.now }
        ensures { IfOk result (pooled.IsRunOf RanByTakers trace.now) }
    { run_by_takers(rt, alloc, trace, gate) };
    match command {
        Command::Line => run_line(alloc, src, out, err),
        Command::Verify { profile } => run_verify(alloc, profile, src, out, err),
        Command::Replay => run_replay::<ByThreads, _, R, W, E>(&runner, alloc, src, out, err),
        Command::Shards => run_replay::<ByShards, _, R, W, E>(&sharded, alloc, src, out, err),
        Command::Pool => run_pool::<ByTakers, _, R, W, E>(&takers, alloc, src, out, err),
        Command::Bulk(numbers) => {
            let BulkWords {
                seed,
                workers,
                calls,
            } = numbers;
            run_bulk::<ByThreads, _, W, E>(&runner, alloc, seed, workers, calls, out, err)
        }
        Command::Assemble { profile } => run_asm(alloc, profile, src, out, err),
        Command::Disassemble { profile } => run_disasm(alloc, profile, src, out, err),
    }
}
