//! The top call: words and bytes in, a status, a report and an error line out.
ghost use Rattle.std.specs.Prelude.{◌≡◌, ◌≢◌, ◌+◌, [], map, string_bytes, codes, Some, None};
ghost use Rattle.command_words.specs.declared.commands.Command.TheVariants.{Line, Verify, Replay, Shards, Pool, Bulk, Assemble, Disassemble};
ghost use Rattle.command_words.specs.Commands.{command_in};
ghost use Rattle.bpf_isa.specs.declared.insn.Profile.{Profile as ProfileValue};
ghost use Rattle.syn_outer.specs.Causes.{CallsAtMost};
ghost use Rattle.syncord_endings.specs.Endings.{Performs, most_bytes};
ghost use Rattle.syncord_endings.specs.Traffic.{through, Takes, Told};
ghost use Rattle.syncord_line.specs.Reports as line;
ghost use Rattle.syncord_verify.specs.Verdicts as verify;
ghost use Rattle.syncord_asm.specs.Assemblies as assembly;
ghost use Rattle.syncord_asm.specs.Listings as listing;
ghost use Rattle.shfl_workers.specs.LockRuns.{RanByThreads, RanByShards};
ghost use Rattle.command_words.specs.declared.numbers.BulkWords.{BulkWords as Numbers};
ghost use Rattle.syncord_replay.specs.Replays as replay;
ghost use Rattle.syncord_pool.specs.Reports as pool;
ghost use Rattle.syncord_app.specs.Outcomes.{SumsUp};
ghost use Rattle.syncord_app.specs.Takers.{RanByTakers};

use crate::doing::do_command;
use command_words::Command;
use std::alloc::Global;
use std::sync::Wait;
use std::thread::Threads;
use syn_outer::{Gate, Sink, Source};
use syncord_endings::tell;

/// Does what the words behind the program's name say, and answers the status. `replay`, `shards`, `pool` and `bulk` run a thread for
/// each worker of their trace and wait for them all: what is said of them here is said if the call returns. `gate` is where a test can
/// hold a worker.
#[tactic(auto, using(syncord_endings::proofs::Unread::calls_stay))]
pub fn syncord<Rt: Threads + Wait + Sync, R: Source, W: Sink, E: Sink, G: Gate + Sync>(
    rt: &Rt,
    alloc: Global,
    words: &[String],
    src: &mut R,
    out: &mut W,
    err: &mut E,
    gate: &G,
) -> u8
    // Other words than a command's are refused, and nothing is read or written.
    ensures refused { command_in (map string_bytes words.now) ≡ None → result ≡ 2 }
    ensures untouched { command_in (map string_bytes words.now) ≡ None →
        (src.new ≡ src.old) × (out.new ≡ out.old) }
    ensures told { command_in (map string_bytes words.now) ≡ None →
        Told (through E.held E.faults err.old err.new)
        (codes "syncord: words\n") }

    // With each other status than 0 and 4 nothing is written.
    ensures silent { result ≢ 0 → result ≢ 4 → Takes
        (through W.held W.faults out.old out.new) [] }

    // No command reads oftener than once a byte and once for the end.
    ensures reads { CallsAtMost (most_bytes + 1) (R.calls src.old) (R.calls src.new) }

    // `line` reports a schedule, or ends otherwise with its cause.
    ensures line { command_in (map string_bytes words.now) ≡ Some Line →
        Performs line.Reports line.Refuses
        (through R.left R.faults src.old src.new)
        (through W.held W.faults out.old out.new)
        (through E.held E.faults err.old err.new) result }

    // `verify` accepts or refuses the program, or ends otherwise with its cause.
    ensures verify { (profile : ProfileValue) →
        command_in (map string_bytes words.now) ≡ Some (Verify profile) →
        Performs (verify.Reports profile) (verify.Refuses profile)
        (through R.left R.faults src.old src.new)
        (through W.held W.faults out.old out.new)
        (through E.held E.faults err.old err.new) result }

    // `replay` runs a trace by threads and reports a history of it, which the holds of the lock's run made; or it ends otherwise with its
    // cause.
    ensures replay { command_in (map string_bytes words.now) ≡ Some Replay →
        Performs (replay.Reports RanByThreads) replay.Refuses
        (through R.left R.faults src.old src.new)
        (through W.held W.faults out.old out.new)
        (through E.held E.faults err.old err.new) result }

    // `shards` runs a trace by threads with a lock for each directory, each of which has a run, and reports a history of it as
    // `replay` does.
    ensures shards { command_in (map string_bytes words.now) ≡ Some Shards →
        Performs (replay.Reports RanByShards) replay.Refuses
        (through R.left R.faults src.old src.new)
        (through W.held W.faults out.old out.new)
        (through E.held E.faults err.old err.new) result }

    // `pool` runs the calls of a trace by threads that take them from one queue, and reports a history of them, which the holds of
    // the lock's run made; or it ends otherwise with its cause.
    ensures pool { command_in (map string_bytes words.now) ≡ Some Pool →
        Performs (pool.Reports RanByTakers) pool.Refuses
        (through R.left R.faults src.old src.new)
        (through W.held W.faults out.old out.new)
        (through E.held E.faults err.old err.new) result }

    // `bulk` runs the trace that its numbers make and sums it up, and reads nothing.
    ensures bulk { (numbers : Numbers) →
        command_in (map string_bytes words.now) ≡ Some (Bulk numbers) → SumsUp numbers
        (through W.held W.faults out.old out.new)
        (through E.held E.faults err.old err.new) result }
    ensures unread { (numbers : Numbers) →
        command_in (map string_bytes words.now) ≡ Some (Bulk numbers) → src.new ≡ src.old }

    // `asm` assembles a text, or ends otherwise with its cause.
    ensures asm { (profile : ProfileValue) →
        command_in (map string_bytes words.now) ≡ Some (Assemble profile) →
        Performs (assembly.Reports profile) (assembly.Refuses profile)
        (through R.left R.faults src.old src.new)
        (through W.held W.faults out.old out.new)
        (through E.held E.faults err.old err.new) result }

    // `disasm` lists a program, or ends otherwise with its cause.
    ensures disasm { (profile : ProfileValue) →
        command_in (map string_bytes words.now) ≡ Some (Disassemble profile) →
        Performs (listing.Reports profile) (verify.IsNoProgram profile)
        (through R.left R.faults src.old src.new)
        (through W.held W.faults out.old out.new)
        (through E.held E.faults err.old err.new) result }
{
    match Command::of(words) {
        Some(command) => do_command(rt, alloc, command, src, out, err, gate),
        None => {
            tell(err, b"syncord: words\n");
            2
        }
    }
}
