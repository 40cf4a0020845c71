//! The program as one call: words and bytes in, a status, a report with its rounds and an error line out.
ghost use Rattle.std.specs.Prelude.{◌≡◌, map, string_bytes, codes, Some, None, IfOk, IfErr};
ghost use Rattle.syncord_endings.specs.Traffic.{through, Told};
ghost use Rattle.syncord_endings.specs.Endings.{AnswersAs, Decides, Due};
ghost use Rattle.syncord_rounds.specs.declared.commands.Command.{Command as Wanted};
ghost use Rattle.syncord_rounds.specs.Commands.{command_in};
ghost use Rattle.syncord_rounds.specs.Reports.{Reports, Refuses};

use crate::commands::{Command, command_of};
use crate::queue::pooled_in_rounds;
use crate::run::replayed_in_rounds;
use std::alloc::Global;
use std::sync::Wait;
use std::thread::Threads;
use syn_outer::{Gate, Sink, Source};
use syncord_endings::{Refusal, Work, perform_as, tell};

/// What the command tells of the trace that the bytes are.
fn rounds_of<Rt: Threads + Wait + Sync, G: Gate + Sync>(
    rt: &Rt,
    gate: &G,
    alloc: Global,
    command: Command,
    bytes: Vec<u8>,
) -> Result<Vec<u8>, Refusal>
    ensures report { IfOk result (λ text. Reports command bytes.items text.items) }
    ensures refusal { IfErr result (Due (Refuses command bytes.items)) }
{
    match command {
        Command::Replay(wanted) => replayed_in_rounds(rt, gate, alloc, wanted, bytes),
        Command::Pool => pooled_in_rounds(rt, gate, alloc, bytes),
    }
}

/// A command, whose report `teller` makes: that starts threads, over what is `Sync` by a bound of the function alone that made it.
#[derive_where(Clone, Copy)]
struct Telling<'a, F> {
    command: Command,
    teller: &'a F,
}

impl<'a, F: Fn(Global, Vec<u8>) -> Result<Vec<u8>, Refusal>> Work for Telling<'a, F> {
    ghost use Rattle.syncord_rounds.specs.Reports.{Reports, Refuses, TellsEach};

    ghost reports = { λ work bytes text. Reports work.command bytes text };

    ghost refuses = { λ work bytes refusal. Refuses work.command bytes refusal };

    ghost ready = { λ work. F.IsAlwaysCallable work.teller.now
        × TellsEach work.command (F.post work.teller.now) (λ v. v.items) };

    fn report(&self, alloc: Global, bytes: Vec<u8>) -> Result<Vec<u8>, Refusal> {
        (self.teller)(alloc, bytes)
    }
}

/// Does all of a command that follows its words, and answers the status.
fn perform<Rt: Threads + Wait + Sync, G: Gate + Sync, R: Source, W: Sink, E: Sink>(
    rt: &Rt,
    gate: &G,
    alloc: Global,
    command: Command,
    src: &mut R,
    out: &mut W,
    err: &mut E,
) -> u8
    ensures answer { AnswersAs (codes "syncord-rounds") (Reports command) (Refuses command)
        (through R.left R.faults src.old src.new)
        (through W.held W.faults out.old out.new)
        (through E.held E.faults err.old err.new) result }
    ensures complete { Decides (Refuses command)
        (through R.left R.faults src.old src.new)
        (through W.held W.faults out.old out.new) result }
{
    let teller = |alloc: Global, bytes: Vec<u8>| -> Result<Vec<u8>, Refusal>
        ensures report { IfOk result (λ text. Reports command bytes.items text.items) }
        ensures refusal { IfErr result (Due (Refuses command bytes.items)) }
    { rounds_of(rt, gate, alloc, command, bytes) };
    let work = Telling {
        command,
        teller: &teller,
    };
    perform_as(b"syncord-rounds", &work, alloc, src, out, err)
}

/// Runs a trace as the words behind the program's name say, tells its report and its rounds, and answers the status. A thread runs for
/// each worker, and all are waited for: what is said here is said if the call returns. `gate` is where a test can hold a worker.
pub fn tell_rounds<Rt: Threads + Wait + Sync, R: Source, W: Sink, E: Sink, G: Gate + Sync>(
    rt: &Rt,
    alloc: Global,
    words: &[String],
    src: &mut R,
    out: &mut W,
    err: &mut E,
    gate: &G,
) -> u8
    // Other words are refused, and nothing is read or written.
    ensures refused { command_in (map string_bytes words.now) ≡ None → result ≡ 2 }
    ensures untouched { command_in (map string_bytes words.now) ≡ None →
        (src.new ≡ src.old) × (out.new ≡ out.old) }
    ensures told { command_in (map string_bytes words.now) ≡ None →
        Told (through E.held E.faults err.old err.new) (codes "syncord-rounds: words\n") }

    // The status has its cause.
    ensures answer { (command : Wanted) → command_in (map string_bytes words.now) ≡ Some command →
        AnswersAs (codes "syncord-rounds") (Reports command) (Refuses command)
        (through R.left R.faults src.old src.new)
        (through W.held W.faults out.old out.new)
        (through E.held E.faults err.old err.new) result }

    // A trace is run and its rounds are told, and other bytes are refused, unless something fails or memory runs out.
    ensures complete { (command : Wanted) → command_in (map string_bytes words.now) ≡ Some command →
        Decides (Refuses command)
        (through R.left R.faults src.old src.new)
        (through W.held W.faults out.old out.new) result }
{
    match command_of(words) {
        Some(command) => perform(rt, gate, alloc, command, src, out, err),
        None => {
            tell(err, b"syncord-rounds: words\n");
            2
        }
    }
}
