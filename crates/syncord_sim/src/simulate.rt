//! The program as one call: words and bytes in, a status, a report and an error line out.
ghost use Rattle.std.specs.Prelude.{◌≡◌, map, string_bytes, codes, Some, None};
ghost use Rattle.syncord_endings.specs.Traffic.{through, Told};
ghost use Rattle.syncord_endings.specs.Endings.{AnswersAs, Decides};
ghost use Rattle.syncord_sim.specs.Commands.{Wanted, command_in};
ghost use Rattle.syncord_sim.specs.Simulations.{Writes, Refuses};

use crate::commands::{Command, command_of};
use crate::simulation::simulation;
use std::alloc::Global;
use syn_outer::{Sink, Source};
use syncord_endings::{Refusal, Work, perform_as, tell};

impl<'a> Work for Command<'a> {
    ghost use Rattle.syncord_sim.specs.Commands.{said};
    ghost use Rattle.syncord_sim.specs.Simulations.{Writes, Refuses};

    ghost reports = { λ command bytes text. Writes (said command) bytes text };

    ghost refuses = { λ command bytes refusal. Refuses (said command) bytes refusal };

    fn report(&self, alloc: Global, bytes: Vec<u8>) -> Result<Vec<u8>, Refusal> {
        simulation(alloc, *self, &bytes)
    }
}

/// Simulates as the words behind the program's name say, and answers the status.
pub fn simulate<R: Source, W: Sink, E: Sink>(
    alloc: Global,
    words: &[String],
    src: &mut R,
    out: &mut W,
    err: &mut E,
) -> u8
    // Other words are refused, and nothing is read or written.
    ensures refused { command_in (map string_bytes words.now) ≡ None → result ≡ 2 }
    ensures untouched { command_in (map string_bytes words.now) ≡ None →
        (src.new ≡ src.old) × (out.new ≡ out.old) }
    ensures told { command_in (map string_bytes words.now) ≡ None →
        Told (through E.held E.faults err.old err.new)
        (codes "syncord-sim: words\n") }

    // The status has its cause.
    ensures answer { (wanted : Wanted) → command_in (map string_bytes words.now) ≡ Some wanted →
        AnswersAs (codes "syncord-sim") (Writes wanted) (Refuses wanted)
        (through R.left R.faults src.old src.new)
        (through W.held W.faults out.old out.new)
        (through E.held E.faults err.old err.new) result }

    // What is wanted of a setup is written, and another document refused, unless something fails or memory runs out.
    ensures complete { (wanted : Wanted) → command_in (map string_bytes words.now) ≡ Some wanted →
        Decides (Refuses wanted)
        (through R.left R.faults src.old src.new)
        (through W.held W.faults out.old out.new) result }
{
    match command_of(words) {
        Some(command) => perform_as(b"syncord-sim", &command, alloc, src, out, err),
        None => {
            tell(err, b"syncord-sim: words\n");
            2
        }
    }
}
