//! The program as one call: words and bytes in, a status, a picture and an error line out.
ghost use Rattle.std.specs.Prelude.{◌≡◌, map, string_bytes, codes, Some, None};
ghost use Rattle.syncord_endings.specs.Traffic.{through, Told};
ghost use Rattle.syncord_endings.specs.Endings.{AnswersAs, Decides};
ghost use Rattle.syncord_draw.specs.declared.commands.Command.{Command as Wanted};
ghost use Rattle.syncord_draw.specs.Commands.{command_in};
ghost use Rattle.syncord_draw.specs.Pictures.{Draws, Refuses};

use crate::commands::{Command, command_of};
use crate::drawing::drawn;
use std::alloc::Global;
use syn_outer::{Sink, Source};
use syncord_endings::{Refusal, Work, perform_as, tell};

impl Work for Command {
    ghost use Rattle.syncord_draw.specs.Pictures.{Draws, Refuses};

    ghost reports = { λ command bytes picture. Draws command bytes picture };

    ghost refuses = { λ _ bytes refusal. Refuses bytes refusal };

    fn report(&self, alloc: Global, bytes: Vec<u8>) -> Result<Vec<u8>, Refusal> {
        drawn(alloc, *self, &bytes)
    }
}

/// Draws as the words behind the program's name say, and answers the status.
pub fn draw<R: Source, W: Sink, E: Sink>(
    alloc: Global,
    words: &[String],
    src: &mut R,
    out: &mut W,
    err: &mut E,
) -> u8
    // Other words are refused, and nothing is read or written.
    ensures refused { command_in (map string_bytes words.now) ≡ None → result ≡ 2 }
    ensures untouched { command_in (map string_bytes words.now) ≡ None →
        (src.new ≡ src.old) × (out.new ≡ out.old) }
    ensures told { command_in (map string_bytes words.now) ≡ None →
        Told (through E.held E.faults err.old err.new)
        (codes "draw: words\n") }

    // The status has its cause.
    ensures answer { (command : Wanted) → command_in (map string_bytes words.now) ≡ Some command →
        AnswersAs (codes "draw") (Draws command) Refuses
        (through R.left R.faults src.old src.new)
        (through W.held W.faults out.old out.new)
        (through E.held E.faults err.old err.new) result }

    // A report is drawn and another document refused, unless something fails or memory runs out.
    ensures complete { (command : Wanted) → command_in (map string_bytes words.now) ≡ Some command →
        Decides Refuses
        (through R.left R.faults src.old src.new)
        (through W.held W.faults out.old out.new) result }
{
    match command_of(words) {
        Some(command) => perform_as(b"draw", &command, alloc, src, out, err),
        None => {
            tell(err, b"draw: words\n");
            2
        }
    }
}
