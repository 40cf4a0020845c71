//! The program as one call: words and bytes in, a status, a report and an error line out.
ghost use Rattle.std.specs.Prelude.{◌≡◌, ◌≢◌, ◌+◌, [], map, string_bytes, codes, Some, None};
ghost use Rattle.bpf_isa.specs.declared.insn.Profile.{Profile as ProfileValue};
ghost use Rattle.command_words.specs.declared.commands.Command.TheVariants.{Line, Verify, Assemble, Disassemble};
ghost use Rattle.command_words.specs.Commands.{command_in};
ghost use Rattle.syn_outer.specs.Causes.{CallsAtMost};
ghost use Rattle.syncord_endings.specs.Endings.{Performs, most_bytes};
ghost use Rattle.syncord_endings.specs.Traffic.{through, Takes, Told};
ghost use Rattle.syncord_line.specs.Reports as line;
ghost use Rattle.syncord_verify.specs.Verdicts as verify;
ghost use Rattle.syncord_asm.specs.Assemblies as assembly;
ghost use Rattle.syncord_asm.specs.Listings as listing;
ghost use Rattle.syncord_single.specs.Commands.{single_in};

use command_words::Command;
use std::alloc::Global;
use syn_outer::{Sink, Source};
use syncord_asm::{run_asm, run_disasm};
use syncord_endings::tell;
use syncord_line::run_line;
use syncord_verify::run_verify;

/// Does what the words behind the program's name say, where that needs no thread, and answers the status, as `syncord_app::syncord` does.
#[tactic(auto, using(syncord_endings::proofs::Unread::calls_stay))]
pub fn syncord_single<R: Source, W: Sink, E: Sink>(
    alloc: Global,
    words: &[String],
    src: &mut R,
    out: &mut W,
    err: &mut E,
) -> u8
    // Other words are refused, those of a command that starts threads too, and nothing is read or written.
    ensures refused { single_in (map string_bytes words.now) ≡ None → result ≡ 2 }
    ensures untouched { single_in (map string_bytes words.now) ≡ None →
        (src.new ≡ src.old) × (out.new ≡ out.old) }
    ensures told { single_in (map string_bytes words.now) ≡ None →
        Told (through E.held E.faults err.old err.new)
        (codes "syncord: words\n") }

    // With each other status than 0 and 4 nothing is written.
    ensures silent { result ≢ 0 → result ≢ 4 → Takes
        (through W.held W.faults out.old out.new) [] }

    // No command reads oftener than once a byte and once for the end.
    ensures reads { CallsAtMost (most_bytes + 1) (R.calls src.old) (R.calls src.new) }

    // `line` reports a schedule, or ends otherwise with its cause.
    ensures line { command_in (map string_bytes words.now) ≡ Some Line →
        Performs line.Reports line.Refuses
        (through R.left R.faults src.old src.new)
        (through W.held W.faults out.old out.new)
        (through E.held E.faults err.old err.new) result }

    // `verify` accepts or refuses the program, or ends otherwise with its cause.
    ensures verify { (profile : ProfileValue) →
        command_in (map string_bytes words.now) ≡ Some (Verify profile) →
        Performs (verify.Reports profile) (verify.Refuses profile)
        (through R.left R.faults src.old src.new)
        (through W.held W.faults out.old out.new)
        (through E.held E.faults err.old err.new) result }

    // `asm` assembles a text, or ends otherwise with its cause.
    ensures asm { (profile : ProfileValue) →
        command_in (map string_bytes words.now) ≡ Some (Assemble profile) →
        Performs (assembly.Reports profile) (assembly.Refuses profile)
        (through R.left R.faults src.old src.new)
        (through W.held W.faults out.old out.new)
        (through E.held E.faults err.old err.new) result }

    // `disasm` lists a program, or ends otherwise with its cause.
    ensures disasm { (profile : ProfileValue) →
        command_in (map string_bytes words.now) ≡ Some (Disassemble profile) →
        Performs (listing.Reports profile) (verify.IsNoProgram profile)
        (through R.left R.faults src.old src.new)
        (through W.held W.faults out.old out.new)
        (through E.held E.faults err.old err.new) result }
{
    match Command::of(words) {
        Some(Command::Line) => run_line(alloc, src, out, err),
        Some(Command::Verify { profile }) => run_verify(alloc, profile, src, out, err),
        Some(Command::Assemble { profile }) => run_asm(alloc, profile, src, out, err),
        Some(Command::Disassemble { profile }) => run_disasm(alloc, profile, src, out, err),
        _ => {
            tell(err, b"syncord: words\n");
            2
        }
    }
}
