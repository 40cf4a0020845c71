//! The commands as calls.
ghost use Rattle.std.specs.Prelude.{◌+◌};
ghost use Rattle.syn_outer.specs.Causes.{CallsAtMost};
ghost use Rattle.syncord_endings.specs.Traffic.{through};
ghost use Rattle.syncord_endings.specs.Endings.{Answers, Decides, most_bytes};
ghost use Rattle.syncord_verify.specs.Verdicts.{IsNoProgram};
ghost use Rattle.syncord_asm.specs.Assemblies as assembly;
ghost use Rattle.syncord_asm.specs.Listings as listing;

use crate::assembling::assembled;
use crate::listing::listed;
use bpf_isa::Profile;
use std::alloc::Global;
use syn_outer::{Sink, Source};
use syncord_endings::{Refusal, Work, perform};

/// Assembles a text of a profile.
#[derive(Drop)]
struct Assemble {
    profile: Profile,
}

impl Work for Assemble {
    ghost use Rattle.syncord_asm.specs.Assemblies.{Reports, Refuses};

    ghost reports = { λ command text slots. Reports command.profile text slots };

    ghost refuses = { λ command text refusal. Refuses command.profile text refusal };

    fn report(&self, alloc: Global, text: Vec<u8>) -> Result<Vec<u8>, Refusal> {
        assembled(alloc, self.profile, &text)
    }
}

/// Lists the program of a profile.
#[derive(Drop)]
struct Disassemble {
    profile: Profile,
}

impl Work for Disassemble {
    ghost use Rattle.syncord_verify.specs.Verdicts.{IsNoProgram};
    ghost use Rattle.syncord_asm.specs.Listings.{Reports};

    ghost reports = { λ command digits text. Reports command.profile digits text };

    ghost refuses = { λ command digits refusal. IsNoProgram command.profile digits refusal };

    fn report(&self, alloc: Global, digits: Vec<u8>) -> Result<Vec<u8>, Refusal> {
        listed(alloc, self.profile, &digits)
    }
}

/// Does all of the command `asm` that follows its words, and answers the status.
pub fn run_asm<R: Source, W: Sink, E: Sink>(
    alloc: Global,
    profile: Profile,
    src: &mut R,
    out: &mut W,
    err: &mut E,
) -> u8
    ensures answer { Answers (assembly.Reports profile) (assembly.Refuses profile)
        (through R.left R.faults src.old src.new)
        (through W.held W.faults out.old out.new)
        (through E.held E.faults err.old err.new) result }
    ensures complete { Decides (assembly.Refuses profile)
        (through R.left R.faults src.old src.new)
        (through W.held W.faults out.old out.new) result }
    ensures reads { CallsAtMost (most_bytes + 1) (R.calls src.old) (R.calls src.new) }
{
    perform(&Assemble { profile }, alloc, src, out, err)
}

/// Does all of the command `disasm` that follows its words, and answers the status.
pub fn run_disasm<R: Source, W: Sink, E: Sink>(
    alloc: Global,
    profile: Profile,
    src: &mut R,
    out: &mut W,
    err: &mut E,
) -> u8
    ensures answer { Answers (listing.Reports profile) (IsNoProgram profile)
        (through R.left R.faults src.old src.new)
        (through W.held W.faults out.old out.new)
        (through E.held E.faults err.old err.new) result }
    ensures complete { Decides (IsNoProgram profile)
        (through R.left R.faults src.old src.new)
        (through W.held W.faults out.old out.new) result }
    ensures reads { CallsAtMost (most_bytes + 1) (R.calls src.old) (R.calls src.new) }
{
    perform(&Disassemble { profile }, alloc, src, out, err)
}
