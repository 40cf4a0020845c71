//! The command as a call.
ghost use Rattle.std.specs.Prelude.{◌+◌};
ghost use Rattle.syn_outer.specs.Causes.{CallsAtMost};
ghost use Rattle.syncord_endings.specs.Traffic.{through};
ghost use Rattle.syncord_endings.specs.Endings.{Answers, Decides, most_bytes};
ghost use Rattle.syncord_verify.specs.Verdicts.{Reports, Refuses};

use crate::report::verdict;
use bpf_isa::Profile;
use std::alloc::Global;
use syn_outer::{Sink, Source};
use syncord_endings::{Refusal, Work, perform};

/// Verifies the program of a profile.
#[derive(Drop)]
struct Verify {
    profile: Profile,
}

impl Work for Verify {
    ghost use Rattle.syncord_verify.specs.Verdicts.{Reports, Refuses};

    ghost reports = { λ command digits text. Reports command.profile digits text };

    ghost refuses = { λ command digits refusal. Refuses command.profile digits refusal };

    fn report(&self, alloc: Global, digits: Vec<u8>) -> Result<Vec<u8>, Refusal> {
        verdict(alloc, self.profile, &digits)
    }
}

/// Does all of the command `verify` that follows its words, and answers the status.
pub fn run_verify<R: Source, W: Sink, E: Sink>(
    alloc: Global,
    profile: Profile,
    src: &mut R,
    out: &mut W,
    err: &mut E,
) -> u8
    ensures answer { Answers (Reports profile) (Refuses profile)
        (through R.left R.faults src.old src.new)
        (through W.held W.faults out.old out.new)
        (through E.held E.faults err.old err.new) result }
    ensures complete { Decides (Refuses profile)
        (through R.left R.faults src.old src.new)
        (through W.held W.faults out.old out.new) result }
    ensures reads { CallsAtMost (most_bytes + 1) (R.calls src.old) (R.calls src.new) }
{
    perform(&Verify { profile }, alloc, src, out, err)
}
