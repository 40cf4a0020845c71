//! The pass lines of a schedule.
ghost use Rattle.std.specs.Prelude.{◌≡◌, ◌<◌, ◌≤◌, length, IfOk};
ghost use Rattle.doc_text.specs.Text.{pieces};
ghost use Rattle.doc_text.specs.Faults.{GivesOrWants};
ghost use Rattle.policy_text.specs.Errors.{fault_of};
ghost use Rattle.shfl_sched.specs.Grammar.{passes_in};

use crate::faults::PASS;
use policy_text::{DocumentError, Section, attrs_of};
use shfl_line::Attr;
use std::alloc::Global;

/// The passes of a schedule, and the bytes from the line `events` on.
#[tactic(auto, unfolding(crate::specs::Grammar::passes_in))]
pub fn passes_of(
    alloc: Global,
    bytes: &[u8],
    first: u32,
) -> Result<(Vec<Attr>, &[u8]), DocumentError>
    requires { first < 10 }
    ensures exact { GivesOrWants fault_of (λ x. (x.0.items, pieces x.1.now)) result
        (passes_in first (pieces bytes.now)) }
    ensures few { IfOk result (λ x. length x.0.items ≤ 64) }
    ensures some { IfOk result (λ x. 0 < length x.0.items) }
{
    let passes = Section {
        word: b"pass",
        last: Some(b"events"),
        most: 64,
        bad: PASS,
        over: PASS,
        short: PASS,
    };
    attrs_of(alloc, &passes, bytes, first)
}
