ghost use Rattle.std.specs.Prelude.{◌≡◌, ◌<◌, ◌≤◌, length, IfOk};
ghost use Rattle.doc_text.specs.Text.{pieces};
ghost use Rattle.doc_text.specs.Faults.{GivesOrWants};
ghost use Rattle.policy_text.specs.Errors.{fault_of};
ghost use Rattle.trace_text.specs.Grammar.{workers_in};

use crate::faults::{POLICY, WORKER, WORKERS};
use policy_text::{DocumentError, Section, attrs_of};
use shfl_line::Attr;
use std::alloc::Global;

/// The workers of a trace, and the bytes from the line behind them on.
#[tactic(auto, unfolding(crate::specs::Grammar::workers_in))]
pub fn workers_of(
    alloc: Global,
    bytes: &[u8],
    first: u32,
) -> Result<(Vec<Attr>, &[u8]), DocumentError>
    requires { first < 4 }
    ensures exact { GivesOrWants fault_of (λ x. (x.0.items, pieces x.1.now)) result
        (workers_in first (pieces bytes.now)) }
    ensures few { IfOk result (λ x. length x.0.items ≤ 16) }
    ensures some { IfOk result (λ x. 0 < length x.0.items) }
{
    let workers = Section {
        word: b"worker",
        last: None,
        most: 16,
        bad: WORKER,
        over: WORKERS,
        short: POLICY,
    };
    attrs_of(alloc, &workers, bytes, first)
}
