//! The pass lines of a setup, and its end.
ghost use Rattle.std.specs.Prelude.{◌≡◌, ◌<◌, ◌≤◌, [], length, IfOk};
ghost use Rattle.doc_text.specs.Text.{pieces};
ghost use Rattle.doc_text.specs.Faults.{Gives, GivesOrWants};
ghost use Rattle.policy_text.specs.Errors.{fault_of};
ghost use Rattle.sim_text.specs.Grammar.{passes_in, over_in, body_in};

use crate::faults::{OVER, PASS};
use doc_text::{Fault, fixed_due, text_at};
use policy_text::{DocumentError, Section, attrs_of};
use shfl_line::Attr;
use std::alloc::Global;

#[tactic(auto, unfolding(crate::specs::Grammar::passes_in))]
fn passes_of(alloc: Global, bytes: &[u8], first: u32) -> Result<(Vec<Attr>, &[u8]), DocumentError>
    requires { first < 100 }
    ensures exact { GivesOrWants fault_of (λ x. (x.0.items, pieces x.1.now)) result
        (passes_in first (pieces bytes.now)) }
    ensures few { IfOk result (λ x. length x.0.items ≤ 1024) }
    ensures some { IfOk result (λ x. 0 < length x.0.items) }
{
    let passes = Section {
        word: b"pass",
        last: Some(b"end"),
        most: 1024,
        bad: PASS,
        over: PASS,
        short: PASS,
    };
    attrs_of(alloc, &passes, bytes, first)
}

// Nothing stands behind the last line.
#[tactic(auto, unfolding(crate::specs::Grammar::over_in))]
fn over_at(bytes: &[u8], line: u32) -> Result<(), Fault>
    ensures { Gives (λ _. []) result (over_in line (pieces bytes.now)) }
{
    if bytes.is_empty() {
        return Ok(());
    }
    match text_at(bytes) {
        None => Err(Fault { line, what: 1 }),
        Some(_) => Err(Fault { line, what: OVER }),
    }
}

/// The passes of a setup, up to the end of the document.
#[tactic(auto, unfolding(crate::specs::Grammar::body_in))]
pub fn body_of(alloc: Global, bytes: &[u8], first: u32) -> Result<Vec<Attr>, DocumentError>
    requires { first < 100 }
    ensures exact { GivesOrWants fault_of (λ v. v.items) result (body_in first (pieces bytes.now)) }
    ensures few { IfOk result (λ v. length v.items ≤ 1024) }
    ensures some { IfOk result (λ v. 0 < length v.items) }
{
    let (passes, rest) = passes_of(alloc, bytes, first)?;
    let line = first + passes.len() as u32;
    let rest = fixed_due(rest, line, PASS, b"end")?;
    over_at(rest, line + 1)?;
    Ok(passes)
}
