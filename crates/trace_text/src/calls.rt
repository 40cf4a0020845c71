ghost use Rattle.std.specs.Prelude.{◌≡◌, ◌<◌, ◌≤◌, length, map, IfOk, OnOk};
ghost use Rattle.doc_text.specs.Text.{pieces};
ghost use Rattle.doc_text.specs.Faults.{Gives, GivesOrWants};
ghost use Rattle.trace_text.specs.CallLists.{list_said, IsListOf, numbered_said, IsNumbered};
ghost use Rattle.policy_text.specs.Errors.{fault_of};
ghost use Rattle.trace_text.specs.Lines.{is_entry, is_in_range, may_do, is_full};
ghost use Rattle.trace_text.specs.Grammar.{call_says, calls_in};
ghost use Rattle.trace_text.specs.Spelled.{act_said, call_said, MayBe};
ghost use Rattle.trace_text.specs.Traces.{policy_of};

use crate::call_list::{CallList, Numbered};
use crate::faults::{ATTACH, CALL, OVER, POLICY, RANGE, STRANGER};
use crate::policies::is_declared;
use crate::shape::shape_of;
use crate::spelled::{SpelledAct, SpelledCall, is_attach};
use crate::trace::NamedSource;
use doc_text::{Fault, fixed_due, text_at};
use policy_text::DocumentError;
use std::alloc::Global;

// No call is shorter than `0 next 0` and its line feed.
const SHORTEST_LINE: usize = 9;

fn is_entry(dir: u8, name: &[u8]) -> bool
    ensures { result ≡ is_entry dir name.now }
{
    dir < 64 && name.len() <= 255
}

fn is_in_range(act: &SpelledAct) -> bool
    ensures { result ≡ is_in_range (act_said act.now) }
{
    match act {
        SpelledAct::Make { dir, name } => is_entry(*dir, name),
        SpelledAct::Drop { dir, name } => is_entry(*dir, name),
        SpelledAct::Rename {
            dir,
            name,
            to_dir,
            to_name,
        } => is_entry(*dir, name) && is_entry(*to_dir, to_name),
        SpelledAct::Find { dir, name } => is_entry(*dir, name),
        SpelledAct::Count { dir } => *dir < 64,
        SpelledAct::Next { dir, after: None } => *dir < 64,
        SpelledAct::Next {
            dir,
            after: Some(name),
        } => is_entry(*dir, name),
        SpelledAct::Attach { .. } => true,
    }
}

fn may_do(policies: &[NamedSource], worker: u32, act: &SpelledAct) -> bool
    ensures { result ≡ may_do (map policy_of policies.now) worker (act_said act.now) }
{
    match act {
        SpelledAct::Attach { name } => worker == 0 && is_declared(policies, name),
        _ => true,
    }
}

// The call that a line says behind others.
#[tactic(auto, unfolding(crate::specs::Grammar::call_says))]
fn call_says<'a>(
    workers: usize,
    policies: &[NamedSource],
    before: &CallList,
    line: u32,
    text: &'a [u8],
) -> Result<SpelledCall<'a>, Fault>
    requires { IsListOf workers policies.now before.now }
    ensures exact { Gives call_said result
        (call_says workers (map policy_of policies.now) (list_said policies.now before.now)
        line text.now) }
    ensures room { OnOk result (length before.now.calls.items < 65536) }
    ensures declared { IfOk result (λ c.
        MayBe workers (map policy_of policies.now) (call_said c)) }
{
    let Some(call) = shape_of(text) else {
        return Err(Fault { line, what: CALL });
    };
    if call.worker as usize >= workers {
        return Err(Fault {
            line,
            what: STRANGER,
        });
    }
    if !is_in_range(&call.act) {
        return Err(Fault { line, what: RANGE });
    }
    if !may_do(policies, call.worker, &call.act) {
        return Err(Fault { line, what: ATTACH });
    }
    let full = is_attach(&call.act) && before.attaches >= 4096;
    if before.calls.len() >= 65536 || full {
        return Err(Fault { line, what: OVER });
    }
    Ok(call)
}

/// The calls of a trace, from the line `calls` to the end of the document.
#[tactic(auto, unfolding(crate::specs::Grammar::calls_in))]
pub fn calls_of(
    alloc: Global,
    workers: usize,
    policies: &[NamedSource],
    bytes: &[u8],
    first: u32,
) -> Result<Numbered, DocumentError>
    requires few_policies { length policies.now ≤ 64 }
    requires soon { first < 100 }
    ensures exact { GivesOrWants fault_of (numbered_said policies.now) result
        (calls_in workers (map policy_of policies.now) first (pieces bytes.now)) }
    ensures numbered { IfOk result (IsNumbered workers policies.now) }
    ensures few { IfOk result (λ n. length n.calls.items ≤ 65536) }
{
    let mut rest = fixed_due(bytes, first, POLICY, b"calls")?;
    let mut list = CallList::open(alloc, (rest.len() / SHORTEST_LINE).min(65536))?;
    let mut line = first + 1;
    while !rest.is_empty() {
        let Some((text, after)) = text_at(rest) else {
            return Err(DocumentError::Format { line, what: 1 });
        };
        let call = call_says(workers, policies, &list, line, text)?;
        list.push(workers, policies, &call)?;
        rest = after;
        line += 1;
    }
    Ok(list.finish(alloc, workers, policies)?)
}
