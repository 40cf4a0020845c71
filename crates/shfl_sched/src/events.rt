//! The event lines of a schedule.
ghost use Rattle.std.specs.Prelude.{◌≡◌, ◌<◌, ◌≤◌, ◌∷◌, ◌++◌, [], length, IfOk, OnOk, MatchOption};
ghost use Rattle.doc_text.specs.Text.{pieces};
ghost use Rattle.doc_text.specs.Words.{words};
ghost use Rattle.doc_text.specs.Faults.{GivesOrWants, lines_from};
ghost use Rattle.shfl_core.specs.Plan.{shares};
ghost use Rattle.policy_text.specs.Errors.{fault_of};
ghost use Rattle.shfl_sched.specs.Schedules.{is_act_of};
ghost use Rattle.shfl_sched.specs.Lines.{act_named, pass_in, event_in};
ghost use Rattle.shfl_sched.specs.Spelling.{act_word, NamesNoAct, NamesNoActOf};
ghost use Rattle.shfl_sched.specs.Grammar.{event_says, events_in};

use crate::faults::{EVENT, OVER, PASS};
use crate::schedule::{Act, Event};
use doc_text::{Fault, fixed_due, is_same, number, text_at};
use policy_text::DocumentError;
use shfl_line::Form;
use std::alloc::Global;

fn act_named(word: &[u8]) -> Option<Act>
    ensures { result ≡ act_named word.now }
{
    if is_same(word, b"write") {
        Some(Act::Write)
    } else if is_same(word, b"read") {
        Some(Act::Read)
    } else if is_same(word, b"free") {
        Some(Act::Free)
    } else if is_same(word, b"step") {
        Some(Act::Step)
    } else {
        None
    }
}

// The act of so many letters at the front of a text, and what stands behind the blank after it.
fn act_of(text: &[u8], letters: usize) -> Option<(Act, &[u8])>
    ensures { MatchOption result
        (NamesNoActOf letters text.now)
        (λ x. text.now ≡ act_word x.0 ++ 32 ∷ x.1.now) }
{
    if letters >= text.len() || text[letters] != b' ' {
        return None;
    }
    let act = act_named(&text[..letters])?;
    Some((act, &text[letters + 1..]))
}

// The act at the front of a text, and what stands behind the blank after it.
fn act_at(text: &[u8]) -> Option<(Act, &[u8])>
    ensures { MatchOption result
        (NamesNoAct text.now)
        (λ x. text.now ≡ act_word x.0 ++ 32 ∷ x.1.now) }
{
    match act_of(text, 4) {
        Some(found) => Some(found),
        None => act_of(text, 5),
    }
}

fn has_readers(form: Form) -> bool
    ensures { result ≡ shares form }
{
    matches!(form, Form::Rw | Form::RwPark)
}

fn is_act_of(form: Form, act: Act) -> bool
    ensures { result ≡ is_act_of form act }
{
    match act {
        Act::Read => has_readers(form),
        _ => true,
    }
}

fn pass_of(passes: u32, word: &[u8]) -> Option<u8>
    ensures { result ≡ pass_in passes word.now }
{
    let pass = number(63, word)? as u8;
    if u32::from(pass) >= passes {
        return None;
    }
    Some(pass)
}

fn event_of(form: Form, passes: u32, text: &[u8]) -> Option<Event>
    ensures { result ≡ event_in form passes (words text.now) }
{
    let (act, rest) = act_at(text)?;
    let pass = pass_of(passes, rest)?;
    if !is_act_of(form, act) {
        return None;
    }
    Some(Event { act, pass })
}

#[tactic(auto, unfolding(crate::specs::Grammar::event_says))]
fn event_says(
    form: Form,
    passes: u32,
    before: &[Event],
    line: u32,
    text: &[u8],
) -> Result<Event, Fault>
    ensures exact { result ≡ event_says form passes before.now line text.now }
    ensures room { OnOk result (length before.now < 65536) }
{
    let Some(event) = event_of(form, passes, text) else {
        return Err(Fault { line, what: EVENT });
    };
    if before.len() >= 65536 {
        return Err(Fault { line, what: OVER });
    }
    Ok(event)
}

// Not a part of what calls it, so that its loops keep their places in registers.
#[inline(never)]
fn event_lines(
    alloc: Global,
    form: Form,
    passes: u32,
    bytes: &[u8],
    first: u32,
) -> Result<Vec<Event>, DocumentError>
    requires { first < 100 }
    ensures few { IfOk result (λ v. length v.items ≤ 65536) }
    ensures exact { GivesOrWants fault_of (λ v. v.items) result
        (lines_from (event_says form passes) [] first (pieces bytes.now)) }
{
    let mut events = Vec::new(alloc);
    let mut rest = bytes;
    let mut line = first;
    while !rest.is_empty() {
        let Some((text, after)) = text_at(rest) else {
            return Err(DocumentError::Format { line, what: 1 });
        };
        let event = event_says(form, passes, events.as_slice(), line, text)?;
        events.push(event)?;
        rest = after;
        line += 1;
    }
    Ok(events)
}

/// The events of a schedule with so many passes, from the line `events` to the end of the document.
#[tactic(auto, unfolding(crate::specs::Grammar::events_in))]
pub fn events_of(
    alloc: Global,
    form: Form,
    passes: u32,
    bytes: &[u8],
    first: u32,
) -> Result<Vec<Event>, DocumentError>
    requires { first < 99 }
    ensures exact { GivesOrWants fault_of (λ v. v.items) result
        (events_in form passes first (pieces bytes.now)) }
{
    let rest = fixed_due(bytes, first, PASS, b"events")?;
    event_lines(alloc, form, passes, rest, first + 1)
}
