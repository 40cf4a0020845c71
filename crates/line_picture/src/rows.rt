//! The lines of events.
ghost use Rattle.std.specs.Prelude.{◌≡◌, ◌≤◌, Some, None, MatchOption, OnSome};
ghost use Rattle.doc_text.specs.Words.{words};
ghost use Rattle.line_picture.specs.Reports.{event_said, state_said, row_said};
ghost use Rattle.line_picture.specs.Rows.{event_in, end_in, columns_in, is_sound, row_in};

use crate::columns::{labelled, last, next_word};
use crate::lists::{are_holders, are_passes, are_waiters};
use crate::marks::{
    answer_of, has_sleepers, is_act, is_detached, is_number, is_pass, is_shuffler, lock_of,
};
use crate::report::{Event, Row, State};
use shfl_line::Form;

#[tactic(auto, unfolding(crate::specs::Rows::event_in))]
fn event_of(form: Form, passes: u32, number: u32, text: &[u8]) -> Option<(Event<'_>, &[u8])>
    ensures exact { MatchOption result
        (event_in form passes number (words text.now) ≡ None)
        (λ x. event_in form passes number (words text.now) ≡ Some (event_said x.0, words x.1.now)) }
    ensures within { OnSome result (number ≤ 65536) }
{
    let (count, text) = next_word(text)?;
    let (act, text) = next_word(text)?;
    let (pass, text) = next_word(text)?;
    let (answer, text) = next_word(text)?;
    let admitted = answer_of(answer)?;
    if !(is_number(number, count) && is_act(form, act) && is_pass(passes, pass)) {
        return None;
    }
    let event = Event {
        number: count,
        act,
        pass,
        admitted,
    };
    Some((event, text))
}

#[tactic(auto, unfolding(crate::specs::Rows::end_in))]
fn end_of(form: Form, text: &[u8]) -> Option<(&[u8], &[u8])>
    ensures { MatchOption result
        (end_in form (words text.now) ≡ None)
        (λ x. end_in form (words text.now) ≡ Some (x.0.now, x.1.now)) }
{
    if !has_sleepers(form) {
        let shuffler = last(b"role", text)?;
        return Some((shuffler, b"-"));
    }
    let (shuffler, text) = labelled(b"role", text)?;
    let asleep = last(b"asleep", text)?;
    Some((shuffler, asleep))
}

#[tactic(auto, unfolding(crate::specs::Rows::columns_in))]
fn columns_of(form: Form, text: &[u8]) -> Option<State<'_>>
    ensures { MatchOption result
        (columns_in form (words text.now) ≡ None)
        (λ s. columns_in form (words text.now) ≡ Some (state_said s)) }
{
    let (word, text) = labelled(b"word", text)?;
    let (holders, text) = labelled(b"hold", text)?;
    let (queue, text) = labelled(b"line", text)?;
    let (detached, text) = labelled(b"hand", text)?;
    let (shuffler, asleep) = end_of(form, text)?;
    let lock = lock_of(word)?;
    Some(State {
        lock,
        holders,
        queue,
        detached,
        shuffler,
        asleep,
    })
}

#[tactic(auto, unfolding(crate::specs::Rows::is_sound))]
fn is_sound(form: Form, passes: u32, state: State<'_>) -> bool
    ensures { result ≡ is_sound form passes (state_said state.entry) }
{
    are_holders(form, passes, state.holders)
        && are_waiters(passes, state.queue)
        && is_detached(passes, state.detached)
        && is_shuffler(passes, state.shuffler)
        && are_passes(passes, state.asleep)
}

/// The line of the event of this number, in a lock of this form with so many passes.
#[tactic(auto, unfolding(crate::specs::Rows::row_in))]
pub fn row_of(form: Form, passes: u32, number: u32, text: &[u8]) -> Option<Row<'_>>
    ensures exact { MatchOption result
        (row_in form passes number text.now ≡ None)
        (λ r. row_in form passes number text.now ≡ Some (row_said r)) }
    ensures within { OnSome result (number ≤ 65536) }
{
    let (event, rest) = event_of(form, passes, number, text)?;
    let state = columns_of(form, rest)?;
    if !is_sound(form, passes, state) {
        return None;
    }
    Some(Row {
        line: text,
        event,
        state,
    })
}
