//! Lines of a name and a value: the form, and the limit.
ghost use Rattle.std.specs.Prelude.{◌≡◌, ◌<◌, ◌≤◌, IfOk, IfSome, option_map};
ghost use Rattle.doc_text.specs.Text.{pieces};
ghost use Rattle.doc_text.specs.Words.{words};
ghost use Rattle.doc_text.specs.Faults.{Gives, one_of};
ghost use Rattle.lock_words.specs.Lines.{behind, form_in, limit_in};

use crate::forms::form_named;
use crate::limits::batch_of;
use doc_text::{Fault, is_same, line_due, or_fault, two_words};
use shfl_line::Form;

/// The second of just two words, where the first is this name.
pub fn behind<'a>(name: &[u8], text: &'a [u8]) -> Option<&'a [u8]>
    ensures { option_map (λ w. w.now) result ≡ behind name.now (words text.now) }
{
    let (word, value) = two_words(text)?;
    if is_same(word, name) {
        Some(value)
    } else {
        None
    }
}

fn form_of(text: &[u8]) -> Option<Form>
    ensures { result ≡ form_in (words text.now) }
{
    form_named(behind(b"form", text)?)
}

fn limit_of(text: &[u8]) -> Option<u16>
    ensures exact { result ≡ limit_in (words text.now) }
    ensures within { IfSome result (λ n. (0 < n) × (n ≤ 1024)) }
{
    batch_of(behind(b"limit", text)?)
}

/// The form that a line `form NAME` says, and the bytes behind it. A bad or missing line is the fault `what`.
#[tactic(auto, unfolding(doc_text::specs::Faults::one_of))]
pub fn form_due(bytes: &[u8], line: u32, what: u8) -> Result<(Form, &[u8]), Fault>
    ensures { Gives (λ x. (x.0, pieces x.1.now)) result
        (one_of line what form_in (pieces bytes.now)) }
{
    let (text, rest) = line_due(bytes, line, what)?;
    let form = or_fault(form_of(text), line, what)?;
    Ok((form, rest))
}

/// The limit that a line `limit N` says, and the bytes behind it. A bad or missing line is the fault `what`.
#[tactic(auto, unfolding(doc_text::specs::Faults::one_of))]
pub fn limit_due(bytes: &[u8], line: u32, what: u8) -> Result<(u16, &[u8]), Fault>
    ensures exact { Gives (λ x. (x.0, pieces x.1.now)) result
        (one_of line what limit_in (pieces bytes.now)) }
    ensures within { IfOk result (λ x. (0 < x.0) × (x.0 ≤ 1024)) }
{
    let (text, rest) = line_due(bytes, line, what)?;
    let Some(limit) = limit_of(text) else {
        return Err(Fault { line, what });
    };
    Ok((limit, rest))
}
