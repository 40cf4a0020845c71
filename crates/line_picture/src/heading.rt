//! The first line of a report.
ghost use Rattle.std.specs.Prelude.{◌≡◌, ◌≤◌, ◌<◌, Some, None, IfSome, MatchOption};
ghost use Rattle.doc_text.specs.Words.{words};
ghost use Rattle.line_picture.specs.Heading.{count_in, sizes_in, profile_in, heading_in};

use crate::columns::{labelled, last};
use doc_text::{is_same, number};
use lock_words::form_named;
use shfl_line::Form;

fn count_of(most: u64, word: &[u8]) -> Option<u64>
    ensures exact { result ≡ count_in most word.now }
    ensures within { IfSome result (λ n. n ≤ most) }
{
    let count = number(most, word)?;
    if count == 0 {
        return None;
    }
    Some(count)
}

fn sizes_of(text: &[u8]) -> Option<(Form, u32)>
    ensures { result ≡ sizes_in (words text.now) }
{
    let (form, text) = labelled(b"form", text)?;
    let (limit, text) = labelled(b"limit", text)?;
    let passes = last(b"passes", text)?;
    let form = form_named(form)?;
    let _limit = count_of(1024, limit)?;
    let passes = count_of(64, passes)?;
    Some((form, passes as u32))
}

fn behind_profile(text: &[u8]) -> Option<&[u8]>
    ensures { MatchOption result
        (profile_in (words text.now) ≡ None)
        (λ w. profile_in (words text.now) ≡ Some (words w.now)) }
{
    let (profile, text) = labelled(b"profile", text)?;
    if is_same(profile, b"1") || is_same(profile, b"2") {
        Some(text)
    } else {
        None
    }
}

/// The form of the lock, and the number of its passes.
pub fn heading_of(text: &[u8]) -> Option<(Form, u32)>
    ensures { result ≡ heading_in (words text.now) }
{
    let (version, text) = labelled(b"shfl-line", text)?;
    if is_same(version, b"1") {
        sizes_of(text)
    } else if is_same(version, b"2") {
        sizes_of(behind_profile(text)?)
    } else {
        None
    }
}
