//! Lines of attributes, one behind the other.
ghost use Rattle.std.specs.Prelude.{◌≡◌, ◌<◌, ◌≤◌, [], length, IfOk, OnSome, IfNone};
ghost use Rattle.doc_text.specs.Text.{pieces};
ghost use Rattle.doc_text.specs.Words.{words};
ghost use Rattle.doc_text.specs.Faults.{GivesOrWants};
ghost use Rattle.policy_text.specs.Errors.{fault_of};
ghost use Rattle.policy_text.specs.Sections.{begins, ends, attr_says, short_of, attrs_in};

use crate::attributes::attr_of;
use crate::document_error::DocumentError;
use doc_text::{Fault, is_same, text_at, word_at};
use shfl_line::Attr;
use std::alloc::Global;
use std::marker::Model;

/// Lines `WORD SOCKET PRIO CLASS KIND`, how many there may be, and their faults.
#[derive(Drop)]
pub struct Section<'a> {
    /// What each line begins with.
    pub word: &'a [u8],
    /// The line that ends them. Where there is none, any line does that begins with another word.
    pub last: Option<&'a [u8]>,
    pub most: usize,
    /// The fault of a bad line.
    pub bad: u8,
    /// The fault of one too many.
    pub over: u8,
    /// The fault of a document that ends behind some.
    pub short: u8,
}

impl<'a> Model for Section<'a> {
    ghost use Rattle.std.specs.Prelude.{option_map};
    ghost use Rattle.policy_text.specs.Sections.{SectionModel};

    ghost Value = { SectionModel };

    ghost view = { λ s. record {
      word = s.word.now;
      last = option_map (λ t. t.now) s.last;
      most = s.most;
      bad = s.bad;
      over = s.over;
      short = s.short;
    } };
}

/// Whether this is the first word of a line.
pub fn begins(word: &[u8], text: &[u8]) -> bool
    ensures { result ≡ begins word.now (words text.now) }
{
    let (first, _) = word_at(text);
    is_same(first, word)
}

fn ends(section: &Section<'_>, text: &[u8]) -> bool
    ensures { result ≡ ends section.now.word section.now.last text.now }
{
    match section.last {
        Some(last) => is_same(text, last),
        None => !begins(section.word, text),
    }
}

#[tactic(auto, unfolding(crate::specs::Sections::attr_says))]
fn attr_says(
    section: &Section<'_>,
    before: &[Attr],
    line: u32,
    text: &[u8],
) -> Result<Option<Attr>, Fault>
    ensures exact { result ≡ attr_says section.now before.now line text.now }
    ensures room { IfOk result (λ o. OnSome o (length before.now < section.now.most)) }
    ensures some { IfOk result (λ o. IfNone o (0 < length before.now)) }
{
    let bad = Fault {
        line,
        what: section.bad,
    };
    if ends(section, text) {
        return if before.is_empty() {
            Err(bad)
        } else {
            Ok(None)
        };
    }
    let Some(attr) = attr_of(section.word, text) else {
        return Err(bad);
    };
    if before.len() >= section.most {
        return Err(Fault {
            line,
            what: section.over,
        });
    }
    Ok(Some(attr))
}

fn short_of(section: &Section<'_>, before: &[Attr]) -> u8
    ensures { result ≡ short_of section.now before.now }
{
    if before.is_empty() {
        section.bad
    } else {
        section.short
    }
}

/// The attributes of a section, and the bytes from the line on that ends it.
#[tactic(auto, unfolding(crate::specs::Sections::attrs_in))]
pub fn attrs_of<'a>(
    alloc: Global,
    section: &Section<'_>,
    bytes: &'a [u8],
    first: u32,
) -> Result<(Vec<Attr>, &'a [u8]), DocumentError>
    requires soon { first < 100 }
    requires few { section.now.most ≤ 1024 }
    ensures exact { GivesOrWants fault_of (λ x. (x.0.items, pieces x.1.now)) result
        (attrs_in section.now first (pieces bytes.now)) }
    ensures few { IfOk result (λ x. length x.0.items ≤ section.now.most) }
    ensures some { IfOk result (λ x. 0 < length x.0.items) }
{
    let mut attrs = Vec::new(alloc);
    let mut rest = bytes;
    let mut line = first;
    while !rest.is_empty() {
        let Some((text, after)) = text_at(rest) else {
            return Err(DocumentError::Format { line, what: 1 });
        };
        match attr_says(section, attrs.as_slice(), line, text)? {
            Some(attr) => attrs.push(attr)?,
            None => return Ok((attrs, rest)),
        }
        rest = after;
        line += 1;
    }
    Err(DocumentError::Format {
        line,
        what: short_of(section, attrs.as_slice()),
    })
}
