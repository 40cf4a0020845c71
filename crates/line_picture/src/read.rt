//! From bytes to a report.
ghost use Rattle.std.specs.Prelude.{◌≡◌, ◌≤◌, ◌<◌, ◌+◌, [], length, map, codes, IfOk, OnSome};
ghost use Rattle.std.specs.Fmt.{decimal};
ghost use Rattle.doc_text.specs.Text.{pieces};
ghost use Rattle.std.specs.Option.{option_map};
ghost use Rattle.doc_text.specs.Words.{same};
ghost use Rattle.doc_text.specs.Faults.{Gives, GivesOrWants};
ghost use Rattle.line_picture.specs.Errors.{fault_of};
ghost use Rattle.line_picture.specs.Reports.{row_said, report_said, count_admitted, count_refused};
ghost use Rattle.line_picture.specs.Rows.{first_word};
ghost use Rattle.line_picture.specs.Grammar.{front_in, row_says, rows_in, totals_text, nothing_due, report_in};

use crate::error::ReportError;
use crate::heading::heading_of;
use crate::report::{Report, Row};
use crate::rows::row_of;
use doc_text::{Fault, fixed_due, is_same, line_due, or_fault, push_decimal, text_at, word_at};
use shfl_line::Form;
use std::alloc::{AllocError, Global};

/// The first line, what it says, and the bytes behind it.
#[tactic(auto, unfolding(crate::specs::Grammar::front_in))]
fn front_of(bytes: &[u8]) -> Result<(&[u8], (Form, u32), &[u8]), Fault>
    ensures { Gives (λ x. (x.0.now, x.1, pieces x.2.now)) result (front_in (pieces bytes.now)) }
{
    let (text, rest) = line_due(bytes, 1, 2)?;
    let said = or_fault(heading_of(text), 1, 2)?;
    Ok((text, said, rest))
}

fn ends(text: &[u8]) -> bool
    ensures { result ≡ same (first_word text.now) (codes "end") }
{
    is_same(word_at(text).0, b"end")
}

/// The event's line behind so many others, or none at the line that ends them.
#[tactic(auto, unfolding(crate::specs::Grammar::row_says))]
fn row_says<'a>(
    form: Form,
    passes: u32,
    before: &[Row<'a>],
    line: u32,
    text: &'a [u8],
) -> Result<Option<Row<'a>>, Fault>
    requires { length before.now < 65537 }
    ensures exact { Gives (option_map row_said) result
        (row_says form passes (map row_said before.now) line text.now) }
    ensures room { IfOk result (λ o. OnSome o (length before.now < 65536)) }
{
    if ends(text) {
        return Ok(None);
    }
    match row_of(form, passes, before.len() as u32 + 1, text) {
        Some(row) => Ok(Some(row)),
        None => Err(Fault { line, what: 3 }),
    }
}

/// The events' lines, and the bytes from the line on that ends them.
#[tactic(auto, unfolding(crate::specs::Grammar::rows_in))]
fn rows_of(
    alloc: Global,
    form: Form,
    passes: u32,
    bytes: &[u8],
) -> Result<(Vec<Row<'_>>, &[u8]), ReportError>
    ensures exact { GivesOrWants fault_of (λ x. (map row_said x.0.items, pieces x.1.now)) result
        (rows_in form passes (pieces bytes.now)) }
    ensures few { IfOk result (λ x. length x.0.items ≤ 65536) }
{
    let mut rows = Vec::new(alloc);
    let mut rest = bytes;
    let mut line = 2;
    while !rest.is_empty() {
        let Some((text, after)) = text_at(rest) else {
            return Err(ReportError::Format { line, what: 1 });
        };
        match row_says(form, passes, rows.as_slice(), line, text)? {
            Some(row) => rows.push(row)?,
            None => return Ok((rows, rest)),
        }
        rest = after;
        line += 1;
    }
    Err(ReportError::Format { line, what: 4 })
}

fn count_admitted(rows: &[Row<'_>]) -> usize
    ensures { result ≡ count_admitted (map row_said rows.now) }
{
    rows.iter().filter(|row| row.event.admitted).count()
}

fn count_refused(rows: &[Row<'_>]) -> usize
    ensures { result ≡ count_refused (map row_said rows.now) }
{
    rows.iter().filter(|row| !row.event.admitted).count()
}

/// The line that is due at the end.
fn totals_of(alloc: Global, rows: &[Row<'_>]) -> Result<Vec<u8>, AllocError>
    ensures { IfOk result (λ text. text.items ≡ totals_text (map row_said rows.now)) }
{
    let mut text = Vec::new(alloc);
    text.extend_from_slice(b"end yes ")?;
    push_decimal(&mut text, count_admitted(rows) as u64)?;
    text.extend_from_slice(b" no ")?;
    push_decimal(&mut text, count_refused(rows) as u64)?;
    Ok(text)
}

#[tactic(auto, unfolding(crate::specs::Grammar::nothing_due))]
fn nothing_due(bytes: &[u8], line: u32) -> Result<(), Fault>
    ensures { Gives (λ _. []) result (nothing_due line (pieces bytes.now)) }
{
    if bytes.is_empty() {
        return Ok(());
    }
    match text_at(bytes) {
        Some(_) => Err(Fault { line, what: 5 }),
        None => Err(Fault { line, what: 1 }),
    }
}

/// Reads a report, or names the first bad line and the lowest fault on it.
#[tactic(auto, unfolding(crate::specs::Grammar::report_in))]
pub fn read_report(alloc: Global, bytes: &[u8]) -> Result<Report<'_>, ReportError>
    ensures exact { GivesOrWants fault_of report_said result (report_in bytes.now) }
{
    let (heading, (form, passes), rest) = front_of(bytes)?;
    let (rows, rest) = rows_of(alloc, form, passes, rest)?;
    let count = rows.len() as u32;
    let totals = totals_of(alloc, rows.as_slice())?;
    let rest = fixed_due(rest, count + 2, 4, totals.as_slice())?;
    nothing_due(rest, count + 3)?;
    Ok(Report {
        heading,
        form,
        passes,
        rows,
    })
}
