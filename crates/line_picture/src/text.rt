//! A report as text: a line of the columns' names, and a line for each row that is shown.
ghost use Rattle.std.specs.Prelude.{◌≡◌, ◌≤◌, ◌++◌, length, IfOk, OnOk};
ghost use Rattle.std.specs.Fmt.{decimal};
ghost use Rattle.line_picture.specs.Reports.{event_said, state_said, row_said, report_said};
ghost use Rattle.line_picture.specs.TextPictures.{column, event_columns, readers_column, lock_columns, asleep_column};
ghost use Rattle.line_picture.specs.TextPictures.{state_columns, row_text, readers_name, names_text, text_picture};
ghost use Rattle.line_picture.specs.TextPictures.{refusal_mark, held_text, closed_text};

use crate::changes::{is_same_state, quiet_state};
use crate::marks::{has_readers, has_sleepers};
use crate::report::{Event, Report, Row, State};
use itoa::Buffer;
use shfl_line::{Form, LockWord};
use std::alloc::{AllocError, Global};

#[tactic(auto, unfolding(crate::specs::TextPictures::column))]
fn push_column(out: &mut Vec<u8>, width: usize, text: &[u8]) -> Result<(), AllocError>
    requires { width ≤ 18 }
    ensures { OnOk result (out.new.items ≡ out.old.items ++ column width text.now) }
{
    let blanks = b"                  ";
    out.extend_from_slice(text)?;
    out.extend_from_slice(&blanks[..width.saturating_sub(text.len())])
}

fn refusal_mark(admitted: bool) -> &'static [u8]
    ensures { result.now ≡ refusal_mark admitted }
{
    if admitted { b"" } else { b"no" }
}

#[tactic(auto, unfolding(crate::specs::TextPictures::event_columns))]
fn push_event(out: &mut Vec<u8>, event: Event<'_>) -> Result<(), AllocError>
    ensures { OnOk result (out.new.items
        ≡ out.old.items ++ event_columns (event_said event.entry)) }
{
    push_column(out, 6, event.number)?;
    push_column(out, 6, event.act)?;
    push_column(out, 3, event.pass)?;
    push_column(out, 3, refusal_mark(event.admitted))
}

fn held_text(held: bool) -> &'static [u8]
    ensures { result.now ≡ held_text held }
{
    if held { b"held" } else { b"free" }
}

fn closed_text(closed: bool) -> &'static [u8]
    ensures { result.now ≡ closed_text closed }
{
    if closed { b"closed" } else { b"open" }
}

fn push_readers(out: &mut Vec<u8>, form: Form, lock: LockWord) -> Result<(), AllocError>
    ensures { OnOk result (out.new.items ≡ out.old.items ++ readers_column form lock) }
{
    if !has_readers(form) {
        return Ok(());
    }
    let mut digits = Buffer::new();
    push_column(out, 8, digits.format(lock.readers).as_bytes())
}

#[tactic(auto, unfolding(crate::specs::TextPictures::lock_columns))]
fn push_lock(out: &mut Vec<u8>, form: Form, lock: LockWord) -> Result<(), AllocError>
    ensures { OnOk result (out.new.items ≡ out.old.items ++ lock_columns form lock) }
{
    push_column(out, 5, held_text(lock.held))?;
    push_column(out, 7, closed_text(lock.closed))?;
    push_readers(out, form, lock)
}

fn push_asleep(out: &mut Vec<u8>, form: Form, asleep: &[u8]) -> Result<(), AllocError>
    ensures { OnOk result (out.new.items ≡ out.old.items ++ asleep_column form asleep.now) }
{
    if !has_sleepers(form) {
        return Ok(());
    }
    push_column(out, 7, asleep)
}

#[tactic(auto, unfolding(crate::specs::TextPictures::state_columns))]
fn push_state(out: &mut Vec<u8>, form: Form, state: State<'_>) -> Result<(), AllocError>
    ensures { OnOk result (out.new.items
        ≡ out.old.items ++ state_columns form (state_said state.entry)) }
{
    push_column(out, 9, state.shuffler)?;
    push_column(out, 9, state.detached)?;
    push_asleep(out, form, state.asleep)?;
    push_column(out, 8, state.holders)?;
    out.extend_from_slice(state.queue)
}

/// The line of a row.
#[tactic(auto, unfolding(crate::specs::TextPictures::row_text))]
fn push_row(out: &mut Vec<u8>, form: Form, row: Row<'_>) -> Result<(), AllocError>
    ensures { OnOk result (out.new.items ≡ out.old.items ++ row_text form (row_said row.entry)) }
{
    push_event(out, row.event)?;
    push_lock(out, form, row.state.lock)?;
    push_state(out, form, row.state)?;
    out.extend_from_slice(b"\n")
}

fn push_readers_name(out: &mut Vec<u8>, form: Form) -> Result<(), AllocError>
    ensures { OnOk result (out.new.items ≡ out.old.items ++ readers_name form) }
{
    if !has_readers(form) {
        return Ok(());
    }
    push_column(out, 8, b"readers")
}

/// The line of the columns' names.
#[tactic(auto, unfolding(crate::specs::TextPictures::names_text))]
fn push_names(out: &mut Vec<u8>, form: Form) -> Result<(), AllocError>
    ensures { OnOk result (out.new.items ≡ out.old.items ++ names_text form) }
{
    push_column(out, 18, b"event")?;
    push_column(out, 12, b"lock")?;
    push_readers_name(out, form)?;
    push_column(out, 9, b"shuffler")?;
    push_column(out, 9, b"detached")?;
    push_asleep(out, form, b"asleep")?;
    push_column(out, 8, b"holders")?;
    out.extend_from_slice(b"queue\n")
}

/// A report as text, with all of its rows or those at which something changes.
#[tactic(auto, unfolding(crate::specs::TextPictures::text_picture))]
pub fn text_picture(alloc: Global, report: &Report<'_>, all: bool) -> Result<Vec<u8>, AllocError>
    ensures { IfOk result (λ text. text.items ≡ text_picture all (report_said report.now)) }
{
    let mut out = Vec::new(alloc);
    push_names(&mut out, report.form)?;
    let mut before = quiet_state();
    for row in report.rows.iter() {
        if all || !is_same_state(before, row.state) {
            push_row(&mut out, report.form, *row)?;
        }
        before = row.state;
    }
    Ok(out)
}
