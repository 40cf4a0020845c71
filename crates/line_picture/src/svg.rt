//! A report as an SVG picture: time downwards, and across it the holders, the detached waiter and the queue.
use crate::changes::{is_same_state, quiet_state};
use crate::marks::has_readers;
use crate::masks::{has_pass, passes_of, with_pass, without_pass};
use crate::pieces::around_colon;
use crate::report::{Event, Report, Row};
use crate::shapes::{push_box, push_frame, push_head, push_label};
use doc_text::{is_same, number};
use itoa::Buffer;
use shfl_line::Form;
use std::alloc::{AllocError, Global};

/// The left ends of the parts of a row, and the width of the whole, in pixels. The count of readers is shown in the forms that
/// have readers.
#[derive(Clone, Copy)]
struct Layout {
    readers: Option<u64>,
    holders: u64,
    detached: u64,
    queue: u64,
    width: u64,
}

/// The left end of what stands behind the lock word's marks.
const MARKS_END: u64 = 236;

/// The width of the count of readers.
const READERS: u64 = 60;

fn behind_boxes(start: u64, boxes: u64) -> u64 {
    start.saturating_add(boxes.saturating_mul(30))
}

fn count_parts(column: &[u8]) -> u64 {
    let commas = column.iter().filter(|b| **b == b',').count();
    (commas as u64).saturating_add(1)
}

fn layout_of(form: Form, rows: &[Row<'_>]) -> Layout {
    let mut most_holders = 2;
    let mut most_waiters = 1;
    for row in rows {
        most_holders = count_parts(row.state.holders).max(most_holders);
        most_waiters = count_parts(row.state.queue).max(most_waiters);
    }
    let (readers, holders) = if has_readers(form) {
        (Some(MARKS_END), MARKS_END + READERS)
    } else {
        (None, MARKS_END)
    };
    let detached = behind_boxes(holders, most_holders).saturating_add(20);
    let queue = behind_boxes(detached, 2).saturating_add(20);
    Layout {
        readers,
        holders,
        detached,
        queue,
        width: behind_boxes(queue, most_waiters.saturating_add(1)),
    }
}

/// The readers among the passes, after an event.
fn readers_after(readers: u64, event: Event<'_>) -> u64 {
    if is_same(event.act, b"read") && event.admitted {
        return with_pass(readers, event.pass);
    }
    if is_same(event.act, b"write") && event.admitted {
        return without_pass(readers, event.pass);
    }
    readers
}

/// The class of a batch's colour; that of a waiter outside batches is grey.
fn colour_of(batch: &[u8]) -> &'static [u8] {
    match number(1024, batch) {
        None | Some(0) => b"b0",
        Some(n) => match n % 6 {
            1 => b"b1",
            2 => b"b2",
            3 => b"b3",
            4 => b"b4",
            5 => b"b5",
            _ => b"b6",
        },
    }
}

/// The holders, from the left.
fn push_holders(out: &mut Vec<u8>, column: &[u8], start: u64, y: u64) -> Result<(), AllocError> {
    let mut x = start;
    for part in column.split(|b| *b == b',') {
        if let Some((how, pass)) = part.split_first() {
            if !pass.is_empty() {
                push_box(out, b"h", x, y, *how == b'r', pass)?;
            }
        }
        x = behind_boxes(x, 1);
    }
    Ok(())
}

/// A waiter's box: the border tells the shuffler, a veil the sleepers.
fn push_waiter(
    out: &mut Vec<u8>,
    row: &Row<'_>,
    readers: u64,
    asleep: u64,
    part: &[u8],
    x: u64,
    y: u64,
) -> Result<(), AllocError> {
    let (pass, batch) = around_colon(part);
    let round = has_pass(readers, pass);
    push_box(out, colour_of(batch), x, y, round, pass)?;
    if has_pass(asleep, pass) {
        push_frame(out, b"z", x, y, round)?;
    }
    let (how, shuffler) = around_colon(row.state.shuffler);
    if is_same(shuffler, pass) {
        push_frame(out, how, x, y, round)?;
    }
    Ok(())
}

/// The queue, its head at the left.
fn push_queue(
    out: &mut Vec<u8>,
    row: &Row<'_>,
    readers: u64,
    asleep: u64,
    start: u64,
    y: u64,
) -> Result<(), AllocError> {
    if is_same(row.state.queue, b"-") {
        return Ok(());
    }
    let mut x = start;
    for part in row.state.queue.split(|b| *b == b',') {
        push_waiter(out, row, readers, asleep, part, x, y)?;
        x = behind_boxes(x, 1);
    }
    Ok(())
}

/// The event, and what the lock word says.
fn push_event(out: &mut Vec<u8>, layout: Layout, row: &Row<'_>, y: u64) -> Result<(), AllocError> {
    push_label(out, b"c", 8, y, row.event.number)?;
    push_label(out, b"e", 56, y, row.event.act)?;
    push_label(out, b"e", 98, y, row.event.pass)?;
    if !row.event.admitted {
        push_label(out, b"c", 118, y, b"no")?;
    }
    if row.state.lock.held {
        push_label(out, b"e", 140, y, b"held")?;
    }
    if row.state.lock.closed {
        push_label(out, b"c", 180, y, b"closed")?;
    }
    if let Some(x) = layout.readers {
        let mut digits = Buffer::new();
        let count = digits.format(row.state.lock.readers);
        push_label(out, b"e", x, y, count.as_bytes())?;
    }
    Ok(())
}

/// The row of an event, with its line as the title.
fn push_row(
    out: &mut Vec<u8>,
    layout: Layout,
    row: &Row<'_>,
    readers: u64,
    y: u64,
) -> Result<(), AllocError> {
    let asleep = passes_of(row.state.asleep);
    out.extend_from_slice(b"<g><title>")?;
    out.extend_from_slice(row.line)?;
    out.extend_from_slice(b"</title>")?;
    push_event(out, layout, row, y)?;
    push_holders(out, row.state.holders, layout.holders, y)?;
    if !is_same(row.state.detached, b"-") {
        push_waiter(
            out,
            row,
            readers,
            asleep,
            row.state.detached,
            layout.detached,
            y,
        )?;
    }
    push_queue(out, row, readers, asleep, layout.queue, y)?;
    out.extend_from_slice(b"</g>\n")
}

/// The names of the columns, below the report's first line.
fn push_names(out: &mut Vec<u8>, report: &Report<'_>, layout: Layout) -> Result<(), AllocError> {
    push_label(out, b"e", 8, 8, report.heading)?;
    push_label(out, b"c", 8, 32, b"event")?;
    push_label(out, b"c", 140, 32, b"lock")?;
    if let Some(x) = layout.readers {
        push_label(out, b"c", x, 32, b"readers")?;
    }
    push_label(out, b"c", layout.holders, 32, b"holders")?;
    push_label(out, b"c", layout.detached, 32, b"detached")?;
    push_label(out, b"c", layout.queue, 32, b"queue")?;
    out.extend_from_slice(b"\n")
}

/// How many rows are shown.
fn count_shown(rows: &[Row<'_>], all: bool) -> u64 {
    let mut count: u64 = 0;
    let mut before = quiet_state();
    for row in rows {
        if all || !is_same_state(before, row.state) {
            count = count.saturating_add(1);
        }
        before = row.state;
    }
    count
}

/// A report as an SVG picture, with all of its rows or those at which something changes. A row is a group whose title is the
/// event's line. A reader's box is round, a batch has a colour, the shuffler a red border, and a sleeper is veiled.
pub fn svg_picture(alloc: Global, report: &Report<'_>, all: bool) -> Result<Vec<u8>, AllocError> {
    let layout = layout_of(report.form, &report.rows);
    let count = count_shown(&report.rows, all);
    let mut out = Vec::new(alloc);
    push_head(
        &mut out,
        layout.width,
        count.saturating_mul(24).saturating_add(66),
    )?;
    push_names(&mut out, report, layout)?;
    let mut readers = 0;
    let mut y: u64 = 58;
    let mut before = quiet_state();
    for row in report.rows.iter() {
        readers = readers_after(readers, row.event);
        if all || !is_same_state(before, row.state) {
            push_row(&mut out, layout, row, readers, y)?;
            y = y.saturating_add(24);
        }
        before = row.state;
    }
    out.extend_from_slice(b"</svg>\n")?;
    Ok(out)
}
