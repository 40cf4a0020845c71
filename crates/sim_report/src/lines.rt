//! The lines of figures that a report has of passes with given attributes.
ghost use Rattle.std.specs.Prelude.{◌≡◌, ◌≤◌, ◌+◌, ◌++◌, length, IfOk, OnOk};
ghost use Rattle.sim_report.specs.Figures as figures;

use crate::figures::Line;
use crate::tallies::{Key, values_of};
use shfl_line::Attr;
use sim_text::Queueing;
use std::alloc::{AllocError, Global};

// A line for each value that passes have, in rising order.
fn push_passes(
    alloc: Global,
    lines: &mut Vec<Line>,
    key: Key,
    attrs: &[Attr],
) -> Result<(), AllocError>
    ensures lines { OnOk result (lines.new.items
        ≡ lines.old.items ++ figures.passes_lines key attrs.now) }
    ensures few { OnOk result (length lines.new.items
        ≤ length lines.old.items + length attrs.now) }
{
    let values = values_of(alloc, key, attrs)?;
    for value in &values {
        lines.push(Line::Passes(key, *value))?;
    }
    Ok(())
}

// A line for attempts in vain, where the setup says how often its calls try.
fn push_tried(lines: &mut Vec<Line>, queueing: Queueing) -> Result<(), AllocError>
    ensures lines { OnOk result (lines.new.items
        ≡ lines.old.items ++ figures.tried_lines queueing) }
    ensures few { OnOk result (length lines.new.items ≤ length lines.old.items + 1) }
{
    if matches!(queueing, Queueing::AtOnce) {
        return Ok(());
    }
    lines.push(Line::Tried)?;
    Ok(())
}

/// The lines of a setup whose calls join the queue so, and whose passes have these attributes.
pub fn lines_of(alloc: Global, queueing: Queueing, attrs: &[Attr]) -> Result<Vec<Line>, AllocError>
    requires { length attrs.now ≤ 1024 }
    ensures list { IfOk result (λ v. v.items ≡ figures.lines_of queueing attrs.now) }
    ensures few { IfOk result (λ v. length v.items ≤ 3081) }
{
    let mut lines = Vec::from_slice(
        alloc,
        &[
            Line::Gains,
            Line::Work,
            Line::Lock,
            Line::Tail,
            Line::Node,
            Line::Data,
        ],
    )?;
    push_tried(&mut lines, queueing)?;
    lines.push(Line::Waits)?;
    lines.push(Line::Ends)?;
    push_passes(alloc, &mut lines, Key::Socket, attrs)?;
    push_passes(alloc, &mut lines, Key::Prio, attrs)?;
    push_passes(alloc, &mut lines, Key::Class, attrs)?;
    Ok(lines)
}
