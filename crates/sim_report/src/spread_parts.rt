//! How far figures spread over several runs, line by line.
ghost use Rattle.std.specs.Prelude.{◌≡◌, ◌≤◌, ◌++◌, length, map, OnOk};
ghost use Rattle.sim_report.specs.Spreads as spreads;

use crate::columns::{column, figure_at};
use crate::endings::in_order;
use crate::figures::{Figure, Line, figures_of, name_of};
use crate::report_parts::{push_figure, push_lead};
use crate::tallies::half_of;
use shfl_line::NoMemory;
use std::alloc::{AllocError, Global};

fn last_of(figures: &[u64]) -> u64
    ensures { result ≡ spreads.last_of figures.now }
{
    if figures.is_empty() {
        return 0;
    }
    figures[figures.len() - 1]
}

#[tactic(auto, unfolding(crate::specs::Spreads::spread_text))]
fn push_spread(out: &mut Vec<u8>, figures: &[u64]) -> Result<(), AllocError>
    ensures { OnOk result (out.new.items ≡ out.old.items ++ spreads.spread_text figures.now) }
{
    push_figure(out, b" least ", figure_at(figures, 0))?;
    push_figure(out, b" middle ", half_of(figures))?;
    push_figure(out, b" most ", last_of(figures))?;
    out.extend_from_slice(b"\n")
}

// The line of a figure: the least, the middle and the most over all the runs.
#[tactic(auto, unfolding(crate::specs::Spreads::figure_spread))]
fn push_figure_spread(
    alloc: Global,
    out: &mut Vec<u8>,
    line: Line,
    figure: Figure,
    runs: &[Vec<u64>],
    at: usize,
) -> Result<(), NoMemory>
    ensures { OnOk result (out.new.items ≡ out.old.items
        ++ spreads.figure_spread line figure (map (λ r. r.items) runs.now) at) }
{
    let figures = in_order(column(alloc, runs, at)?)?;
    push_lead(out, line)?;
    out.extend_from_slice(name_of(figure))?;
    push_spread(out, figures.as_slice())?;
    Ok(())
}

fn push_figures(
    alloc: Global,
    out: &mut Vec<u8>,
    line: Line,
    runs: &[Vec<u64>],
    first: usize,
    figures: &[Figure],
) -> Result<(), NoMemory>
    requires first { first ≤ 30000 }
    requires few { length figures.now ≤ 8 }
    ensures { OnOk result (out.new.items ≡ out.old.items
        ++ spreads.figures_spread line (map (λ r. r.items) runs.now) first figures.now) }
{
    let mut at = first;
    for figure in figures {
        push_figure_spread(alloc, out, line, *figure, runs, at)?;
        at += 1;
    }
    Ok(())
}

/// The figures of all lines, one behind the other.
pub fn push_lines(
    alloc: Global,
    out: &mut Vec<u8>,
    runs: &[Vec<u64>],
    lines: &[Line],
) -> Result<(), NoMemory>
    requires { length lines.now ≤ 3081 }
    ensures { OnOk result (out.new.items ≡ out.old.items
        ++ spreads.lines_spread (map (λ r. r.items) runs.now) 0 lines.now) }
{
    let mut at = 0;
    for line in lines {
        let figures = figures_of(*line);
        push_figures(alloc, out, *line, runs, at, figures)?;
        at += figures.len();
    }
    Ok(())
}
