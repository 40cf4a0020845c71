//! The figures of a policy's runs, one with each seed, in the order of the list.
ghost use Rattle.std.specs.Prelude.{◌≡◌, ◌≤◌, ◌++◌, ◌∷◌, [], length, map, slice_index_or, IfOk, OnOk};
ghost use Rattle.std.specs.List.{flat_map};
ghost use Rattle.sim_report.specs.Figures as list;
ghost use Rattle.sim_report.specs.Spreads as spreads;
ghost use Rattle.sim_text.specs.Setups.{IsWithin};

use crate::endings::{Ended, run_of};
use crate::figures::{Figure, Line, Told, figures_of, told_of, value_of};
use shfl_line::{Attr, NoMemory};
use sim_text::{Rule, SimSetup};
use std::alloc::{AllocError, Global};

fn push_values(out: &mut Vec<u64>, told: &Told, figures: &[Figure]) -> Result<(), AllocError>
    ensures { OnOk result (out.new.items
        ≡ out.old.items ++ map (list.value_of told.now) figures.now) }
{
    for figure in figures {
        out.push(value_of(told, *figure))?;
    }
    Ok(())
}

#[tactic(auto, unfolding(crate::specs::Figures::line_figures))]
fn push_line_figures(
    out: &mut Vec<u64>,
    ended: &Ended,
    attrs: &[Attr],
    line: Line,
) -> Result<(), AllocError>
    requires { length attrs.now ≤ 1024 }
    ensures { OnOk result (out.new.items
        ≡ out.old.items ++ list.line_figures ended.now attrs.now line) }
{
    push_values(out, &told_of(ended, attrs, line), figures_of(line))
}

fn push_figures(
    out: &mut Vec<u64>,
    ended: &Ended,
    attrs: &[Attr],
    lines: &[Line],
) -> Result<(), AllocError>
    requires { length attrs.now ≤ 1024 }
    ensures { OnOk result (out.new.items
        ≡ out.old.items ++ flat_map (list.line_figures ended.now attrs.now) lines.now) }
{
    for line in lines {
        push_line_figures(out, ended, attrs, *line)?;
    }
    Ok(())
}

// The figures of a policy's run with one seed.
#[tactic(auto, unfolding(crate::specs::Figures::run_figures))]
fn run_figures(
    alloc: Global,
    setup: &SimSetup,
    rule: &Rule,
    seed: u64,
    lines: &[Line],
) -> Result<Vec<u64>, NoMemory>
    requires within { IsWithin setup.now }
    requires lines { lines.now ≡ list.lines_of setup.now.load.queueing setup.now.passes }
    ensures { IfOk result (λ v. v.items ≡ list.run_figures setup.now rule.now seed) }
{
    let ended = run_of(alloc, setup, seed, rule)?;
    let mut out = Vec::new(alloc);
    push_figures(&mut out, &ended, setup.passes.as_slice(), lines)?;
    Ok(out)
}

// One run more.
fn keep(runs: &mut Vec<Vec<u64>>, run: Vec<u64>) -> Result<(), AllocError>
    ensures { OnOk result (map (λ r. r.items) runs.new.items
        ≡ map (λ r. r.items) runs.old.items ++ run.items ∷ []) }
{
    runs.push(run)?;
    Ok(())
}

/// The figures of a policy's runs, one with each seed.
pub fn all_figures(
    alloc: Global,
    setup: &SimSetup,
    rule: &Rule,
    lines: &[Line],
) -> Result<Vec<Vec<u64>>, NoMemory>
    requires within { IsWithin setup.now }
    requires lines { lines.now ≡ list.lines_of setup.now.load.queueing setup.now.passes }
    ensures { IfOk result (λ v. map (λ r. r.items) v.items
        ≡ list.all_figures setup.now rule.now) }
{
    let seeds = setup.load.seeds;
    let mut runs = Vec::new(alloc);
    for run in 0..seeds.count {
        let figures = run_figures(alloc, setup, rule, seeds.first + u64::from(run), lines)?;
        keep(&mut runs, figures)?;
    }
    Ok(runs)
}

/// A figure of a run.
pub fn figure_at(figures: &[u64], i: usize) -> u64
    ensures { result ≡ slice_index_or figures.now i 0 }
{
    if i < figures.len() { figures[i] } else { 0 }
}

/// A figure of all the runs.
pub fn column(alloc: Global, runs: &[Vec<u64>], i: usize) -> Result<Vec<u64>, AllocError>
    ensures { IfOk result (λ v. v.items ≡ spreads.column (map (λ r. r.items) runs.now) i) }
{
    let mut figures = Vec::new(alloc);
    for run in runs {
        figures.push(figure_at(run.as_slice(), i))?;
    }
    Ok(figures)
}
