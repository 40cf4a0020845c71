//! The report of a setup over several seeds.
ghost use Rattle.std.specs.Prelude.{◌≡◌, ◌≤◌, ◌<◌, ◌++◌, length, map, IfOk, OnOk};
ghost use Rattle.sim_report.specs.Figures as figures;
ghost use Rattle.sim_report.specs.Spreads as spreads;
ghost use Rattle.sim_text.specs.Setups.{IsWithin};

use crate::columns::{all_figures, column};
use crate::figures::Line;
use crate::lines::lines_of;
use crate::report::{push_sizes, title};
use crate::report_parts::{push_figure, push_name};
use crate::spread_parts::push_lines;
use shfl_line::NoMemory;
use sim_text::{Candidate, SimSetup};
use std::alloc::{AllocError, Global};

// The runs of a policy.
#[tactic(auto, unfolding(crate::specs::Spreads::runs_text))]
fn push_runs(
    alloc: Global,
    out: &mut Vec<u8>,
    name: &[u8],
    lines: &[Line],
    runs: &[Vec<u64>],
) -> Result<(), NoMemory>
    requires { length lines.now ≤ 3081 }
    ensures { OnOk result (out.new.items ≡ out.old.items
        ++ spreads.runs_text name.now lines.now (map (λ r. r.items) runs.now)) }
{
    push_name(out, name)?;
    push_lines(alloc, out, runs, lines)
}

// In how many runs the one gains more than the other.
fn wins(own: &[u64], other: &[u64]) -> u64
    ensures { result ≡ spreads.wins own.now other.now }
{
    own.iter()
        .zip(other.iter())
        .filter(|pair| pair.1 < pair.0)
        .count() as u64
}

#[tactic(auto, unfolding(crate::specs::Spreads::verdict_text))]
fn push_verdict(
    alloc: Global,
    out: &mut Vec<u8>,
    base: &[Vec<u64>],
    own: &[Vec<u64>],
) -> Result<(), AllocError>
    ensures { OnOk result (out.new.items ≡ out.old.items ++ spreads.verdict_text
        (map (λ r. r.items) base.now) (map (λ r. r.items) own.now)) }
{
    let before = column(alloc, base, 0)?;
    let gains = column(alloc, own, 0)?;
    push_figure(out, b"better ", wins(gains.as_slice(), before.as_slice()))?;
    push_figure(out, b" worse ", wins(before.as_slice(), gains.as_slice()))?;
    push_figure(out, b" of ", own.len() as u64)?;
    out.extend_from_slice(b"\n")
}

#[tactic(auto, unfolding(crate::specs::Spreads::seeds_text))]
fn push_seeds(out: &mut Vec<u8>, until: u64, first: u64, count: u32) -> Result<(), AllocError>
    ensures { OnOk result (out.new.items ≡ out.old.items ++ spreads.seeds_text until first count) }
{
    push_figure(out, b" until ", until)?;
    push_figure(out, b" seeds ", first)?;
    push_figure(out, b" ", u64::from(count))?;
    out.extend_from_slice(b"\n")
}

#[tactic(auto, unfolding(crate::specs::Spreads::spread_heading))]
fn push_heading(out: &mut Vec<u8>, setup: &SimSetup) -> Result<(), AllocError>
    ensures { OnOk result (out.new.items ≡ out.old.items ++ spreads.spread_heading setup.now) }
{
    out.extend_from_slice(title())?;
    push_sizes(
        out,
        setup.machine.form,
        setup.machine.limit,
        setup.passes.len(),
    )?;
    let seeds = setup.load.seeds;
    push_seeds(out, setup.load.until, seeds.first, seeds.count)
}

// The runs of a policy beside those of the first.
#[tactic(auto, unfolding(crate::specs::Spreads::beside_text))]
fn push_beside(
    alloc: Global,
    out: &mut Vec<u8>,
    setup: &SimSetup,
    lines: &[Line],
    base: &[Vec<u64>],
    candidate: &Candidate,
) -> Result<(), NoMemory>
    requires within { IsWithin setup.now }
    requires lines { lines.now ≡ figures.lines_of setup.now.load.queueing setup.now.passes }
    requires few { length lines.now ≤ 3081 }
    ensures { OnOk result (out.new.items ≡ out.old.items
        ++ spreads.beside_text setup.now (map (λ r. r.items) base.now) candidate.now) }
{
    let runs = all_figures(alloc, setup, &candidate.rule, lines)?;
    push_runs(
        alloc,
        out,
        candidate.name.as_slice(),
        lines,
        runs.as_slice(),
    )?;
    push_verdict(alloc, out, base, runs.as_slice())?;
    Ok(())
}

// All policies, each but the first with its verdict.
fn push_policies(alloc: Global, out: &mut Vec<u8>, setup: &SimSetup) -> Result<(), NoMemory>
    requires { IsWithin setup.now }
    ensures { OnOk result (out.new.items
        ≡ out.old.items ++ spreads.policies_text setup.now setup.now.policies) }
{
    let Some((first, others)) = setup.policies.as_slice().split_first() else {
        return Ok(());
    };
    let lines = lines_of(alloc, setup.load.queueing, setup.passes.as_slice())?;
    let base = all_figures(alloc, setup, &first.rule, lines.as_slice())?;
    push_runs(
        alloc,
        out,
        first.name.as_slice(),
        lines.as_slice(),
        base.as_slice(),
    )?;
    for candidate in others {
        push_beside(
            alloc,
            out,
            setup,
            lines.as_slice(),
            base.as_slice(),
            candidate,
        )?;
    }
    Ok(())
}

/// The report of a setup over several seeds: how far each figure spreads, and how each policy fares beside the first.
#[tactic(auto, unfolding(crate::specs::Spreads::spreads_text))]
pub fn spreads_of(alloc: Global, setup: &SimSetup) -> Result<Vec<u8>, NoMemory>
    requires { IsWithin setup.now }
    ensures { IfOk result (λ text. text.items ≡ spreads.spreads_text setup.now) }
{
    let mut out = Vec::new(alloc);
    push_heading(&mut out, setup)?;
    push_policies(alloc, &mut out, setup)?;
    out.extend_from_slice(b"end\n")?;
    Ok(out)
}
