//! The report of a setup: what the run of each policy comes to.
ghost use Rattle.std.specs.Prelude.{◌≡◌, ◌≤◌, ◌++◌, length, map, IfOk, OnOk};
ghost use Rattle.std.specs.List.{flat_map};
ghost use Rattle.sim_report.specs.Figures.{lines_of};
ghost use Rattle.sim_report.specs.Reports as texts;
ghost use Rattle.sim_report.specs.Reports.{single_text};
ghost use Rattle.sim_text.specs.Setups.{IsWithin};

use crate::endings::{Ended, run_of};
use crate::figures::{Line, told_of};
use crate::lines::lines_of;
use crate::report_parts::{push_cut, push_figure, push_line, push_name, push_order};
use lock_words::form_name;
use shfl_line::{Attr, Form, NoMemory};
use sim_text::{Candidate, SimSetup};
use std::alloc::{AllocError, Global};

/// The form, the limit and the number of passes.
#[tactic(auto, unfolding(crate::specs::Reports::sizes_text))]
pub fn push_sizes(
    out: &mut Vec<u8>,
    form: Form,
    limit: u16,
    passes: usize,
) -> Result<(), AllocError>
    ensures { OnOk result (out.new.items ≡ out.old.items ++ texts.sizes_text form limit passes) }
{
    out.extend_from_slice(b" form ")?;
    out.extend_from_slice(form_name(form))?;
    push_figure(out, b" limit ", u64::from(limit))?;
    push_figure(out, b" passes ", passes as u64)
}

#[tactic(auto, unfolding(crate::specs::Reports::ends_text))]
fn push_ends(out: &mut Vec<u8>, until: u64, seed: u64) -> Result<(), AllocError>
    ensures { OnOk result (out.new.items ≡ out.old.items ++ texts.ends_text until seed) }
{
    push_figure(out, b" until ", until)?;
    push_figure(out, b" seed ", seed)?;
    out.extend_from_slice(b"\n")
}

/// The document's title.
pub fn title() -> &'static [u8]
    ensures { result.now ≡ texts.title_text }
{
    b"syncord-sim 1"
}

// The form, the sizes, the end and the seed.
fn push_heading(out: &mut Vec<u8>, setup: &SimSetup) -> Result<(), AllocError>
    ensures { OnOk result (out.new.items ≡ out.old.items ++ texts.heading_text setup.now) }
{
    out.extend_from_slice(title())?;
    push_sizes(
        out,
        setup.machine.form,
        setup.machine.limit,
        setup.passes.len(),
    )?;
    push_ends(out, setup.load.until, setup.load.seeds.first)
}

// Whether a line stands in the table over several seeds alone.
fn is_of_table(line: Line) -> bool
    ensures { result ≡ texts.is_of_table line }
{
    matches!(line, Line::Ends)
}

// What a line tells of a run, where a report of one seed has the line.
fn push_told(out: &mut Vec<u8>, ended: &Ended, attrs: &[Attr], line: Line) -> Result<(), AllocError>
    requires { length attrs.now ≤ 1024 }
    ensures { OnOk result (out.new.items
        ≡ out.old.items ++ texts.told_text ended.now attrs.now line) }
{
    if is_of_table(line) {
        return Ok(());
    }
    push_line(out, &told_of(ended, attrs, line), line)
}

fn push_lines(
    out: &mut Vec<u8>,
    ended: &Ended,
    attrs: &[Attr],
    lines: &[Line],
) -> Result<(), AllocError>
    requires { length attrs.now ≤ 1024 }
    ensures { OnOk result (out.new.items
        ≡ out.old.items ++ flat_map (texts.told_text ended.now attrs.now) lines.now) }
{
    for line in lines {
        push_told(out, ended, attrs, *line)?;
    }
    Ok(())
}

#[tactic(auto, unfolding(crate::specs::Reports::run_text))]
fn push_run(
    alloc: Global,
    out: &mut Vec<u8>,
    setup: &SimSetup,
    lines: &[Line],
    name: &[u8],
    ended: &Ended,
) -> Result<(), AllocError>
    requires few { length setup.now.passes ≤ 1024 }
    requires lines { lines.now ≡ lines_of setup.now.load.queueing setup.now.passes }
    ensures { OnOk result (out.new.items
        ≡ out.old.items ++ texts.run_text setup.now name.now ended.now) }
{
    push_name(out, name)?;
    push_cut(out, ended.cut, setup.load.turns, ended.time)?;
    push_lines(out, ended, setup.passes.as_slice(), lines)?;
    push_order(alloc, out, &ended.bench.order)
}

// What the run of a policy comes to.
fn push_policy(
    alloc: Global,
    out: &mut Vec<u8>,
    setup: &SimSetup,
    lines: &[Line],
    candidate: &Candidate,
) -> Result<(), NoMemory>
    requires within { IsWithin setup.now }
    requires lines { lines.now ≡ lines_of setup.now.load.queueing setup.now.passes }
    ensures { OnOk result (out.new.items
        ≡ out.old.items ++ texts.policy_text setup.now candidate.now) }
{
    let ended = run_of(alloc, setup, setup.load.seeds.first, &candidate.rule)?;
    push_run(alloc, out, setup, lines, candidate.name.as_slice(), &ended)?;
    Ok(())
}

/// The report of a setup, of several seeds with the first; its policies are run one after the other.
#[tactic(auto, unfolding(crate::specs::Reports::single_text))]
pub fn single_of(alloc: Global, setup: &SimSetup) -> Result<Vec<u8>, NoMemory>
    requires { IsWithin setup.now }
    ensures { IfOk result (λ text. text.items ≡ single_text setup.now) }
{
    let mut out = Vec::new(alloc);
    let lines = lines_of(alloc, setup.load.queueing, setup.passes.as_slice())?;
    push_heading(&mut out, setup)?;
    for candidate in &setup.policies {
        push_policy(alloc, &mut out, setup, lines.as_slice(), candidate)?;
    }
    out.extend_from_slice(b"end\n")?;
    Ok(out)
}
