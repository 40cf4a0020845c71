//! Charts of bars.
ghost use Rattle.std.specs.Prelude.{◌≡◌, ◌≤◌, ◌+◌, ◌++◌, length, OnOk};
ghost use Rattle.sim_setup.specs.Clock.{later};
ghost use Rattle.sim_chart.specs.Bars as charts;

use crate::shapes::{push_rect, push_text_at, push_text_end};
use markup_text::push_escaped;
use sim_report::push_figure;
use std::alloc::AllocError;
use std::marker::Model;

/// The left end of the bars, and the length of the longest, in pixels.
const LEFT: u64 = 330;

const LONGEST: u64 = 400;

/// A bar: what it is of, and how much.
#[derive(Drop)]
pub struct Bar {
    pub label: Vec<u8>,
    pub amount: u64,
}

impl Model for Bar {
    ghost use Rattle.sim_chart.specs.Bars.{BarModel};

    ghost Value = { BarModel };

    ghost view = { λ b. record { label = b.label.items; amount = b.amount } };
}

#[tactic(auto, unfolding(sim_setup::specs::Clock::later))]
fn larger(most: u64, amount: u64) -> u64
    ensures { result ≡ later most amount }
{
    if most < amount { amount } else { most }
}

fn largest_of(bars: &[Bar]) -> u64
    ensures { result ≡ charts.largest_of bars.now }
{
    let mut most = 0;
    for bar in bars {
        most = larger(most, bar.amount);
    }
    most
}

#[tactic(auto, unfolding(crate::specs::Bars::width_of, sim_setup::specs::Clock::times))]
fn width_of(largest: u64, amount: u64) -> u64
    ensures width { result ≡ charts.width_of largest amount }
    ensures short { result ≤ 400 }
{
    if largest == 0 {
        return 0;
    }
    let width = amount.saturating_mul(LONGEST) / largest;
    if width < LONGEST { width } else { LONGEST }
}

#[tactic(auto, unfolding(crate::specs::Bars::bar_text))]
fn push_bar(
    out: &mut Vec<u8>,
    kind: &[u8],
    largest: u64,
    y: u64,
    bar: &Bar,
) -> Result<(), AllocError>
    requires { y ≤ 500000 }
    ensures { OnOk result (out.new.items
        ≡ out.old.items ++ charts.bar_text kind.now largest y bar.now) }
{
    let width = width_of(largest, bar.amount);
    push_text_at(out, 8, y)?;
    push_escaped(out, bar.label.as_slice())?;
    push_text_end(out)?;
    push_rect(out, kind, LEFT, y.saturating_sub(11), width)?;
    push_text_at(out, LEFT + width + 6, y)?;
    push_figure(out, b"", bar.amount)?;
    push_text_end(out)
}

// A row for each bar, the first of which stands there.
fn push_bars(
    out: &mut Vec<u8>,
    kind: &[u8],
    largest: u64,
    first: u64,
    bars: &[Bar],
) -> Result<(), AllocError>
    requires first { first ≤ 50000 }
    requires few { length bars.now ≤ 20000 }
    ensures { OnOk result (out.new.items
        ≡ out.old.items ++ charts.bars_text kind.now largest first bars.now) }
{
    let mut y = first;
    for bar in bars {
        push_bar(out, kind, largest, y, bar)?;
        y += 20;
    }
    Ok(())
}

/// A title, and a row for each bar.
#[tactic(auto, unfolding(crate::specs::Bars::chart_text))]
pub fn push_chart(
    out: &mut Vec<u8>,
    kind: &[u8],
    title: &[u8],
    y: u64,
    bars: &[Bar],
) -> Result<(), AllocError>
    requires first { y ≤ 40000 }
    requires few { length bars.now ≤ 20000 }
    ensures { OnOk result (out.new.items
        ≡ out.old.items ++ charts.chart_text kind.now title.now y bars.now) }
{
    push_text_at(out, 8, y)?;
    out.extend_from_slice(title)?;
    push_text_end(out)?;
    push_bars(out, kind, largest_of(bars), y + 22, bars)
}
