//! The picture of a setup.
ghost use Rattle.std.specs.Prelude.{◌≡◌, ◌≤◌, ◌+◌, ◌*◌, ◌++◌, ◌∷◌, [], length, map, IfOk, OnOk};
ghost use Rattle.std.specs.List.{flat_map};
ghost use Rattle.sim_chart.specs.Pictures as pictures;
ghost use Rattle.sim_text.specs.Setups.{IsWithin};

use crate::bars::{Bar, push_chart};
use crate::shapes::{push_text_at, push_text_end};
use shfl_line::NoMemory;
use sim_report::{Ended, Figure, Key, Line, push_figure, run_of, told_of, value_of, values_of};
use sim_text::SimSetup;
use std::alloc::{AllocError, Global};

// The bar of a policy's gains, behind those before.
fn push_gains(
    alloc: Global,
    gains: &mut Vec<Bar>,
    setup: &SimSetup,
    name: &[u8],
    ended: &Ended,
) -> Result<(), AllocError>
    requires { IsWithin setup.now }
    ensures bars { OnOk result (gains.new.items
        ≡ gains.old.items ++ pictures.gains_bar setup.now name.now ended.now ∷ []) }
    ensures few { OnOk result (length gains.new.items ≡ length gains.old.items + 1) }
{
    let label = Vec::from_slice(alloc, name)?;
    let all = told_of(ended, setup.passes.as_slice(), Line::Gains);
    let amount = value_of(&all, Figure::Gained);
    gains.push(Bar { label, amount })?;
    Ok(())
}

// The bar of the longest wait on a socket.
fn wait_bar(
    alloc: Global,
    setup: &SimSetup,
    name: &[u8],
    ended: &Ended,
    socket: u32,
) -> Result<Bar, AllocError>
    requires { IsWithin setup.now }
    ensures { IfOk result (λ b. b ≡ pictures.wait_bar setup.now name.now ended.now socket) }
{
    let own = told_of(
        ended,
        setup.passes.as_slice(),
        Line::Passes(Key::Socket, socket),
    );
    let mut label = Vec::from_slice(alloc, name)?;
    push_figure(&mut label, b" socket ", u64::from(socket))?;
    let amount = value_of(&own, Figure::Longest);
    Ok(Bar { label, amount })
}

// The bars of the longest waits on each socket, behind those before.
fn push_waits(
    alloc: Global,
    waits: &mut Vec<Bar>,
    setup: &SimSetup,
    name: &[u8],
    ended: &Ended,
) -> Result<(), AllocError>
    requires { IsWithin setup.now }
    ensures bars { OnOk result (waits.new.items
        ≡ waits.old.items ++ pictures.waits_bars setup.now name.now ended.now) }
    ensures few { OnOk result (length waits.new.items ≤ length waits.old.items + 1024) }
{
    let sockets = values_of(alloc, Key::Socket, setup.passes.as_slice())?;
    for socket in &sockets {
        waits.push(wait_bar(alloc, setup, name, ended, *socket)?)?;
    }
    Ok(())
}

/// The bars of all policies: their gains, and the longest waits on each socket.
#[derive(Drop)]
struct Charts {
    gains: Vec<Bar>,
    waits: Vec<Bar>,
}

fn bars_of(alloc: Global, setup: &SimSetup) -> Result<Charts, NoMemory>
    requires { IsWithin setup.now }
    ensures gains { IfOk result
        (λ c. c.gains.items ≡ map (pictures.gains_of setup.now) setup.now.policies) }
    ensures waits { IfOk result
        (λ c. c.waits.items ≡ flat_map (pictures.waits_of setup.now) setup.now.policies) }
    ensures few { IfOk result (λ c. length c.gains.items ≤ 16) }
    ensures short { IfOk result (λ c. length c.waits.items ≤ 16384) }
{
    let mut gains = Vec::new(alloc);
    let mut waits = Vec::new(alloc);
    for candidate in &setup.policies {
        let ended = run_of(alloc, setup, setup.load.seeds.first, &candidate.rule)?;
        let name = candidate.name.as_slice();
        push_gains(alloc, &mut gains, setup, name, &ended)?;
        push_waits(alloc, &mut waits, setup, name, &ended)?;
    }
    Ok(Charts { gains, waits })
}

#[tactic(auto, unfolding(crate::specs::Pictures::svg_text))]
fn push_svg(out: &mut Vec<u8>, height: u64) -> Result<(), AllocError>
    ensures { OnOk result (out.new.items ≡ out.old.items ++ pictures.svg_text height) }
{
    push_figure(
        out,
        b"<svg xmlns=\"http://www.w3.org/2000/svg\" width=\"920\" height=\"",
        height,
    )?;
    out.extend_from_slice(b"\" font-family=\"sans-serif\" font-size=\"13\" fill=\"#222\">\n")
}

#[tactic(auto, unfolding(crate::specs::Pictures::style_text))]
fn push_style(out: &mut Vec<u8>) -> Result<(), AllocError>
    ensures { OnOk result (out.new.items ≡ out.old.items ++ pictures.style_text) }
{
    out.extend_from_slice(
        b"<style>.paper{fill:#fff}.gains{fill:#4878a8}.waits{fill:#c07030}</style>\n",
    )
}

#[tactic(auto, unfolding(crate::specs::Pictures::paper_text))]
fn push_paper(out: &mut Vec<u8>, height: u64) -> Result<(), AllocError>
    ensures { OnOk result (out.new.items ≡ out.old.items ++ pictures.paper_text height) }
{
    push_figure(
        out,
        b"<rect class=\"paper\" width=\"920\" height=\"",
        height,
    )?;
    out.extend_from_slice(b"\"/>\n")
}

#[tactic(auto, unfolding(crate::specs::Pictures::title_text))]
fn push_title(out: &mut Vec<u8>) -> Result<(), AllocError>
    ensures { OnOk result (out.new.items ≡ out.old.items ++ pictures.title_text) }
{
    push_text_at(out, 8, 20)?;
    out.extend_from_slice(b"syncord-sim: a model, no claim on any machine")?;
    push_text_end(out)
}

#[tactic(auto, unfolding(crate::specs::Pictures::head_text))]
fn push_head(out: &mut Vec<u8>, height: u64) -> Result<(), AllocError>
    ensures { OnOk result (out.new.items ≡ out.old.items ++ pictures.head_text height) }
{
    push_svg(out, height)?;
    push_style(out)?;
    push_paper(out, height)?;
    push_title(out)
}

// Where the second chart stands.
#[tactic(auto, unfolding(crate::specs::Pictures::second_of))]
fn second_of(gains: &[Bar]) -> u64
    requires { length gains.now ≤ 16 }
    ensures place { result ≡ pictures.second_of gains.now }
    ensures above { result ≤ 40000 }
{
    20 * gains.len() as u64 + 90
}

#[tactic(auto, unfolding(crate::specs::Pictures::height_of))]
fn height_of(gains: &[Bar], waits: &[Bar]) -> u64
    requires few { length gains.now ≤ 16 }
    requires short { length waits.now ≤ 16384 }
    ensures { result ≡ pictures.height_of gains.now waits.now }
{
    20 * gains.len() as u64 + 20 * waits.len() as u64 + 130
}

#[tactic(auto, unfolding(crate::specs::Pictures::gains_text))]
fn push_gains_chart(out: &mut Vec<u8>, gains: &[Bar]) -> Result<(), AllocError>
    requires { length gains.now ≤ 16 }
    ensures { OnOk result (out.new.items ≡ out.old.items ++ pictures.gains_text gains.now) }
{
    push_chart(out, b"gains", b"gains of the lock", 50, gains)
}

#[tactic(auto, unfolding(crate::specs::Pictures::waits_text))]
fn push_waits_chart(out: &mut Vec<u8>, y: u64, waits: &[Bar]) -> Result<(), AllocError>
    requires first { y ≤ 40000 }
    requires short { length waits.now ≤ 16384 }
    ensures { OnOk result (out.new.items ≡ out.old.items ++ pictures.waits_text y waits.now) }
{
    push_chart(out, b"waits", b"longest wait by socket, in ticks", y, waits)
}

// The gains, and below them the waits.
#[tactic(auto, unfolding(crate::specs::Pictures::charts_text))]
fn drawn(alloc: Global, gains: &[Bar], waits: &[Bar]) -> Result<Vec<u8>, AllocError>
    requires few { length gains.now ≤ 16 }
    requires short { length waits.now ≤ 16384 }
    ensures { IfOk result (λ text. text.items ≡ pictures.charts_text gains.now waits.now) }
{
    let height = height_of(gains, waits);
    let second = second_of(gains);
    let mut out = Vec::new(alloc);
    push_head(&mut out, height)?;
    push_gains_chart(&mut out, gains)?;
    push_waits_chart(&mut out, second, waits)?;
    out.extend_from_slice(b"</svg>\n")?;
    Ok(out)
}

/// The picture of a setup: the gains of each policy, and the longest wait by socket, of several seeds with the first.
pub fn picture_of(alloc: Global, setup: &SimSetup) -> Result<Vec<u8>, NoMemory>
    requires { IsWithin setup.now }
    ensures { IfOk result (λ text. text.items ≡ pictures.picture_text setup.now) }
{
    let charts = bars_of(alloc, setup)?;
    let text = drawn(alloc, charts.gains.as_slice(), charts.waits.as_slice())?;
    Ok(text)
}
