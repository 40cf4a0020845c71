//! The lines of a report, written behind what stands there.
ghost use Rattle.std.specs.Prelude.{◌≡◌, ◌++◌, map, min, OnOk, decimal};
ghost use Rattle.sim_report.specs.Reports as texts;
ghost use Rattle.sim_report.specs.Reports.{listed};

use crate::figures::{Figure, Line, Told, figures_of, name_of, value_of};
use crate::tallies::Key;
use doc_text::{push_decimal, push_hex};
use sim_model::Order;
use std::alloc::{AllocError, Global};

/// A text and a number.
pub fn push_figure(out: &mut Vec<u8>, label: &[u8], n: u64) -> Result<(), AllocError>
    ensures { OnOk result (out.new.items ≡ out.old.items ++ (label.now ++ decimal n)) }
{
    out.extend_from_slice(label)?;
    push_decimal(out, n)
}

#[tactic(auto, unfolding(crate::specs::Reports::name_text))]
pub fn push_name(out: &mut Vec<u8>, name: &[u8]) -> Result<(), AllocError>
    ensures { OnOk result (out.new.items ≡ out.old.items ++ texts.name_text name.now) }
{
    out.extend_from_slice(b"policy ")?;
    out.extend_from_slice(name)?;
    out.extend_from_slice(b"\n")
}

fn key_name(key: Key) -> &'static [u8]
    ensures { result.now ≡ texts.key_text key }
{
    match key {
        Key::All => b"all",
        Key::Socket => b"socket",
        Key::Prio => b"prio",
        Key::Class => b"class",
    }
}

#[tactic(auto, unfolding(crate::specs::Reports::value_text))]
fn push_value(out: &mut Vec<u8>, key: Key, value: u32) -> Result<(), AllocError>
    ensures { OnOk result (out.new.items ≡ out.old.items ++ texts.value_text key value) }
{
    out.extend_from_slice(key_name(key))?;
    push_figure(out, b" ", u64::from(value))?;
    out.extend_from_slice(b" ")
}

/// What a line begins with: of which word, or of which passes it tells.
pub fn push_lead(out: &mut Vec<u8>, line: Line) -> Result<(), AllocError>
    ensures { OnOk result (out.new.items ≡ out.old.items ++ texts.lead_text line) }
{
    match line {
        Line::Lock => out.extend_from_slice(b"lock "),
        Line::Tail => out.extend_from_slice(b"tail "),
        Line::Node => out.extend_from_slice(b"node "),
        Line::Data => out.extend_from_slice(b"data "),
        Line::Tried => out.extend_from_slice(b"tried "),
        Line::Passes(key, value) => push_value(out, key, value),
        _ => Ok(()),
    }
}

#[tactic(auto, unfolding(crate::specs::Reports::figure_text))]
fn push_told(out: &mut Vec<u8>, told: &Told, figure: Figure) -> Result<(), AllocError>
    ensures { OnOk result (out.new.items ≡ out.old.items ++ texts.figure_text told.now figure) }
{
    out.extend_from_slice(name_of(figure))?;
    push_figure(out, b" ", value_of(told, figure))
}

fn push_figures(out: &mut Vec<u8>, told: &Told, figures: &[Figure]) -> Result<(), AllocError>
    ensures { OnOk result (out.new.items
        ≡ out.old.items ++ texts.figures_text told.now figures.now) }
{
    let Some((first, others)) = figures.split_first() else {
        return Ok(());
    };
    push_told(out, told, *first)?;
    for figure in others {
        out.extend_from_slice(b" ")?;
        push_told(out, told, *figure)?;
    }
    Ok(())
}

/// A line of figures.
#[tactic(auto, unfolding(crate::specs::Reports::line_text))]
pub fn push_line(out: &mut Vec<u8>, told: &Told, line: Line) -> Result<(), AllocError>
    ensures { OnOk result (out.new.items ≡ out.old.items ++ texts.line_text told.now line) }
{
    push_lead(out, line)?;
    push_figures(out, told, figures_of(line))?;
    out.extend_from_slice(b"\n")
}

fn push_listed(out: &mut Vec<u8>, passes: &[u32]) -> Result<(), AllocError>
    ensures { OnOk result (out.new.items ≡ out.old.items ++ listed (map decimal passes.now)) }
{
    let Some((first, others)) = passes.split_first() else {
        return out.extend_from_slice(b"-");
    };
    push_decimal(out, u64::from(*first))?;
    for pass in others {
        out.extend_from_slice(b",")?;
        push_decimal(out, u64::from(*pass))?;
    }
    Ok(())
}

fn shown(gained: u64) -> usize
    ensures { result ≡ min 16 gained }
{
    if gained < 16 { gained as usize } else { 16 }
}

/// The hash of the order, and the passes of the first sixteen gains.
#[tactic(auto, unfolding(crate::specs::Reports::order_text))]
pub fn push_order(alloc: Global, out: &mut Vec<u8>, order: &Order) -> Result<(), AllocError>
    ensures { OnOk result (out.new.items ≡ out.old.items ++ texts.order_text order.now) }
{
    out.extend_from_slice(b"order ")?;
    push_hex(alloc, out, &order.hash.to_be_bytes())?;
    out.extend_from_slice(b" ")?;
    push_listed(out, &order.first[..shown(order.gained)])?;
    out.extend_from_slice(b"\n")
}

/// That a run had turns left, and up to when it had come.
#[tactic(auto, unfolding(crate::specs::Reports::cut_text))]
pub fn push_cut(out: &mut Vec<u8>, cut: bool, turns: u32, time: u64) -> Result<(), AllocError>
    ensures { OnOk result (out.new.items ≡ out.old.items ++ texts.cut_text cut turns time) }
{
    if !cut {
        return Ok(());
    }
    push_figure(out, b"cut after ", u64::from(turns))?;
    push_figure(out, b" turns at ", time)?;
    out.extend_from_slice(b"\n")
}
