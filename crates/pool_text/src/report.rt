//! The report of a pool.
ghost use Rattle.std.specs.Prelude.{◌≡◌, ◌++◌, map, length, OnOk, IfOk};
ghost use Rattle.std.specs.List.{flat_map};
ghost use Rattle.doc_text.specs.Text.{ended};
ghost use Rattle.pool_text.specs.PoolReports.{entry_line, heading, pool_report, pool_of};

use dir_table::Dir;
use doc_text::{push_decimal, push_line};
use hist_log::{Entry, Numbered};
use policy_text::{push_number, push_word};
use std::alloc::Global;
use trace_text::{NoMemory, Trace, push_call, push_counted, push_reply, push_rows};

#[tactic(auto, using(policy_text::proofs::Written::line_rules))]
fn push_heading(out: &mut Vec<u8>, workers: usize, entries: usize) -> Result<(), NoMemory>
    ensures { OnOk result (out.new.items ≡ out.old.items ++ ended (heading workers entries)) }
{
    out.extend_from_slice(b"syncord-pool 1 workers")?;
    push_number(out, workers as u64)?;
    push_word(out, b"entries")?;
    push_number(out, entries as u64)?;
    out.push(b'\n')?;
    Ok(())
}

#[tactic(auto, using(policy_text::proofs::Written::line_rules))]
fn push_entry(
    out: &mut Vec<u8>,
    names: &[Vec<u8>],
    entry: &Entry<Numbered<Dir>>,
) -> Result<(), NoMemory>
    ensures { OnOk result (out.new.items
        ≡ out.old.items ++ ended (entry_line (map (λ n. n.items) names.now) entry.now)) }
{
    push_decimal(out, u64::from(entry.worker))?;
    push_number(out, u64::from(entry.call.at))?;
    push_call(out, names, &entry.call.call)?;
    push_word(out, b"=")?;
    push_reply(out, names, &entry.reply)?;
    out.push(b'\n')?;
    Ok(())
}

fn push_history(
    out: &mut Vec<u8>,
    names: &[Vec<u8>],
    history: &[Entry<Numbered<Dir>>],
) -> Result<(), NoMemory>
    ensures { OnOk result (out.new.items ≡ out.old.items
        ++ flat_map ended (map (entry_line (map (λ n. n.items) names.now)) history.now)) }
{
    for entry in history {
        push_entry(out, names, entry)?;
    }
    Ok(())
}

/// The report of a pool: each entry with its worker and its call's place, and the names at the end.
#[tactic(auto, using(policy_text::proofs::Written::text_rules))]
pub fn render_pool(
    alloc: Global,
    trace: &Trace,
    history: &[Entry<Numbered<Dir>>],
    dir: &Dir,
) -> Result<Vec<u8>, NoMemory>
    ensures { IfOk result (λ v. v.items ≡ pool_report (pool_of trace.now history.now dir.now)) }
{
    let mut out: Vec<u8> = Vec::new(alloc);
    let names = trace.names.as_slice();
    let rows = dir.rows();
    push_heading(&mut out, trace.workers.len(), history.len())?;
    push_history(&mut out, names, history)?;
    push_counted(&mut out, b"final", rows.len())?;
    push_rows(&mut out, names, rows)?;
    push_line(&mut out, b"end")?;
    Ok(out)
}
