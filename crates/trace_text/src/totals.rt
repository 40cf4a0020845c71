//! How many calls of each kind a bulk run answered.
ghost use Rattle.std.specs.Prelude.{◌≡◌, ◌+◌, ◌^◌, ◌<◌, ◌∷◌, ◌++◌, ◌==◌, ◌≤◌, if◌then◌else◌, ℕ, map, length, decimal, count_by, OnOk, IfOk};
ghost use Rattle.doc_text.specs.Text.{ended};
ghost use Rattle.trace_text.specs.Report.{kind_of, count_of, totals_line, changes_text, looks_text, kinds_line, bulk_report};
ghost use Rattle.trace_text.specs.Reported.{bulk_of, attachments};
ghost use Rattle.trace_text.specs.Traces.{is_attachment};

use crate::reports::push_counted;
use crate::trace::{Trace, TraceAct};
use crate::words::push_pair;
use dir_table::{Dir, DirReply};
use hist_log::Entry;
use policy_text::{NoMemory, push_number};
use std::alloc::Global;

fn kind_of(reply: &DirReply) -> u8
    ensures { result ≡ kind_of reply.now }
{
    match reply {
        DirReply::Ino(_) => 0,
        DirReply::Done => 1,
        DirReply::Exists => 2,
        DirReply::Absent => 3,
        DirReply::Number(_) => 4,
        DirReply::Name(_) => 5,
        DirReply::End => 6,
    }
}

fn count_of(kind: u8, history: &[Entry<Dir>]) -> usize
    ensures { result ≡ count_of kind (map (λ e. e.reply) history.now) }
{
    let mut count = 0;
    for entry in history {
        count = counted(count, kind_of(&entry.reply) == kind);
    }
    count
}

fn counted(count: usize, more: bool) -> usize
    requires { count < 2 ^ 63 }
    ensures { result ≡ count + (if more then 1 else 0) }
{
    if more { count + 1 } else { count }
}

/// How many of a trace's calls are attachments.
fn attachments(trace: &Trace) -> usize
    ensures exact { result ≡ attachments trace.now }
    ensures within { result ≤ length trace.now.calls.items }
{
    let mut count = 0;
    for call in trace.calls.as_slice() {
        count = counted(count, matches!(call.act, TraceAct::Attach(_)));
    }
    count
}

#[tactic(auto, using(policy_text::proofs::Written::joined_rules))]
fn push_totals(
    out: &mut Vec<u8>,
    seed: u64,
    workers: usize,
    calls: usize,
    attaches: usize,
) -> Result<(), NoMemory>
    ensures { OnOk result (out.new.items
        ≡ out.old.items ++ ended (totals_line seed workers calls attaches)) }
{
    out.extend_from_slice(b"bulk")?;
    push_pair(out, b"seed", seed)?;
    push_pair(out, b"workers", workers as u64)?;
    push_pair(out, b"calls", calls as u64)?;
    push_pair(out, b"attaches", attaches as u64)?;
    out.push(b'\n')?;
    Ok(())
}

#[tactic(auto, using(policy_text::proofs::Written::joined_rules))]
fn push_changes(out: &mut Vec<u8>, history: &[Entry<Dir>]) -> Result<(), NoMemory>
    ensures { OnOk result (out.new.items
        ≡ out.old.items ++ changes_text (map (λ e. e.reply) history.now)) }
{
    out.extend_from_slice(b"ino")?;
    push_number(out, count_of(0, history) as u64)?;
    push_pair(out, b"done", count_of(1, history) as u64)?;
    push_pair(out, b"exists", count_of(2, history) as u64)?;
    push_pair(out, b"absent", count_of(3, history) as u64)
}

#[tactic(auto, using(policy_text::proofs::Written::joined_rules))]
fn push_looks(out: &mut Vec<u8>, history: &[Entry<Dir>]) -> Result<(), NoMemory>
    ensures { OnOk result (out.new.items
        ≡ out.old.items ++ looks_text (map (λ e. e.reply) history.now)) }
{
    push_pair(out, b"number", count_of(4, history) as u64)?;
    push_pair(out, b"name", count_of(5, history) as u64)?;
    push_pair(out, b"end", count_of(6, history) as u64)
}

#[tactic(auto, using(policy_text::proofs::Written::joined_rules))]
fn push_kinds(out: &mut Vec<u8>, history: &[Entry<Dir>]) -> Result<(), NoMemory>
    ensures { OnOk result (out.new.items
        ≡ out.old.items ++ ended (kinds_line (map (λ e. e.reply) history.now))) }
{
    push_changes(out, history)?;
    push_looks(out, history)?;
    out.push(b'\n')?;
    Ok(())
}

/// The summary of a bulk run: the seed, how many calls and attachments there were, how many replies of each kind, and how many
/// names are left.
#[tactic(auto, using(policy_text::proofs::Written::text_rules))]
pub fn summary(
    alloc: Global,
    seed: u64,
    trace: &Trace,
    history: &[Entry<Dir>],
    dir: &Dir,
) -> Result<Vec<u8>, NoMemory>
    ensures { IfOk result (λ v. v.items
        ≡ bulk_report (bulk_of seed trace.now history.now dir.now)) }
{
    let mut out: Vec<u8> = Vec::new(alloc);
    let attaches = attachments(trace);
    let calls = trace.calls.len() - attaches;
    push_totals(&mut out, seed, trace.workers.len(), calls, attaches)?;
    push_kinds(&mut out, history)?;
    push_counted(&mut out, b"left", dir.rows().len())?;
    Ok(out)
}
