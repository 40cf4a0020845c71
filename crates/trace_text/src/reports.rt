//! The report of a replay.
ghost use Rattle.std.specs.Prelude.{◌≡◌, ◌++◌, [], ℕ, List, map, codes, OnOk, IfOk};
ghost use Rattle.std.specs.List.{flat_map};
ghost use Rattle.doc_text.specs.Text.{ended};
ghost use Rattle.dir_table.specs.Names.{entry_of};
ghost use Rattle.trace_text.specs.Report.{report, done_of, entry_line, row_line, attach_line, report_heading, counted_line};
ghost use Rattle.trace_text.specs.Reported.{replay_of};

use crate::trace::{NamedSource, Trace};
use crate::words::{name_at, push_call, push_pair, push_reply};
use crate::write::policy_name;
use bpf_isa::Profile;
use dir_table::{Dir, DirCall, DirRow, Rows};
use doc_text::{push_decimal, push_line};
use hist_log::Entry;
use policy_text::{NoMemory, push_number, push_version, push_word};
use std::alloc::{AllocError, Global};

// An entry takes about so many bytes besides its name.
const BESIDE_A_NAME: usize = 21;

// About how many bytes so many lines take, each with a name.
fn room_for(names: &[Vec<u8>], lines: usize) -> usize {
    let mut bytes: usize = 0;
    for name in names {
        bytes = bytes.saturating_add(name.len());
    }
    let average = bytes.checked_div(names.len()).unwrap_or(0);
    lines.saturating_mul(average.saturating_add(BESIDE_A_NAME))
}

#[tactic(auto, using(policy_text::proofs::Written::line_rules))]
fn push_entry(out: &mut Vec<u8>, names: &[Vec<u8>], entry: &Entry<Dir>) -> Result<(), NoMemory>
    ensures { OnOk result (out.new.items
        ≡ out.old.items ++ ended (entry_line (map (λ n. n.items) names.now) (done_of entry.now))) }
{
    push_decimal(out, u64::from(entry.worker))?;
    push_call(out, names, &entry.call)?;
    out.extend_from_slice(b" =")?;
    push_reply(out, names, &entry.reply)?;
    out.push(b'\n')?;
    Ok(())
}

#[tactic(auto, using(policy_text::proofs::Written::joined_rules))]
fn push_row(out: &mut Vec<u8>, names: &[Vec<u8>], row: &DirRow) -> Result<(), NoMemory>
    ensures { OnOk result (out.new.items
        ≡ out.old.items ++ ended (row_line (map (λ n. n.items) names.now) (entry_of row.now))) }
{
    push_decimal(out, u64::from(row.dir))?;
    push_word(out, name_at(names, row.name))?;
    push_number(out, row.ino)?;
    out.push(b'\n')?;
    Ok(())
}

#[tactic(auto, using(policy_text::proofs::Written::joined_rules))]
fn push_attach(
    out: &mut Vec<u8>,
    policies: &[NamedSource],
    attach: &(u64, u32),
) -> Result<(), NoMemory>
    ensures { OnOk result (out.new.items
        ≡ out.old.items ++ ended (attach_line (map (λ p. p.name.items) policies.now) attach.now)) }
{
    push_decimal(out, attach.0)?;
    push_word(out, policy_name(policies, attach.1))?;
    out.push(b'\n')?;
    Ok(())
}

/// A line of a word and a number.
#[tactic(auto, using(policy_text::proofs::Written::joined_rules))]
pub fn push_counted(out: &mut Vec<u8>, word: &[u8], n: usize) -> Result<(), NoMemory>
    ensures { OnOk result (out.new.items ≡ out.old.items ++ ended (counted_line word.now n)) }
{
    out.extend_from_slice(word)?;
    push_number(out, n as u64)?;
    out.push(b'\n')?;
    Ok(())
}

#[tactic(auto, using(policy_text::proofs::Written::line_rules))]
fn push_heading(
    out: &mut Vec<u8>,
    version: u8,
    profile: Profile,
    workers: usize,
    entries: usize,
) -> Result<(), NoMemory>
    ensures { OnOk result (out.new.items
        ≡ out.old.items ++ ended (report_heading version profile workers entries)) }
{
    out.extend_from_slice(b"syncord-replay")?;
    push_version(out, version, profile)?;
    push_pair(out, b"workers", workers as u64)?;
    push_pair(out, b"entries", entries as u64)?;
    out.push(b'\n')?;
    Ok(())
}

// The first name of a call.
fn first_name(call: &DirCall) -> Option<u32> {
    match call {
        DirCall::Make { name, .. }
        | DirCall::Drop { name, .. }
        | DirCall::Rename { name, .. }
        | DirCall::Find { name, .. } => Some(*name),
        DirCall::Next { after, .. } => *after,
        DirCall::Count { .. } => None,
    }
}

// So many entries are looked at together.
const TOGETHER: usize = 128;

// Leaves room for the lines of the next entries. Their names, which lie far from one another, are looked at one right after the other, so
// that the processor fetches several at a time.
fn leave_room(
    out: &mut Vec<u8>,
    names: &[Vec<u8>],
    entries: &[Entry<Dir>],
) -> Result<(), AllocError>
    ensures { out.new.items ≡ out.old.items }
{
    let mut bytes: usize = 0;
    for entry in &entries[..entries.len().min(TOGETHER)] {
        if let Some(name) = first_name(&entry.call) {
            bytes = bytes.saturating_add(name_at(names, name).len());
        }
        bytes = bytes.saturating_add(BESIDE_A_NAME);
    }
    out.reserve(bytes)
}

fn push_history(
    out: &mut Vec<u8>,
    names: &[Vec<u8>],
    history: &[Entry<Dir>],
) -> Result<(), NoMemory>
    ensures { OnOk result (out.new.items ≡ out.old.items
        ++ flat_map ended (map (entry_line (map (λ n. n.items) names.now))
        (map done_of history.now))) }
{
    for (place, entry) in history.iter().enumerate() {
        if place % TOGETHER == 0 {
            leave_room(out, names, &history[place..])?;
        }
        push_entry(out, names, entry)?;
    }
    Ok(())
}

/// The names at the end, each on a line with its directory and its file's number.
pub fn push_rows(out: &mut Vec<u8>, names: &[Vec<u8>], rows: Rows<'_>) -> Result<(), NoMemory>
    ensures { OnOk result (out.new.items ≡ out.old.items
        ++ flat_map ended (map (row_line (map (λ n. n.items) names.now))
        (map entry_of rows.entry))) }
{
    for row in rows {
        push_row(out, names, row)?;
    }
    Ok(())
}

fn push_attaches(
    out: &mut Vec<u8>,
    policies: &[NamedSource],
    attaches: &[(u64, u32)],
) -> Result<(), NoMemory>
    ensures { OnOk result (out.new.items ≡ out.old.items
        ++ flat_map ended (map (attach_line (map (λ p. p.name.items) policies.now)) attaches.now)) }
{
    for attach in attaches {
        push_attach(out, policies, attach)?;
    }
    Ok(())
}

/// The report of a replay: its history, the names at the end, and the attachments, each with its version and policy.
#[tactic(auto, using(policy_text::proofs::Written::text_rules))]
pub fn render(
    alloc: Global,
    trace: &Trace,
    history: &[Entry<Dir>],
    dir: &Dir,
    attaches: &[(u64, u32)],
) -> Result<Vec<u8>, NoMemory>
    ensures { IfOk result (λ v.
        v.items ≡ report (replay_of trace.now history.now dir.now attaches.now)) }
{
    let names = trace.names.as_slice();
    let policies = trace.policies.as_slice();
    let rows = dir.rows();
    let room = room_for(names, history.len().saturating_add(rows.len()));
    let mut out: Vec<u8> = Vec::with_capacity(alloc, room)?;
    push_heading(
        &mut out,
        trace.version,
        trace.profile,
        trace.workers.len(),
        history.len(),
    )?;
    push_history(&mut out, names, history)?;
    push_counted(&mut out, b"final", rows.len())?;
    push_rows(&mut out, names, rows)?;
    push_counted(&mut out, b"attaches", attaches.len())?;
    push_attaches(&mut out, policies, attaches)?;
    push_line(&mut out, b"end")?;
    Ok(out)
}
