//! How a report tells what policies were told.
ghost use Rattle.std.specs.Prelude.{◌≡◌, ◌++◌, map, IsSome, IsTrue, IfOk, OnOk};
ghost use Rattle.std.specs.List.{AllByRecursion, flat_map};
ghost use Rattle.doc_text.specs.Text.{ended};
ghost use Rattle.name_order.specs.Names.{name_at};
ghost use Rattle.policy_text.specs.Blanks.{blanked};
ghost use Rattle.trace_text.specs.Traces.{policy_names_of};
ghost use Rattle.syncord_rounds.specs.Rounds.{question_words, answer_words, told_words, note_line, log_lines, notes_in, heading_line, rounds_text};

use doc_text::{push_decimal, push_line};
use policy_text::{NoMemory, push_number, push_word};
use round_log::{Note, RoundLog};
use shfl_line::{Answer, Attr, Told};
use trace_text::{NamedSource, Trace};

// The name of a policy, and no bytes where there is no such policy.
fn policy_name(policies: &[NamedSource], k: u32) -> &[u8]
    ensures { result.now ≡ name_at (map (λ p. p.name.items) policies.now) k }
{
    match policies.get(k as usize) {
        Some(policy) => policy.name.as_slice(),
        None => b"",
    }
}

// What is asked: whether to skip the round, or whether to move up this waiter.
#[tactic(auto, using(policy_text::proofs::Written::joined_rules))]
fn push_question(out: &mut Vec<u8>, waiter: Option<Attr>) -> Result<(), NoMemory>
    ensures { OnOk result (out.new.items ≡ out.old.items ++ blanked (question_words waiter)) }
{
    let Some(attr) = waiter else {
        return push_word(out, b"skip");
    };
    push_word(out, b"move")?;
    push_number(out, u64::from(attr.socket))?;
    push_number(out, u64::from(attr.prio))?;
    push_number(out, u64::from(attr.class))?;
    push_number(out, u64::from(attr.kind))
}

// A question with its answer, each word behind a blank.
#[tactic(auto, using(policy_text::proofs::Written::line_rules))]
fn push_answer(out: &mut Vec<u8>, answer: &Answer) -> Result<(), NoMemory>
    ensures { OnOk result (out.new.items ≡ out.old.items ++ blanked (answer_words answer.now)) }
{
    push_question(out, answer.waiter)?;
    push_number(out, u64::from(answer.batch))?;
    push_word(out, if answer.answer { b"yes" } else { b"no" })
}

// What a policy was told, each word behind a blank.
#[tactic(auto, using(policy_text::proofs::Written::joined_rules))]
fn push_told(out: &mut Vec<u8>, policies: &[NamedSource], note: &Note) -> Result<(), NoMemory>
    ensures { OnOk result (out.new.items
        ≡ out.old.items ++ blanked (told_words (map (λ p. p.name.items) policies.now)
        note.now.version note.now.which note.now.told)) }
{
    match &note.told {
        Told::Begun => {
            push_word(out, b"begin")?;
            push_number(out, note.version)?;
            push_word(out, policy_name(policies, note.which))
        }
        Told::Answered(answer) => push_answer(out, answer),
        Told::Ended => push_word(out, b"end"),
    }
}

#[tactic(auto, using(policy_text::proofs::Written::line_rules))]
fn push_note(
    out: &mut Vec<u8>,
    policies: &[NamedSource],
    worker: u64,
    note: &Note,
) -> Result<(), NoMemory>
    ensures { OnOk result (out.new.items ≡ out.old.items
        ++ ended (note_line (map (λ p. p.name.items) policies.now) worker note.now)) }
{
    push_decimal(out, worker)?;
    push_told(out, policies, note)?;
    out.push(b'\n')?;
    Ok(())
}

fn push_notes(
    out: &mut Vec<u8>,
    policies: &[NamedSource],
    worker: u64,
    notes: &[Note],
) -> Result<(), NoMemory>
    ensures { OnOk result (out.new.items ≡ out.old.items
        ++ flat_map ended (map (note_line (map (λ p. p.name.items) policies.now) worker) notes.now)) }
{
    for note in notes {
        push_note(out, policies, worker, note)?;
    }
    Ok(())
}

// All logs, by workers.
fn push_logs(out: &mut Vec<u8>, policies: &[NamedSource], logs: &[RoundLog]) -> Result<(), NoMemory>
    ensures { OnOk result (out.new.items ≡ out.old.items ++ flat_map ended
        (log_lines (map (λ p. p.name.items) policies.now) 0 (map notes_in logs.now))) }
{
    for (worker, log) in logs.iter().enumerate() {
        if let Some(notes) = log.notes() {
            push_notes(out, policies, worker as u64, notes)?;
        }
    }
    Ok(())
}

#[tactic(auto, using(policy_text::proofs::Written::joined_rules))]
fn push_heading(out: &mut Vec<u8>, lock: &[u8]) -> Result<(), NoMemory>
    ensures { OnOk result (out.new.items ≡ out.old.items ++ ended (heading_line lock.now)) }
{
    out.extend_from_slice(b"rounds")?;
    push_word(out, lock)?;
    out.push(b'\n')?;
    Ok(())
}

// Which kind of lock ran, and what the policies of each worker were told.
#[tactic(auto, using(policy_text::proofs::Written::text_rules))]
fn push_rounds(
    out: &mut Vec<u8>,
    policies: &[NamedSource],
    lock: &[u8],
    logs: &[RoundLog],
) -> Result<(), NoMemory>
    ensures { OnOk result (out.new.items ≡ out.old.items
        ++ rounds_text (map (λ p. p.name.items) policies.now) lock.now (map notes_in logs.now)) }
{
    push_heading(out, lock)?;
    push_logs(out, policies, logs)?;
    push_line(out, b"end")?;
    Ok(())
}

// Whether each log has all that it was to keep: there was memory for it.
fn are_kept(logs: &[RoundLog]) -> bool
    ensures { IsTrue result → AllByRecursion IsSome logs.now }
{
    for log in logs {
        if log.notes().is_none() {
            return false;
        }
    }
    true
}

/// The report of a run, and the rounds behind it. Where a log is wanting, so is all.
pub fn with_rounds(
    report: Vec<u8>,
    trace: &Trace,
    lock: &[u8],
    logs: &[RoundLog],
) -> Result<Vec<u8>, NoMemory>
    ensures text { IfOk result (λ text. text.items ≡ report.items
        ++ rounds_text (policy_names_of trace.now) lock.now (map notes_in logs.now)) }
    ensures kept { OnOk result (AllByRecursion IsSome logs.now) }
{
    if !are_kept(logs) {
        return Err(NoMemory);
    }
    let mut text = report;
    push_rounds(&mut text, trace.policies.as_slice(), lock, logs)?;
    Ok(text)
}
