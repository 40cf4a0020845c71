ghost use Rattle.std.specs.Prelude.{◌≡◌, ◌∷◌, ◌++◌, map, decimal, OnOk};
ghost use Rattle.policy_text.specs.Blanks.{blanked};
ghost use Rattle.trace_text.specs.Spelling.{act_words};
ghost use Rattle.trace_text.specs.Report.{reply_words};
ghost use Rattle.trace_text.specs.Traces.{dir_act};
ghost use Rattle.name_order.specs.Names.{name_at};

use dir_table::{DirCall, DirReply};
use doc_text::push_decimal;
use policy_text::{NoMemory, push_number, push_word};

/// The bytes of a name, and none where there is no such name.
pub fn name_at(names: &[Vec<u8>], k: u32) -> &[u8]
    ensures { result.now ≡ name_at (map (λ n. n.items) names.now) k }
{
    match names.get(k as usize) {
        Some(name) => name.as_slice(),
        None => b"",
    }
}

/// A call on the directory, each word behind a blank.
#[tactic(auto, using(policy_text::proofs::Written::joined_rules))]
pub fn push_call(out: &mut Vec<u8>, names: &[Vec<u8>], call: &DirCall) -> Result<(), NoMemory>
    ensures { OnOk result (out.new.items ≡ out.old.items
        ++ blanked (act_words (dir_act (map (λ n. n.items) names.now) call.now))) }
{
    match call {
        DirCall::Make { dir, name } => push_entry(out, b" make ", *dir, name_at(names, *name)),
        DirCall::Drop { dir, name } => push_entry(out, b" drop ", *dir, name_at(names, *name)),
        DirCall::Rename {
            dir,
            name,
            to_dir,
            to_name,
        } => {
            push_entry(out, b" rename ", *dir, name_at(names, *name))?;
            push_number(out, u64::from(*to_dir))?;
            push_word(out, name_at(names, *to_name))
        }
        DirCall::Find { dir, name } => push_entry(out, b" find ", *dir, name_at(names, *name)),
        DirCall::Count { dir } => push_numbered(out, b" count ", u64::from(*dir)),
        DirCall::Next { dir, after: None } => push_numbered(out, b" next ", u64::from(*dir)),
        DirCall::Next {
            dir,
            after: Some(name),
        } => push_entry(out, b" next ", *dir, name_at(names, *name)),
    }
}

#[tactic(auto, using(policy_text::proofs::Written::joined_rules))]
#[inline(always)]
fn push_entry(out: &mut Vec<u8>, verb: &[u8], dir: u8, name: &[u8]) -> Result<(), NoMemory>
    ensures { OnOk result (out.new.items
        ≡ out.old.items ++ verb.now ++ decimal dir ++ (32 ∷ name.now)) }
{
    push_numbered(out, verb, u64::from(dir))?;
    push_word(out, name)
}

#[tactic(auto, using(policy_text::proofs::Written::joined_rules))]
#[inline(always)]
fn push_numbered(out: &mut Vec<u8>, word: &[u8], n: u64) -> Result<(), NoMemory>
    ensures { OnOk result (out.new.items ≡ out.old.items ++ word.now ++ decimal n) }
{
    out.extend_from_slice(word)?;
    push_decimal(out, n)?;
    Ok(())
}

/// A word and a number, each behind a blank.
#[tactic(auto, using(policy_text::proofs::Written::joined_rules))]
pub fn push_pair(out: &mut Vec<u8>, word: &[u8], n: u64) -> Result<(), NoMemory>
    ensures { OnOk result (out.new.items
        ≡ out.old.items ++ ((32 ∷ word.now) ++ (32 ∷ decimal n))) }
{
    push_word(out, word)?;
    push_number(out, n)
}

/// A reply, each word behind a blank.
#[tactic(auto, using(policy_text::proofs::Written::joined_rules))]
pub fn push_reply(out: &mut Vec<u8>, names: &[Vec<u8>], reply: &DirReply) -> Result<(), NoMemory>
    ensures { OnOk result (out.new.items ≡ out.old.items
        ++ blanked (reply_words (map (λ n. n.items) names.now) reply.now)) }
{
    match reply {
        DirReply::Ino(number) => push_numbered(out, b" ino ", *number)?,
        DirReply::Done => out.extend_from_slice(b" done")?,
        DirReply::Exists => out.extend_from_slice(b" exists")?,
        DirReply::Absent => out.extend_from_slice(b" absent")?,
        DirReply::Number(count) => push_numbered(out, b" number ", u64::from(*count))?,
        DirReply::Name(name) => {
            out.extend_from_slice(b" name")?;
            push_word(out, name_at(names, *name))?;
        }
        DirReply::End => out.extend_from_slice(b" end")?,
    }
    Ok(())
}
