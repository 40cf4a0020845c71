//! The four numbers of a waiter's attributes, in a line that begins with a given word.
ghost use Rattle.std.specs.Prelude.{◌≡◌, ◌++◌, OnOk};
ghost use Rattle.doc_text.specs.Text.{ended};
ghost use Rattle.doc_text.specs.Words.{words};
ghost use Rattle.policy_text.specs.Attributes.{attr_in, attr_line};

use crate::error::NoMemory;
use crate::writing::push_number;
use doc_text::{five_words, is_same, number};
use shfl_line::Attr;

/// The attributes that a line `WORD SOCKET PRIO CLASS KIND` says, each number at most 65535.
pub fn attr_of(wanted: &[u8], text: &[u8]) -> Option<Attr>
    ensures { result ≡ attr_in wanted.now (words text.now) }
{
    let (word, socket, prio, class, kind) = five_words(text)?;
    if !is_same(word, wanted) {
        return None;
    }
    let socket = number(65535, socket)? as u16;
    let prio = number(65535, prio)? as u16;
    let class = number(65535, class)? as u16;
    let kind = number(65535, kind)? as u16;
    Some(Attr {
        socket,
        prio,
        class,
        kind,
    })
}

/// Writes the line `WORD SOCKET PRIO CLASS KIND`.
#[tactic(auto, using(crate::proofs::Written::joined_rules))]
pub fn push_attr(out: &mut Vec<u8>, word: &[u8], attr: &Attr) -> Result<(), NoMemory>
    ensures { OnOk result (out.new.items ≡ out.old.items ++ ended (attr_line word.now attr.now)) }
{
    out.extend_from_slice(word)?;
    push_number(out, u64::from(attr.socket))?;
    push_number(out, u64::from(attr.prio))?;
    push_number(out, u64::from(attr.class))?;
    push_number(out, u64::from(attr.kind))?;
    out.push(b'\n')?;
    Ok(())
}
