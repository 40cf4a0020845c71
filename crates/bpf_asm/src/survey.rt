//! The first walk over a text: where its names stand, which of its slots are second halves, and the first name that is declared
//! again.
ghost use Rattle.std.specs.Prelude.{◌≡◌, ◌+◌, ◌^◌, ◌<◌, ◌≤◌, ◌++◌, length, map, IfOk, OnOk};
ghost use Rattle.bpf_isa.specs.Flow.{is_half};
ghost use Rattle.bpf_asm.specs.Assembly.{slots_of, lines_in};
ghost use Rattle.bpf_asm.specs.Marks.{declared_on, IsCollected, IsSurvey};
ghost use Rattle.bpf_asm.specs.Views.{line_of};

use crate::names::{Declared, key_of, settle};
use crate::statement::{Statement, read_line};
use bpf_isa::Profile;
use doc_text::piece_at;
use std::alloc::{AllocError, Global};

/// Notes the name that a line declares.
fn note_name<'a>(
    names: &mut Vec<Declared<'a>>,
    line: u32,
    slot: u32,
    read: Result<Statement<'a>, u8>,
) -> Result<(), AllocError>
    ensures { OnOk result (names.new.items ≡ names.old.items ++ declared_on line slot read.entry) }
{
    if let Ok(Statement::Name(name)) = read {
        let key = key_of(name);
        names.push(Declared {
            key,
            name,
            line,
            slot,
        })?;
    }
    Ok(())
}

/// Notes which slots of a line are second halves.
fn note_slots(halves: &mut Vec<bool>, read: Result<Statement<'_>, u8>) -> Result<(), AllocError>
    ensures slots { OnOk result (halves.new.items
        ≡ halves.old.items ++ map is_half (slots_of (line_of read.entry))) }
    ensures few { OnOk result (length halves.new.items ≤ length halves.old.items + 2) }
{
    match read {
        Ok(Statement::One(insn)) => {
            halves.push(insn.is_half())?;
            Ok(())
        }
        Ok(Statement::JumpTo(insn, _)) => {
            halves.push(insn.is_half())?;
            Ok(())
        }
        Ok(Statement::Wide { .. }) => {
            halves.push(false)?;
            halves.push(true)?;
            Ok(())
        }
        Ok(Statement::Name(_)) => Ok(()),
        Err(_) => Ok(()),
    }
}

/// How many names the text may well declare. No proof rests on it: the list grows where it must.
fn names_expected(text: &[u8]) -> usize {
    let colons = text.iter().filter(|byte| **byte == b':').count();
    // where a text has so many names, few of them are shorter than three bytes
    colons.min(text.len() / 5)
}

/// The declarations of a text, one line after the other, and which of its slots are second halves.
fn collect<'a>(
    alloc: Global,
    profile: Profile,
    text: &'a [u8],
) -> Result<(Vec<Declared<'a>>, Vec<bool>), AllocError>
    requires { length text.now < 2 ^ 31 }
    ensures { IfOk result (λ found. IsCollected found.0.items found.1.items
        (lines_in profile text.now)) }
{
    let mut names = Vec::with_capacity(alloc, names_expected(text))?;
    let mut halves = Vec::new(alloc);
    let mut rest = text;
    let mut line: u32 = 1;
    while !rest.is_empty() {
        let (piece, behind) = piece_at(rest);
        let read = read_line(profile, piece);
        note_name(&mut names, line, halves.len() as u32, read)?;
        note_slots(&mut halves, read)?;
        line += 1;
        rest = behind;
    }
    Ok((names, halves))
}

/// Where the names of a text stand, which of its slots are second halves, and the first line that declares a name again.
pub fn survey<'a>(
    alloc: Global,
    profile: Profile,
    text: &'a [u8],
) -> Result<(Vec<Declared<'a>>, Vec<bool>, Option<u32>), AllocError>
    requires { length text.now < 2 ^ 31 }
    ensures { IfOk result (λ found. IsSurvey found.0.items found.1.items found.2
        (lines_in profile text.now)) }
{
    let (mut names, halves) = collect(alloc, profile, text)?;
    let again = settle(&mut names);
    Ok((names, halves, again))
}
