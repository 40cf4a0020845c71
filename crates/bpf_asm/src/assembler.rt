//! The second walk over a text: the instructions of its lines, with the offsets of jumps to names.
ghost use Rattle.std.specs.Prelude.{◌≡◌, ◌+◌, ◌^◌, ◌<◌, ◌≤◌, ◌++◌, ℕ, ℤ, pos, ◌-ℤ◌, List, length, map, IfOk, OnOk, Ok, Result};
ghost use Rattle.bpf_isa.specs.declared.insn.Insn.{Insn};
ghost use Rattle.bpf_isa.specs.Decoding.{decoding};
ghost use Rattle.bpf_isa.specs.Encoding.{encoding};
ghost use Rattle.bpf_isa.specs.Flow.{is_half, jump_offset};
ghost use Rattle.bpf_isa.specs.WellFormed.{IsWellFormed, IsOf};
ghost use Rattle.bpf_asm.specs.Assembly.{Line, fits_short, fits_long, at_offset, half_at, into_half, first_offset, within, reaching, jump_to, name_at, code_at, slots_in, lines_in, assembly};
ghost use Rattle.bpf_asm.specs.Marks.{is_again, is_at, unless_at, marked_in, IsSurvey};
ghost use Rattle.bpf_asm.specs.Names.{AreInOrder};
ghost use Rattle.bpf_asm.specs.Statements.{with_short};
ghost use Rattle.bpf_asm.specs.Views.{line_of, slots_held, GivesSlots, Gives};

use crate::error::AsmError;
use crate::names::{Declared, Mark, mark_named};
use crate::statement::{Statement, read_line};
use crate::survey::survey;
use bpf_isa::{Insn, MAX_SLOTS, Profile};
use doc_text::piece_at;
use std::alloc::{AllocError, Global};

/// A name that was declared before.
const DECLARED_BEFORE: u8 = 5;

/// A name that is not declared, or too far away.
const NO_NAME: u8 = 6;

/// An offset into a second half.
const INTO_HALF: u8 = 7;

/// A slot past the last one.
const TOO_MANY: u8 = 8;

/// No instruction at all.
const NOTHING: u8 = 9;

/// The slots that a line brings.
#[derive(Clone, Copy)]
pub enum Slots {
    Nothing,
    One(Insn),
    Two(Insn, Insn),
}

fn is_short(off: i64) -> bool
    ensures { result ≡ fits_short off }
{
    off >= -0x8000 && off <= 0x7fff
}

fn is_long(off: i64) -> bool
    ensures { result ≡ fits_long off }
{
    off >= -0x8000_0000 && off <= 0x7fff_ffff
}

/// The jump of 16 bits with this offset.
fn short_jump(insn: Insn, off: i16) -> Insn
    ensures { result ≡ with_short insn off }
{
    match insn {
        Insn::Goto { .. } => Insn::Goto { off },
        Insn::Jump {
            width,
            cond,
            dst,
            src,
            ..
        } => Insn::Jump {
            width,
            cond,
            dst,
            src,
            off,
        },
        insn => insn,
    }
}

/// The jump with this offset, where its field holds it.
fn jump_by(insn: Insn, off: i64) -> Option<Insn>
    ensures { result ≡ at_offset insn off }
{
    match insn {
        Insn::GotoLong { .. } => {
            if is_long(off) {
                Some(Insn::GotoLong { off: off as i32 })
            } else {
                None
            }
        }
        insn => {
            if is_short(off) {
                Some(short_jump(insn, off as i16))
            } else {
                None
            }
        }
    }
}

/// Whether a place is a second half.
fn is_half_at(halves: &[bool], place: i64) -> bool
    ensures { (insns : List Insn) → halves.now ≡ map is_half insns → result ≡ half_at insns place }
{
    place >= 0 && place < halves.len() as i64 && halves[place as usize]
}

/// Whether a jump leads into a second half.
fn leads_into_half(halves: &[bool], slot: usize, offset: Option<i32>) -> bool
    requires { slot ≤ 512 }
    ensures { (insns : List Insn) → halves.now ≡ map is_half insns
        → result ≡ into_half insns slot offset }
{
    match offset {
        Some(offset) => is_half_at(halves, slot as i64 + 1 + i64::from(offset)),
        None => false,
    }
}

fn first_jump(slots: Slots) -> Option<i32>
    ensures { result ≡ first_offset (slots_held slots) }
{
    match slots {
        Slots::Nothing => None,
        Slots::One(insn) => insn.jump_offset(),
        Slots::Two(insn, _) => insn.jump_offset(),
    }
}

fn slot_count(slots: Slots) -> usize
    ensures { result ≡ length (slots_held slots) }
{
    match slots {
        Slots::Nothing => 0,
        Slots::One(_) => 1,
        Slots::Two(..) => 2,
    }
}

/// Slots that end within those that a program may have.
fn fitting(slot: usize, slots: Slots) -> Result<Slots, u8>
    requires { slot ≤ 512 }
    ensures { GivesSlots result (within slot (slots_held slots)) }
{
    if slot + slot_count(slots) <= MAX_SLOTS {
        Ok(slots)
    } else {
        Err(TOO_MANY)
    }
}

/// Instructions whose jump leads into no second half.
fn code(halves: &[bool], slot: usize, slots: Slots) -> Result<Slots, u8>
    requires { slot ≤ 512 }
    ensures { (insns : List Insn) → halves.now ≡ map is_half insns
        → GivesSlots result (code_at insns slot (slots_held slots)) }
{
    if leads_into_half(halves, slot, first_jump(slots)) {
        return Err(INTO_HALF);
    }
    fitting(slot, slots)
}

/// How far a slot is from the slot behind another one.
fn distance(slot: usize, to: u32) -> i64
    requires { slot ≤ 512 }
    ensures { result ≡ pos to -ℤ pos (slot + 1) }
{
    i64::from(to) - (slot as i64 + 1)
}

/// A jump of a slot to a named slot.
fn jump(slot: usize, insn: Insn, found: Option<Mark>) -> Result<Slots, u8>
    requires { slot ≤ 512 }
    ensures { GivesSlots result (jump_to slot insn found) }
{
    let Some(mark) = found else {
        return Err(NO_NAME);
    };
    match jump_by(insn, distance(slot, mark.slot)) {
        Some(insn) => fitting(slot, Slots::One(insn)),
        None => Err(NO_NAME),
    }
}

/// A name where it is declared for the first time.
fn name(line: u32, again: Option<u32>) -> Result<Slots, u8>
    ensures { GivesSlots result (unless_at line again) }
{
    match again {
        Some(again) => {
            if again == line {
                Err(DECLARED_BEFORE)
            } else {
                Ok(Slots::Nothing)
            }
        }
        None => Ok(Slots::Nothing),
    }
}

/// The slots of a line among all lines, or its lowest fault. No line before it declares a name again.
fn line_slots(
    names: &[Declared<'_>],
    halves: &[bool],
    again: Option<u32>,
    line: u32,
    slot: usize,
    read: Result<Statement<'_>, u8>,
) -> Result<Slots, u8>
    requires few { slot ≤ 512 }
    requires order { AreInOrder names.now }
    ensures { (all : List Line) → IsSurvey names.now halves.now again all
        → is_again (marked_in all) line (line_of read.entry) ≡ is_at line again
        → GivesSlots result (slots_in all line slot (line_of read.entry)) }
{
    match read {
        Ok(Statement::Name(_)) => name(line, again),
        Ok(Statement::One(insn)) => code(halves, slot, Slots::One(insn)),
        Ok(Statement::Wide { dst, low, high }) => code(
            halves,
            slot,
            Slots::Two(Insn::Wide { dst, low, high }, Insn::Half),
        ),
        Ok(Statement::JumpTo(insn, found)) => jump(slot, insn, mark_named(names, found)),
        Err(fault) => Err(fault),
    }
}

fn push_slots(insns: &mut Vec<Insn>, slots: Slots) -> Result<(), AllocError>
    ensures { OnOk result (insns.new.items ≡ insns.old.items ++ slots_held slots) }
{
    match slots {
        Slots::Nothing => Ok(()),
        Slots::One(insn) => {
            insns.push(insn)?;
            Ok(())
        }
        Slots::Two(first, second) => {
            insns.push(first)?;
            insns.push(second)?;
            Ok(())
        }
    }
}

/// The instructions of all lines, or the first bad line and its lowest fault.
fn resolve(
    alloc: Global,
    profile: Profile,
    text: &[u8],
    names: &[Declared<'_>],
    halves: &[bool],
    again: Option<u32>,
) -> Result<Vec<Insn>, AsmError>
    requires short { length text.now < 2 ^ 31 }
    requires survey { IsSurvey names.now halves.now again (lines_in profile text.now) }
    ensures { Gives (λ v. v.items) result (assembly profile text.now) }
{
    let mut insns = Vec::new(alloc);
    let mut rest = text;
    let mut line: u32 = 1;
    while !rest.is_empty() {
        let (piece, behind) = piece_at(rest);
        let read = read_line(profile, piece);
        match line_slots(names, halves, again, line, insns.len(), read) {
            Ok(slots) => push_slots(&mut insns, slots)?,
            Err(what) => return Err(AsmError::Format { line, what }),
        }
        line += 1;
        rest = behind;
    }
    if insns.is_empty() {
        return Err(AsmError::Format {
            line,
            what: NOTHING,
        });
    }
    Ok(insns)
}

/// The instructions of a text, one a line, or the first bad line and its lowest fault.
fn assemble_exactly(alloc: Global, profile: Profile, text: &[u8]) -> Result<Vec<Insn>, AsmError>
    requires { length text.now < 2 ^ 31 }
    ensures { Gives (λ v. v.items) result (assembly profile text.now) }
{
    let (names, halves, again) = survey(alloc, profile, text)?;
    resolve(alloc, profile, text, &names, &halves, again)
}

/// The instructions of a text, one a line, or the first bad line and its lowest fault. They are those that decoding can give.
pub fn assemble(alloc: Global, profile: Profile, text: &[u8]) -> Result<Vec<Insn>, AsmError>
    requires { length text.now < 2 ^ 31 }
    ensures exact { Gives (λ v. v.items) result (assembly profile text.now) }
    ensures well_formed { IfOk result (λ v. IsWellFormed v.items) }
    ensures of_profile { IfOk result (λ v. IsOf profile v.items) }
    ensures decodes { IfOk result (λ v. decoding profile (encoding v.items) ≡ Ok v.items) }
{
    assemble_exactly(alloc, profile, text)
}
