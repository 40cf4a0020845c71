//! A line: a name for a slot, or the instructions of its slots, a jump to a name among them.
ghost use Rattle.std.specs.Prelude.{◌≡◌, ◌/◌, ◌%◌, ◌^◌, ◌<◌, ℕ, List, [], ◌∷◌, ◌++◌, Some, None, Ok, MatchOption};
ghost use Rattle.std.specs.Int.{w32, cast_signed};
ghost use Rattle.bpf_asm.specs.Statements.{extension_named, swap_named, registers_in, alu_in, neg_in, load_in, signed_load_in, mov_signed_in, swap_in, exit_in, one_slot, wide_load_in, goto_in, goto_long_in, jump_in, of_form, no_words, name_in, line_says, line_in};
ghost use Rattle.bpf_asm.specs.Views.{Says, words_behind};
ghost use Rattle.doc_text.specs.Words.{words, one, two, three};

use crate::form::{Form, form_named};
use crate::operand::{
    NO_FORM, Place, ShortPlace, both, is_name, long_place, register, short_place, source, wide,
};
use crate::rows::{
    alu, exit, is_alone, load, mov_signed, neg, one_operand, signed_load, swap, three_operands,
    two_operands,
};
use bpf_isa::{Cond, Insn, Profile, Width};
use doc_text::{text_of, word_at};

/// A line of no text with a line feed.
const UNFINISHED: u8 = 1;

/// What a line says.
#[derive(Clone, Copy)]
pub enum Statement<'a> {
    /// Names the next slot.
    Name(&'a [u8]),
    One(Insn),
    /// A wide load and its second half.
    Wide { dst: u8, low: i32, high: i32 },
    /// A jump whose offset is still 0, and the name that it leads to.
    JumpTo(Insn, &'a [u8]),
}

fn wide_load(rest: Option<&[u8]>) -> Result<Statement<'_>, u8>
    ensures { Says result (wide_load_in (words_behind rest.entry)) }
{
    let Some((dst, n)) = two_operands(rest) else {
        return Err(NO_FORM);
    };
    let (dst, n) = both(register(dst), wide(n))?;
    Ok(Statement::Wide {
        dst,
        low: ((n % 0x1_0000_0000) as u32).cast_signed(),
        high: ((n / 0x1_0000_0000) as u32).cast_signed(),
    })
}

fn short_goto(rest: Option<&[u8]>) -> Result<Statement<'_>, u8>
    ensures { Says result (goto_in (words_behind rest.entry)) }
{
    let Some(place) = one_operand(rest) else {
        return Err(NO_FORM);
    };
    match short_place(place)? {
        ShortPlace::By(off) => Ok(Statement::One(Insn::Goto { off })),
        ShortPlace::To(name) => Ok(Statement::JumpTo(Insn::Goto { off: 0 }, name)),
    }
}

fn long_goto(rest: Option<&[u8]>) -> Result<Statement<'_>, u8>
    ensures { Says result (goto_long_in (words_behind rest.entry)) }
{
    let Some(place) = one_operand(rest) else {
        return Err(NO_FORM);
    };
    match long_place(place)? {
        Place::By(off) => Ok(Statement::One(Insn::GotoLong { off })),
        Place::To(name) => Ok(Statement::JumpTo(Insn::GotoLong { off: 0 }, name)),
    }
}

fn condition(width: Width, cond: Cond, rest: Option<&[u8]>) -> Result<Statement<'_>, u8>
    ensures { Says result (jump_in width cond (words_behind rest.entry)) }
{
    let Some((dst, src, place)) = three_operands(rest) else {
        return Err(NO_FORM);
    };
    let ((dst, src), place) = both(both(register(dst), source(src)), short_place(place))?;
    match place {
        ShortPlace::By(off) => Ok(Statement::One(Insn::Jump {
            width,
            cond,
            dst,
            src,
            off,
        })),
        ShortPlace::To(name) => {
            let insn = Insn::Jump {
                width,
                cond,
                dst,
                src,
                off: 0,
            };
            Ok(Statement::JumpTo(insn, name))
        }
    }
}

fn one_slot<'a>(read: Result<Insn, u8>) -> Result<Statement<'a>, u8>
    ensures { Says result (one_slot read) }
{
    Ok(Statement::One(read?))
}

/// What the words behind the first one say of a form.
#[tactic(auto, unfolding(crate::specs::Statements::of_form))]
fn statement_of_form(form: Form, rest: Option<&[u8]>) -> Result<Statement<'_>, u8>
    ensures { Says result (of_form form (words_behind rest.entry)) }
{
    match form {
        Form::Alu { width, op } => one_slot(alu(width, op, rest)),
        Form::Neg { width } => one_slot(neg(width, rest)),
        Form::Load { size } => one_slot(load(size, rest)),
        Form::Wide => wide_load(rest),
        Form::Goto => short_goto(rest),
        Form::GotoLong => long_goto(rest),
        Form::Jump { width, cond } => condition(width, cond, rest),
        Form::Exit => one_slot(exit(rest)),
        Form::LoadSigned { size } => one_slot(signed_load(size, rest)),
        Form::MovSigned { width } => one_slot(mov_signed(width, rest)),
        Form::Swap { order } => one_slot(swap(order, rest)),
    }
}

fn name_alone<'a>(name: &'a [u8], rest: Option<&[u8]>) -> Result<Statement<'a>, u8>
    ensures { Says result (name_in name.now (words_behind rest.entry)) }
{
    if is_alone(rest) && is_name(name) {
        Ok(Statement::Name(name))
    } else {
        Err(NO_FORM)
    }
}

/// What a line says, or its lowest fault of 1 to 4.
#[tactic(auto, unfolding(crate::specs::Statements::line_in))]
pub fn read_line(profile: Profile, piece: &[u8]) -> Result<Statement<'_>, u8>
    ensures { Says result (line_in profile piece.now) }
{
    let Some(text) = text_of(piece) else {
        return Err(UNFINISHED);
    };
    let (word, rest) = word_at(text);
    match word {
        [] => Err(NO_FORM),
        [b':', name @ ..] => name_alone(name, rest),
        _ => {
            let Some(form) = form_named(profile, word) else {
                return Err(NO_FORM);
            };
            statement_of_form(form, rest)
        }
    }
}
