//! The operands of a line, form by form.
ghost use Rattle.std.specs.Prelude.{◌≡◌, ◌/◌, ◌%◌, ◌^◌, ◌<◌, ℕ, List, [], ◌∷◌, ◌++◌, Some, None, Ok, MatchOption};
ghost use Rattle.std.specs.Int.{w32, cast_signed};
ghost use Rattle.bpf_asm.specs.Statements.{extension_named, swap_named, registers_in, alu_in, neg_in, load_in, signed_load_in, mov_signed_in, swap_in, exit_in, one_slot, wide_load_in, goto_in, goto_long_in, jump_in, of_form, no_words, name_in, line_says, line_in};
ghost use Rattle.bpf_asm.specs.Views.{Says, words_behind};
ghost use Rattle.doc_text.specs.Words.{words, one, two, three};

use crate::operand::{NO_FORM, both, register, short, source};
use bpf_isa::{AluOp, Insn, Order, Size, Width};
use doc_text::{is_same, one_word, three_words, two_words};

fn registers(dst: &[u8], src: &[u8]) -> Result<(u8, u8), u8>
    ensures { result ≡ registers_in dst.now src.now }
{
    both(register(dst), register(src))
}

fn extension_bits(width: Width, word: &[u8]) -> Option<u8>
    ensures { result ≡ extension_named width word.now }
{
    if is_same(word, b"8") {
        return Some(8);
    }
    if is_same(word, b"16") {
        return Some(16);
    }
    match width {
        Width::W32 => None,
        Width::W64 => { if is_same(word, b"32") { Some(32) } else { None } }
    }
}

fn swap_bits(word: &[u8]) -> Option<u8>
    ensures { result ≡ swap_named word.now }
{
    if is_same(word, b"16") {
        Some(16)
    } else if is_same(word, b"32") {
        Some(32)
    } else if is_same(word, b"64") {
        Some(64)
    } else {
        None
    }
}

pub fn one_operand(rest: Option<&[u8]>) -> Option<&[u8]>
    ensures { MatchOption result
        (one (words_behind rest.entry) ≡ None)
        (λ w. one (words_behind rest.entry) ≡ Some w.now) }
{
    one_word(rest?)
}

pub fn two_operands(rest: Option<&[u8]>) -> Option<(&[u8], &[u8])>
    ensures { MatchOption result
        (two (words_behind rest.entry) ≡ None)
        (λ w. two (words_behind rest.entry) ≡ Some (w.0.now, w.1.now)) }
{
    two_words(rest?)
}

pub fn three_operands(rest: Option<&[u8]>) -> Option<(&[u8], &[u8], &[u8])>
    ensures { MatchOption result
        (three (words_behind rest.entry) ≡ None)
        (λ w. three (words_behind rest.entry) ≡ Some (w.0.now, w.1.now, w.2.now)) }
{
    three_words(rest?)
}

pub fn alu(width: Width, op: AluOp, rest: Option<&[u8]>) -> Result<Insn, u8>
    ensures { result ≡ alu_in width op (words_behind rest.entry) }
{
    let Some((dst, src)) = two_operands(rest) else {
        return Err(NO_FORM);
    };
    let (dst, src) = both(register(dst), source(src))?;
    Ok(Insn::Alu {
        width,
        op,
        dst,
        src,
    })
}

pub fn neg(width: Width, rest: Option<&[u8]>) -> Result<Insn, u8>
    ensures { result ≡ neg_in width (words_behind rest.entry) }
{
    let Some(dst) = one_operand(rest) else {
        return Err(NO_FORM);
    };
    let dst = register(dst)?;
    Ok(Insn::Neg { width, dst })
}

pub fn load(size: Size, rest: Option<&[u8]>) -> Result<Insn, u8>
    ensures { result ≡ load_in size (words_behind rest.entry) }
{
    let Some((dst, src, off)) = three_operands(rest) else {
        return Err(NO_FORM);
    };
    let ((dst, src), off) = both(registers(dst, src), short(off))?;
    Ok(Insn::Load {
        size,
        dst,
        src,
        off,
    })
}

pub fn signed_load(size: Size, rest: Option<&[u8]>) -> Result<Insn, u8>
    ensures { result ≡ signed_load_in size (words_behind rest.entry) }
{
    let Some((dst, src, off)) = three_operands(rest) else {
        return Err(NO_FORM);
    };
    let ((dst, src), off) = both(registers(dst, src), short(off))?;
    Ok(Insn::LoadSigned {
        size,
        dst,
        src,
        off,
    })
}

pub fn mov_signed(width: Width, rest: Option<&[u8]>) -> Result<Insn, u8>
    ensures { result ≡ mov_signed_in width (words_behind rest.entry) }
{
    let Some((bits, dst, src)) = three_operands(rest) else {
        return Err(NO_FORM);
    };
    let Some(bits) = extension_bits(width, bits) else {
        return Err(NO_FORM);
    };
    let (dst, src) = registers(dst, src)?;
    Ok(Insn::MovSigned {
        width,
        bits,
        dst,
        src,
    })
}

pub fn swap(order: Order, rest: Option<&[u8]>) -> Result<Insn, u8>
    ensures { result ≡ swap_in order (words_behind rest.entry) }
{
    let Some((bits, dst)) = two_operands(rest) else {
        return Err(NO_FORM);
    };
    let Some(bits) = swap_bits(bits) else {
        return Err(NO_FORM);
    };
    let dst = register(dst)?;
    Ok(Insn::Swap { order, bits, dst })
}

/// Whether no word stands behind the first one.
#[tactic(auto, using(crate::proofs::Behind::some_words))]
pub fn is_alone(rest: Option<&[u8]>) -> bool
    ensures { result ≡ no_words (words_behind rest.entry) }
{
    match rest {
        None => true,
        Some(_) => false,
    }
}

pub fn exit(rest: Option<&[u8]>) -> Result<Insn, u8>
    ensures { result ≡ exit_in (words_behind rest.entry) }
{
    if is_alone(rest) {
        Ok(Insn::Exit)
    } else {
        Err(NO_FORM)
    }
}
