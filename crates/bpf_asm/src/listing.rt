//! Instructions as text, one a line, without names.
ghost use Rattle.std.specs.Prelude.{◌≡◌, ◌++◌, ◌∷◌, [], ◌+◌, ◌<◌, ◌≤◌, codes, IfOk, OnOk, Ok, decimal, ℕ, List};
ghost use Rattle.std.specs.Fmt.{signed_decimal};
ghost use Rattle.bpf_isa.specs.declared.insn.Insn.TheVariants as insn;
ghost use Rattle.bpf_isa.specs.declared.insn.Profile.{Profile};
ghost use Rattle.bpf_isa.specs.declared.insn.Profile.TheVariants as profile;
ghost use Rattle.bpf_isa.specs.WellFormed.{IsWellFormed};
ghost use Rattle.bpf_asm.specs.Assembly.{assembly};
ghost use Rattle.bpf_asm.specs.Disassembly.{operation_name, condition_name, width_name, swap_name, register_text, source_text, wide_number, line_text, disassembly};
ghost use Rattle.bpf_asm.specs.Plain.{HasNoNames};
ghost use Rattle.doc_text.specs.Text.{ended};
ghost use Rattle.doc_text.specs.Words.{spaced};

use crate::mnemonics::{condition, load, operation, signed_load, swap, width_digits};
use bpf_isa::{AluOp, Cond, Insn, NoMemory, Operand, Order, Width};
use doc_text::push_decimal;
use std::alloc::{AllocError, Global};

fn push_sized(out: &mut Vec<u8>, name: &[u8], width: Width) -> Result<(), AllocError>
    ensures { OnOk result (out.new.items ≡ out.old.items ++ (name.now ++ width_name width)) }
{
    out.extend_from_slice(name)?;
    out.extend_from_slice(width_digits(width))?;
    Ok(())
}

fn push_natural(out: &mut Vec<u8>, n: u64) -> Result<(), AllocError>
    ensures { OnOk result (out.new.items ≡ out.old.items ++ 32 ∷ decimal n) }
{
    out.push(b' ')?;
    push_decimal(out, n)?;
    Ok(())
}

fn push_register(out: &mut Vec<u8>, register: u8) -> Result<(), AllocError>
    ensures { OnOk result (out.new.items ≡ out.old.items ++ 32 ∷ register_text register) }
{
    out.push(b' ')?;
    out.push(b'r')?;
    push_decimal(out, u64::from(register))?;
    Ok(())
}

fn push_number(out: &mut Vec<u8>, n: i32) -> Result<(), AllocError>
    ensures { OnOk result (out.new.items ≡ out.old.items ++ 32 ∷ signed_decimal n) }
{
    out.push(b' ')?;
    if n < 0 {
        out.push(b'-')?;
    }
    push_decimal(out, u64::from(n.unsigned_abs()))?;
    Ok(())
}

fn push_source(out: &mut Vec<u8>, src: Operand) -> Result<(), AllocError>
    ensures { OnOk result (out.new.items ≡ out.old.items ++ 32 ∷ source_text src) }
{
    match src {
        Operand::Reg(register) => push_register(out, register),
        Operand::Imm(n) => push_number(out, n),
    }
}

/// The number of 64 bits that two halves make, both without a sign.
fn whole(low: i32, high: i32) -> u64
    ensures { result ≡ wide_number low high }
{
    u64::from(high.cast_unsigned()) * 0x1_0000_0000 + u64::from(low.cast_unsigned())
}

fn end_line(out: &mut Vec<u8>) -> Result<(), AllocError>
    ensures { OnOk result (out.new.items ≡ out.old.items ++ 10 ∷ []) }
{
    out.push(b'\n')?;
    Ok(())
}

fn push_alu(
    out: &mut Vec<u8>,
    width: Width,
    op: AluOp,
    dst: u8,
    src: Operand,
) -> Result<(), AllocError>
    ensures { OnOk result (out.new.items ≡ out.old.items ++ line_text (insn.Alu width op dst src)) }
{
    push_sized(out, operation(op), width)?;
    push_register(out, dst)?;
    push_source(out, src)?;
    end_line(out)
}

fn push_neg(out: &mut Vec<u8>, width: Width, dst: u8) -> Result<(), AllocError>
    ensures { OnOk result (out.new.items ≡ out.old.items ++ line_text (insn.Neg width dst)) }
{
    push_sized(out, b"neg", width)?;
    push_register(out, dst)?;
    end_line(out)
}

fn push_load(out: &mut Vec<u8>, name: &[u8], dst: u8, src: u8, off: i16) -> Result<(), AllocError>
    ensures { OnOk result (out.new.items ≡ out.old.items
        ++ ended (spaced (name.now ∷ register_text dst ∷ register_text src ∷ signed_decimal off ∷ []))) }
{
    out.extend_from_slice(name)?;
    push_register(out, dst)?;
    push_register(out, src)?;
    push_number(out, i32::from(off))?;
    end_line(out)
}

fn push_wide(out: &mut Vec<u8>, dst: u8, low: i32, high: i32) -> Result<(), AllocError>
    ensures { OnOk result (out.new.items ≡ out.old.items ++ line_text (insn.Wide dst low high)) }
{
    out.extend_from_slice(b"wide")?;
    push_register(out, dst)?;
    push_natural(out, whole(low, high))?;
    end_line(out)
}

fn push_goto(out: &mut Vec<u8>, name: &[u8], off: i32) -> Result<(), AllocError>
    ensures { OnOk result (out.new.items
        ≡ out.old.items ++ ended (spaced (name.now ∷ signed_decimal off ∷ []))) }
{
    out.extend_from_slice(name)?;
    push_number(out, off)?;
    end_line(out)
}

fn push_jump(
    out: &mut Vec<u8>,
    width: Width,
    cond: Cond,
    dst: u8,
    src: Operand,
    off: i16,
) -> Result<(), AllocError>
    ensures { OnOk result (out.new.items
        ≡ out.old.items ++ line_text (insn.Jump width cond dst src off)) }
{
    push_sized(out, condition(cond), width)?;
    push_register(out, dst)?;
    push_source(out, src)?;
    push_number(out, i32::from(off))?;
    end_line(out)
}

fn push_exit(out: &mut Vec<u8>) -> Result<(), AllocError>
    ensures { OnOk result (out.new.items ≡ out.old.items ++ line_text insn.Exit) }
{
    out.extend_from_slice(b"exit")?;
    end_line(out)
}

fn push_mov_signed(
    out: &mut Vec<u8>,
    width: Width,
    bits: u8,
    dst: u8,
    src: u8,
) -> Result<(), AllocError>
    ensures { OnOk result (out.new.items
        ≡ out.old.items ++ line_text (insn.MovSigned width bits dst src)) }
{
    push_sized(out, b"movsx", width)?;
    push_natural(out, u64::from(bits))?;
    push_register(out, dst)?;
    push_register(out, src)?;
    end_line(out)
}

fn push_swap(out: &mut Vec<u8>, order: Order, bits: u8, dst: u8) -> Result<(), AllocError>
    ensures { OnOk result (out.new.items ≡ out.old.items ++ line_text (insn.Swap order bits dst)) }
{
    out.extend_from_slice(swap(order))?;
    push_natural(out, u64::from(bits))?;
    push_register(out, dst)?;
    end_line(out)
}

/// Writes the line of an instruction; a second half has none.
fn push_insn(out: &mut Vec<u8>, insn: Insn) -> Result<(), AllocError>
    ensures { OnOk result (out.new.items ≡ out.old.items ++ line_text insn) }
{
    match insn {
        Insn::Alu {
            width,
            op,
            dst,
            src,
        } => push_alu(out, width, op, dst, src),
        Insn::Neg { width, dst } => push_neg(out, width, dst),
        Insn::Load {
            size,
            dst,
            src,
            off,
        } => push_load(out, load(size), dst, src, off),
        Insn::Wide { dst, low, high } => push_wide(out, dst, low, high),
        Insn::Half => Ok(()),
        Insn::Goto { off } => push_goto(out, b"ja", i32::from(off)),
        Insn::GotoLong { off } => push_goto(out, b"jal", off),
        Insn::Jump {
            width,
            cond,
            dst,
            src,
            off,
        } => push_jump(out, width, cond, dst, src, off),
        Insn::Exit => push_exit(out),
        Insn::LoadSigned {
            size,
            dst,
            src,
            off,
        } => push_load(out, signed_load(size), dst, src, off),
        Insn::MovSigned {
            width,
            bits,
            dst,
            src,
        } => push_mov_signed(out, width, bits, dst, src),
        Insn::Swap { order, bits, dst } => push_swap(out, order, bits, dst),
    }
}

/// The text of instructions, without the law about it.
fn list_exactly(alloc: Global, insns: &[Insn]) -> Result<Vec<u8>, NoMemory>
    ensures { IfOk result (λ v. v.items ≡ disassembly insns.now) }
{
    let mut out = Vec::new(alloc);
    for insn in insns {
        push_insn(&mut out, *insn)?;
    }
    Ok(out)
}

/// The one text without names that stands for instructions that decoding can give, one line each.
pub fn disassemble(alloc: Global, insns: &[Insn]) -> Result<Vec<u8>, NoMemory>
    requires { IsWellFormed insns.now }
    ensures text { IfOk result (λ v. v.items ≡ disassembly insns.now) }
    ensures assembles { IfOk result (λ v. assembly profile.Two v.items ≡ Ok insns.now) }
    ensures only { IfOk result (λ v. (p : Profile) (text : List ℕ) → HasNoNames p text
        → assembly p text ≡ Ok insns.now → text ≡ v.items) }
{
    list_exactly(alloc, insns)
}
