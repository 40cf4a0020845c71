//! Instructions to bytes: eight for each slot.
ghost use Rattle.std.specs.Prelude.{◌≡◌, ◌++◌, ◌<◌, Ok, IfOk, OnOk};
ghost use Rattle.bpf_isa.specs.declared.insn.Profile.{Profile};
ghost use Rattle.bpf_isa.specs.Decoding.{decoding};
ghost use Rattle.bpf_isa.specs.Encoding.{alu_code, condition_code, alu_class, jump_class, load_opcode, signed_load_opcode, swap_opcode, raw, operand_raw, raw_of, insn_bytes, encoding};
ghost use Rattle.bpf_isa.specs.Slots.{slot_bytes};
ghost use Rattle.bpf_isa.specs.WellFormed.{HasFields, IsWellFormed, IsOf};

use crate::decoder::WIDE;
use crate::error::NoMemory;
use crate::insn::{AluOp, Cond, Insn, Operand, Order, Size, Width};
use crate::raw::{Raw, SLOT_BYTES};
use std::alloc::{AllocError, Global};

fn operation_code(op: AluOp) -> u8
    ensures code { result ≡ alu_code op }
    ensures small { result < 13 }
{
    match op {
        AluOp::Add => 0x0,
        AluOp::Sub => 0x1,
        AluOp::Mul => 0x2,
        AluOp::Div => 0x3,
        AluOp::Or => 0x4,
        AluOp::And => 0x5,
        AluOp::Lsh => 0x6,
        AluOp::Rsh => 0x7,
        AluOp::Mod => 0x9,
        AluOp::Xor => 0xa,
        AluOp::Mov => 0xb,
        AluOp::Arsh => 0xc,
    }
}

fn cond_code(cond: Cond) -> u8
    ensures code { result ≡ condition_code cond }
    ensures small { result < 14 }
{
    match cond {
        Cond::Eq => 0x1,
        Cond::Gt => 0x2,
        Cond::Ge => 0x3,
        Cond::Set => 0x4,
        Cond::Ne => 0x5,
        Cond::Sgt => 0x6,
        Cond::Sge => 0x7,
        Cond::Lt => 0xa,
        Cond::Le => 0xb,
        Cond::Slt => 0xc,
        Cond::Sle => 0xd,
    }
}

fn arithmetic_class(width: Width) -> u8
    ensures class { result ≡ alu_class width }
    ensures small { result < 8 }
{
    match width {
        Width::W32 => 4,
        Width::W64 => 7,
    }
}

fn condition_class(width: Width) -> u8
    ensures class { result ≡ jump_class width }
    ensures small { result < 8 }
{
    match width {
        Width::W32 => 6,
        Width::W64 => 5,
    }
}

fn load_op(size: Size) -> u8
    ensures { result ≡ load_opcode size }
{
    match size {
        Size::B => 0x71,
        Size::H => 0x69,
        Size::W => 0x61,
        Size::DW => 0x79,
    }
}

fn signed_load_op(size: Size) -> u8
    ensures { result ≡ signed_load_opcode size }
{
    match size {
        Size::B => 0x91,
        Size::H => 0x89,
        Size::W => 0x81,
        Size::DW => 0x99,
    }
}

fn swap_op(order: Order) -> u8
    ensures { result ≡ swap_opcode order }
{
    match order {
        Order::Little => 0xd4,
        Order::Big => 0xdc,
        Order::Swap => 0xd7,
    }
}

fn fields(op: u8, dst: u8, src: u8, off: i16, imm: i32) -> Raw
    ensures { result ≡ raw op dst src off imm }
{
    Raw {
        op,
        dst,
        src,
        off,
        imm,
    }
}

/// The fields of a slot whose second operand is a register or a number.
fn operand_fields(op: u8, dst: u8, src: Operand, off: i16) -> Raw
    requires { op < 248 }
    ensures { result ≡ operand_raw op dst src off }
{
    match src {
        Operand::Reg(src) => fields(op + 8, dst, src, off, 0),
        Operand::Imm(imm) => fields(op, dst, 0, off, imm),
    }
}

/// The fields of an instruction's slot.
fn raw_fields(insn: Insn) -> Raw
    ensures { result ≡ raw_of insn }
{
    match insn {
        Insn::Alu {
            width,
            op,
            dst,
            src,
        } => operand_fields(
            16 * operation_code(op) + arithmetic_class(width),
            dst,
            src,
            0,
        ),
        Insn::Neg { width, dst } => fields(0x80 + arithmetic_class(width), dst, 0, 0, 0),
        Insn::Load {
            size,
            dst,
            src,
            off,
        } => fields(load_op(size), dst, src, off, 0),
        Insn::Wide { dst, low, .. } => fields(WIDE, dst, 0, 0, low),
        Insn::Half => fields(0, 0, 0, 0, 0),
        Insn::Goto { off } => fields(0x05, 0, 0, off, 0),
        Insn::GotoLong { off } => fields(0x06, 0, 0, 0, off),
        Insn::Jump {
            width,
            cond,
            dst,
            src,
            off,
        } => operand_fields(16 * cond_code(cond) + condition_class(width), dst, src, off),
        Insn::Exit => fields(0x95, 0, 0, 0, 0),
        Insn::LoadSigned {
            size,
            dst,
            src,
            off,
        } => fields(signed_load_op(size), dst, src, off, 0),
        Insn::MovSigned {
            width,
            bits,
            dst,
            src,
        } => fields(0xb8 + arithmetic_class(width), dst, src, i16::from(bits), 0),
        Insn::Swap { order, bits, dst } => fields(swap_op(order), dst, 0, 0, i32::from(bits)),
    }
}

fn push_slot(out: &mut Vec<u8>, raw: &Raw) -> Result<(), AllocError>
    requires dst { raw.now.dst < 16 }
    requires src { raw.now.src < 16 }
    ensures { OnOk result (out.new.items ≡ out.old.items ++ slot_bytes raw.now) }
{
    out.extend_from_slice(&raw.bytes())?;
    Ok(())
}

/// Writes the bytes of an instruction at the end: a wide load has those of its second half, which has none of its own.
fn push_insn(out: &mut Vec<u8>, insn: Insn) -> Result<(), AllocError>
    requires { HasFields insn }
    ensures { OnOk result (out.new.items ≡ out.old.items ++ insn_bytes insn) }
{
    match insn {
        Insn::Half => Ok(()),
        Insn::Wide { dst, low, high } => {
            push_slot(out, &fields(WIDE, dst, 0, 0, low))?;
            push_slot(out, &fields(0, 0, 0, 0, high))
        }
        insn => push_slot(out, &raw_fields(insn)),
    }
}

fn encode_all(alloc: Global, insns: &[Insn]) -> Result<Vec<u8>, NoMemory>
    requires { IsWellFormed insns.now }
    ensures { IfOk result (λ v. v.items ≡ encoding insns.now) }
{
    let mut out = Vec::with_capacity(alloc, SLOT_BYTES * insns.len())?;
    for insn in insns {
        push_insn(&mut out, *insn)?;
    }
    Ok(out)
}

/// The bytes of instructions that decoding can give. Decoding these bytes, in a profile that has the instructions, gives them again.
pub fn encode(alloc: Global, insns: &[Insn]) -> Result<Vec<u8>, NoMemory>
    requires { IsWellFormed insns.now }
    ensures bytes { IfOk result (λ v. v.items ≡ encoding insns.now) }
    ensures decodes { IfOk result (λ v. (p : Profile) → IsOf p insns.now
        → decoding p v.items ≡ Ok insns.now) }
{
    encode_all(alloc, insns)
}
