//! One instruction.
ghost use Rattle.std.specs.Prelude.{◌≡◌, ◌≤◌};
ghost use Rattle.std.specs.Int.{w32, w64};
ghost use Rattle.bpf_isa.specs.WellFormed.{HasFields, HasOperand};
ghost use Rattle.bpf_run.specs.Arithmetic.{low, difference};
ghost use Rattle.bpf_run.specs.Instructions.{bits_of, operand_at, result_of, is_met, flow_of, after};
ghost use Rattle.bpf_run.specs.Operations.{address, moved_signed};
ghost use Rattle.bpf_run.specs.Slots.{jumped, jumped_if, wide};

use crate::alu::{compute_32, compute_64, test_32, test_64};
use crate::flow::Flow;
use crate::memory::{load, load_signed};
use crate::order::{extend_32, extend_64, swap};
use bpf_isa::{AluOp, Cond, Insn, Operand, Width};

#[inline(always)]
fn low_half(a: u64) -> u32
    ensures { result ≡ low w32 a }
{
    (a % 0x1_0000_0000) as u32
}

#[inline(always)]
fn operand_64(src: Operand, regs: &[u64; 10]) -> u64
    requires { HasOperand src }
    ensures { result ≡ operand_at w64 src regs.now }
{
    match src {
        Operand::Reg(r) => regs[r as usize],
        Operand::Imm(imm) => i64::from(imm).cast_unsigned(),
    }
}

#[inline(always)]
fn operand_32(src: Operand, regs: &[u64; 10]) -> u32
    requires { HasOperand src }
    ensures { result ≡ operand_at w32 src regs.now }
{
    match src {
        Operand::Reg(r) => low_half(regs[r as usize]),
        Operand::Imm(imm) => imm.cast_unsigned(),
    }
}

#[inline(always)]
fn alu(width: Width, op: AluOp, dst: u8, src: Operand, regs: &[u64; 10]) -> u64
    requires dst { dst ≤ 9 }
    requires src { HasOperand src }
    ensures { result ≡ result_of width op dst src regs.now }
{
    let a = regs[dst as usize];
    match width {
        Width::W64 => compute_64(op, a, operand_64(src, regs)),
        Width::W32 => u64::from(compute_32(op, low_half(a), operand_32(src, regs))),
    }
}

#[inline(always)]
fn negate(width: Width, a: u64) -> u64
    ensures { result ≡ difference (bits_of width) 0 (low (bits_of width) a) }
{
    match width {
        Width::W64 => 0u64.wrapping_sub(a),
        Width::W32 => u64::from(0u32.wrapping_sub(low_half(a))),
    }
}

#[inline(always)]
fn extend(width: Width, bits: u8, a: u64) -> u64
    ensures { result ≡ moved_signed (bits_of width) bits a }
{
    match width {
        Width::W64 => extend_64(bits, a),
        Width::W32 => u64::from(extend_32(bits, a)),
    }
}

#[inline(always)]
fn address_of(base: u64, off: i16) -> u64
    ensures { result ≡ address base off }
{
    base.wrapping_add(i64::from(off).cast_unsigned())
}

#[inline(always)]
fn wide_number(low: i32, high: i32) -> u64
    ensures { result ≡ wide low high }
{
    u64::from(low.cast_unsigned()) + (u64::from(high.cast_unsigned()) << 32)
}

#[inline(always)]
fn jump(off: i32) -> Flow
    ensures { result ≡ jumped off }
{
    if off < 0 {
        Flow::End(0)
    } else {
        Flow::Past(off as u32)
    }
}

#[inline(always)]
fn test(width: Width, cond: Cond, dst: u8, src: Operand, regs: &[u64; 10]) -> bool
    requires dst { dst ≤ 9 }
    requires src { HasOperand src }
    ensures { result ≡ is_met width cond dst src regs.now }
{
    let a = regs[dst as usize];
    match width {
        Width::W64 => test_64(cond, a, operand_64(src, regs)),
        Width::W32 => test_32(cond, low_half(a), operand_32(src, regs)),
    }
}

#[inline(always)]
fn jump_if(taken: bool, off: i16) -> Flow
    ensures { result ≡ jumped_if taken off }
{
    if taken {
        jump(i32::from(off))
    } else {
        Flow::Past(0)
    }
}

/// Does one instruction, and says where the run goes on.
#[inline(always)]
pub fn step(insn: &Insn, regs: &mut [u64; 10], context: &[u8; 40]) -> Flow
    requires { HasFields insn.now }
    ensures flow { result ≡ flow_of insn.now regs.old }
    ensures regs { regs.new ≡ after insn.now context.now regs.old }
{
    let (dst, value) = match *insn {
        Insn::Alu {
            width,
            op,
            dst,
            src,
        } => (dst, alu(width, op, dst, src, regs)),
        Insn::Neg { width, dst } => (dst, negate(width, regs[dst as usize])),
        Insn::Load {
            size,
            dst,
            src,
            off,
        } => (
            dst,
            load(size, address_of(regs[src as usize], off), context),
        ),
        Insn::LoadSigned {
            size,
            dst,
            src,
            off,
        } => (
            dst,
            load_signed(size, address_of(regs[src as usize], off), context),
        ),
        Insn::MovSigned {
            width,
            bits,
            dst,
            src,
        } => (dst, extend(width, bits, regs[src as usize])),
        Insn::Swap { order, bits, dst } => (dst, swap(order, bits, regs[dst as usize])),
        Insn::Wide { dst, low, high } => {
            regs[dst as usize] = wide_number(low, high);
            return Flow::Past(1);
        }
        Insn::Jump {
            width,
            cond,
            dst,
            src,
            off,
        } => return jump_if(test(width, cond, dst, src, regs), off),
        Insn::Goto { off } => return jump(i32::from(off)),
        Insn::GotoLong { off } => return jump(off),
        Insn::Half => return Flow::Past(0),
        Insn::Exit => return Flow::End(regs[0]),
    };
    regs[dst as usize] = value;
    Flow::Past(0)
}
