//! Arithmetic and comparisons at both widths.
ghost use Rattle.std.specs.Prelude.{◌≡◌};
ghost use Rattle.std.specs.Int.{w32, w64};
ghost use Rattle.bpf_run.specs.Operations.{computed, holds};

use bpf_isa::{AluOp, Cond};

/// An operation on two 64-bit values.
#[inline(always)]
pub fn compute_64(op: AluOp, a: u64, b: u64) -> u64
    ensures { result ≡ computed op w64 a b }
{
    match op {
        AluOp::Add => a.wrapping_add(b),
        AluOp::Sub => a.wrapping_sub(b),
        AluOp::Mul => a.wrapping_mul(b),
        AluOp::Div => { if b == 0 { 0 } else { a / b } }
        AluOp::Or => a | b,
        AluOp::And => a & b,
        AluOp::Lsh => a.wrapping_shl((b % 64) as u32),
        AluOp::Rsh => a >> (b % 64),
        AluOp::Mod => { if b == 0 { a } else { a % b } }
        AluOp::Xor => a ^ b,
        AluOp::Mov => b,
        AluOp::Arsh => (a.cast_signed() >> (b % 64)).cast_unsigned(),
    }
}

/// An operation on two 32-bit values.
#[inline(always)]
pub fn compute_32(op: AluOp, x: u32, y: u32) -> u32
    ensures { result ≡ computed op w32 x y }
{
    match op {
        AluOp::Add => x.wrapping_add(y),
        AluOp::Sub => x.wrapping_sub(y),
        AluOp::Mul => x.wrapping_mul(y),
        AluOp::Div => { if y == 0 { 0 } else { x / y } }
        AluOp::Or => x | y,
        AluOp::And => x & y,
        AluOp::Lsh => x.wrapping_shl(y % 32),
        AluOp::Rsh => x >> (y % 32),
        AluOp::Mod => { if y == 0 { x } else { x % y } }
        AluOp::Xor => x ^ y,
        AluOp::Mov => y,
        AluOp::Arsh => (x.cast_signed() >> (y % 32)).cast_unsigned(),
    }
}

/// A condition on two 64-bit values.
#[inline(always)]
pub fn test_64(cond: Cond, a: u64, b: u64) -> bool
    ensures { result ≡ holds cond w64 a b }
{
    match cond {
        Cond::Eq => a == b,
        Cond::Gt => a > b,
        Cond::Ge => a >= b,
        Cond::Set => a & b != 0,
        Cond::Ne => a != b,
        Cond::Sgt => a.cast_signed() > b.cast_signed(),
        Cond::Sge => a.cast_signed() >= b.cast_signed(),
        Cond::Lt => a < b,
        Cond::Le => a <= b,
        Cond::Slt => a.cast_signed() < b.cast_signed(),
        Cond::Sle => a.cast_signed() <= b.cast_signed(),
    }
}

/// A condition on two 32-bit values.
#[inline(always)]
pub fn test_32(cond: Cond, x: u32, y: u32) -> bool
    ensures { result ≡ holds cond w32 x y }
{
    match cond {
        Cond::Eq => x == y,
        Cond::Gt => x > y,
        Cond::Ge => x >= y,
        Cond::Set => x & y != 0,
        Cond::Ne => x != y,
        Cond::Sgt => x.cast_signed() > y.cast_signed(),
        Cond::Sge => x.cast_signed() >= y.cast_signed(),
        Cond::Lt => x < y,
        Cond::Le => x <= y,
        Cond::Slt => x.cast_signed() < y.cast_signed(),
        Cond::Sle => x.cast_signed() <= y.cast_signed(),
    }
}
