//! The opcodes of arithmetic (RFC 9669, sections 4.1 and 4.2).
ghost use Rattle.std.specs.Prelude.{◌≡◌, ℕ};
ghost use Rattle.bpf_isa.specs.Table.{alu_op, alu_in, neg_in, extended_bits, mov_signed_in, order_of, swapped_bits, swap_in};

use crate::fault::SlotFault;
use crate::insn::{AluOp, Insn, Order, Profile, Width};
use crate::raw::Raw;
use crate::table::{LAST_REGISTER, operand};

fn operation(code: u8) -> Option<AluOp>
    ensures { result ≡ alu_op code }
{
    Some(match code {
        0x0 => AluOp::Add,
        0x1 => AluOp::Sub,
        0x2 => AluOp::Mul,
        0x3 => AluOp::Div,
        0x4 => AluOp::Or,
        0x5 => AluOp::And,
        0x6 => AluOp::Lsh,
        0x7 => AluOp::Rsh,
        0x9 => AluOp::Mod,
        0xa => AluOp::Xor,
        0xb => AluOp::Mov,
        0xc => AluOp::Arsh,
        _ => return None,
    })
}

fn neg(width: Width, raw: &Raw) -> Result<Insn, SlotFault>
    ensures { result ≡ neg_in width raw.now }
{
    if raw.takes_register() {
        return Err(SlotFault::Opcode);
    }
    if raw.dst > LAST_REGISTER {
        return Err(SlotFault::Register);
    }
    if raw.src != 0 || !raw.has_no_offset() || !raw.has_no_number() {
        return Err(SlotFault::Field);
    }
    Ok(Insn::Neg {
        width,
        dst: raw.dst,
    })
}

/// How many bits a move may extend, by its offset.
fn extension(profile: Profile, width: Width, off: i16) -> Option<u8>
    ensures { result ≡ extended_bits profile width off }
{
    match (profile, width, off) {
        (Profile::One, _, _) => None,
        (Profile::Two, _, 8) => Some(8),
        (Profile::Two, _, 16) => Some(16),
        (Profile::Two, Width::W64, 32) => Some(32),
        _ => None,
    }
}

fn mov_signed(profile: Profile, width: Width, raw: &Raw) -> Result<Insn, SlotFault>
    ensures { result ≡ mov_signed_in profile width raw.now }
{
    if raw.dst > LAST_REGISTER || raw.src > LAST_REGISTER {
        return Err(SlotFault::Register);
    }
    if !raw.has_no_number() {
        return Err(SlotFault::Field);
    }
    let Some(bits) = extension(profile, width, raw.off) else {
        return Err(SlotFault::Field);
    };
    Ok(Insn::MovSigned {
        width,
        bits,
        dst: raw.dst,
        src: raw.src,
    })
}

/// What a byte swap does, by its width and bit 3 of the opcode.
fn byte_order(profile: Profile, width: Width, bit: bool) -> Option<Order>
    ensures { result ≡ order_of profile width bit }
{
    match (profile, width, bit) {
        (Profile::Two, Width::W32, false) => Some(Order::Little),
        (Profile::Two, Width::W32, true) => Some(Order::Big),
        (Profile::Two, Width::W64, false) => Some(Order::Swap),
        _ => None,
    }
}

/// How many bits a byte swap may have, by its immediate number.
fn swap_width(imm: i32) -> Option<u8>
    ensures { result ≡ swapped_bits imm }
{
    match imm {
        16 => Some(16),
        32 => Some(32),
        64 => Some(64),
        _ => None,
    }
}

fn swap(profile: Profile, width: Width, raw: &Raw) -> Result<Insn, SlotFault>
    ensures { result ≡ swap_in profile width raw.now }
{
    let Some(order) = byte_order(profile, width, raw.takes_register()) else {
        return Err(SlotFault::Opcode);
    };
    if raw.dst > LAST_REGISTER {
        return Err(SlotFault::Register);
    }
    if raw.src != 0 || !raw.has_no_offset() {
        return Err(SlotFault::Field);
    }
    let Some(bits) = swap_width(raw.imm) else {
        return Err(SlotFault::Field);
    };
    Ok(Insn::Swap {
        order,
        bits,
        dst: raw.dst,
    })
}

/// The arithmetic instruction of a slot, or its first fault.
#[tactic(auto, unfolding(crate::specs::Table::alu_in))]
pub fn alu(profile: Profile, width: Width, raw: &Raw) -> Result<Insn, SlotFault>
    ensures { result ≡ alu_in profile width raw.now }
{
    let code = raw.op / 16;
    if code == 0x8 {
        return neg(width, raw);
    }
    if code == 0xd {
        return swap(profile, width, raw);
    }
    if code == 0xb && raw.takes_register() && !raw.has_no_offset() {
        return mov_signed(profile, width, raw);
    }
    let Some(op) = operation(code) else {
        return Err(SlotFault::Opcode);
    };
    let src = operand(raw, raw.has_no_offset())?;
    Ok(Insn::Alu {
        width,
        op,
        dst: raw.dst,
        src,
    })
}
