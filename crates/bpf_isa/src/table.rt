//! The table of opcodes (RFC 9669, sections 4 and 5): which instruction a slot has, or what is wrong with it.
ghost use Rattle.std.specs.Prelude.{◌≡◌, ℕ, true};
ghost use Rattle.bpf_isa.specs.Checks.{checked, operand_in};
ghost use Rattle.bpf_isa.specs.Table.{condition_of, jump_in, insn_in, load_of, signed_load_of, load_in};

use crate::alu_table::alu;
use crate::fault::SlotFault;
use crate::insn::{Cond, Insn, Operand, Profile, Size, Width};
use crate::raw::Raw;

/// The last register.
pub const LAST_REGISTER: u8 = 9;

/// The second operand, where `reserved` says that the other reserved fields are 0.
pub fn operand(raw: &Raw, reserved: bool) -> Result<Operand, SlotFault>
    ensures { result ≡ operand_in raw.now reserved }
{
    if raw.takes_register() {
        if raw.dst > LAST_REGISTER || raw.src > LAST_REGISTER {
            Err(SlotFault::Register)
        } else if reserved && raw.has_no_number() {
            Ok(Operand::Reg(raw.src))
        } else {
            Err(SlotFault::Field)
        }
    } else if raw.dst > LAST_REGISTER {
        Err(SlotFault::Register)
    } else if reserved && raw.src == 0 {
        Ok(Operand::Imm(raw.imm))
    } else {
        Err(SlotFault::Field)
    }
}

fn condition(code: u8) -> Option<Cond>
    ensures { result ≡ condition_of code }
{
    Some(match code {
        0x1 => Cond::Eq,
        0x2 => Cond::Gt,
        0x3 => Cond::Ge,
        0x4 => Cond::Set,
        0x5 => Cond::Ne,
        0x6 => Cond::Sgt,
        0x7 => Cond::Sge,
        0xa => Cond::Lt,
        0xb => Cond::Le,
        0xc => Cond::Slt,
        0xd => Cond::Sle,
        _ => return None,
    })
}

#[tactic(auto, unfolding(crate::specs::Table::jump_in))]
fn jump(width: Width, raw: &Raw) -> Result<Insn, SlotFault>
    ensures { result ≡ jump_in width raw.now }
{
    let Some(cond) = condition(raw.op / 16) else {
        return Err(SlotFault::Opcode);
    };
    let src = operand(raw, true)?;
    Ok(Insn::Jump {
        width,
        cond,
        dst: raw.dst,
        src,
        off: raw.off,
    })
}

fn signed_load(profile: Profile, raw: &Raw) -> Option<Insn>
    ensures { result ≡ signed_load_of profile raw.now }
{
    if profile == Profile::One {
        return None;
    }
    let size = match raw.op {
        0x91 => Size::B,
        0x89 => Size::H,
        0x81 => Size::W,
        _ => return None,
    };
    Some(Insn::LoadSigned {
        size,
        dst: raw.dst,
        src: raw.src,
        off: raw.off,
    })
}

fn load(profile: Profile, raw: &Raw) -> Option<Insn>
    ensures { result ≡ load_of profile raw.now }
{
    let size = match raw.op {
        0x71 => Size::B,
        0x69 => Size::H,
        0x61 => Size::W,
        0x79 => Size::DW,
        _ => return signed_load(profile, raw),
    };
    Some(Insn::Load {
        size,
        dst: raw.dst,
        src: raw.src,
        off: raw.off,
    })
}

#[tactic(auto, unfolding(crate::specs::Table::load_in))]
fn checked_load(profile: Profile, raw: &Raw) -> Result<Insn, SlotFault>
    ensures { result ≡ load_in profile raw.now }
{
    let Some(insn) = load(profile, raw) else {
        return Err(SlotFault::Opcode);
    };
    if raw.dst > LAST_REGISTER || raw.src > LAST_REGISTER {
        return Err(SlotFault::Register);
    }
    if raw.has_no_number() {
        Ok(insn)
    } else {
        Err(SlotFault::Field)
    }
}

/// The instruction with no operands, where the reserved fields are 0.
fn plain(insn: Insn, reserved: bool) -> Result<Insn, SlotFault>
    ensures { result ≡ checked true reserved insn }
{
    if reserved {
        Ok(insn)
    } else {
        Err(SlotFault::Field)
    }
}

/// The instruction of a slot that is neither a wide load nor its second half, or its first fault.
#[tactic(auto, unfolding(crate::specs::Table::insn_in))]
pub fn insn_of(profile: Profile, raw: &Raw) -> Result<Insn, SlotFault>
    ensures { result ≡ insn_in profile raw.now }
{
    let no_registers = raw.dst == 0 && raw.src == 0;
    match raw.op {
        0x95 => plain(
            Insn::Exit,
            no_registers && raw.has_no_offset() && raw.has_no_number(),
        ),
        0x05 => plain(
            Insn::Goto { off: raw.off },
            no_registers && raw.has_no_number(),
        ),
        0x06 => plain(
            Insn::GotoLong { off: raw.imm },
            no_registers && raw.has_no_offset(),
        ),
        op => match op % 8 {
            1 => checked_load(profile, raw),
            4 => alu(profile, Width::W32, raw),
            5 => jump(Width::W64, raw),
            6 => jump(Width::W32, raw),
            7 => alu(profile, Width::W64, raw),
            _ => Err(SlotFault::Opcode),
        },
    }
}
