//! Which registers an instruction reads and writes.
ghost use Rattle.std.specs.Prelude.{◌≡◌};
ghost use Rattle.bpf_isa.specs.Operands.{operand_is, reads, written, byte_count};

use crate::insn::{AluOp, Insn, Operand, Size};

impl Size {
    /// How many bytes a load of this size reads.
    pub fn bytes(self) -> u8
        ensures { result ≡ byte_count self }
    {
        match self {
            Size::B => 1,
            Size::H => 2,
            Size::W => 4,
            Size::DW => 8,
        }
    }
}

impl Operand {
    /// Whether the operand is that register.
    pub fn is(self, register: u8) -> bool
        ensures { result ≡ operand_is self register }
    {
        match self {
            Operand::Reg(source) => source == register,
            Operand::Imm(_) => false,
        }
    }
}

impl Insn {
    /// Whether the instruction reads the register. A move doesn't read its destination; an exit reads register 0.
    pub fn reads(self, register: u8) -> bool
        ensures { result ≡ reads self register }
    {
        match self {
            Insn::Alu {
                op: AluOp::Mov,
                src,
                ..
            } => src.is(register),
            Insn::Alu { dst, src, .. } => dst == register || src.is(register),
            Insn::Jump { dst, src, .. } => dst == register || src.is(register),
            Insn::Neg { dst, .. } => dst == register,
            Insn::Swap { dst, .. } => dst == register,
            Insn::Load { src, .. } => src == register,
            Insn::LoadSigned { src, .. } => src == register,
            Insn::MovSigned { src, .. } => src == register,
            Insn::Exit => register == 0,
            Insn::Wide { .. } | Insn::Half | Insn::Goto { .. } | Insn::GotoLong { .. } => false,
        }
    }

    /// The register that the instruction writes.
    pub fn written(self) -> Option<u8>
        ensures { result ≡ written self }
    {
        match self {
            Insn::Alu { dst, .. } => Some(dst),
            Insn::Neg { dst, .. } => Some(dst),
            Insn::Load { dst, .. } => Some(dst),
            Insn::LoadSigned { dst, .. } => Some(dst),
            Insn::MovSigned { dst, .. } => Some(dst),
            Insn::Swap { dst, .. } => Some(dst),
            Insn::Wide { dst, .. } => Some(dst),
            Insn::Jump { .. }
            | Insn::Exit
            | Insn::Half
            | Insn::Goto { .. }
            | Insn::GotoLong { .. } => None,
        }
    }
}
