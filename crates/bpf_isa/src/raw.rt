//! A slot of eight bytes: the opcode; the registers, the destination in the low four bits; the offset; the immediate number.
ghost use Rattle.std.specs.Prelude.{◌≡◌, ◌+◌, ◌*◌, ◌≤◌, ◌<◌, ◌%◌, length};
ghost use Rattle.bpf_isa.specs.Slots.{raw_at, slot_bytes};
ghost use Rattle.bpf_isa.specs.Checks.{is_zero, takes_register};

/// How many bytes a slot has.
pub const SLOT_BYTES: usize = 8;

/// The fields of a slot, the offset and the immediate number signed and little endian (RFC 9669, section 3).
#[derive(Clone, Copy, Debug, PartialEq, Eq)]
pub struct Raw {
    pub op: u8,
    pub dst: u8,
    pub src: u8,
    pub off: i16,
    pub imm: i32,
}

/// The fields of a slot of the bytes.
#[tactic(auto, unfolding(crate::specs::Slots::raw_at))]
pub fn raw_slot(bytes: &[u8], slot: usize) -> Raw
    requires { 8 * slot + 8 ≤ length bytes.now }
    ensures { result ≡ raw_at bytes.now slot }
{
    let at = SLOT_BYTES * slot;
    Raw {
        op: bytes[at],
        dst: bytes[at + 1] % 16,
        src: bytes[at + 1] / 16,
        off: i16::from_le_bytes([bytes[at + 2], bytes[at + 3]]),
        imm: i32::from_le_bytes([bytes[at + 4], bytes[at + 5], bytes[at + 6], bytes[at + 7]]),
    }
}

impl Raw {
    /// The eight bytes of a slot with these fields.
    #[tactic(auto, unfolding(crate::specs::Slots::slot_bytes))]
    pub fn bytes(&self) -> [u8; 8]
        requires dst { self.now.dst < 16 }
        requires src { self.now.src < 16 }
        ensures { result ≡ slot_bytes self.now }
    {
        let off = self.off.to_le_bytes();
        let imm = self.imm.to_le_bytes();
        [
            self.op,
            self.dst + 16 * self.src,
            off[0],
            off[1],
            imm[0],
            imm[1],
            imm[2],
            imm[3],
        ]
    }

    pub fn has_no_offset(&self) -> bool
        ensures { result ≡ is_zero self.now.off }
    {
        self.off == 0
    }

    pub fn has_no_number(&self) -> bool
        ensures { result ≡ is_zero self.now.imm }
    {
        self.imm == 0
    }

    /// Bit 3 of the opcode says that the second operand is a register.
    pub fn takes_register(&self) -> bool
        ensures { result ≡ takes_register self.now }
    {
        self.op / 8 % 2 == 1
    }
}
