//! Where an instruction leads.
ghost use Rattle.std.specs.Prelude.{◌≡◌, ◌<◌};
ghost use Rattle.bpf_isa.specs.Flow.{is_half, is_wide, jump_offset, target};

use crate::insn::Insn;

/// The place that an offset names: so many slots from the slot after this one, in full width.
pub fn target(slot: usize, off: i32) -> i64
    requires { slot < 512 }
    ensures { result ≡ target slot off }
{
    slot as i64 + 1 + i64::from(off)
}

impl Insn {
    /// Whether this is the second half of a wide load.
    pub fn is_half(self) -> bool
        ensures { result ≡ is_half self }
    {
        match self {
            Insn::Half => true,
            _ => false,
        }
    }

    /// Whether this is a wide load, which leads over its second half.
    pub fn is_wide(self) -> bool
        ensures { result ≡ is_wide self }
    {
        match self {
            Insn::Wide { .. } => true,
            _ => false,
        }
    }

    /// How many slots a jump skips, counted from the slot after it.
    pub fn jump_offset(self) -> Option<i32>
        ensures { result ≡ jump_offset self }
    {
        match self {
            Insn::Goto { off } => Some(i32::from(off)),
            Insn::Jump { off, .. } => Some(i32::from(off)),
            Insn::GotoLong { off } => Some(off),
            _ => None,
        }
    }
}
