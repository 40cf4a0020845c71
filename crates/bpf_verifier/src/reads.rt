//! The faults of a reached slot, by the kinds of the registers there.

ghost use Rattle.std.specs.Prelude.{◌≡◌, ◌≢◌, ◌<◌, ◌↔◌, ◌^◌, ℕ, true, IfNone, IfSome, IsTrue};
ghost use Rattle.bpf_isa.specs.Operands.{reads};
ghost use Rattle.bpf_isa.specs.WellFormed.{HasFields};
ghost use Rattle.bpf_verifier.specs.Kinds.{kind_at};
ghost use Rattle.bpf_verifier.specs.Faults.{HasNone, IsFirst};
ghost use Rattle.bpf_verifier.specs.Pass.{IsBadLoad, KindFault, IsLowestRead};

use crate::effects::{base_register, is_load_outside, may_take_pointer};
use crate::kind::{Kind, REGISTERS};
use crate::refusal::Refusal;
use bpf_isa::Insn;

fn is_kind(a: Kind, b: Kind) -> bool
    ensures { IsTrue result ↔ (a ≡ b) }
{
    matches!(
        (a, b),
        (Kind::Absent, Kind::Absent) | (Kind::Number, Kind::Number) | (Kind::Context, Kind::Context)
    )
}

/// The lowest register of this kind that the instruction reads.
fn lowest_read(insn: Insn, kinds: &[Kind; REGISTERS], kind: Kind) -> Option<u8>
    requires { HasFields insn }
    ensures none { IfNone result (
        (reg : ℕ) → reads insn reg ≡ true → kind_at kinds.now reg ≢ kind) }
    ensures lowest { IfSome result (IsLowestRead insn kinds.now kind) }
{
    for reg in 0..REGISTERS as u8 {
        if insn.reads(reg) && is_kind(kinds[reg as usize], kind) {
            return Some(reg);
        }
    }
    None
}

fn is_bad_load(insn: Insn, kinds: &[Kind; REGISTERS]) -> bool
    requires { HasFields insn }
    ensures { IsTrue result ↔ IsBadLoad insn kinds.now }
{
    match base_register(insn) {
        Some(base) => is_kind(kinds[base as usize], Kind::Number) || is_load_outside(insn),
        None => false,
    }
}

/// The first fault that the kinds show.
pub fn kind_fault(insn: Insn, slot: usize, kinds: &[Kind; REGISTERS]) -> Option<Refusal>
    requires slot { slot < 512 }
    requires fields { HasFields insn }
    ensures none { IfNone result (HasNone (KindFault insn slot kinds.now)) }
    ensures first { IfSome result (IsFirst (KindFault insn slot kinds.now)) }
{
    if let Some(reg) = lowest_read(insn, kinds, Kind::Absent) {
        return Some(Refusal::NoValue {
            slot: slot as u32,
            reg,
        });
    }
    if !may_take_pointer(insn)
        && let Some(reg) = lowest_read(insn, kinds, Kind::Context)
    {
        return Some(Refusal::PointerUse {
            slot: slot as u32,
            reg,
        });
    }
    if is_bad_load(insn, kinds) {
        return Some(Refusal::BadLoad { slot: slot as u32 });
    }
    None
}
