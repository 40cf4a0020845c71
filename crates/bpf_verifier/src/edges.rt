//! Where an instruction leads, and the faults of its edges.

ghost use Rattle.std.specs.Prelude.{◌≡◌, ◌<◌, ◌≤◌, ◌↔◌, ◌+◌, ◌^◌, ◌+ℤ◌, pos, ℕ, Some, None, MatchOption, IfNone, IfSome, IsTrue};
ghost use Rattle.bpf_verifier.specs.Faults.{JumpsBack, LeavesProgram, HasNone, IsFirst};
ghost use Rattle.bpf_verifier.specs.Pass.{next_of, IsTarget, EdgeFault};

use crate::refusal::Refusal;
use bpf_isa::{Insn, target};

/// The slot that is run next where no jump is taken.
pub fn next_slot(insn: Insn, slot: usize) -> Option<usize>
    requires { slot < 512 }
    ensures { result ≡ next_of insn slot }
{
    match insn {
        Insn::Alu { .. }
        | Insn::Neg { .. }
        | Insn::Swap { .. }
        | Insn::MovSigned { .. }
        | Insn::Load { .. }
        | Insn::LoadSigned { .. }
        | Insn::Jump { .. } => Some(slot + 1),
        Insn::Wide { .. } => Some(slot + 2),
        Insn::Goto { .. } | Insn::GotoLong { .. } | Insn::Exit | Insn::Half => None,
    }
}

/// The slot that a jump leads to, which is above its own.
pub fn forward_target(insn: Insn, slot: usize) -> Option<usize>
    requires slot { slot < 512 }
    requires forward { JumpsBack insn slot → ⊥ }
    ensures { IsTarget insn slot result }
{
    match insn.jump_offset() {
        None => None,
        Some(off) => Some(target(slot, off) as usize),
    }
}

fn jumps_back(insn: Insn, slot: usize) -> bool
    requires { slot < 512 }
    ensures { IsTrue result ↔ JumpsBack insn slot }
{
    match insn.jump_offset() {
        Some(off) => target(slot, off) <= slot as i64,
        None => false,
    }
}

fn is_past(to: Option<usize>, count: usize) -> bool
    ensures { IsTrue result ↔ ((slot : ℕ) × (to ≡ Some slot) × (count ≤ slot)) }
{
    match to {
        Some(to) => to >= count,
        None => false,
    }
}

fn leads_out(insn: Insn, slot: usize, count: usize) -> bool
    requires slot { slot < 512 }
    requires forward { JumpsBack insn slot → ⊥ }
    ensures { IsTrue result ↔ LeavesProgram insn slot count }
{
    is_past(next_slot(insn, slot), count) || is_past(forward_target(insn, slot), count)
}

/// The first fault of the slot's edges, in a program of so many slots.
pub fn edge_fault(insn: Insn, slot: usize, count: usize) -> Option<Refusal>
    requires { slot < 512 }
    ensures none { IfNone result (HasNone (EdgeFault insn slot count)) }
    ensures first { IfSome result (IsFirst (EdgeFault insn slot count)) }
{
    if jumps_back(insn, slot) {
        return Some(Refusal::Back { slot: slot as u32 });
    }
    if leads_out(insn, slot, count) {
        return Some(Refusal::OutOfProgram { slot: slot as u32 });
    }
    None
}
