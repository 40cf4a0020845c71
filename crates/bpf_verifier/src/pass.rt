//! One forward pass over the slots.

ghost use Rattle.std.specs.Prelude.{◌≡◌, ◌<◌, ◌≤◌, ◌^◌, ℕ, Some, None, length, All, IfNone, IfSome};
ghost use Rattle.bpf_isa.specs.WellFormed.{HasFields, IsWellFormed};
ghost use Rattle.bpf_verifier.specs.Kinds.{kinds_at_start};
ghost use Rattle.bpf_verifier.specs.Faults.{HasFault, HasNone, IsFirst};
ghost use Rattle.bpf_verifier.specs.Acceptance.{IsAccepted};
ghost use Rattle.bpf_verifier.specs.Pass.{SlotFault, FaultIn, Visits, state_at};

use crate::edges::edge_fault;
use crate::effects::run_kinds;
use crate::reads::kind_fault;
use crate::refusal::Refusal;
use crate::states::{State, hand_on};
use bpf_isa::Insn;

/// The first fault of a slot, by its state.
fn slot_fault(insn: Insn, slot: usize, count: usize, state: State) -> Option<Refusal>
    requires fields { HasFields insn }
    requires slot { slot < 512 }
    ensures none { IfNone result (HasNone (SlotFault insn slot count state)) }
    ensures first { IfSome result (IsFirst (SlotFault insn slot count state)) }
{
    let edge = edge_fault(insn, slot, count);
    if edge.is_some() {
        return edge;
    }
    match state {
        Some(kinds) => kind_fault(insn, slot, &kinds),
        None => None,
    }
}

/// The first fault of a slot, or else its kinds are handed on.
fn visit(insn: Insn, slot: usize, states: &mut [State]) -> Option<Refusal>
    requires fields { HasFields insn }
    requires slot { slot < 512 }
    requires inside { slot < length states.old }
    ensures length { length states.new ≡ length states.old }
    ensures none { IfNone result (HasNone (FaultIn insn slot states.old)) }
    ensures first { IfSome result (IsFirst (FaultIn insn slot states.old)) }
    ensures visits { IfNone result (Visits insn slot states.old states.new) }
{
    let state = states[slot];
    let fault = slot_fault(insn, slot, states.len(), state);
    if fault.is_some() {
        return fault;
    }
    if let Some(mut kinds) = state {
        run_kinds(insn, &mut kinds);
        hand_on(insn, slot, states, &kinds);
    }
    None
}

/// The first fault of the program.
pub fn first_fault(insns: &[Insn], states: &mut [State]) -> Option<Refusal>
    requires program { IsWellFormed insns.now }
    requires one_each { length states.old ≡ length insns.now }
    requires start { state_at states.old 0 ≡ Some kinds_at_start }
    requires others { (slot : ℕ) → 0 < slot → state_at states.old slot ≡ None }
    ensures accepted { IfNone result (IsAccepted insns.now) }
    ensures first { IfSome result (IsFirst (HasFault insns.now)) }
{
    for slot in 0..insns.len() {
        if let Some(fault) = visit(insns[slot], slot, states) {
            return Some(fault);
        }
    }
    None
}
