//! What the pass keeps of each slot: the kinds on which all paths so far agree.

ghost use Rattle.std.specs.Prelude.{◌≡◌, ◌≢◌, ◌<◌, ◌^◌, ℕ, Some, length, IfSome};
ghost use Rattle.bpf_verifier.specs.Faults.{JumpsBack, LeavesProgram};
ghost use Rattle.bpf_verifier.specs.Pass.{meet, IsMeet, Joins, JoinsAt, HandsOn, state_at};

use crate::edges::{forward_target, next_slot};
use crate::kind::{Kind, REGISTERS};
use bpf_isa::Insn;

/// The kinds on which all paths so far agree, where there is one.
pub type State = Option<[Kind; REGISTERS]>;

fn agreed(a: Kind, b: Kind) -> Kind
    ensures { result ≡ meet a b }
{
    match (a, b) {
        (Kind::Number, Kind::Number) => Kind::Number,
        (Kind::Context, Kind::Context) => Kind::Context,
        _ => Kind::Absent,
    }
}

fn agree(old: &mut [Kind; REGISTERS], new: &[Kind; REGISTERS])
    ensures { IsMeet old.old new.now old.new }
{
    for reg in 0..REGISTERS {
        old[reg] = agreed(old[reg], new[reg]);
    }
}

fn join(states: &mut [State], slot: usize, kinds: &[Kind; REGISTERS])
    requires { slot < length states.old }
    ensures length { length states.new ≡ length states.old }
    ensures here { Joins (state_at states.old slot) kinds.now (state_at states.new slot) }
    ensures others { (at : ℕ) → at ≢ slot → state_at states.new at ≡ state_at states.old at }
{
    match states[slot] {
        None => states[slot] = Some(*kinds),
        Some(old) => {
            let mut met = old;
            agree(&mut met, kinds);
            states[slot] = Some(met);
        }
    }
}

fn join_at(states: &mut [State], to: Option<usize>, kinds: &[Kind; REGISTERS])
    requires { IfSome to (λ slot. slot < length states.old) }
    ensures length { length states.new ≡ length states.old }
    ensures each { (slot : ℕ) →
        JoinsAt to kinds.now slot (state_at states.old slot) (state_at states.new slot) }
{
    if let Some(slot) = to {
        join(states, slot, kinds);
    }
}

/// Hands the kinds behind an instruction to the slots that it leads to.
pub fn hand_on(insn: Insn, slot: usize, states: &mut [State], kinds: &[Kind; REGISTERS])
    requires slot { slot < 512 }
    requires forward { JumpsBack insn slot → ⊥ }
    requires inside { LeavesProgram insn slot (length states.old) → ⊥ }
    ensures length { length states.new ≡ length states.old }
    ensures each { (to : ℕ) →
        HandsOn insn slot kinds.now to (state_at states.old to) (state_at states.new to) }
{
    let next = next_slot(insn, slot);
    let target = forward_target(insn, slot);
    join_at(states, next, kinds);
    if target != next {
        join_at(states, target, kinds);
    }
}
