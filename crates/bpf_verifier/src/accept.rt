//! The verifier.

ghost use Rattle.std.specs.Prelude.{◌≡◌, OnOk, IfOk, IfErr};
ghost use Rattle.bpf_isa.specs.WellFormed.{IsWellFormed};
ghost use Rattle.bpf_verifier.specs.Acceptance.{IsAccepted, IsRefusal};

use crate::kind::START;
use crate::pass::first_fault;
use crate::program::Program;
use crate::refusal::Refusal;
use crate::states::State;
use bpf_isa::Insn;
use std::alloc::{AllocError, Global};

/// Accepts a program exactly where it has no fault, and else names the first.
///
/// The instructions are a list that `bpf_isa::decode` can give, in either profile. On a refusal they are dropped.
pub fn verify(alloc: Global, insns: Vec<Insn>) -> Result<Program, Refusal>
    requires { IsWellFormed insns.items }
    ensures program { IfOk result (λ program. program ≡ insns.items) }
    ensures accepted { OnOk result (IsAccepted insns.items) }
    ensures refused { IfErr result (IsRefusal insns.items) }
{
    let mut states: Vec<State> = match vec![in alloc; None; insns.len()] {
        Ok(states) => states,
        Err(AllocError) => return Err(Refusal::NoMemory),
    };
    states[0] = Some(START);
    match first_fault(&insns, &mut states) {
        Some(refusal) => Err(refusal),
        None => Ok(Program::of(insns)),
    }
}
