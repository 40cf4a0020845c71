//! Programs that the verifier accepted.

ghost use Rattle.std.specs.Prelude.{◌≡◌, length, IfOk};

use crate::refusal::NoMemory;
use bpf_isa::Insn;
use std::alloc::{AllocError, Global};
use std::marker::Model;

/// A program that the verifier accepted: the instructions, one for each slot.
#[derive(Debug, Drop)]
pub struct Program {
    insns: Vec<Insn>,
}

impl Model for Program {
    ghost use Rattle.std.specs.Prelude.{List};
    ghost use Rattle.bpf_isa.specs.declared.insn.Insn.{Insn};
    ghost use Rattle.bpf_verifier.specs.Acceptance.{IsProgram};

    ghost Value = { List Insn };

    ghost view = { λ program. program.insns.items };

    ghost invariant = { λ program. IsProgram program.insns.items };
}

impl Program {
    ghost use Rattle.bpf_verifier.specs.Acceptance.{IsProgram};
    ghost use Rattle.bpf_verifier.specs.Safety.{RunsSafely};

    /// The instructions as a program.
    pub(crate) fn of(insns: Vec<Insn>) -> Program
        requires { IsProgram insns.items }
        ensures { result ≡ insns.items }
    {
        Program { insns }
    }

    /// The instructions, one for each slot.
    pub fn insns(&self) -> &[Insn]
        ensures instructions { result.now ≡ self.now }
        ensures program { IsProgram self.now }
        ensures safe { RunsSafely self.now }
    {
        &self.insns
    }

    /// How many slots the program has, from 1 to 512.
    pub fn slots(&self) -> u32
        ensures { result ≡ length self.now }
    {
        self.insns.len() as u32
    }

    /// The same program once more.
    pub fn copy(&self, alloc: Global) -> Result<Program, NoMemory>
        ensures { IfOk result (λ copy. copy ≡ self.now) }
    {
        match self.insns.to_vec(alloc) {
            Ok(insns) => Ok(Program { insns }),
            Err(AllocError) => Err(NoMemory),
        }
    }
}
