//! A policy: a name and two programs.
ghost use Rattle.std.specs.Prelude.{◌≡◌, ◌↔◌, IsTrue, IfOk, IfSome};
ghost use Rattle.bpf_verifier.specs.Acceptance.{IsProgram};

use crate::running::Running;
use bpf_isa::Insn;
use bpf_verifier::Program;
use shfl_line::NoMemory;
use std::alloc::Global;
use std::marker::Model;

/// Two accepted programs under a name.
#[derive(Drop)]
pub struct Policy {
    name: u32,
    should: Option<Program>,
    skip: Option<Program>,
}

impl Model for Policy {
    ghost use Rattle.shfl_policy.specs.Policies.{PolicyModel};

    ghost Value = { PolicyModel };

    ghost view = { λ p. record { name = p.name; should = p.should; skip = p.skip } };
}

fn same_insns(a: &[Insn], b: &[Insn]) -> bool
    ensures { IsTrue result ↔ a.now ≡ b.now }
{
    a == b
}

fn same_program(a: &Option<Program>, b: &Option<Program>) -> bool
    ensures { IsTrue result ↔ a.now ≡ b.now }
{
    match (a, b) {
        (None, None) => true,
        (Some(a), Some(b)) => same_insns(a.insns(), b.insns()),
        _ => false,
    }
}

fn program_is_accepted(program: &Option<Program>)
    ensures { IfSome program.now IsProgram }
{
    if let Some(program) = program {
        let _ = program.insns();
    }
}

fn copy_program(alloc: Global, program: &Option<Program>) -> Result<Option<Program>, NoMemory>
    ensures { IfOk result (λ copy. copy ≡ program.now) }
{
    match program {
        None => Ok(None),
        Some(program) => match program.copy(alloc) {
            Ok(copy) => Ok(Some(copy)),
            Err(_) => Err(NoMemory),
        },
    }
}

impl Policy {
    ghost use Rattle.shfl_policy.specs.Policies.{AreAccepted};

    /// A policy of these programs.
    pub fn new(name: u32, should: Option<Program>, skip: Option<Program>) -> Policy
        ensures { result ≡ record { name = name; should = should; skip = skip } }
    {
        Policy { name, should, skip }
    }

    /// What holds of every policy, however it came to be; the call does nothing when it runs.
    pub fn is_accepted(&self)
        ensures { AreAccepted self.now }
    {
        program_is_accepted(&self.should);
        program_is_accepted(&self.skip);
    }

    /// The name that it was loaded with.
    pub fn name(&self) -> u32
        ensures { result ≡ self.now.name }
    {
        self.name
    }

    pub fn copy(&self, alloc: Global) -> Result<Policy, NoMemory>
        ensures { IfOk result (λ copy. copy ≡ self.now) }
    {
        let should = copy_program(alloc, &self.should)?;
        let skip = copy_program(alloc, &self.skip)?;
        Ok(Policy {
            name: self.name,
            should,
            skip,
        })
    }

    /// Whether the two have one name and the same programs.
    pub fn same(&self, other: &Policy) -> bool
        ensures { IsTrue result ↔ self.now ≡ other.now }
    {
        self.name == other.name
            && same_program(&self.should, &other.should)
            && same_program(&self.skip, &other.skip)
    }

    /// The policy as one that answers.
    pub fn running(&self) -> Running<'_>
        ensures { result ≡ self.now }
    {
        Running::of(self)
    }

    pub fn should_program(&self) -> &Option<Program>
        ensures { result.now ≡ self.now.should }
    {
        &self.should
    }

    pub fn skip_program(&self) -> &Option<Program>
        ensures { result.now ≡ self.now.skip }
    {
        &self.skip
    }
}
