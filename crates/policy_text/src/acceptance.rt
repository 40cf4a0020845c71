//! Which programs of policies are accepted.
ghost use Rattle.std.specs.Prelude.{◌≡◌, ◌≢◌, ◌↔◌, IsTrue, IfOk, false, option_map};
ghost use Rattle.bpf_verifier.specs.declared.refusal.Refusal.TheVariants.{NoMemory as OutOfMemory};
ghost use Rattle.policy_text.specs.Accepted.{IsProgram, AcceptsProgram, AcceptsSource};

use crate::error::NoMemory;
use bpf_isa::{IsaError, Profile, decode};
use bpf_verifier::{Refusal, verify};
use policy_source::PolicySource;
use std::alloc::Global;

// That a program is refused, unless it was want of memory.
fn refused(refusal: Refusal) -> Result<bool, NoMemory>
    ensures { IfOk result (λ yes. (yes ≡ false) × (refusal ≢ OutOfMemory)) }
{
    match refusal {
        Refusal::NoMemory => Err(NoMemory),
        _ => Ok(false),
    }
}

fn is_program(alloc: Global, profile: Profile, bytes: &[u8]) -> Result<bool, NoMemory>
    ensures { IfOk result (λ yes. IsTrue yes ↔ IsProgram profile bytes.now) }
{
    match decode(alloc, profile, bytes) {
        Ok(insns) => match verify(alloc, insns) {
            Ok(_program) => Ok(true),
            Err(refusal) => refused(refusal),
        },
        Err(IsaError::NoMemory) => Err(NoMemory),
        Err(_) => Ok(false),
    }
}

fn accepts_program(
    alloc: Global,
    profile: Profile,
    program: &Option<Vec<u8>>,
) -> Result<bool, NoMemory>
    ensures { IfOk result (λ yes.
        IsTrue yes ↔ AcceptsProgram profile (option_map (λ v. v.items) program.now)) }
{
    match program {
        None => Ok(true),
        Some(bytes) => is_program(alloc, profile, bytes.as_slice()),
    }
}

/// Whether both programs of a policy are accepted in a profile.
pub fn accepts(alloc: Global, profile: Profile, source: &PolicySource) -> Result<bool, NoMemory>
    ensures { IfOk result (λ yes. IsTrue yes ↔ AcceptsSource profile source.now) }
{
    let should = accepts_program(alloc, profile, &source.should)?;
    let skip = accepts_program(alloc, profile, &source.skip)?;
    Ok(should && skip)
}
