//! Policies from bytes.
ghost use Rattle.std.specs.Prelude.{◌≡◌, ◌≢◌, option_map, IfOk, IfErr};
ghost use Rattle.shfl_policy.specs.declared.error.LoadError.TheVariants.{NoMemory};
ghost use Rattle.shfl_policy.specs.Loading.{Loads, IsLoaded, IsLoadError, IsProgramError};

use crate::error::{Hook, LoadError, ProgramFault};
use crate::policy::Policy;
use bpf_isa::{IsaError, Profile, decode};
use bpf_verifier::{Program, Refusal, verify};
use policy_source::PolicySource;
use std::alloc::Global;

/// The program of these bytes, decoded and verified, where there are bytes.
fn load_program(
    alloc: Global,
    profile: Profile,
    hook: Hook,
    source: &Option<Vec<u8>>,
) -> Result<Option<Program>, LoadError>
    ensures loaded { IfOk result (Loads profile (option_map (λ v. v.items) source.now)) }
    ensures bad { IfErr result (IsProgramError profile hook
        (option_map (λ v. v.items) source.now)) }
{
    let Some(bytes) = source else {
        return Ok(None);
    };
    let insns = match decode(alloc, profile, bytes) {
        Ok(insns) => insns,
        Err(IsaError::NoMemory) => return Err(LoadError::NoMemory),
        Err(error) => return Err(LoadError::Bad {
            hook,
            fault: ProgramFault::Isa(error),
        }),
    };
    match verify(alloc, insns) {
        Ok(program) => Ok(Some(program)),
        Err(Refusal::NoMemory) => Err(LoadError::NoMemory),
        Err(refusal) => Err(LoadError::Bad {
            hook,
            fault: ProgramFault::Refused(refusal),
        }),
    }
}

/// Decodes and verifies both programs, `should` first. The profile says which instructions there are.
pub fn load(
    alloc: Global,
    name: u32,
    profile: Profile,
    source: &PolicySource,
) -> Result<Policy, LoadError>
    ensures loaded { IfOk result (IsLoaded name profile source.now) }
    ensures bad { IfErr result (IsLoadError profile source.now) }
{
    let should = load_program(alloc, profile, Hook::Should, &source.should)?;
    let skip = load_program(alloc, profile, Hook::Skip, &source.skip)?;
    Ok(Policy::new(name, should, skip))
}
