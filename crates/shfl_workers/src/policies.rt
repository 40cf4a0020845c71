//! The policies that a trace declares.
ghost use Rattle.std.specs.Prelude.{◌≡◌, IfOk, ◌≤◌, vec_len, length};
ghost use Rattle.shfl_policy.specs.Loading.{IsLoaded};
ghost use Rattle.std.specs.List.{AllByRecursion};
ghost use Rattle.policy_text.specs.Accepted.{AcceptsSource};
ghost use Rattle.shfl_workers.specs.Loaded.{AreLoaded};

use bpf_isa::Profile;
use shfl_policy::{LoadError, Policy, load};
use std::alloc::Global;
use trace_text::{NamedSource, NoMemory};

/// A declared policy under its number.
pub fn load_one(
    alloc: Global,
    number: u32,
    profile: Profile,
    declared: &NamedSource,
) -> Result<Policy, NoMemory>
    requires { AcceptsSource profile declared.now.source }
    ensures { IfOk result (IsLoaded number profile declared.now.source) }
{
    match load(alloc, number, profile, &declared.source) {
        Ok(policy) => Ok(policy),
        Err(LoadError::NoMemory) => Err(NoMemory),
        Err(LoadError::Bad { .. }) => unreachable!(),
    }
}

/// The declared policies, each under its place among them.
pub fn load_all(
    alloc: Global,
    profile: Profile,
    declared: &[NamedSource],
) -> Result<Vec<Policy>, NoMemory>
    requires few { length declared.now ≤ 64 }
    requires accepted { AllByRecursion (λ p. AcceptsSource profile p.source) declared.now }
    ensures count { IfOk result (λ v. vec_len v ≡ length declared.now) }
    ensures loaded { IfOk result (λ v. AreLoaded profile declared.now v.items) }
{
    let mut policies = Vec::with_capacity(alloc, declared.len())?;
    for number in 0..declared.len() {
        let policy = load_one(alloc, number as u32, profile, &declared[number])?;
        policies.push(policy)?;
    }
    Ok(policies)
}
