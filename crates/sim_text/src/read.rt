//! From bytes to a setup.
ghost use Rattle.std.specs.Prelude.{◌≡◌, ◌<◌, ◌≤◌, length, IfOk};
ghost use Rattle.doc_text.specs.Text.{pieces};
ghost use Rattle.policy_text.specs.Errors.{Allows};
ghost use Rattle.sim_text.specs.Grammar.{ReadsBehind, ReadsSetup};
ghost use Rattle.sim_text.specs.Setups.{IsWithin};

use crate::lines::front_of;
use crate::passes::body_of;
use crate::policies::policies_of;
use crate::setup::{Load, Machine, SimSetup};
use policy_text::DocumentError as SetupError;
use std::alloc::Global;

// The policies and the passes, behind the lines up to them.
#[tactic(auto, unfolding(crate::specs::Grammar::setup_in))]
fn behind_front(
    alloc: Global,
    machine: Machine,
    load: Load,
    bytes: &[u8],
) -> Result<SimSetup, SetupError>
    ensures exact { Allows (λ s. s) result (ReadsBehind machine load (pieces bytes.now)) }
    ensures policies { IfOk result (λ s. (0 < length s.policies) × (length s.policies ≤ 16)) }
    ensures passes { IfOk result (λ s. (0 < length s.passes) × (length s.passes ≤ 1024)) }
    ensures front { IfOk result (λ s. (s.machine ≡ machine) × (s.load ≡ load)) }
{
    let (policies, rest) = policies_of(alloc, machine.profile, bytes)?;
    let passes = body_of(alloc, rest, 10 + policies.len() as u32)?;
    Ok(SimSetup {
        machine,
        load,
        policies,
        passes,
    })
}

/// Reads a setup, or names the first bad line and the lowest fault on it.
pub fn read_setup(alloc: Global, bytes: &[u8]) -> Result<SimSetup, SetupError>
    ensures exact { Allows (λ s. s) result (ReadsSetup bytes.now) }
    ensures within { IfOk result IsWithin }
{
    let (machine, load, rest) = front_of(bytes)?;
    behind_front(alloc, machine, load, rest)
}
