//! What came of a step: whether the pass went on, or looked in vain.
ghost use Rattle.std.specs.Prelude.{◌≡◌, ◌↔◌, IsTrue};
ghost use Rattle.shfl_table.specs.Outcomes.{IsOutcome, ends_round_alone, finds_open, waits_at_head};

use shfl_core::bits::closed_of;
use shfl_core::{Nap, PassState, Phase, Registers};

/// What came of a step. A loop may pause after the last three, and after no other.
#[derive(Clone, Copy, Debug, PartialEq, Eq, Drop)]
pub enum Outcome {
    /// The pass had no step to make.
    Resting,
    /// It went on.
    Advanced,
    /// It looked in vain: it stands as it stood, and looks at the same word again.
    InVain,
    /// It looked in vain at the lock word, at the queue's head, and stealing is enabled: others may come past it.
    InVainOpen,
    /// It ended a round that moved nobody into the batch.
    GroupedNobody,
}

/// Whether the pass waits at the queue's head, where its next step looks at the lock word.
#[inline(always)]
pub(crate) fn waits_at_head(pass: PassState) -> bool
    ensures { result ≡ waits_at_head pass }
{
    matches!(pass.nap, Nap::Awake) && matches!(pass.phase, Phase::Peek | Phase::HeadLook)
}

// Whether the step looked at the lock word at the queue's head, and found stealing enabled.
#[inline(always)]
fn finds_open(before: PassState, found: u64) -> bool
    ensures { result ≡ finds_open before found }
{
    waits_at_head(before) && !closed_of(found)
}

// Whether the step ended a round with nobody but the shuffler in its batch.
#[inline(always)]
fn ends_round_alone(before: PassState) -> bool
    ensures { result ≡ ends_round_alone before }
{
    matches!(before.nap, Nap::Awake)
        && matches!(before.phase, Phase::Give)
        && before.reg.last == before.reg.me
}

fn same_phase(a: Phase, b: Phase) -> bool
    ensures { IsTrue result ↔ a ≡ b }
{
    a == b
}

fn same_nap(a: Nap, b: Nap) -> bool
    ensures { IsTrue result ↔ a ≡ b }
{
    a == b
}

fn same_registers(a: Registers, b: Registers) -> bool
    ensures { IsTrue result ↔ a ≡ b }
{
    a == b
}

// Whether a pass stands where it stood.
#[inline(always)]
fn stands_still(before: PassState, after: PassState) -> bool
    ensures { IsTrue result ↔ after ≡ before }
{
    same_phase(before.phase, after.phase)
        && same_nap(before.nap, after.nap)
        && same_registers(before.reg, after.reg)
}

/// What came of the step that found this word, and led from one state to the other.
#[inline(always)]
pub(crate) fn outcome_of(before: PassState, found: u64, after: PassState) -> Outcome
    ensures { IsOutcome before found after result }
{
    if stands_still(before, after) {
        if finds_open(before, found) {
            return Outcome::InVainOpen;
        }
        return Outcome::InVain;
    }
    if ends_round_alone(before) {
        return Outcome::GroupedNobody;
    }
    Outcome::Advanced
}
