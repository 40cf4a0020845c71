//! What came of a step of a seat that waits: whether it went on, or looked in vain.
use shfl_core::bits::closed_of;
use shfl_core::{Nap, PassState, Phase};

/// What came of a step. A seat may pause after the last three, and after no other.
#[derive(Clone, Copy, Debug, PartialEq, Eq, Drop)]
pub(crate) enum Outcome {
    /// It went on.
    Advanced,
    /// It looked in vain: it stands as it stood, and looks at the same word again.
    InVain,
    /// It looked in vain at the lock word, at the queue's head, and stealing is enabled: others may come past it.
    InVainOpen,
    /// It ended a round that moved nobody into the batch.
    GroupedNobody,
}

// Whether the step looked at the lock word at the queue's head, and found stealing enabled.
fn finds_open(before: PassState, found: u64) -> bool {
    matches!(before.phase, Phase::Peek | Phase::HeadLook) && !closed_of(found)
}

// Whether the step ended a round with nobody but the shuffler in its batch.
fn ends_round_alone(before: PassState) -> bool {
    matches!(before.nap, Nap::Awake)
        && matches!(before.phase, Phase::Give)
        && before.reg.last == before.reg.me
}

/// What came of the step that found this word, and led from one state to the other.
pub(crate) fn outcome_of(before: PassState, found: u64, after: PassState) -> Outcome {
    if after == before {
        if finds_open(before, found) {
            return Outcome::InVainOpen;
        }
        return Outcome::InVain;
    }
    if ends_round_alone(before) {
        return Outcome::GroupedNobody;
    }
    Outcome::Advanced
}
