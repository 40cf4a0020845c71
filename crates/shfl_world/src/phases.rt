//! The phases by what a pass does in them.
ghost use Rattle.std.specs.Prelude.{◌≡◌};
ghost use Rattle.shfl_core.specs.Phases as phases;

use shfl_core::{PassState, Phase};

/// Whether the pass holds the lock.
pub fn is_holding(phase: Phase) -> bool
    ensures { result ≡ phases.is_holding phase }
{
    matches!(
        phase,
        Phase::Take
            | Phase::Cut
            | Phase::Late
            | Phase::Ready
            | Phase::Open
            | Phase::Held
            | Phase::Release
            | Phase::ReadRelease
    )
}

/// Whether the pass is in a round of shuffling.
pub fn is_round(phase: Phase) -> bool
    ensures { result ≡ phases.is_round phase }
{
    matches!(
        phase,
        Phase::Next
            | Phase::Tail
            | Phase::Attr
            | Phase::Decide
            | Phase::After
            | Phase::Pick
            | Phase::Aim
            | Phase::Place
            | Phase::Mark
            | Phase::Give
    )
}

/// Whether the pass has joined, and has yet to write the next word of the one before it.
pub fn is_linking(phase: Phase) -> bool
    ensures { result ≡ phases.is_linking phase }
{
    matches!(phase, Phase::Link)
}

/// Whether the pass has its candidate out of the line.
pub fn has_hand(phase: Phase) -> bool
    ensures { result ≡ phases.has_hand phase }
{
    matches!(phase, Phase::Aim | Phase::Place)
}

/// Whether the pass is at the queue's head.
pub fn is_fore(pass: PassState) -> bool
    ensures { result ≡ phases.is_fore pass }
{
    match pass.phase {
        Phase::Close
        | Phase::Peek
        | Phase::Grab
        | Phase::WriteGrab
        | Phase::HeadCount
        | Phase::HeadLook
        | Phase::Take
        | Phase::Cut
        | Phase::Late => true,
        Phase::Begin => pass.reg.headed,
        phase => is_round(phase) && pass.reg.headed,
    }
}

/// Whether the pass is at the queue's head or waits in the queue.
pub fn is_queued(pass: PassState) -> bool
    ensures { result ≡ phases.is_queued pass }
{
    match pass.phase {
        Phase::Close
        | Phase::Peek
        | Phase::Grab
        | Phase::WriteGrab
        | Phase::HeadCount
        | Phase::HeadLook
        | Phase::Take
        | Phase::Cut
        | Phase::Late
        | Phase::Link
        | Phase::Look
        | Phase::Begin => true,
        phase => is_round(phase),
    }
}
