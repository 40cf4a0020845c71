//! What a call at a seat answers.
ghost use Rattle.std.specs.Prelude.{◌≡◌};
ghost use Rattle.shfl_seats.specs.Told.{answer_told, progress_told, came_of, looked, awake_progress};

use shfl_core::{Nap, Phase};

/// What came of a call at a lock.
#[derive(Clone, Copy, Debug, PartialEq, Eq, Drop)]
pub enum Answer {
    /// It was done.
    Done,
    /// A word was found that refuses the attempt.
    Busy,
    /// The seat holds the lock already.
    Held,
    /// The seat doesn't hold the lock.
    NotHeld,
    /// There is no such lock, its form has no readers, or the seat has a step to make.
    Bad,
    /// There is no memory to note one more lock that is held.
    NoMemory,
}

/// What came of a step. A loop may pause after the last two, and after no other.
#[derive(Clone, Copy, Debug, PartialEq, Eq, Drop)]
pub enum Progress {
    /// The seat had no step to make.
    Rests,
    /// It went on.
    WentOn,
    /// It looks at the same word again.
    LooksAgain,
    /// It ended a round of the shuffler.
    EndedRound,
}

/// An answer as C reads it, from 0 on in the order of their declaration.
pub fn answer_told(answer: Answer) -> u8
    ensures { result ≡ answer_told answer }
{
    match answer {
        Answer::Done => 0,
        Answer::Busy => 1,
        Answer::Held => 2,
        Answer::NotHeld => 3,
        Answer::Bad => 4,
        Answer::NoMemory => 5,
    }
}

/// What came of a step as C reads it, from 0 on in the order of their declaration.
pub fn progress_told(progress: Progress) -> u8
    ensures { result ≡ progress_told progress }
{
    match progress {
        Progress::Rests => 0,
        Progress::WentOn => 1,
        Progress::LooksAgain => 2,
        Progress::EndedRound => 3,
    }
}

// What came of a step of a pass that stood at the first phase and park state, and now stands at the second phase.
#[inline(always)]
pub(crate) fn came_of(nap: Nap, before: Phase, after: Phase) -> Progress
    ensures { result ≡ came_of nap before after }
{
    match nap {
        Nap::Hear => Progress::LooksAgain,
        Nap::Awake => awake_progress(before, after),
        _ => Progress::WentOn,
    }
}

#[inline(always)]
fn looked(again: bool) -> Progress
    ensures { result ≡ looked again }
{
    if again {
        Progress::LooksAgain
    } else {
        Progress::WentOn
    }
}

#[inline(always)]
fn awake_progress(before: Phase, after: Phase) -> Progress
    ensures { result ≡ awake_progress before after }
{
    match before {
        Phase::Look => looked(matches!(after, Phase::Look)),
        Phase::Peek => looked(matches!(after, Phase::Peek)),
        Phase::Late => looked(matches!(after, Phase::Late)),
        Phase::HeadLook => looked(matches!(after, Phase::HeadLook)),
        Phase::Give => Progress::EndedRound,
        _ => Progress::WentOn,
    }
}
