//! What the rule of a board says. The functions do nothing when they run: their contracts are the laws.
ghost use Rattle.shfl_table.specs.PlainWords.{BoardHeadline, BoardHasRun};

use crate::kept::Kept;

/// Between any two operations of any passes in any threads one writer holds the lock, or readers alone, or nobody; every queued
/// waiter stands once in the line or is the one detached, and nobody else does; one pass at most shuffles; the batch is a prefix
/// within the limit. It is so with the passes as others see them, and as they stand.
pub fn a_board_in_plain_words<V: Kept>()
    ensures headline { BoardHeadline V.initial_state V.history }
{}

/// Between any two operations the words and the passes, as they are seen, are what a list of changes makes of the opening: of
/// acquires, releases and steps with their choices, attempts, stealing disabled, seats filled and passes given back. The steps, the
/// attempts and the questions that each pass knows of itself are just those that the list has for it where it is admitted there, and
/// the words that it found are those that the list has there. The history of the values is what the holds in that list have made, in
/// the order in which they ended: each action stands where its own worker, who held the lock as a writer up to there, gives it back.
pub fn what_threads_did_is_a_run<V: Kept>()
    ensures run { BoardHasRun V.initial_state V.history }
{}
