//! What the laws say in plain words. The functions do nothing when they run: their contracts are the theorems.
ghost use Rattle.shfl_laws.specs.Theorem.{HeadlineLaw, ShowsWellFormed, ShowsOne, ShownLineLaw, RunHeadline};
ghost use Rattle.shfl_laws.specs.Facts.{FactsLaw};
ghost use Rattle.shfl_laws.specs.Plain.{PlainLaw, LawfulLaw};
ghost use Rattle.shfl_laws.specs.PlainMoves.{PlainOne, PlainOpening, PlainStarts, PlainMoves};
ghost use Rattle.shfl_laws.specs.PlainMoves.{PlainAttempts, PlainSeats, PlainRuns};

/// In every lawful world one writer holds the lock, or readers alone, or nobody; every queued waiter stands once in the
/// line or is the one detached, and nobody else does; one pass at most shuffles; the batch is a prefix within the limit.
pub fn a_lawful_world_in_plain_words()
    ensures headline { HeadlineLaw }
    ensures well_formed { ShowsWellFormed }
    ensures one { ShowsOne }
    ensures shown { ShownLineLaw }
    ensures facts { FactsLaw }
{}

/// The same after any schedule from the opening, whatever the policies answer.
pub fn every_run_is_safe()
    ensures headline { RunHeadline }
{}

/// The plain words of a lawful world are the invariant: they hold of every lawful world and the state that it shows, and
/// a world of which they hold is lawful and shows that state.
pub fn plain_words_are_the_invariant()
    ensures plain { PlainLaw }
    ensures lawful { LawfulLaw }
{}

/// The laws in plain words alone: a world shows one state; an opening shows that nobody holds or waits; every move and
/// every attempt leads from a lawful world to one, one step of the line further; and after any schedule the world is lawful.
pub fn every_move_in_plain_words()
    ensures one { PlainOne }
    ensures opening { PlainOpening }
    ensures starts { PlainStarts }
    ensures moves { PlainMoves }
    ensures attempts { PlainAttempts }
    ensures seats { PlainSeats }
    ensures runs { PlainRuns }
{}
