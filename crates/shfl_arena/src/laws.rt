//! What every operation in an arena keeps. The functions do nothing when they run: their contracts are the laws.
ghost use Rattle.shfl_arena.specs.ArenaOpening.{ArenaOpeningLaw, ArenaThreadLaw};
ghost use Rattle.shfl_arena.specs.ArenaRule.{ArenaTerms};
ghost use Rattle.shfl_arena.specs.ArenaSteps.{ArenaStepLaw, ArenaAttemptLaw, ArenaAttributeLaw, ArenaDisableLaw, ArenaRangeLaw, GoesOnLaw};
ghost use Rattle.shfl_arena.specs.CacheLines.{ApartLaw};
ghost use Rattle.shfl_arena.specs.Headlines.{ArenaHeadline, QueuesAtOne};
ghost use Rattle.shfl_arena.specs.NodeLaws.{TouchLaw, ClearNodeLaw, StateWordLaw, RestingLaw, AlikeLaw, AttributeLaw};
ghost use Rattle.shfl_core.specs.Lawful.{Terms};

/// A step touches no node that nobody uses, but clears its own at `Init`. Whoever leaves the queue leaves a clear node, whose state word
/// may be taken for 0. Of a holder at rest only its number and mode count, and of a world only what its words say. The attribute
/// word of a pass that isn't queued may change.
pub fn laws_of_nodes()
    ensures touch { (t : Terms) → TouchLaw t }
    ensures clear { (t : Terms) → ClearNodeLaw t }
    ensures state_word { (t : Terms) → StateWordLaw t }
    ensures resting { (t : Terms) → RestingLaw t }
    ensures alike { (t : Terms) → AlikeLaw t }
    ensures attributes { (t : Terms) → AttributeLaw t }
{}

/// A step of a thread at a lock, and the one operation of an attempt, keep the arena's rule: that lock's line makes the one step that
/// is named, and the line of every other lock stays. Each line stays where a thread that waits nowhere gets another attribute, and where
/// stealing is disabled at a lock beside the rows.
pub fn every_step_in_an_arena()
    ensures steps { (a : ArenaTerms) → ArenaStepLaw a }
    ensures attempts { (a : ArenaTerms) → ArenaAttemptLaw a }
    ensures attributes { (a : ArenaTerms) → ArenaAttributeLaw a }
    ensures disabling { (a : ArenaTerms) → ArenaDisableLaw a }
{}

/// The rule holds at the opening, with the first thread, and goes on to hold as more come.
pub fn openings_of_arenas()
    ensures opening { ArenaOpeningLaw }
    ensures threads { (a : ArenaTerms) → ArenaThreadLaw a }
{}

/// The word that a thread plans to touch is there; and where a step leads, the thread goes on at the lock or has no step to make.
pub fn threads_go_on()
    ensures range { (a : ArenaTerms) → ArenaRangeLaw a }
    ensures after { GoesOnLaw }
{}

/// Of each lock the headline of the model holds, on its own lock word and tail word, whatever the other locks do.
pub fn each_lock_in_plain_words()
    ensures headline { (a : ArenaTerms) → ArenaHeadline a }
{}

/// Whoever waits or holds the head's place in the queue of one lock is queued at no other.
pub fn a_thread_queues_at_one_lock()
    ensures law { (a : ArenaTerms) → QueuesAtOne a }
{}

/// Words of different threads stand on different cache lines, wherever the words begin at a multiple of 16 bytes; no word of a lock
/// stands on a thread's line; and, spread, each word of a lock has its own.
pub fn words_stand_apart()
    ensures law { ApartLaw }
{}
