//! One law for each step of the table. The functions do nothing when they run: their contracts are the laws, which speak
//! of every lawful world, and not of those of a run alone.
ghost use Rattle.shfl_core.specs.Lawful.{Terms};
ghost use Rattle.shfl_laws.specs.Rows.{OutsideLaws, AttemptLaws, JoinLaws, ChoosingLaws};
ghost use Rattle.shfl_laws.specs.Rows.{RelinkLaws, HeadLaws, LeaveLaws, ParkLaws};

/// Taking the lock past the queue, and giving it back.
pub fn laws_outside_the_queue()
    ensures laws { (t : Terms) → OutsideLaws t }
{}

/// The one operation by which an idle pass tries for the lock, in either mode, and what takes its count back.
pub fn laws_of_attempts()
    ensures laws { (t : Terms) → AttemptLaws t }
{}

/// Joining the queue, also with the link written late, and waiting in it.
pub fn laws_of_joining()
    ensures laws { (t : Terms) → JoinLaws t }
{}

/// A round of shuffling up to the choice of the waiter that moves.
pub fn laws_of_choosing()
    ensures laws { (t : Terms) → ChoosingLaws t }
{}

/// The three stores of a relink, the batch number, and the handoff of the shuffler's flag.
pub fn laws_of_relinking()
    ensures laws { (t : Terms) → RelinkLaws t }
{}

/// The queue's head, as it waits for the lock and takes it, in either mode.
pub fn laws_at_the_head()
    ensures laws { (t : Terms) → HeadLaws t }
{}

/// The head leaves the queue and makes its successor ready.
pub fn laws_of_leaving()
    ensures laws { (t : Terms) → LeaveLaws t }
{}

/// The steps of a pass that parks, and of one that wakes another.
pub fn laws_of_parking()
    ensures laws { (t : Terms) → ParkLaws t }
{}
