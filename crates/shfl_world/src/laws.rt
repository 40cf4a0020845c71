//! What every lawful lock shows, and what a move of it keeps. The functions do nothing: their contracts are the laws.
ghost use Rattle.shfl_core.specs.Runner.{Lock};
ghost use Rattle.shfl_core.specs.Worlds.{Move};
ghost use Rattle.shfl_laws.specs.Moves.{MayMove};
ghost use Rattle.shfl_world.specs.LawfulLock.{IsLawfulLock, ShowsWellFormed, ShowsHeadline, ShowsItsWorld};
ghost use Rattle.shfl_world.specs.LawfulLock.{MovesLawfully, RoundsAreShort};

/// The shown state is well formed, and is what the plain words say: who holds, who waits where, and
/// who shuffles.
pub fn what_a_world_shows()
    ensures well_formed { (lock : Lock) → IsLawfulLock lock → ShowsWellFormed lock }
    ensures headline { (lock : Lock) → IsLawfulLock lock → ShowsHeadline lock }
    ensures world { (lock : Lock) → IsLawfulLock lock → ShowsItsWorld lock }
{}

/// An acquire, a release or a step of any pass, with any answer of the policy, keeps the lock lawful;
/// the shown states are one admitted step of the line apart, the one that is named.
pub fn every_move_of_a_world()
    ensures law { (lock : Lock) (m : Move) → IsLawfulLock lock → MayMove lock.rules.form m
        → MovesLawfully lock m }
{}

/// A round of shuffling takes at most nine own steps for each pass, and three, those of parking not counted: whatever
/// the other passes do in between, and whatever the policy answers.
pub fn every_round_of_a_world()
    ensures law { (lock : Lock) → IsLawfulLock lock → RoundsAreShort lock }
{}
