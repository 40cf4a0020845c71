//! What holds of every run. The function does nothing when it runs: its contract is the laws.
ghost use Rattle.shfl_sched.specs.RunLaws.{MomentsAreRun, MovesMayBeMade};

/// Each moment of a schedule has the lock after the moves so far, and the lock's form allows each move.
pub fn runs_are_moves()
    ensures run { MomentsAreRun }
    ensures allowed { MovesMayBeMade }
{}
