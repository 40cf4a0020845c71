//! The laws of what is left of a round. The functions do nothing when they run: their contracts are the laws.
ghost use Rattle.shfl_core.specs.Lawful.{Terms};
ghost use Rattle.shfl_laws.specs.Rounds.{OwnStepLowers, OtherMoveKeeps, OtherAttemptKeeps};
ghost use Rattle.shfl_laws.specs.Rounds.{BeginBounds, RoundIsShort, RoundsGoOn, StepBeginsShortRound};

/// What is left of a round is a number that each own step lowers and no other move changes, neither another pass's nor one
/// of parking, and no attempt of another pass; where the round begins it is at most nine times the passes, and two.
pub fn what_is_left_of_a_round()
    ensures own { (t : Terms) → OwnStepLowers t }
    ensures others { (t : Terms) → OtherMoveKeeps t }
    ensures attempts { (t : Terms) → OtherAttemptKeeps t }
    ensures begins { (t : Terms) → BeginBounds t }
{}

/// In every schedule, and with any answers of the policy, a round takes at most nine own steps for each pass, and three,
/// those of parking not counted.
pub fn a_round_is_short()
    ensures law { (t : Terms) → RoundIsShort t }
    ensures begun { (t : Terms) → StepBeginsShortRound t }
{}

/// The same number by the line that a lock with all its seats filled shows, for every move and the round of any pass.
pub fn what_is_left_by_the_shown_line()
    ensures law { (t : Terms) → RoundsGoOn t }
{}
