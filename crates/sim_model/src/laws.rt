//! What holds of every run. The functions do nothing when they run: their contracts are the laws.
ghost use Rattle.sim_model.specs.Laws.{RunsAreSchedules, RunsAreAdmitted, AttemptsAreFirstSteps};
ghost use Rattle.sim_model.specs.Laws.{TimesNeverFall, PollsChangeNothing};
ghost use Rattle.sim_model.specs.Sums.{SumsAgree};

/// The lock of a run is that of one schedule: the moves of its turns, in their order, each of which is admitted.
pub fn runs_are_schedules()
    ensures run { RunsAreSchedules }
    ensures admitted { RunsAreAdmitted }
{}

/// No turn comes before the one that was made last.
pub fn times_never_fall()
    ensures { TimesNeverFall }
{}

/// A pass without a turn is one whose step would change nothing. So to leave its steps out leaves out nothing that the lock
/// could show.
pub fn polls_change_nothing()
    ensures { PollsChangeNothing }
{}

/// Each step is one access to a word; each gain is one of its pass, and ends one wait. So it is after so many turns as can
/// be counted in 64 bits.
pub fn sums_agree()
    ensures { SumsAgree }
{}

/// An attempt takes the lock just where the first step of the call would take it: for a writer a word of 0, for a reader one that no
/// writer has and whose stealing is enabled. So attempts let nobody in whom the steps wouldn't.
pub fn attempts_are_first_steps()
    ensures { AttemptsAreFirstSteps }
{}
