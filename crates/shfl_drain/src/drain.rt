//! The laws of the drain. The functions do nothing when they run: their contracts are the laws.
ghost use Rattle.shfl_core.specs.Lawful.{Terms};
ghost use Rattle.shfl_drain.specs.Drain.{DrainNumber};
ghost use Rattle.shfl_drain.specs.Schedules.{FewMovesOn, DrainsByThem};
ghost use Rattle.shfl_drain.specs.Windows.{DrainsInWindows};
ghost use Rattle.shfl_drain.specs.Reopening.{Reopens};

/// Of each lawful world there is a number that says how much is left until its lock has drained: 0 where all passes are
/// idle, and at most a number of the passes alone. Only an acquire raises it, whatever the policies answer; each step of a
/// pass that goes on lowers it, and so does each holder that frees the lock.
pub fn what_is_left_until_a_lock_has_drained()
    ensures law { (t : Terms) → DrainNumber t }
{}

/// In every schedule without newcomers at most so many moves lead on, in any order, whatever the policies answer: steps of
/// passes that go on, and holders that free the lock. After so many the lock has drained.
pub fn a_lock_without_newcomers_drains()
    ensures moves { (t : Terms) → FewMovesOn t }
    ensures drained { (t : Terms) → DrainsByThem t }
{}

/// In every schedule that is cut into windows, in each of which nobody comes anew and every pass that has a step to make
/// where the window begins makes one, and where whoever holds the lock frees it within h windows, the lock has drained after h
/// times so many windows, whatever the policies answer.
pub fn a_fair_schedule_drains()
    ensures windows { (t : Terms) → DrainsInWindows t }
{}

/// Each move keeps that where stealing is disabled somebody is queued or about to enable it again; so where all passes are
/// idle it is enabled.
pub fn stealing_is_enabled_in_the_end()
    ensures law { (t : Terms) → Reopens t }
{}
