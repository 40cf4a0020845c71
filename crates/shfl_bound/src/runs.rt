//! What threads do is a run of the model. The function does nothing when it runs: its contract is the law.
ghost use Rattle.std.specs.Prelude.{List};
ghost use Rattle.shfl_line.specs.declared.words.Attr.{Attr};
ghost use Rattle.shfl_core.specs.declared.phase.Rules.{Rules};
ghost use Rattle.shfl_laws.specs.Runs.{RunsGoOn};
ghost use Rattle.shfl_bound.specs.Runs.{RunsAreSafe, MovesAreSchedules};

/// A lock that was opened, and on which passes made steps, attempts and the like, in any order, is what the list of these
/// makes of its opening: each of them goes on with the list by what it is, also where a pass has entered or is about to leave
/// and the others still see it as it was. So every law of runs holds of it; and moves alone are a schedule.
pub fn what_threads_do_is_a_run()
    ensures goes_on { (rules : Rules) (attrs : List Attr) → RunsGoOn rules attrs }
    ensures safe { (rules : Rules) (attrs : List Attr) → RunsAreSafe rules attrs }
    ensures schedules { (rules : Rules) → MovesAreSchedules rules }
{}
