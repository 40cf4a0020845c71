//! What holds of every report. The function does nothing when it runs: its contract is the law.
ghost use Rattle.sim_report.specs.Sums.{TalliesAddUp};

/// What is told of each socket adds up to what is told of all passes; so does that of each priority, and of each class.
pub fn tallies_add_up()
    ensures { TalliesAddUp }
{}
