//! What a run is for the lock. The function does nothing when it runs: its contract is the law.
ghost use Rattle.sim_line.specs.Laws.{RunsAreLawful};

/// In every state of a run the lock is lawful: what it shows is well formed, and what its words say hangs together.
pub fn runs_are_lawful()
    ensures { RunsAreLawful }
{}
