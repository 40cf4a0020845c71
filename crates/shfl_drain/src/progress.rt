//! The laws of who goes on. The functions do nothing when they run: their contracts are the laws.
ghost use Rattle.shfl_core.specs.Lawful.{Terms};
ghost use Rattle.shfl_drain.specs.Progress.{NeverStuck, FreeAtRest, WaitsForAnother, SleeperIsWoken};

/// In every lawful world all passes are idle, or some pass goes on by itself, or one holds the lock and owes no step, so
/// that it may free it. Where all are idle, the lock is free and its queue is empty.
pub fn no_lawful_world_is_stuck()
    ensures law { (t : Terms) → NeverStuck t }
    ensures at_rest { (t : Terms) → FreeAtRest t }
{}

/// Whoever doesn't go on by itself waits for another pass, the one that is named; and a sleeper that was told to go on has
/// its wakeup word set, or waits for a pass that goes on and sets it next.
pub fn each_waiting_pass_waits_for_another()
    ensures law { (t : Terms) → WaitsForAnother t }
    ensures woken { (t : Terms) → SleeperIsWoken t }
{}
