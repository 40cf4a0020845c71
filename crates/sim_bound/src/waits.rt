//! How many gain while a call waits. The function does nothing when it runs: its contract is the law.
ghost use Rattle.sim_bound.specs.Overtaken.{PassedBound, QueuedBound};

/// Whatever the policy answers: while a pass waits, no more later calls pass it than leave the queue or come past it
/// meanwhile, or had done so before and not gained yet; and while it is in the queue, at most the batch limit leave it for
/// each pass ahead.
pub fn few_gain_during_a_wait()
    ensures law { PassedBound }
    ensures queued { QueuedBound }
{}
