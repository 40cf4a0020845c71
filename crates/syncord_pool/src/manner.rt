//! How the calls of a trace are run.

/// In which way the calls of a trace are run from one queue.
pub trait PoolManner {
    ghost use Rattle.trace_text.specs.declared.trace.Trace.{Trace};
    ghost use Rattle.syncord_pool.specs.Runs.{Pooled};

    /// A run of the trace's calls in this way came to this history.
    ghost ran: { Trace → Pooled → Type 0 };
}
