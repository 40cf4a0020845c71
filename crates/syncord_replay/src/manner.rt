//! How a trace is run.

/// In which way a trace is run.
pub trait Manner {
    ghost use Rattle.std.specs.Prelude.{List};
    ghost use Rattle.trace_text.specs.declared.trace.Trace.{Trace};
    ghost use Rattle.trace_text.specs.Report.{Done};

    /// A run of the trace in this way came to this history.
    ghost ran: { Trace → List Done → Type 0 };
}
