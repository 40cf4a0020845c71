//! Whether the writes of a trace prevail.
ghost use Rattle.std.specs.Prelude.{◌≡◌, ◌≤◌, ◌∷◌, [], IsTrue, ◌↔◌, length};
ghost use Rattle.trace_text.specs.Histories.{made_in};
ghost use Rattle.trace_text.specs.Traces.{IsWithin};
ghost use Rattle.shfl_workers.specs.Prevailing.{DoWritesPrevail, writes_in};

use dir_table::Dir;
use hist_log::Object;
use trace_text::{Trace, TraceAct, TraceCall};

// How many calls on the directory a call is: 1, or 0 for an attachment.
fn calls_by(call: &TraceCall) -> usize
    ensures count { result ≡ length (made_in (call.now ∷ [])) }
    ensures few { result ≤ 1 }
{
    match call.act {
        TraceAct::Dir(_) => 1,
        TraceAct::Attach(_) => 0,
    }
}

// How many writes it is.
fn writes_by(call: &TraceCall) -> usize
    ensures count { result ≡ length (writes_in (call.now ∷ [])) }
    ensures few { result ≤ 1 }
{
    match call.act {
        TraceAct::Dir(dir_call) => { if Dir::is_read(&dir_call) { 0 } else { 1 } }
        TraceAct::Attach(_) => 0,
    }
}

/// Whether the writes of a trace, made on a copy of the directory for each worker, would be more than its calls on the directory. Then
/// the copies cost more than reads that go on beside each other can save.
pub fn do_writes_prevail(trace: &Trace) -> bool
    requires { IsWithin trace.now }
    ensures { IsTrue result ↔ DoWritesPrevail trace.now }
{
    let mut calls = 0;
    let mut writes = 0;
    for call in trace.calls.as_slice() {
        calls += calls_by(call);
        writes += writes_by(call);
    }
    writes * trace.workers.len() > calls
}
