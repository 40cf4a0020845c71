//! The calls of a trace whose call lines may stand in a pool.
ghost use Rattle.std.specs.Prelude.{◌≡◌, ◌++◌, ◌≤◌, All, length, map, vec_len, None, IfOk, OnOk};
ghost use Rattle.dir_table.specs.Meanings.{IsAdmitted};
ghost use Rattle.trace_text.specs.Traces.{document_of, is_attachment, IsWithin};
ghost use Rattle.pool_text.specs.PoolDocuments.{pool_fault, first_call_line, calls_by, calls_of};

use dir_table::DirCall;
use doc_text::Fault;
use std::alloc::Global;
use trace_text::{NoMemory, Trace, TraceAct, TraceCall};

/// The most call lines.
const MOST_CALLS: usize = 4096;

/// The fault of a call too many.
pub const OVER: u8 = 16;

/// The fault of an attachment.
pub const ATTACH: u8 = 17;

fn attaches(call: &TraceCall) -> bool
    ensures { result ≡ is_attachment call.now.act }
{
    match call.act {
        TraceAct::Attach(_) => true,
        TraceAct::Dir(_) => false,
    }
}

// The number of the first call line.
fn first_line(trace: &Trace) -> u32
    requires { IsWithin trace.now }
    ensures exact { result ≡ first_call_line (document_of trace.now) }
    ensures small { result ≤ 400 }
{
    u32::from(trace.version) + trace.workers.len() as u32 + trace.policies.len() as u32 + 2
}

/// The first call line that may not be in a pool: the 4,097th is fault 16, and one that attaches a policy is fault 17.
pub fn first_fault(trace: &Trace) -> Option<Fault>
    requires { IsWithin trace.now }
    ensures exact { result ≡ pool_fault (document_of trace.now) }
    ensures few { result ≡ None → length trace.now.calls.items ≤ 4096 }
{
    let first = first_line(trace);
    for place in 0..trace.calls.len() {
        let line = first + place as u32;
        if place >= MOST_CALLS {
            return Some(Fault { line, what: OVER });
        }
        if attaches(&trace.calls[place]) {
            return Some(Fault { line, what: ATTACH });
        }
    }
    None
}

// Appends a call on the directory. An attachment is none.
fn push_dir_call(calls: &mut Vec<DirCall>, call: &TraceCall) -> Result<(), NoMemory>
    ensures { OnOk result (calls.new.items ≡ calls.old.items ++ calls_by call.now.act) }
{
    match call.act {
        TraceAct::Dir(dir_call) => calls.push(dir_call)?,
        TraceAct::Attach(_) => {}
    }
    Ok(())
}

/// The calls on the directory, in the document's order. Who was to make them is left out.
#[tactic(auto, using(policy_text::proofs::Written::joined_rules))]
pub fn dir_calls(alloc: Global, trace: &Trace) -> Result<Vec<DirCall>, NoMemory>
    requires { IsWithin trace.now }
    ensures exact { IfOk result (λ v. v.items ≡ calls_of trace.now.calls.items) }
    ensures few { IfOk result (λ v. vec_len v ≤ length trace.now.calls.items) }
    ensures admitted { IfOk result (λ v.
        All (IsAdmitted (length trace.now.names.items)) v.items) }
{
    let mut calls: Vec<DirCall> = Vec::new(alloc);
    for call in trace.calls.as_slice() {
        push_dir_call(&mut calls, call)?;
    }
    Ok(calls)
}
