ghost use Rattle.std.specs.Prelude.{◌≡◌, ◌≤◌, length, map, Ok, IfOk};
ghost use Rattle.doc_text.specs.Text.{pieces};
ghost use Rattle.doc_text.specs.Faults.{Gives, GivesOrWants};
ghost use Rattle.policy_text.specs.Headings.{heading};
ghost use Rattle.trace_text.specs.Document.{Document};
ghost use Rattle.policy_text.specs.Errors.{fault_of, Allows};
ghost use Rattle.trace_text.specs.Grammar.{trace_heading, front_in, ReadsTrace};
ghost use Rattle.trace_text.specs.Limits.{Fits};
ghost use Rattle.name_order.specs.Names.{AreRisingBy, SameMembers};
ghost use Rattle.trace_text.specs.Spelled.{call_names};
ghost use Rattle.trace_text.specs.Texts.{IsText};
ghost use Rattle.trace_text.specs.Traces.{document_of, names_of, IsWithin};

use crate::calls::calls_of;
use crate::faults::PROFILE;
use crate::policies::policies_of;
use crate::trace::Trace;
use crate::workers::workers_of;
use bpf_isa::Profile;
use doc_text::Fault;
use policy_text::{DocumentError as TraceError, heading_of};
use std::alloc::Global;

#[tactic(auto, unfolding(crate::specs::Grammar::trace_heading))]
fn trace_heading(bytes: &[u8]) -> Result<(u8, Profile, &[u8]), Fault>
    ensures exact { Gives (λ x. heading x.0 x.1 (pieces x.2.now)) result
        (trace_heading (pieces bytes.now)) }
    ensures known { IfOk result (λ x. x.0 ≤ 2) }
{
    heading_of(b"syncord-trace", PROFILE, bytes)
}

#[tactic(auto, unfolding(crate::specs::Grammar::front_in, crate::specs::Grammar::document_in))]
fn trace_of(alloc: Global, bytes: &[u8]) -> Result<Trace, TraceError>
    ensures exact { Allows document_of result (ReadsTrace bytes.now) }
    ensures rising { IfOk result (λ t. AreRisingBy (λ n. n.items) t.names.items) }
    ensures within { IfOk result IsWithin }
    ensures named { IfOk result (λ t. SameMembers (call_names (document_of t).calls) (names_of t)) }
{
    let (version, profile, rest) = trace_heading(bytes)?;
    let line = u32::from(version) + 1;
    let (workers, rest) = workers_of(alloc, rest, line)?;
    let line = line + workers.len() as u32;
    let (policies, rest) = policies_of(alloc, profile, rest, line)?;
    let line = line + policies.len() as u32;
    let numbered = calls_of(alloc, workers.len(), policies.as_slice(), rest, line)?;
    Ok(Trace {
        version,
        profile,
        workers,
        policies,
        names: numbered.names,
        calls: numbered.calls,
    })
}

/// Reads a trace, or names the first bad line and the lowest fault on it.
pub fn read_trace(alloc: Global, bytes: &[u8]) -> Result<Trace, TraceError>
    ensures exact { Allows document_of result (ReadsTrace bytes.now) }
    // What is read is the trace of which the bytes are a text, and a text of a trace within the limits is read as it.
    ensures found { IfOk result (λ t. IsText bytes.now (document_of t) × Fits (document_of t)) }
    ensures only { (d : Document) → Fits d → IsText bytes.now d →
        GivesOrWants fault_of document_of result (Ok d) }
    ensures rising { IfOk result (λ t. AreRisingBy (λ n. n.items) t.names.items) }
    ensures within { IfOk result IsWithin }
    ensures named { IfOk result (λ t. SameMembers (call_names (document_of t).calls) (names_of t)) }
{
    trace_of(alloc, bytes)
}
