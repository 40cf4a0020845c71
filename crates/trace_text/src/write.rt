ghost use Rattle.std.specs.Prelude.{◌≡◌, ◌∷◌, ◌++◌, [], map, decimal, OnOk, IfOk};
ghost use Rattle.std.specs.List.{flat_map};
ghost use Rattle.doc_text.specs.Text.{ended};
ghost use Rattle.trace_text.specs.Limits.{Fits};
ghost use Rattle.trace_text.specs.Spelling.{worker_line, policy_line, call_line, spelling};
ghost use Rattle.trace_text.specs.Texts.{IsText};
ghost use Rattle.trace_text.specs.Traces.{policy_of, call_of, document_of};
ghost use Rattle.name_order.specs.Names.{name_at};

use crate::trace::{NamedSource, Trace, TraceAct, TraceCall};
use crate::words::push_call;
use doc_text::{push_decimal, push_line};
use policy_text::{NoMemory, push_attr, push_heading, push_program, push_word};
use shfl_line::Attr;
use std::alloc::Global;

/// The name of a policy, and no bytes where there is no such policy.
pub fn policy_name(policies: &[NamedSource], k: u32) -> &[u8]
    ensures { result.now ≡ name_at (map (λ p. p.name.items) policies.now) k }
{
    match policies.get(k as usize) {
        Some(policy) => policy.name.as_slice(),
        None => b"",
    }
}

#[tactic(auto, using(policy_text::proofs::Written::joined_rules))]
fn push_policy(alloc: Global, out: &mut Vec<u8>, policy: &NamedSource) -> Result<(), NoMemory>
    ensures { OnOk result (out.new.items
        ≡ out.old.items ++ ended (policy_line (policy_of policy.now))) }
{
    out.extend_from_slice(b"policy")?;
    push_word(out, policy.name.as_slice())?;
    push_program(alloc, out, &policy.source.should)?;
    push_program(alloc, out, &policy.source.skip)?;
    out.push(b'\n')?;
    Ok(())
}

#[tactic(auto, using(policy_text::proofs::Written::line_rules))]
fn push_call_line(
    out: &mut Vec<u8>,
    names: &[Vec<u8>],
    policies: &[NamedSource],
    call: &TraceCall,
) -> Result<(), NoMemory>
    ensures { OnOk result (out.new.items ≡ out.old.items ++ ended (call_line
        (call_of (map (λ n. n.items) names.now) (map (λ p. p.name.items) policies.now) call.now))) }
{
    push_decimal(out, u64::from(call.worker))?;
    match &call.act {
        TraceAct::Dir(act) => push_call(out, names, act)?,
        TraceAct::Attach(k) => {
            push_word(out, b"attach")?;
            push_word(out, policy_name(policies, *k))?;
        }
    }
    out.push(b'\n')?;
    Ok(())
}

fn push_workers(out: &mut Vec<u8>, workers: &[Attr]) -> Result<(), NoMemory>
    ensures { OnOk result (out.new.items
        ≡ out.old.items ++ flat_map ended (map worker_line workers.now)) }
{
    for attr in workers {
        push_attr(out, b"worker", attr)?;
    }
    Ok(())
}

fn push_policies(alloc: Global, out: &mut Vec<u8>, policies: &[NamedSource]) -> Result<(), NoMemory>
    ensures { OnOk result (out.new.items
        ≡ out.old.items ++ flat_map ended (map policy_line (map policy_of policies.now))) }
{
    for policy in policies {
        push_policy(alloc, out, policy)?;
    }
    Ok(())
}

fn push_calls(
    out: &mut Vec<u8>,
    names: &[Vec<u8>],
    policies: &[NamedSource],
    calls: &[TraceCall],
) -> Result<(), NoMemory>
    ensures { OnOk result (out.new.items ≡ out.old.items ++ flat_map ended (map call_line
        (map (call_of (map (λ n. n.items) names.now)
        (map (λ p. p.name.items) policies.now)) calls.now))) }
{
    for call in calls {
        push_call_line(out, names, policies, call)?;
    }
    Ok(())
}

#[tactic(auto, using(policy_text::proofs::Written::text_rules))]
fn spelled(alloc: Global, trace: &Trace) -> Result<Vec<u8>, NoMemory>
    ensures { IfOk result (λ v. v.items ≡ spelling (document_of trace.now)) }
{
    let mut out: Vec<u8> = Vec::new(alloc);
    let names = trace.names.as_slice();
    let policies = trace.policies.as_slice();
    push_heading(&mut out, b"syncord-trace", trace.version, trace.profile)?;
    push_workers(&mut out, trace.workers.as_slice())?;
    push_policies(alloc, &mut out, policies)?;
    push_line(&mut out, b"calls")?;
    push_calls(&mut out, names, policies, trace.calls.as_slice())?;
    Ok(out)
}

/// The one text of a trace; digits are in lower case.
pub fn write_trace(alloc: Global, trace: &Trace) -> Result<Vec<u8>, NoMemory>
    ensures exact { IfOk result (λ v. v.items ≡ spelling (document_of trace.now)) }
    // The text of a trace that was read is read back as it.
    ensures again { IfOk result (λ v.
        Fits (document_of trace.now) → IsText v.items (document_of trace.now)) }
{
    spelled(alloc, trace)
}
