//! A runner for tests: the calls of a trace on one directory, in the document's order.
ghost use Rattle.std.specs.Prelude.{◌≡◌, ◌<◌, ◌≤◌, ◌+◌, ◌∷◌, ◌++◌, ℕ, List, [], false, map, length, OnOk, IfOk};
ghost use Rattle.std.specs.List.{AllByRecursion};
ghost use Rattle.dir_table.specs.Numbers.{state_numbers};
ghost use Rattle.trace_text.specs.declared.trace.TraceCall.{TraceCall};
ghost use Rattle.trace_text.specs.Report.{done_of};
ghost use Rattle.trace_text.specs.Traces.{IsWithin};
ghost use Rattle.trace_text.specs.Attachments.{attached_in};
ghost use Rattle.syncord_replay.specs.Runnable.{IsRunnable, IsRunOf};
ghost use Rattle.syncord_replay.specs.Serial.{MayDo, Follows, directory_for};

use bpf_isa::Profile;
use dir_table::Dir;
use hist_log::{Entry, Object};
use policy_versions::{Published, Registry};
use shfl_policy::{PolicySource, load};
use std::alloc::Global;
use syncord_replay::{Manner, Run};
use trace_text::{NoMemory, Trace, TraceAct, TraceCall};

// Does a call on the directory, and appends what it was answered. An attachment is none.
fn take_call(dir: &mut Dir, history: &mut Vec<Entry<Dir>>, call: &TraceCall) -> Result<(), NoMemory>
    requires left { 0 < dir.old.spare }
    requires admitted { MayDo (state_numbers dir.old) call.now.act }
    ensures left { dir.old.spare ≤ dir.new.spare + 1 }
    ensures follows { OnOk result ((start : List ℕ) (before : List TraceCall)
        → Follows start before (map done_of history.old.items) (state_numbers dir.old)
        → Follows start (before ++ call.now ∷ []) (map done_of history.new.items)
        (state_numbers dir.new)) }
{
    match call.act {
        TraceAct::Dir(dir_call) => {
            let place = history.len() as u64;
            let reply = dir.apply(&dir_call);
            history.push(Entry {
                worker: call.worker,
                call: dir_call,
                reply,
                receipt: place,
            })?;
        }
        TraceAct::Attach(_) => {}
    }
    Ok(())
}

// Does the calls one after another.
fn take_calls(
    alloc: Global,
    dir: &mut Dir,
    calls: &[TraceCall],
) -> Result<Vec<Entry<Dir>>, NoMemory>
    requires left { length calls.now ≤ dir.old.spare }
    requires admitted { AllByRecursion (λ c. MayDo (state_numbers dir.old) c.act) calls.now }
    ensures { IfOk result (λ history.
        Follows (state_numbers dir.old) calls.now (map done_of history.items) (state_numbers dir.new)) }
{
    let mut history: Vec<Entry<Dir>> = Vec::new(alloc);
    for call in calls {
        take_call(dir, &mut history, call)?;
    }
    Ok(history)
}

// An empty directory for the names and the calls of the trace.
fn open_for(alloc: Global, trace: &Trace) -> Result<Dir, NoMemory>
    requires { IsWithin trace.now }
    ensures { IfOk result (λ dir. dir ≡ directory_for trace.now) }
{
    match Dir::open(alloc, trace.names.len() as u32, trace.calls.len() as u32) {
        Ok(dir) => Ok(dir),
        Err(_) => Err(NoMemory),
    }
}

// Whether a policy is attached.
fn attaches(calls: &[TraceCall]) -> bool
    ensures { result ≡ false → attached_in calls.now ≡ [] }
{
    for call in calls {
        if let TraceAct::Attach(_) = call.act {
            return true;
        }
    }
    false
}

// What a registry has that was closed before anything was published.
fn nothing_published(alloc: Global) -> Result<Published, NoMemory>
    ensures { IfOk result (λ p. p ≡ []) }
{
    let source = PolicySource {
        should: None,
        skip: None,
    };
    let Ok(policy) = load(alloc, 0, Profile::One, &source) else {
        return Err(NoMemory);
    };
    let mut policies = Vec::new(alloc);
    policies.push(policy)?;
    let Ok((registry, publisher, passes)) = Registry::open(alloc, policies, 1) else {
        return Err(NoMemory);
    };
    let (_policies, published) = registry.close(publisher, passes);
    Ok(published)
}

/// By no lock.
pub struct Serially;

impl Manner for Serially {
    ghost ran = { λ t history. Unit {0} };
}

/// Runs a trace that attaches nothing, and gives up on each other one.
pub fn run_serially(alloc: Global, trace: &Trace) -> Result<Run, NoMemory>
    requires { IsRunnable trace.now }
    ensures { IfOk result (IsRunOf (λ t history. Unit {0}) trace.now) }
{
    let calls = trace.calls.as_slice();
    if attaches(calls) {
        return Err(NoMemory);
    }
    let mut dir = open_for(alloc, trace)?;
    let history = take_calls(alloc, &mut dir, calls)?;
    Ok(Run {
        history,
        dir,
        versions: nothing_published(alloc)?,
    })
}
