//! The attachments of worker 0.
ghost use Rattle.std.specs.Prelude.{◌≡◌, ℕ, List, [], ◌∷◌, ◌++◌, length, IfOk, OnOk};
ghost use Rattle.std.specs.List.{AllByRecursion};
ghost use Rattle.trace_text.specs.Attachments.{attached_by, attached_in};
ghost use Rattle.trace_text.specs.Traces.{IsCallOf};
ghost use Rattle.shfl_workers.specs.Attaching.{AreCopies, Attached};

use policy_versions::{Instance, Publisher, Registry};
use std::alloc::Global;
use std::collections::VecDeque;
use std::sync::Wait;
use trace_text::{NoMemory, TraceAct, TraceCall};

/// The right to publish, and a copy of each policy that is still to be attached, in order.
#[derive(Drop)]
pub struct Attaching {
    pub publisher: Publisher,
    pub copies: VecDeque<Instance>,
}

// The copy of one call's policy, if it attaches one.
fn copy_next(
    alloc: Global,
    registry: &Registry,
    copies: &mut VecDeque<Instance>,
    call: &TraceCall,
) -> Result<(), NoMemory>
    requires { (workers : ℕ) × (names : ℕ)
        × IsCallOf workers names (length registry.now.declared) call.now }
    ensures { OnOk result ((policies : List ℕ) → AreCopies registry.now policies copies.old.items
        → AreCopies registry.now (policies ++ attached_by call.now.act) copies.new.items) }
{
    let TraceAct::Attach(policy) = call.act else {
        return Ok(());
    };
    let Ok(copy) = registry.instance(alloc, policy) else {
        return Err(NoMemory);
    };
    copies.push_back(copy)?;
    Ok(())
}

/// A copy of the policy of each attachment, in order.
pub fn copies_of(
    alloc: Global,
    registry: &Registry,
    calls: &[TraceCall],
) -> Result<VecDeque<Instance>, NoMemory>
    requires { (workers : ℕ) × (names : ℕ)
        × AllByRecursion (IsCallOf workers names (length registry.now.declared)) calls.now }
    ensures { IfOk result (λ q. AreCopies registry.now (attached_in calls.now) q.items) }
{
    let mut copies = VecDeque::new(alloc);
    for call in calls {
        copy_next(alloc, registry, &mut copies, call)?;
    }
    Ok(copies)
}

impl Attaching {
    /// Publishes the next copy, which is of this policy, and waits until the place of its version is free.
    pub fn attach<R: Wait>(&mut self, rt: &R, registry: &Registry, policy: u32)
        requires { (done : List ℕ) × (left : List ℕ)
            × Attached registry.now done (policy ∷ left) self.old.publisher self.old.copies.items }
        ensures { (done left : List ℕ)
            → Attached registry.now done (policy ∷ left) self.old.publisher self.old.copies.items
            → Attached registry.now (done ++ policy ∷ []) left
            self.new.publisher self.new.copies.items }
    {
        let _ = policy;
        let Some(copy) = self.copies.pop_front() else {
            unreachable!()
        };
        let _ = self.publisher.publish(rt, registry, copy);
    }
}
