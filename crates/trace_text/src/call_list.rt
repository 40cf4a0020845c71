//! The calls of a trace, each numbered as it is said.
ghost use Rattle.std.specs.Prelude.{◌≡◌, ◌<◌, ◌≤◌, ℕ, List, [], ◌∷◌, ◌++◌, length, map, IfOk, OnOk};
ghost use Rattle.trace_text.specs.declared.trace.NamedSource.{NamedSource};
ghost use Rattle.trace_text.specs.CallLists.{list_said, IsListOf, numbered_said, IsNumbered};
ghost use Rattle.trace_text.specs.Spelled.{call_said, MayBe};
ghost use Rattle.trace_text.specs.Traces.{policy_of};

use crate::numbering::numbered_act;
use crate::renumbering::renumber;
use crate::spelled::{SpelledCall, is_attach};
use crate::trace::{NamedSource, TraceCall};
use name_order::{Gathered, put_in_order};
use policy_text::NoMemory;
use std::alloc::Global;

/// Calls by the places of their names, and the names in order of their bytes, each once.
#[derive(Drop)]
pub struct Numbered {
    pub names: Vec<Vec<u8>>,
    pub calls: Vec<TraceCall>,
}

/// Calls by the places of their names as they were gathered, and how many of the calls are attachments.
#[derive(Drop)]
pub struct CallList<'a> {
    pub names: Gathered<'a>,
    pub calls: Vec<TraceCall>,
    pub attaches: usize,
}

impl<'a> CallList<'a> {
    /// No calls yet; room for so many.
    pub fn open(alloc: Global, count: usize) -> Result<CallList<'a>, NoMemory>
        requires { count ≤ 65536 }
        ensures empty { IfOk result (λ l. l.calls.items ≡ []) }
        ensures list { IfOk result (λ l.
            (workers : ℕ) (policies : List NamedSource) → IsListOf workers policies l) }
    {
        Ok(CallList {
            names: Gathered::nobody(alloc, count)?,
            calls: Vec::with_capacity(alloc, count)?,
            attaches: 0,
        })
    }

    /// One more call, behind the others.
    pub fn push(
        &mut self,
        workers: usize,
        policies: &[NamedSource],
        call: &SpelledCall<'a>,
    ) -> Result<(), NoMemory>
        requires few { length self.old.calls.items < 65536 }
        requires declared { MayBe workers (map policy_of policies.now) (call_said call.now) }
        requires few_policies { length policies.now ≤ 64 }
        requires list { IsListOf workers policies.now self.old }
        ensures said { OnOk result
            (list_said policies.now self.new
            ≡ list_said policies.now self.old ++ call_said call.now ∷ []) }
        ensures list { OnOk result (IsListOf workers policies.now self.new) }
    {
        let _ = workers;
        let act = numbered_act(&mut self.names, policies, call.worker, &call.act)?;
        self.calls.push(TraceCall {
            worker: call.worker,
            act,
        })?;
        self.attaches += usize::from(is_attach(&call.act));
        Ok(())
    }

    /// The calls by the places of their names in order.
    pub fn finish(
        self,
        alloc: Global,
        workers: usize,
        policies: &[NamedSource],
    ) -> Result<Numbered, NoMemory>
        requires few { length self.calls.items ≤ 65536 }
        requires list { IsListOf workers policies.now self }
        ensures said { IfOk result (λ n.
            numbered_said policies.now n ≡ list_said policies.now self.entry) }
        ensures numbered { IfOk result (IsNumbered workers policies.now) }
    {
        let mut calls = self.calls;
        let found = self.names.names();
        let ordered = put_in_order(alloc, found.as_slice())?;
        renumber(
            workers,
            policies.len(),
            ordered.places.as_slice(),
            &mut calls,
        );
        Ok(Numbered {
            names: ordered.names,
            calls,
        })
    }
}
