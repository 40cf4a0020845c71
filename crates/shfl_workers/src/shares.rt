//! How many calls each worker makes.
ghost use Rattle.std.specs.Prelude.{◌≡◌, ℕ, List, ◌<◌, ◌≤◌, ◌++◌, ◌∷◌, [], length, IfOk};
ghost use Rattle.std.specs.List.{AllByRecursion};
ghost use Rattle.trace_text.specs.declared.trace.TraceCall.{TraceCall};
ghost use Rattle.trace_text.specs.Traces.{IsWithin};
ghost use Rattle.shfl_workers.specs.Shares.{AreShares};

use std::alloc::Global;
use trace_text::{NoMemory, Trace, TraceAct, TraceCall};

// Counts one call more, if it is one on the directory.
fn count_call(shares: &mut Vec<u32>, call: &TraceCall)
    requires known { call.now.worker < length shares.old.items }
    requires few { (calls : List TraceCall) × (workers : ℕ) × (length calls < 65536)
        × AreShares calls workers shares.old.items }
    ensures { (calls : List TraceCall) (workers : ℕ) → AreShares calls workers shares.old.items
        → AreShares (calls ++ call.now ∷ []) workers shares.new.items }
{
    if let TraceAct::Dir(_) = call.act {
        shares[call.worker as usize] += 1;
    }
}

/// The number of calls on the directory that each worker makes.
pub fn shares_of(alloc: Global, trace: &Trace) -> Result<Vec<u32>, NoMemory>
    requires { IsWithin trace.now }
    ensures { IfOk result (λ shares. AreShares trace.now.calls.items
        (length trace.now.workers.items) shares.items) }
{
    let mut shares = vec![in alloc; 0u32; trace.workers.len()]?;
    for call in trace.calls.as_slice() {
        count_call(&mut shares, call);
    }
    Ok(shares)
}
