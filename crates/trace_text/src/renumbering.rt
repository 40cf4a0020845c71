//! Calls by other places of the same names.
ghost use Rattle.std.specs.Prelude.{◌≡◌, ℕ, List, length, map};
ghost use Rattle.std.specs.List.{AllByRecursion};
ghost use Rattle.dir_table.specs.Meanings.{IsAdmitted};
ghost use Rattle.name_order.specs.Places.{ArePlaces};
ghost use Rattle.trace_text.specs.Traces.{dir_act, act_of, call_of, IsActOf, IsCallOf};

use crate::trace::{TraceAct, TraceCall};
use dir_table::DirCall;

// A call on the directory by other places of its names.
#[tactic(auto, using(crate::proofs::OtherPlaces::other_name, crate::proofs::OtherPlaces::other_within))]
fn renumbered_call(places: &[u32], call: DirCall) -> DirCall
    requires { IsAdmitted (length places.now) call }
    ensures said { (names others : List (List ℕ)) → ArePlaces names others places.now
        → dir_act others result ≡ dir_act names call }
    ensures admitted { (names others : List (List ℕ)) → ArePlaces names others places.now
        → IsAdmitted (length others) result }
{
    match call {
        DirCall::Make { dir, name } => DirCall::Make {
            dir,
            name: places[name as usize],
        },
        DirCall::Drop { dir, name } => DirCall::Drop {
            dir,
            name: places[name as usize],
        },
        DirCall::Rename {
            dir,
            name,
            to_dir,
            to_name,
        } => DirCall::Rename {
            dir,
            name: places[name as usize],
            to_dir,
            to_name: places[to_name as usize],
        },
        DirCall::Find { dir, name } => DirCall::Find {
            dir,
            name: places[name as usize],
        },
        DirCall::Count { dir } => DirCall::Count { dir },
        DirCall::Next { dir, after: None } => DirCall::Next { dir, after: None },
        DirCall::Next {
            dir,
            after: Some(name),
        } => DirCall::Next {
            dir,
            after: Some(places[name as usize]),
        },
    }
}

// The call by other places of its names.
fn renumbered(workers: usize, policies: usize, places: &[u32], call: TraceCall) -> TraceCall
    requires { IsCallOf workers (length places.now) policies call }
    ensures said { (names others of : List (List ℕ)) → ArePlaces names others places.now
        → call_of others of result ≡ call_of names of call }
    ensures named { (names others : List (List ℕ)) → ArePlaces names others places.now
        → IsCallOf workers (length others) policies result }
{
    let _ = (workers, policies);
    let act = match call.act {
        TraceAct::Dir(call) => TraceAct::Dir(renumbered_call(places, call)),
        TraceAct::Attach(policy) => TraceAct::Attach(policy),
    };
    TraceCall {
        worker: call.worker,
        act,
    }
}

/// Puts other places of the same names in the calls.
pub fn renumber(workers: usize, policies: usize, places: &[u32], calls: &mut Vec<TraceCall>)
    requires { AllByRecursion (IsCallOf workers (length places.now) policies) calls.old.items }
    ensures said { (names others of : List (List ℕ)) → ArePlaces names others places.now
        → map (call_of others of) calls.new.items ≡ map (call_of names of) calls.old.items }
    ensures named { (names others : List (List ℕ)) → ArePlaces names others places.now
        → AllByRecursion (IsCallOf workers (length others) policies) calls.new.items }
{
    for k in 0..calls.len() {
        calls[k] = renumbered(workers, policies, places, calls[k]);
    }
}
