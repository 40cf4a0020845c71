//! The trace that a seed makes.
ghost use Rattle.std.specs.Prelude.{◌≡◌, ◌<◌, ◌≤◌, ◌+◌, ◌*◌, ◌/◌, ◌%◌, ℕ, List, [], ◌∷◌, ◌++◌, map, length, IfOk, OnOk, Some, None, slice_get};
ghost use Rattle.trace_text.specs.CallLists.{list_said, IsListOf};
ghost use Rattle.trace_text.specs.Generator.{states, drawn, number_of, name_of, dir_of, act_drawn, attached, call_drawn, calls_from, attr_of, workers_from, same_socket, generated_policies, generated};
ghost use Rattle.name_order.specs.Names.{AreRisingBy, SameMembers};
ghost use Rattle.trace_text.specs.Spelled.{call_names, act_said};
ghost use Rattle.trace_text.specs.Traces.{document_of, names_of, policy_of, IsWithin};
ghost use Rattle.name_order.specs.Names.{name_at};

use crate::call_list::CallList;
use crate::spelled::{SpelledAct, SpelledCall};
use crate::trace::{NamedSource, Trace};
use bpf_isa::Profile;
use policy_source::PolicySource;
use policy_text::NoMemory;
use shfl_line::Attr;
use std::alloc::Global;

// How many states the generator has, and by which numbers it goes from one to the next.
const STATES: u64 = 2_147_483_648;

const MULTIPLIER: u64 = 1_103_515_245;

const INCREMENT: u64 = 12_345;

// Gives 1 where the waiter's socket is the anchor's, else 0.
const SAME_SOCKET: [u8; 48] = [
    0x61, 0x12, 0, 0, 0, 0, 0, 0, 0x61, 0x11, 4, 0, 0, 0, 0, 0, 0xb7, 0, 0, 0, 1, 0, 0, 0, 0x1d,
    0x21, 1, 0, 0, 0, 0, 0, 0xb7, 0, 0, 0, 0, 0, 0, 0, 0x95, 0, 0, 0, 0, 0, 0, 0,
];

/// The trace of a seed: `calls` calls that `workers` workers make in turn, 1 to 16 of them, with the
/// attachments between them. The calls are at most 65,000.
pub fn generate(alloc: Global, seed: u64, workers: u32, calls: u32) -> Result<Trace, NoMemory>
    requires some { 0 < workers }
    requires few_workers { workers ≤ 16 }
    requires few_calls { calls ≤ 65000 }
    ensures exact { IfOk result (λ t. document_of t ≡ generated seed workers calls) }
    ensures rising { IfOk result (λ t. AreRisingBy (λ n. n.items) t.names.items) }
    ensures within { IfOk result IsWithin }
    ensures named { IfOk result (λ t. SameMembers (call_names (document_of t).calls) (names_of t)) }
{
    let table = name_table(alloc)?;
    let policies = both_policies(alloc)?;
    let list = drawn_calls(alloc, &table, policies.as_slice(), seed, workers, calls)?;
    let numbered = list.finish(alloc, workers as usize, policies.as_slice())?;
    Ok(Trace {
        version: 1,
        profile: Profile::One,
        workers: attributes(alloc, workers)?,
        policies,
        names: numbered.names,
        calls: numbered.calls,
    })
}

// The state after a draw.
fn draw(state: u64) -> u64
    requires { state < states }
    ensures next { result ≡ drawn state }
    ensures within { result < states }
{
    (state * MULTIPLIER + INCREMENT) % STATES
}

// `n` and the number in decimal.
fn name(alloc: Global, number: u8) -> Result<Vec<u8>, NoMemory>
    requires { number < 100 }
    ensures { IfOk result (λ v. v.items ≡ name_of number) }
{
    let mut name = Vec::new(alloc);
    name.push(b'n')?;
    if number < 10 {
        name.push(b'0' + number)?;
    } else {
        name.push(b'0' + number / 10)?;
        name.push(b'0' + number % 10)?;
    }
    Ok(name)
}

// The 64 names, by their numbers.
fn name_table(alloc: Global) -> Result<Vec<Vec<u8>>, NoMemory>
    ensures as_many { IfOk result (λ v. length v.items ≡ 64) }
    ensures names { IfOk result (λ v.
        (k : ℕ) → k < 64 → name_at (map (λ n. n.items) v.items) k ≡ name_of k) }
{
    let mut table = Vec::new(alloc);
    for number in 0..64 {
        table.push(name(alloc, number)?)?;
    }
    Ok(table)
}

// The two policies: one that prefers the anchor's socket, and one that answers no.
fn both_policies(alloc: Global) -> Result<Vec<NamedSource>, NoMemory>
    ensures { IfOk result (λ v. map policy_of v.items ≡ generated_policies) }
{
    let mut policies = Vec::new(alloc);
    let program = Vec::from_slice(alloc, &SAME_SOCKET)?;
    policies.push(NamedSource {
        name: Vec::from_slice(alloc, b"socket")?,
        source: PolicySource {
            should: Some(program),
            skip: None,
        },
    })?;
    policies.push(NamedSource {
        name: Vec::from_slice(alloc, b"none")?,
        source: PolicySource {
            should: None,
            skip: None,
        },
    })?;
    Ok(policies)
}

// The workers, on two sockets in turn.
fn attributes(alloc: Global, workers: u32) -> Result<Vec<Attr>, NoMemory>
    ensures { IfOk result (λ v. v.items ≡ workers_from 0 workers) }
{
    let mut attributes = Vec::new(alloc);
    for worker in 0..workers {
        attributes.push(Attr {
            socket: (worker % 2) as u16,
            prio: 0,
            class: 0,
            kind: 0,
        })?;
    }
    Ok(attributes)
}

// The calls of the seed, in order, with the attachments between them.
fn drawn_calls<'a>(
    alloc: Global,
    table: &'a [Vec<u8>],
    policies: &[NamedSource],
    seed: u64,
    workers: u32,
    calls: u32,
) -> Result<CallList<'a>, NoMemory>
    requires some { 0 < workers }
    requires few_workers { workers ≤ 16 }
    requires few_calls { calls ≤ 65000 }
    requires policies { map policy_of policies.now ≡ generated_policies }
    requires as_many { length table.now ≡ 64 }
    requires names { (k : ℕ) → k < 64 → name_at (map (λ n. n.items) table.now) k ≡ name_of k }
    ensures said { IfOk result (λ l.
        list_said policies.now l ≡ calls_from workers 0 (seed % states) calls) }
    ensures list { IfOk result (IsListOf workers policies.now) }
{
    let mut list = CallList::open(alloc, calls as usize + 65)?;
    let mut state = seed % STATES;
    for call in 0..calls {
        push_attachment(&mut list, policies, workers, call)?;
        let first = draw(state);
        let second = draw(first);
        let third = draw(second);
        let worker = call % workers;
        let act = drawn_act(table, workers, worker, first, second, third);
        list.push(workers as usize, policies, &SpelledCall { worker, act })?;
        state = third;
    }
    Ok(list)
}

// The attachment before a call, where there is one.
fn push_attachment(
    list: &mut CallList,
    policies: &[NamedSource],
    workers: u32,
    call: u32,
) -> Result<(), NoMemory>
    requires some { 0 < workers }
    requires few { length list.old.calls.items < 65536 }
    requires policies { map policy_of policies.now ≡ generated_policies }
    requires list { IsListOf workers policies.now list.old }
    ensures said { OnOk result
        (list_said policies.now list.new ≡ list_said policies.now list.old ++ attached call) }
    ensures list { OnOk result (IsListOf workers policies.now list.new) }
{
    if call % 1000 == 500 {
        let name: &[u8] = if (call / 1000) % 2 == 0 {
            b"none"
        } else {
            b"socket"
        };
        let attachment = SpelledCall {
            worker: 0,
            act: SpelledAct::Attach { name },
        };
        list.push(workers as usize, policies, &attachment)?;
    }
    Ok(())
}

// A directory of the worker, by a drawn number.
fn directory(workers: u32, worker: u32, number: u64) -> u8
    requires few { workers ≤ 16 }
    requires known { worker < workers }
    ensures { result ≡ dir_of workers worker number }
{
    worker as u8 + workers as u8 * (number % 4) as u8
}

// The name that a drawn number stands for.
fn drawn_name<'a>(table: &'a [Vec<u8>], number: u64) -> &'a [u8]
    requires as_many { length table.now ≡ 64 }
    requires names { (k : ℕ) → k < 64 → name_at (map (λ n. n.items) table.now) k ≡ name_of k }
    ensures { result.now ≡ name_of ((number / 4) % 64) }
{
    table[(number / 4 % 64) as usize].as_slice()
}

// The call that the states after three draws make.
fn drawn_act<'a>(
    table: &'a [Vec<u8>],
    workers: u32,
    worker: u32,
    first: u64,
    second: u64,
    third: u64,
) -> SpelledAct<'a>
    requires few { workers ≤ 16 }
    requires known { worker < workers }
    requires as_many { length table.now ≡ 64 }
    requires names { (k : ℕ) → k < 64 → name_at (map (λ n. n.items) table.now) k ≡ name_of k }
    ensures { act_said result
        ≡ act_drawn workers worker (number_of first) (number_of second) (number_of third) }
{
    let (kind, number, other) = (first / 65536 % 8, second / 65536, third / 65536);
    let dir = directory(workers, worker, number);
    let name = drawn_name(table, number);
    if kind < 3 {
        SpelledAct::Make { dir, name }
    } else if kind == 3 {
        SpelledAct::Drop { dir, name }
    } else if kind == 4 {
        SpelledAct::Rename {
            dir,
            name,
            to_dir: directory(workers, worker, other),
            to_name: drawn_name(table, other),
        }
    } else if kind == 5 {
        SpelledAct::Find { dir, name }
    } else if kind == 6 {
        SpelledAct::Count { dir }
    } else {
        SpelledAct::Next {
            dir,
            after: Some(name),
        }
    }
}
