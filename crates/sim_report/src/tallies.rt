//! What is counted of passes together.
ghost use Rattle.std.specs.Prelude.{◌≡◌, ◌≤◌, length, IfSome, IfOk};
ghost use Rattle.sim_setup.specs.Clock as clock;
ghost use Rattle.sim_report.specs.Tallies as tallies;

use shfl_line::Attr;
use sim_model::Served;
use sim_setup::PASSES;
use std::alloc::{AllocError, Global};

/// By what passes are told together: all of them, or those of one socket, priority or class.
#[derive(Clone, Copy, Drop)]
pub enum Key {
    All,
    Socket,
    Prio,
    Class,
}

/// What is counted of some passes: the sums, and the largest of their longest waits and of how often one was overtaken.
#[derive(Clone, Copy, Drop)]
pub struct Tally {
    pub gained: u64,
    pub reads: u64,
    pub stolen: u64,
    pub waited: u64,
    pub longest: u64,
    pub overtaken: u64,
}

const NOBODY: Tally = Tally {
    gained: 0,
    reads: 0,
    stolen: 0,
    waited: 0,
    longest: 0,
    overtaken: 0,
};

fn value_of(key: Key, attr: Attr) -> u16
    ensures { result ≡ tallies.value_of key attr }
{
    match key {
        Key::All => 0,
        Key::Socket => attr.socket,
        Key::Prio => attr.prio,
        Key::Class => attr.class,
    }
}

#[tactic(auto, unfolding(sim_setup::specs::Clock::later))]
fn larger(a: u64, b: u64) -> u64
    ensures { result ≡ clock.later a b }
{
    if a < b { b } else { a }
}

#[tactic(auto, unfolding(sim_setup::specs::Clock::plus))]
fn sum(a: u64, b: u64) -> u64
    ensures { result ≡ clock.plus a b }
{
    a.saturating_add(b)
}

fn longest_wait(until: u64, served: &Served) -> u64
    ensures { result ≡ tallies.longest_wait until served.now }
{
    if served.waits {
        larger(served.longest, until.saturating_sub(served.called))
    } else {
        served.longest
    }
}

#[tactic(auto, unfolding(crate::specs::Tallies::joined))]
fn joined(until: u64, tally: Tally, served: &Served) -> Tally
    ensures { result ≡ tallies.joined until tally served.now }
{
    Tally {
        gained: sum(tally.gained, served.gained),
        reads: sum(tally.reads, served.reads),
        stolen: sum(tally.stolen, served.stolen),
        waited: sum(tally.waited, served.waited),
        longest: larger(tally.longest, longest_wait(until, served)),
        overtaken: larger(tally.overtaken, served.overtaken),
    }
}

/// What is counted of the passes that have this value, where a run ends then.
pub fn tally_of(
    key: Key,
    value: u32,
    until: u64,
    attrs: &[Attr],
    served: &[Served; PASSES],
) -> Tally
    requires { length attrs.now ≤ 1024 }
    ensures { result ≡ tallies.tally_in key value until attrs.now served.now }
{
    let mut tally = NOBODY;
    for pass in 0..attrs.len() {
        if u32::from(value_of(key, attrs[pass])) == value {
            tally = joined(until, tally, &served[pass]);
        }
    }
    tally
}

fn lesser(found: Option<u32>, value: u32) -> Option<u32>
    ensures { result ≡ tallies.lesser found value }
{
    match found {
        None => Some(value),
        Some(found) => Some(if value < found { value } else { found }),
    }
}

// The least value from this one on that a pass has.
fn least_from(key: Key, first: u32, attrs: &[Attr]) -> Option<u32>
    ensures least { result ≡ tallies.least_from key first attrs.now (length attrs.now) }
    ensures small { IfSome result (λ v. v ≤ 65535) }
{
    let mut found: Option<u32> = None;
    for pass in 0..attrs.len() {
        let value = u32::from(value_of(key, attrs[pass]));
        if first <= value {
            found = lesser(found, value);
        }
    }
    found
}

/// The values that passes have, each once, in rising order.
pub fn values_of(alloc: Global, key: Key, attrs: &[Attr]) -> Result<Vec<u32>, AllocError>
    ensures values { IfOk result (λ v. v.items ≡ tallies.values_of key attrs.now) }
    ensures few { IfOk result (λ v. length v.items ≤ length attrs.now) }
{
    let mut values = Vec::new(alloc);
    let mut first: u32 = 0;
    for count in 0..attrs.len() {
        let Some(value) = least_from(key, first, attrs) else {
            return Ok(values);
        };
        values.push(value)?;
        first = value + 1;
    }
    Ok(values)
}

/// The number at the half of the way through numbers in rising order; 0 where there is none.
pub fn half_of(waits: &[u64]) -> u64
    ensures { result ≡ tallies.half_of waits.now }
{
    if waits.is_empty() {
        return 0;
    }
    waits[(waits.len() - 1) / 2]
}

/// That behind 99 of a hundred.
pub fn most_of(waits: &[u64]) -> u64
    ensures { result ≡ tallies.most_of waits.now }
{
    if waits.is_empty() {
        return 0;
    }
    let last = waits.len() - 1;
    waits[last / 100 * 99 + last % 100 * 99 / 100]
}
