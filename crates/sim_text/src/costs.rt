//! The line of the costs.
ghost use Rattle.std.specs.Prelude.{◌≡◌, option_map};
ghost use Rattle.doc_text.specs.Words.{words};
ghost use Rattle.sim_text.specs.Said.{left_said};
ghost use Rattle.sim_text.specs.Words.{words_left};
ghost use Rattle.sim_text.specs.Lines.{usual_costs, access_next, step_next, costs_named, costs_in, is_usual};

use crate::words::{name_next, number_next};
use doc_text::{is_same, word_at};
use sim_setup::Costs;

/// Guesses of the usual size.
const USUAL: Costs = Costs {
    hit: 1,
    near: 45,
    far: 130,
    port: 10,
    atomic: 6,
    local: 2,
    ask: 5,
    insn: 3,
    park: 1500,
    wake: 1000,
    rise: 4000,
};

/// What an access costs.
#[derive(Clone, Copy)]
struct Access {
    hit: u32,
    near: u32,
    far: u32,
    port: u32,
    atomic: u32,
}

/// What a step costs besides.
#[derive(Clone, Copy)]
struct Beside {
    local: u32,
    ask: u32,
    insn: u32,
}

#[tactic(auto, unfolding(crate::specs::Lines::access_next))]
fn access_next(left: Option<&[u8]>) -> Option<(Access, Option<&[u8]>)>
    ensures { option_map (λ x. (
      record {
        hit = x.0.hit;
        near = x.0.near;
        far = x.0.far;
        port = x.0.port;
        atomic = x.0.atomic;
      },
      words_left (left_said x.1),
    )) result
        ≡ access_next (words_left (left_said left.entry)) }
{
    let (hit, left) = number_next(left)?;
    let (near, left) = number_next(left)?;
    let (far, left) = number_next(left)?;
    let (port, left) = number_next(left)?;
    let (atomic, left) = number_next(left)?;
    let access = Access {
        hit,
        near,
        far,
        port,
        atomic,
    };
    Some((access, left))
}

#[tactic(auto, unfolding(crate::specs::Lines::step_next))]
fn step_next(left: Option<&[u8]>) -> Option<(Beside, Option<&[u8]>)>
    ensures { option_map (λ x. (
      record { local = x.0.local; ask = x.0.ask; insn = x.0.insn },
      words_left (left_said x.1),
    )) result ≡ step_next (words_left (left_said left.entry)) }
{
    let (local, left) = number_next(left)?;
    let (ask, left) = number_next(left)?;
    let (insn, left) = number_next(left)?;
    Some((Beside { local, ask, insn }, left))
}

#[tactic(auto, using(crate::proofs::Leftover::none_more), unfolding(crate::specs::Lines::costs_named))]
fn costs_named(left: Option<&[u8]>) -> Option<Costs>
    ensures { result ≡ costs_named (words_left (left_said left.entry)) }
{
    let (access, left) = access_next(left)?;
    let (beside, left) = step_next(left)?;
    let (park, left) = number_next(left)?;
    let (wake, left) = number_next(left)?;
    let (rise, left) = number_next(left)?;
    match left {
        Some(_) => None,
        None => Some(Costs {
            hit: access.hit,
            near: access.near,
            far: access.far,
            port: access.port,
            atomic: access.atomic,
            local: beside.local,
            ask: beside.ask,
            insn: beside.insn,
            park,
            wake,
            rise,
        }),
    }
}

#[tactic(auto, using(crate::proofs::Leftover::usual_more))]
fn is_usual(left: Option<&[u8]>) -> bool
    ensures { result ≡ is_usual (words_left (left_said left.entry)) }
{
    let Some(text) = left else {
        return false;
    };
    let (word, more) = word_at(text);
    match more {
        Some(_) => false,
        None => is_same(word, b"usual"),
    }
}

/// The costs that a line says.
#[tactic(auto, unfolding(crate::specs::Lines::costs_in))]
pub fn costs_of(text: &[u8]) -> Option<Costs>
    ensures { result ≡ costs_in (words text.now) }
{
    let left = name_next(b"costs", text)?;
    if is_usual(left) {
        return Some(USUAL);
    }
    costs_named(left)
}
