//! A step of a pass: on the lock, and what it costs.
ghost use Rattle.std.specs.Prelude.{◌≡◌, ◌<◌, ◌≤◌, length, IfSome};
ghost use Rattle.shfl_core.specs.Runner as runner;
ghost use Rattle.shfl_core.specs.Worlds.{Step as Advance};
ghost use Rattle.sim_setup.specs.Places.{rung as rung_by};
ghost use Rattle.sim_model.specs.Steps as steps;

use crate::bench::Bench;
use crate::counts::{count_access, count_step};
use crate::turns::{Stand, Turn, put_stand, stand_at, wake_line};
use crate::waiter::AnyWaiter;
use shfl_core::asks::{ask_row, is_resting};
use shfl_core::plans::plan_row;
use shfl_core::words::site;
use shfl_core::{Access, Ask, Nap, PassState, Phase, PlainWorld};
use sim_setup::{
    Advice, Adviser, Costs, PASSES, Setup, advised, core_at, is_load, later, line_at, line_of,
    plus, put_line, rung, think, times, touch,
};

/// A step that was made: where the pass stood before and after, what it asked, and its operation.
#[derive(Clone, Copy, Drop)]
pub struct Made {
    pub before: PassState,
    pub after: PassState,
    pub ask: Ask,
    pub advice: Advice,
    pub access: Access,
}

/// What a pass does after a step.
#[derive(Clone, Copy, Drop)]
pub enum Rest {
    /// It looks at the same word again.
    Spins,
    /// It sleeps.
    Sleeps,
    /// It has the lock, taken past the queue or not.
    Holds { stolen: bool },
    /// It has given the lock back.
    Away,
    /// It makes its next step.
    Goes,
}

/// The pass makes its next step.
pub fn step_lock<A: Adviser>(
    setup: &Setup,
    adviser: &A,
    lock: &mut PlainWorld<AnyWaiter>,
    pass: u32,
) -> Made
    requires declared { pass < length lock.old.world.passes }
    requires few { length lock.old.world.passes ≤ 1024 }
    requires rules { lock.old.rules ≡ setup.now.rules }
    ensures made { result ≡ steps.made_by setup.now (A.answers adviser.now) lock.old.world pass }
    ensures lock { lock.new ≡ runner.moved lock.old (Advance pass result.advice.yes) }
{
    let before = lock.standing(pass);
    let access = plan_row(setup.rules, pass, before);
    let ask = ask_row(setup.rules, before);
    let advice = advised(adviser, &core_at(&setup.cores, pass).attr, ask);
    lock.step(pass, advice.yes);
    let after = lock.standing(pass);
    Made {
        before,
        after,
        ask,
        advice,
        access,
    }
}

#[inline(always)]
fn is_awake(nap: Nap) -> bool
    ensures { result ≡ steps.is_awake nap }
{
    matches!(nap, Nap::Awake)
}

#[inline(always)]
fn is_parked(nap: Nap) -> bool
    ensures { result ≡ runner.is_parked nap }
{
    matches!(nap, Nap::Hear)
}

// Whether a pass that was in this phase and still is has looked in vain.
#[inline(always)]
fn is_same_look(before: Phase, after: Phase) -> bool
    ensures { result ≡ steps.is_same_look before after }
{
    match before {
        Phase::Look => matches!(after, Phase::Look),
        Phase::Peek => matches!(after, Phase::Peek),
        Phase::HeadLook => matches!(after, Phase::HeadLook),
        Phase::Late => matches!(after, Phase::Late),
        _ => false,
    }
}

#[inline(always)]
fn is_first(phase: Phase) -> bool
    ensures { result ≡ steps.is_first phase }
{
    matches!(phase, Phase::Steal | Phase::Count)
}

/// What the pass does after a step from here to there.
#[inline(always)]
#[tactic(auto, unfolding(crate::specs::Steps::rest_of))]
pub fn rest_of(before: PassState, after: PassState) -> Rest
    ensures { result ≡ steps.rest_of before after }
{
    if is_parked(before.nap) && is_parked(after.nap) {
        return Rest::Sleeps;
    }
    let awake = is_awake(before.nap) && is_awake(after.nap);
    if awake && is_same_look(before.phase, after.phase) {
        return Rest::Spins;
    }
    if is_resting(after) {
        let stolen = is_first(before.phase);
        return Rest::Holds { stolen };
    }
    if matches!(after.phase, Phase::Idle) {
        Rest::Away
    } else {
        Rest::Goes
    }
}

// When a step has ended whose access has: what the pass does besides, the question and the program's instructions.
#[inline(always)]
#[tactic(auto, unfolding(crate::specs::Steps::ended))]
fn ended(costs: &Costs, made: &Made, ends: u64) -> u64
    ensures { result ≡ steps.ended costs.now made.now ends }
{
    let asking = match made.ask {
        Ask::Nothing => 0,
        _ => costs.ask,
    };
    let insns = times(u64::from(costs.insn), made.advice.insns);
    plus(
        plus(plus(ends, u64::from(costs.local)), u64::from(asking)),
        insns,
    )
}

// The pass touches the word of its operation: when that has ended. Whoever spins on the line looks again, unless it is a load.
#[inline(always)]
#[tactic(auto, unfolding(crate::specs::Steps::touched_by, crate::specs::Steps::with_touch))]
fn touch_word(setup: &Setup, bench: &mut Bench, pass: u32, made: &Made, at: u64) -> u64
    requires { pass < 1024 }
    ensures ends { result ≡ (steps.touched_by setup.now bench.old pass made.now at).ends }
    ensures bench { bench.new ≡ steps.with_touch setup.now bench.old pass made.now at }
{
    let word = site(made.access);
    let load = is_load(made.access);
    let line = line_of(setup.layout, word);
    let core = core_at(&setup.cores, pass);
    let touched = touch(&setup.costs, core, load, at, line_at(&bench.lines, line));
    put_line(&mut bench.lines, line, touched.line);
    count_access(&mut bench.counts, word, touched.reach);
    count_step(&mut bench.counts, made);
    if !load {
        wake_line(&mut bench.stands, setup.passes, line, touched.ends);
    }
    touched.ends
}

// The pass wakes whom its operation names, if that one sleeps: when the step has ended.
#[inline(always)]
#[tactic(auto, unfolding(crate::specs::Steps::rung_ends, crate::specs::Steps::with_ring))]
fn ring(costs: &Costs, stands: &mut [Stand; PASSES], access: Access, ends: u64) -> u64
    ensures ends { result ≡ steps.rung_ends costs.now stands.old (rung_by access) ends }
    ensures stands { stands.new ≡ steps.with_ring costs.now stands.old (rung_by access) ends }
{
    let Some(whom) = rung(access) else {
        return ends;
    };
    let Stand::Sleeps { from } = stand_at(stands, whom) else {
        return ends;
    };
    let ends = plus(ends, u64::from(costs.wake));
    let woken = Stand::Due {
        at: plus(later(ends, from), u64::from(costs.rise)),
        turn: Turn::Step,
    };
    put_stand(stands, whom, woken);
    ends
}

// How the pass stands after a step that has ended then.
#[inline(always)]
#[tactic(auto, unfolding(crate::specs::Steps::stand_after, crate::specs::Steps::draw_after))]
fn stand_after(setup: &Setup, rest: Rest, line: usize, ends: u64, draw: &mut u64) -> Stand
    ensures stand { result ≡ steps.stand_after setup.now rest line ends draw.old }
    ensures draw { draw.new ≡ steps.draw_after setup.now rest draw.old }
{
    match rest {
        Rest::Spins => Stand::Spins { line, since: ends },
        Rest::Sleeps => Stand::Sleeps {
            from: plus(ends, u64::from(setup.costs.park)),
        },
        Rest::Holds { stolen } => Stand::Due {
            at: ends,
            turn: Turn::Gain { stolen },
        },
        Rest::Away => Stand::Due {
            at: plus(ends, think(setup.work.think, draw)),
            turn: Turn::Call { tried: 0 },
        },
        Rest::Goes => Stand::Due {
            at: ends,
            turn: Turn::Step,
        },
    }
}

// The wakeup of a step that has ended then but for it, and how its pass stands after it.
#[tactic(auto, unfolding(crate::specs::Steps::with_stand))]
fn stand(setup: &Setup, bench: &mut Bench, pass: u32, made: &Made, ends: u64)
    requires { pass < 1024 }
    ensures { bench.new ≡ steps.with_stand setup.now bench.old pass made.now ends }
{
    let ends = ring(&setup.costs, &mut bench.stands, made.access, ends);
    let rest = rest_of(made.before, made.after);
    let line = line_of(setup.layout, site(made.access));
    let mut draw = bench.draws[pass as usize];
    let stand = stand_after(setup, rest, line, ends, &mut draw);
    bench.draws[pass as usize] = draw;
    bench.stands[pass as usize] = stand;
}

/// What a step that was made comes to, whose access begins at this time.
pub fn settle(setup: &Setup, bench: &mut Bench, pass: u32, made: &Made, at: u64)
    requires { pass < 1024 }
    ensures { bench.new ≡ steps.settled setup.now bench.old pass made.now at }
{
    let touched = touch_word(setup, bench, pass, made, at);
    let ends = ended(&setup.costs, made, touched);
    stand(setup, bench, pass, made, ends);
}
