//! The attempts that a call makes before it queues.
ghost use Rattle.std.specs.Prelude.{◌≡◌, ◌<◌, ◌≤◌, length, true};
ghost use Rattle.sim_model.specs.Tries as attempts;

use crate::bench::Bench;
use crate::calls::{called, mode_of, served_at};
use crate::counts::{Reaches, Served, reached};
use crate::turns::{Stand, Turn, wake_line};
use crate::waiter::AnyWaiter;
use shfl_core::asks::{attempt_row, is_resting};
use shfl_core::{PlainWorld, Word};
use shfl_line::Mode;
use sim_setup::{
    Core, Costs, Line, Setup, Tries, core_at, line_at, line_of, plus, put_line, times, touch,
};

/// What the operations of an attempt have come to: the line of the lock word, the accesses counted, and when they ended.
#[derive(Clone, Copy, Drop)]
pub struct Tried {
    pub line: Line,
    pub reaches: Reaches,
    pub ends: u64,
}

fn wins(lock: &PlainWorld<AnyWaiter>, pass: u32, mode: Mode) -> bool
    requires { pass < length lock.now.world.passes }
    ensures { result ≡ attempts.wins lock.now.world pass mode }
{
    is_resting(attempt_row(mode, lock.standing(pass).reg, lock.word()))
}

fn mode_wanted(setup: &Setup, bench: &Bench, pass: u32) -> Mode
    requires { pass < 1024 }
    ensures { result ≡ attempts.mode_wanted setup.now bench.now pass }
{
    let mut draw = bench.draws[pass as usize];
    mode_of(setup, &mut draw)
}

/// Whether a call that has made so many attempts in vain makes one more, and that one is in vain too.
pub fn in_vain(
    setup: &Setup,
    lock: &PlainWorld<AnyWaiter>,
    bench: &Bench,
    pass: u32,
    tried: u32,
) -> bool
    requires declared { pass < length lock.now.world.passes }
    requires few { length lock.now.world.passes ≤ 1024 }
    ensures vain { result ≡ attempts.in_vain setup.now lock.now.world bench.now pass tried }
    ensures more { result ≡ true → tried < setup.now.tries.most }
{
    if tried < setup.tries.most {
        return !wins(lock, pass, mode_wanted(setup, bench, pass));
    }
    false
}

/// What is counted of a pass whose call makes its first step or an attempt, after so many.
#[inline(always)]
pub fn begun(served: Served, tried: u32, at: u64) -> Served
    ensures { result ≡ attempts.begun served tried at }
{
    if tried == 0 {
        called(served, at)
    } else {
        served
    }
}

// One operation more on the lock word.
#[tactic(auto, unfolding(crate::specs::Tries::operated))]
fn operated(costs: &Costs, core: &Core, so_far: Tried) -> Tried
    ensures { result ≡ attempts.operated costs.now core.now so_far }
{
    let touched = touch(costs, core, false, so_far.ends, so_far.line);
    Tried {
        line: touched.line,
        reaches: reached(so_far.reaches, touched.reach),
        ends: touched.ends,
    }
}

// The operations of an attempt in vain: a reader takes its count back by a second one.
fn all_operated(costs: &Costs, core: &Core, mode: Mode, so_far: Tried) -> Tried
    ensures { result ≡ attempts.all_operated costs.now core.now mode so_far }
{
    let once = operated(costs, core, so_far);
    match mode {
        Mode::Write => once,
        Mode::Read => operated(costs, core, once),
    }
}

#[tactic(auto, unfolding(crate::specs::Tries::tried_at))]
fn tried_at(setup: &Setup, bench: &Bench, pass: u32, at: u64) -> Tried
    requires { pass < 1024 }
    ensures { result ≡ attempts.tried_at setup.now bench.now pass at }
{
    let mode = mode_wanted(setup, bench, pass);
    let before = Tried {
        line: line_at(&bench.lines, line_of(setup.layout, Word::Lock)),
        reaches: bench.counts.tried,
        ends: at,
    };
    all_operated(&setup.costs, core_at(&setup.cores, pass), mode, before)
}

fn pause_factor(tried: u32) -> u64
    ensures { result ≡ attempts.pause_factor tried }
{
    match tried {
        0 => 1,
        1 => 2,
        2 => 4,
        _ => 8,
    }
}

#[tactic(auto, unfolding(crate::specs::Tries::pause_after))]
fn pause_after(tries: &Tries, tried: u32) -> u64
    ensures { result ≡ attempts.pause_after tries.now tried }
{
    times(u64::from(tries.pause), pause_factor(tried))
}

/// An attempt in vain after so many: whoever spins on the line of the lock word looks again, and after a pause the pass goes on with
/// its call.
#[tactic(auto, unfolding(crate::specs::Tries::with_attempt))]
pub fn attempt(setup: &Setup, bench: &mut Bench, pass: u32, tried: u32, at: u64)
    requires declared { pass < 1024 }
    requires more { tried < setup.now.tries.most }
    ensures { bench.new ≡ attempts.with_attempt setup.now bench.old pass tried at }
{
    // so one more fits
    let _most = setup.tries.most;
    let line = line_of(setup.layout, Word::Lock);
    let came = tried_at(setup, bench, pass, at);
    put_line(&mut bench.lines, line, came.line);
    bench.counts.tried = came.reaches;
    wake_line(&mut bench.stands, setup.passes, line, came.ends);
    bench.served[pass as usize] = begun(served_at(&bench.served, pass), tried, at);
    let ended = plus(came.ends, u64::from(setup.costs.local));
    bench.stands[pass as usize] = Stand::Due {
        at: plus(ended, pause_after(&setup.tries, tried)),
        turn: Turn::Call { tried: tried + 1 },
    };
}
