//! A call of a pass: when it begins, and when it gains the lock.
ghost use Rattle.std.specs.Prelude.{◌≡◌, ◌<◌, ◌≤◌, List, slice_set};
ghost use Rattle.sim_model.specs.Calls as calls;

use crate::counts::{Order, Reaches, Served, UNSERVED, reached};
use shfl_line::{Form, Mode};
use sim_setup::{
    Core, Costs, LINES, Line, PASSES, Setup, WORD_LINES, later, line_at, plus, reads, touch,
};

/// What is counted of the pass; of one that isn't there nothing.
#[inline(always)]
pub fn served_at(served: &[Served; PASSES], pass: u32) -> Served
    ensures { result ≡ calls.served_at served.now pass }
{
    if pass < 1024 {
        served[pass as usize]
    } else {
        UNSERVED
    }
}

/// Puts that down for the pass, where it is there.
#[inline(always)]
pub fn put_served(served: &mut [Served; PASSES], pass: u32, one: Served)
    ensures { served.new ≡ slice_set served.old pass one }
{
    if pass < 1024 {
        served[pass as usize] = one;
    }
}

fn shares(form: Form) -> bool
    ensures { result ≡ calls.shares form }
{
    matches!(form, Form::Rw | Form::RwPark)
}

/// How a call takes the lock: in a form with readers that is drawn.
#[tactic(auto, unfolding(crate::specs::Calls::mode_drawn, crate::specs::Calls::draw_after))]
pub fn mode_of(setup: &Setup, draw: &mut u64) -> Mode
    ensures mode { result ≡ calls.mode_drawn setup.now draw.old }
    ensures draw { draw.new ≡ calls.draw_after setup.now draw.old }
{
    if shares(setup.rules.form) && reads(setup.work.reads, draw) {
        Mode::Read
    } else {
        Mode::Write
    }
}

/// The pass calls.
#[inline(always)]
pub fn called(served: Served, at: u64) -> Served
    ensures { result ≡ calls.called served at }
{
    let mut next = served;
    next.waits = true;
    next.called = at;
    next.passed = 0;
    next
}

// A call that began then has gained.
#[inline(always)]
fn overtaken(served: Served, call: u64) -> Served
    ensures { result ≡ calls.overtaken call served }
{
    if !(served.waits && served.called < call) {
        return served;
    }
    let mut next = served;
    next.passed = plus(served.passed, 1);
    next.overtaken = later(served.overtaken, next.passed);
    next
}

/// Each of the first so many passes that waits for longer than a call that began then sees it gain.
pub fn overtake(served: &mut [Served; PASSES], passes: u32, call: u64)
    ensures { served.new ≡ calls.all_overtaken passes call served.old }
{
    for pass in 0..passes {
        let one = overtaken(served_at(served, pass), call);
        put_served(served, pass, one);
    }
}

/// The pass has gained, after a wait.
#[inline(always)]
#[tactic(auto, unfolding(crate::specs::Calls::gained))]
pub fn gained(served: Served, wait: u64, read: bool, stolen: bool) -> Served
    ensures { result ≡ calls.gained served wait read stolen }
{
    let mut next = served;
    next.gained = plus(served.gained, 1);
    if read {
        next.reads = plus(served.reads, 1);
    }
    if stolen {
        next.stolen = plus(served.stolen, 1);
    }
    next.waited = plus(served.waited, wait);
    next.longest = later(served.longest, wait);
    next.waits = false;
    next
}

/// One gain more in the order.
#[tactic(auto, unfolding(crate::specs::Calls::in_order))]
pub fn in_order(order: &mut Order, pass: u32, socket: u16)
    ensures { order.new ≡ calls.in_order order.old pass socket }
{
    if order.gained < 16 {
        order.first[order.gained as usize] = pass;
    }
    order.gained = plus(order.gained, 1);
    if order.last == Some(socket) {
        order.same = plus(order.same, 1);
    }
    order.last = Some(socket);
    order.hash = (order.hash ^ u64::from(pass)).wrapping_mul(0x100_0000_01b3);
}

/// The core touches the lines of data one after another, from this time on: when it has.
pub fn touch_data(
    costs: &Costs,
    core: &Core,
    load: bool,
    count: u32,
    at: u64,
    lines: &mut [Line; LINES],
    sums: &mut Reaches,
) -> u64
    requires { count ≤ 64 }
    ensures ends { result
        ≡ (calls.data_touched costs.now core.now load at lines.old sums.old count).ends }
    ensures lines { lines.new
        ≡ (calls.data_touched costs.now core.now load at lines.old sums.old count).lines }
    ensures reaches { sums.new
        ≡ (calls.data_touched costs.now core.now load at lines.old sums.old count).reaches }
{
    let mut ends = at;
    for datum in 0..count {
        let line = WORD_LINES + datum as usize;
        let touched = touch(costs, core, load, ends, line_at(lines, line));
        lines[line] = touched.line;
        *sums = reached(*sums, touched.reach);
        ends = touched.ends;
    }
    ends
}
