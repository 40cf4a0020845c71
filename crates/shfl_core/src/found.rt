//! Where a pass goes by what its step found.
ghost use Rattle.std.specs.Prelude.{◌≡◌, ◌≤◌, cond};
ghost use Rattle.shfl_core.specs.Plan as plan;
ghost use Rattle.shfl_core.specs.Take as take;
ghost use Rattle.shfl_core.specs.Words as words;
ghost use Rattle.shfl_core.specs.declared.phase.Nap.TheVariants.{Awake, Ring};

use crate::bits::{held_of, parked_of, ready_of, spin_of};
use crate::phase::{Nap, PassState, Phase, Rules};
use shfl_line::{Form, Mode, READER};

/// Whether waiters park in this form.
#[inline(always)]
pub fn parks(form: Form) -> bool
    ensures { result ≡ plan.parks form }
{
    matches!(form, Form::Park | Form::RwPark)
}

/// Whether readers may hold the lock in this form.
#[inline(always)]
pub fn shares(form: Form) -> bool
    ensures { result ≡ plan.shares form }
{
    matches!(form, Form::Rw | Form::RwPark)
}

/// Whether the lock word `lock` leaves the lock free for this mode.
#[inline(always)]
pub fn free_for(mode: Mode, lock: u64) -> bool
    ensures { result ≡ words.free_for mode lock }
{
    match mode {
        Mode::Write => !held_of(lock) && lock / READER == 0,
        Mode::Read => !held_of(lock),
    }
}

// Whether the state word `state` is that of a parked pass that nobody has woken.
#[inline(always)]
pub(crate) fn sleeps(rules: Rules, state: u64) -> bool
    ensures { result ≡ take.sleeps rules state }
{
    parks(rules.form) && parked_of(state) && !ready_of(state) && !spin_of(state)
}

// The park state of a pass that has just called `whom`, whose state word was `state` before: it rings where that pass sleeps.
#[inline(always)]
fn rings(rules: Rules, state: u64, whom: u32) -> Nap
    ensures { result ≡ cond (take.sleeps rules state) (Ring whom) Awake }
{
    if sleeps(rules, state) {
        Nap::Ring { whom }
    } else {
        Nap::Awake
    }
}

// The pass goes to the phase, awake.
#[inline(always)]
pub(crate) fn go(pass: &mut PassState, phase: Phase)
    ensures { pass.new ≡ take.to phase pass.old.reg }
{
    pass.phase = phase;
    pass.nap = Nap::Awake;
}

#[inline(always)]
pub(crate) fn seek(mode: Mode) -> Phase
    ensures { result ≡ take.seek mode }
{
    match mode {
        Mode::Write => Phase::Peek,
        Mode::Read => Phase::HeadCount,
    }
}

#[inline(always)]
pub(crate) fn done(pass: &mut PassState)
    ensures { pass.new ≡ take.to (take.done pass.old.reg) pass.old.reg }
{
    let phase = if pass.reg.headed {
        seek(pass.reg.mode)
    } else {
        Phase::Look
    };
    go(pass, phase);
}

#[inline(always)]
pub(crate) fn top(pass: &mut PassState)
    ensures { pass.new ≡ take.top pass.old.reg }
{
    if pass.reg.batch == 0 || pass.reg.flag {
        pass.reg.headed = true;
        go(pass, Phase::Begin);
        return;
    }
    let phase = seek(pass.reg.mode);
    go(pass, phase);
}

#[inline(always)]
pub(crate) fn swap_found(pass: &mut PassState, found: u64)
    requires { found ≤ 4294967296 }
    ensures { pass.new ≡ take.swap_found pass.old.reg found }
{
    if found == 0 {
        go(pass, Phase::Close);
        return;
    }
    pass.reg.before = (found - 1) as u32;
    go(pass, Phase::Link);
}

#[inline(always)]
pub(crate) fn looked(rules: Rules, pass: &mut PassState, ready: bool)
    ensures { pass.new ≡ take.looked rules pass.old.reg ready }
{
    if ready {
        top(pass);
        return;
    }
    if pass.reg.flag {
        pass.reg.headed = false;
        go(pass, Phase::Begin);
        return;
    }
    pass.phase = Phase::Look;
    pass.nap = if parks(rules.form) && pass.reg.batch == 0 {
        Nap::Doze
    } else {
        Nap::Awake
    };
}

#[inline(always)]
pub(crate) fn begun(rules: Rules, me: u32, pass: &mut PassState, skip: bool)
    ensures { pass.new ≡ take.begun rules me pass.old.reg skip }
{
    if pass.reg.batch >= rules.limit {
        done(pass);
        return;
    }
    pass.reg.prev = me;
    pass.reg.last = me;
    pass.reg.count = pass.reg.batch;
    let phase = if skip { Phase::Give } else { Phase::Next };
    go(pass, phase);
}

#[inline(always)]
pub(crate) fn next_found(pass: &mut PassState, found: u64)
    requires { found ≤ 4294967296 }
    ensures { pass.new ≡ take.next_found pass.old.reg found }
{
    if found == 0 {
        go(pass, Phase::Give);
        return;
    }
    let cand = (found - 1) as u32;
    if pass.reg.prev == pass.reg.last {
        pass.reg.first = cand;
    }
    pass.reg.cand = cand;
    go(pass, Phase::Tail);
}

#[inline(always)]
pub(crate) fn decided(pass: &mut PassState, stop: bool, choice: bool)
    ensures { pass.new ≡ take.decided pass.old.reg stop choice }
{
    if stop {
        go(pass, Phase::Give);
        return;
    }
    if !choice {
        pass.reg.prev = pass.reg.cand;
        go(pass, Phase::Next);
        return;
    }
    let phase = if pass.reg.prev == pass.reg.last {
        Phase::Mark
    } else {
        Phase::After
    };
    go(pass, phase);
}

#[inline(always)]
pub(crate) fn after_found(pass: &mut PassState, found: u64)
    requires { found ≤ 4294967296 }
    ensures { pass.new ≡ take.after_found pass.old.reg found }
{
    if found == 0 {
        go(pass, Phase::Give);
        return;
    }
    pass.reg.after = (found - 1) as u32;
    go(pass, Phase::Pick);
}

#[inline(always)]
pub(crate) fn marked(rules: Rules, pass: &mut PassState, state: u64)
    ensures { pass.new ≡ take.marked rules pass.old.reg state }
{
    let more = pass.reg.count < 65535 && pass.reg.count + 1 < rules.limit;
    if pass.reg.prev == pass.reg.last {
        pass.reg.prev = pass.reg.cand;
    }
    pass.reg.last = pass.reg.cand;
    pass.reg.count = pass.reg.count.wrapping_add(1);
    pass.phase = if more { Phase::Next } else { Phase::Give };
    pass.nap = rings(rules, state, pass.reg.cand);
}

#[inline(always)]
pub(crate) fn peeked(rules: Rules, pass: &mut PassState, lock: u64)
    ensures { pass.new ≡ take.peeked rules pass.old.reg lock }
{
    if !free_for(Mode::Write, lock) {
        go(pass, Phase::Peek);
        return;
    }
    pass.reg.saw = lock;
    let phase = if shares(rules.form) {
        Phase::WriteGrab
    } else {
        Phase::Grab
    };
    go(pass, phase);
}

#[inline(always)]
pub(crate) fn heir_found(none: Phase, pass: &mut PassState, found: u64)
    requires { found ≤ 4294967296 }
    ensures { pass.new ≡ take.heir_found none pass.old.reg found }
{
    if found == 0 {
        go(pass, none);
        return;
    }
    pass.reg.heir = (found - 1) as u32;
    go(pass, Phase::Ready);
}

#[inline(always)]
pub(crate) fn readied(rules: Rules, pass: &mut PassState, state: u64)
    ensures { pass.new ≡ take.readied rules pass.old.reg state }
{
    pass.phase = Phase::Held;
    pass.nap = rings(rules, state, pass.reg.heir);
}
