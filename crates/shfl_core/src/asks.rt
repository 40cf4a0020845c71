//! What a pass has to do next, as far as others must know.
ghost use Rattle.std.specs.Prelude.{◌≡◌};
ghost use Rattle.shfl_core.specs.Plan as plan;
ghost use Rattle.shfl_core.specs.Take as take;
ghost use Rattle.shfl_core.specs.Waiting as waiting;

use crate::found::go;
use crate::phase::{Ask, Nap, PassState, Phase, Registers, Rules, Watch};
use crate::words::{Access, Word};
use shfl_line::{Attr, CLOSED, HELD, Mode, READER};

/// A pass that has done nothing.
pub fn idle_pass(me: u32) -> PassState
    ensures { result ≡ waiting.idle me }
{
    PassState {
        phase: Phase::Idle,
        reg: Registers {
            me,
            mode: Mode::Write,
            batch: 0,
            flag: false,
            before: 0,
            prev: 0,
            last: 0,
            first: 0,
            cand: 0,
            seen: 0,
            after: 0,
            count: 0,
            headed: false,
            heir: 0,
            saw: 0,
        },
        nap: Nap::Awake,
    }
}

/// Whether the pass holds the lock and owes no step.
#[inline(always)]
pub fn is_resting(pass: PassState) -> bool
    ensures { result ≡ plan.is_resting pass }
{
    matches!(pass.phase, Phase::Held) && matches!(pass.nap, Nap::Awake)
}

/// Whether the pass has a step to make.
#[inline(always)]
pub fn is_moving(pass: PassState) -> bool
    ensures { result ≡ plan.moving pass }
{
    !matches!(pass.phase, Phase::Idle) && !is_resting(pass)
}

/// The pass begins to take the lock; refused, and nothing changes, unless it is idle.
#[inline(always)]
pub fn acquire_row_in_place(mode: Mode, pass: &mut PassState) -> bool
    ensures answer { result ≡ plan.is_idle pass.old.phase }
    ensures after { pass.new ≡ take.acquired mode pass.old }
{
    if !matches!(pass.phase, Phase::Idle) {
        return false;
    }
    pass.phase = match mode {
        Mode::Write => Phase::Steal,
        Mode::Read => Phase::Count,
    };
    pass.reg.mode = mode;
    true
}

/// Where the pass stands after an acquire.
#[inline(always)]
pub fn acquire_row(mode: Mode, pass: PassState) -> PassState
    ensures { result ≡ take.acquired mode pass }
{
    let mut next = pass;
    acquire_row_in_place(mode, &mut next);
    next
}

/// The pass begins to give the lock back; refused, and nothing changes, unless it holds the lock and owes no step.
#[inline(always)]
pub fn release_row_in_place(pass: &mut PassState) -> bool
    ensures answer { result ≡ plan.is_resting pass.old }
    ensures after { pass.new ≡ take.released pass.old }
{
    if !is_resting(*pass) {
        return false;
    }
    pass.phase = match pass.reg.mode {
        Mode::Write => Phase::Release,
        Mode::Read => Phase::ReadRelease,
    };
    true
}

/// Where the pass stands after a release.
#[inline(always)]
pub fn release_row(pass: PassState) -> PassState
    ensures { result ≡ take.released pass }
{
    let mut next = pass;
    release_row_in_place(&mut next);
    next
}

/// What the pass asks the policy at its next step.
#[inline(always)]
pub fn ask_row(rules: Rules, pass: PassState) -> Ask
    ensures { result ≡ waiting.ask rules pass }
{
    if !matches!(pass.nap, Nap::Awake) {
        return Ask::Nothing;
    }
    let reg = pass.reg;
    match pass.phase {
        Phase::Begin => {
            let batch = if reg.batch < 1 { 1 } else { reg.batch };
            if batch < rules.limit {
                Ask::Skip { batch }
            } else {
                Ask::Nothing
            }
        }
        Phase::Decide => {
            Ask::Should {
                waiter: Attr::unpack(reg.seen),
                batch: reg.count,
            }
        }
        _ => Ask::Nothing,
    }
}

/// The phase of the pass, as far as parking depends on it.
pub fn watch_row(pass: PassState) -> Watch
    ensures { result ≡ waiting.watch_at pass.reg pass.phase }
{
    match pass.phase {
        Phase::Look => Watch::Look,
        Phase::Mark => Watch::Mark {
            whom: pass.reg.cand,
        },
        Phase::Ready => Watch::Ready {
            whom: pass.reg.heir,
        },
        _ => Watch::Other,
    }
}

/// The one operation of an attempt to take the lock without queueing.
#[inline(always)]
pub fn attempt_access(mode: Mode) -> Access
    ensures { result ≡ plan.attempt_plan mode }
{
    match mode {
        Mode::Write => Access::CompareSwap {
            w: Word::Lock,
            old: 0,
            new: HELD,
        },
        Mode::Read => Access::Add {
            w: Word::Lock,
            v: READER,
        },
    }
}

/// The pass goes on by what that operation found, `lock`: it holds the lock, or is idle again, or has its count to take
/// back. Where it failed, the register `saw` is the word that was found.
#[inline(always)]
pub fn attempt_row_in_place(mode: Mode, pass: &mut PassState, lock: u64)
    ensures { pass.new ≡ take.attempted mode pass.old.reg lock }
{
    pass.reg.mode = mode;
    let won = match mode {
        Mode::Write => lock == 0,
        Mode::Read => lock % 2 != 1 && lock / CLOSED % 2 != 1,
    };
    if won {
        go(pass, Phase::Held);
        return;
    }
    pass.reg.saw = lock;
    let phase = match mode {
        Mode::Write => Phase::Idle,
        Mode::Read => Phase::TryUncount,
    };
    go(pass, phase);
}

/// Where an idle pass with these registers stands after that operation found `lock`.
#[inline(always)]
pub fn attempt_row(mode: Mode, reg: Registers, lock: u64) -> PassState
    ensures { result ≡ take.attempted mode reg lock }
{
    let mut next = PassState {
        phase: Phase::Idle,
        reg,
        nap: Nap::Awake,
    };
    attempt_row_in_place(mode, &mut next, lock);
    next
}
