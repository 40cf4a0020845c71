//! Where a pass stands after its step: one row for each phase and park state.
ghost use Rattle.std.specs.Prelude.{◌≡◌, ◌+◌, ◌≤◌, false, true};
ghost use Rattle.shfl_core.specs.Plan as plan;
ghost use Rattle.shfl_core.specs.Take as take;
ghost use Rattle.shfl_core.specs.Words.{is_store, site, NamesPass};

use crate::bits::{closed_of, held_of, ready_of, shuffler_of, spin_of};
use crate::found::{
    after_found, begun, decided, done, free_for, go, heir_found, looked, marked, next_found,
    peeked, readied, swap_found, top,
};
use crate::phase::{Nap, PassState, Phase, Rules};
use shfl_line::BATCH;

// Where a pass goes from its phase, awake.
#[inline(always)]
fn phase_take(rules: Rules, me: u32, pass: &mut PassState, found: u64, choice: bool)
    requires form { is_store (plan.plan_at rules me pass.old.reg pass.old.phase) ≡ false
        → NamesPass (site (plan.plan_at rules me pass.old.reg pass.old.phase)) found }
    ensures { pass.new ≡ take.take_at rules me pass.old.reg found choice pass.old.phase }
{
    match pass.phase {
        Phase::Steal => {
            let phase = if found == 0 { Phase::Held } else { Phase::Init };
            go(pass, phase);
        }
        Phase::Idle | Phase::Release | Phase::TryUncount | Phase::ReadRelease => {
            go(pass, Phase::Idle);
        }
        Phase::Held | Phase::Open => go(pass, Phase::Held),
        Phase::Init => {
            pass.reg.batch = 0;
            pass.reg.flag = false;
            go(pass, Phase::Swap);
        }
        Phase::Swap => swap_found(pass, found),
        Phase::Link => go(pass, Phase::Look),
        Phase::Close => top(pass),
        Phase::Look => {
            pass.reg.batch = (found / BATCH % 65536) as u16;
            pass.reg.flag = shuffler_of(found);
            looked(rules, pass, ready_of(found));
        }
        Phase::Begin => {
            if pass.reg.batch < 1 {
                pass.reg.batch = 1;
            }
            pass.reg.flag = false;
            begun(rules, me, pass, choice);
        }
        Phase::Next => next_found(pass, found),
        Phase::Tail => {
            let phase = if found == pass.reg.cand as u64 + 1 {
                Phase::Give
            } else {
                Phase::Attr
            };
            go(pass, phase);
        }
        Phase::Attr => {
            pass.reg.seen = found;
            go(pass, Phase::Decide);
        }
        Phase::Decide => {
            let stop = if pass.reg.headed {
                free_for(pass.reg.mode, found)
            } else {
                ready_of(found)
            };
            decided(pass, stop, choice);
        }
        Phase::After => after_found(pass, found),
        Phase::Pick => go(pass, Phase::Aim),
        Phase::Aim => go(pass, Phase::Place),
        Phase::Place => go(pass, Phase::Mark),
        Phase::Mark => marked(rules, pass, found),
        Phase::Give => {
            if pass.reg.last == me {
                pass.reg.flag = true;
            }
            done(pass);
        }
        Phase::Peek => peeked(rules, pass, found),
        Phase::Grab => {
            if held_of(found) {
                top(pass)
            } else {
                go(pass, Phase::Take)
            }
        }
        Phase::WriteGrab => {
            if found != pass.reg.saw {
                top(pass);
            } else {
                go(pass, Phase::Take);
            }
        }
        Phase::Take => heir_found(Phase::Cut, pass, found),
        Phase::Cut => {
            let phase = if found == me as u64 + 1 {
                Phase::Open
            } else {
                Phase::Late
            };
            go(pass, phase);
        }
        Phase::Late => heir_found(Phase::Late, pass, found),
        Phase::Ready => readied(rules, pass, found),
        Phase::Count => {
            let phase = if held_of(found) || closed_of(found) {
                Phase::Uncount
            } else {
                Phase::Held
            };
            go(pass, phase);
        }
        Phase::Uncount => go(pass, Phase::Init),
        Phase::HeadCount | Phase::HeadLook => {
            let phase = if held_of(found) {
                Phase::HeadLook
            } else {
                Phase::Take
            };
            go(pass, phase);
        }
    }
}

/// The pass `me` goes on by what its step found, and writes only what the step changes.
#[inline(always)]
pub fn take_row_in_place(rules: Rules, me: u32, pass: &mut PassState, found: u64, choice: bool)
    requires form { is_store (plan.plan rules me pass.old) ≡ false
        → NamesPass (site (plan.plan rules me pass.old)) found }
    ensures { pass.new ≡ take.take rules me pass.old found choice }
{
    // What takes a free lock and gives it back goes past the jump tables of the other rows.
    if matches!(pass.nap, Nap::Awake) && matches!(pass.phase, Phase::Steal) && found == 0 {
        pass.phase = Phase::Held;
        return;
    }
    if matches!(pass.nap, Nap::Awake) && matches!(pass.phase, Phase::Release) {
        pass.phase = Phase::Idle;
        return;
    }
    match pass.nap {
        Nap::Awake => phase_take(rules, me, pass, found, choice),
        Nap::Doze => {
            pass.nap = if ready_of(found) || spin_of(found) {
                Nap::Rouse
            } else {
                Nap::Hear
            };
        }
        Nap::Hear => {
            if found == 1 {
                pass.nap = Nap::Rouse;
            }
        }
        Nap::Rouse | Nap::Ring { .. } => pass.nap = Nap::Awake,
    }
}

/// Where the pass `me`, which stood at `pass`, stands after its step found `found`.
#[inline(always)]
pub fn take_row(rules: Rules, me: u32, pass: PassState, found: u64, choice: bool) -> PassState
    requires form { is_store (plan.plan rules me pass) ≡ false
        → NamesPass (site (plan.plan rules me pass)) found }
    ensures { result ≡ take.take rules me pass found choice }
{
    let mut next = pass;
    take_row_in_place(rules, me, &mut next, found, choice);
    next
}
