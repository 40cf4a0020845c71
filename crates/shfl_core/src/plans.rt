//! What a pass does at its next step: one operation on one word for each phase and park state.
ghost use Rattle.std.specs.Prelude.{◌≡◌};
ghost use Rattle.shfl_core.specs.Plan as plan;

use crate::found::parks;
use crate::phase::{Nap, PassState, Phase, Registers, Rules};
use crate::words::{Access, Word};
use shfl_line::{BATCH, CLOSED, HELD, PARKED, READER, READY, SHUFFLER, SPIN};

// The operation of a phase, awake.
#[inline(always)]
fn phase_plan(rules: Rules, me: u32, reg: Registers, phase: Phase) -> Access
    ensures { result ≡ plan.plan_at rules me reg phase }
{
    let own = me as u64 + 1;
    match phase {
        Phase::Idle | Phase::Held => Access::Load { w: Word::Lock },
        Phase::Steal => Access::CompareSwap {
            w: Word::Lock,
            old: 0,
            new: HELD,
        },
        Phase::Init => Access::Swap {
            w: Word::State(me),
            v: 0,
        },
        Phase::Swap => Access::Swap {
            w: Word::Tail,
            v: own,
        },
        Phase::Link => Access::Store {
            w: Word::Next(reg.before),
            v: own,
        },
        Phase::Close => Access::Or {
            w: Word::Lock,
            v: CLOSED,
        },
        Phase::Look => Access::Load { w: Word::State(me) },
        Phase::Begin => {
            let batch: u64 = if reg.batch == 0 { BATCH } else { 0 };
            let flag: u64 = if reg.flag { SHUFFLER } else { 0 };
            Access::Xor {
                w: Word::State(me),
                v: batch + flag,
            }
        }
        Phase::Next => Access::Load {
            w: Word::Next(reg.prev),
        },
        Phase::Tail => Access::Load { w: Word::Tail },
        Phase::Attr => Access::Load {
            w: Word::Attr(reg.cand),
        },
        Phase::Decide => {
            let w = if reg.headed {
                Word::Lock
            } else {
                Word::State(me)
            };
            Access::Load { w }
        }
        Phase::After => Access::Load {
            w: Word::Next(reg.cand),
        },
        Phase::Pick => Access::Store {
            w: Word::Next(reg.prev),
            v: reg.after as u64 + 1,
        },
        Phase::Aim => Access::Store {
            w: Word::Next(reg.cand),
            v: reg.first as u64 + 1,
        },
        Phase::Place => Access::Store {
            w: Word::Next(reg.last),
            v: reg.cand as u64 + 1,
        },
        Phase::Mark => {
            let spin = if parks(rules.form) { SPIN } else { 0 };
            Access::Or {
                w: Word::State(reg.cand),
                v: BATCH * (reg.count as u64 + 1) + spin,
            }
        }
        Phase::Give => Access::Or {
            w: Word::State(reg.last),
            v: SHUFFLER,
        },
        Phase::Peek => Access::Load { w: Word::Lock },
        Phase::Grab => Access::Or {
            w: Word::Lock,
            v: HELD,
        },
        Phase::WriteGrab => {
            Access::CompareSwap {
                w: Word::Lock,
                old: reg.saw,
                new: reg.saw.wrapping_add(HELD),
            }
        }
        Phase::Take | Phase::Late => Access::Swap {
            w: Word::Next(me),
            v: 0,
        },
        Phase::Cut => Access::CompareSwap {
            w: Word::Tail,
            old: own,
            new: 0,
        },
        Phase::Ready => Access::Or {
            w: Word::State(reg.heir),
            v: READY,
        },
        Phase::Open => Access::And {
            w: Word::Lock,
            v: u64::MAX - CLOSED,
        },
        Phase::Release => Access::And {
            w: Word::Lock,
            v: u64::MAX - HELD,
        },
        Phase::Count | Phase::HeadCount => Access::Add {
            w: Word::Lock,
            v: READER,
        },
        Phase::Uncount | Phase::TryUncount => Access::Sub {
            w: Word::Lock,
            v: READER,
        },
        Phase::HeadLook => Access::Load { w: Word::Lock },
        Phase::ReadRelease => Access::Sub {
            w: Word::Lock,
            v: READER,
        },
    }
}

/// The next operation of the pass `me`, which stands at `pass`.
#[inline(always)]
pub fn plan_row(rules: Rules, me: u32, pass: PassState) -> Access
    ensures { result ≡ plan.plan rules me pass }
{
    // What takes a free lock and gives it back goes past the jump tables of the other rows.
    if matches!(pass.nap, Nap::Awake) && matches!(pass.phase, Phase::Steal) {
        return phase_plan(rules, me, pass.reg, Phase::Steal);
    }
    if matches!(pass.nap, Nap::Awake) && matches!(pass.phase, Phase::Release) {
        return phase_plan(rules, me, pass.reg, Phase::Release);
    }
    match pass.nap {
        Nap::Awake => phase_plan(rules, me, pass.reg, pass.phase),
        Nap::Doze => Access::Or {
            w: Word::State(me),
            v: PARKED,
        },
        Nap::Hear => Access::Swap {
            w: Word::Bell(me),
            v: 0,
        },
        Nap::Rouse => Access::And {
            w: Word::State(me),
            v: u64::MAX - PARKED,
        },
        Nap::Ring { whom } => Access::Store {
            w: Word::Bell(whom),
            v: 1,
        },
    }
}
