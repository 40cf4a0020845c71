//! Where a seat stands.
ghost use Rattle.std.specs.Prelude.{◌≡◌, false};
ghost use Rattle.shfl_core.specs.Plan as plan;
ghost use Rattle.shfl_core.specs.Waiting as waiting;
ghost use Rattle.shfl_laws.specs.Holds.{hold_of};
ghost use Rattle.shfl_arena.specs.Threads.{mode_held};

use crate::seats::ArenaSeat;
use shfl_core::asks::{ask_row, is_moving, watch_row};
use shfl_core::{Ask, Nap, PassState, Phase, Watch};
use shfl_line::{Form, Mode};

impl<V: Drop> ArenaSeat<V> {
    /// Its place among the seats of the arena, from 0 on.
    #[inline(always)]
    pub fn number(&self) -> u32
        ensures { result ≡ self.now.own.reg.me }
    {
        self.own.reg.me
    }

    /// The lock at which its last call was made.
    #[inline(always)]
    pub fn lock(&self) -> u32
        ensures { result ≡ self.now.lock }
    {
        self.lock
    }

    // Where its pass stands at that lock: phase, registers and park state.
    #[inline(always)]
    pub(crate) fn standing(&self) -> PassState
        ensures { result ≡ self.now.own }
    {
        self.own
    }

    /// The phase of its pass there.
    #[inline(always)]
    pub fn phase(&self) -> Phase
        ensures { result ≡ self.now.own.phase }
    {
        self.own.phase
    }

    /// Whether it is awake or parked, or between the two.
    #[inline(always)]
    pub fn nap(&self) -> Nap
        ensures { result ≡ self.now.own.nap }
    {
        self.own.nap
    }

    /// Whether its last call or step left it holding that lock.
    #[inline(always)]
    pub fn held(&self) -> bool
        ensures { result ≡ plan.is_held self.now.own.phase }
    {
        matches!(self.own.phase, Phase::Held)
    }

    /// How it holds that lock, if it does. It is said of a seat that has no step to make.
    #[inline(always)]
    pub fn hold(&self) -> Option<Mode>
        ensures pass { plan.moving self.now.own ≡ false → result ≡ hold_of self.now.own }
        ensures exact { plan.moving self.now.own ≡ false
            → result ≡ mode_held self.now.lock self.now.holds }
    {
        if self.held() {
            Some(self.own.reg.mode)
        } else {
            None
        }
    }

    /// The form of the arena's locks.
    #[inline(always)]
    pub fn form(&self) -> Form
        ensures { result ≡ self.now.arena.rules.form }
    {
        self.rules.form
    }

    /// Whether it has a step to make, at the lock of its last call.
    #[inline(always)]
    pub fn moving(&self) -> bool
        ensures { result ≡ plan.moving self.now.own }
    {
        is_moving(self.own)
    }

    /// What its next step asks the policy.
    #[inline(always)]
    pub fn ask(&self) -> Ask
        ensures { result ≡ waiting.ask self.now.arena.rules self.now.own }
    {
        ask_row(self.rules, self.own)
    }

    /// Whom its next step may make ready or group, and so wake.
    #[inline(always)]
    pub fn watch(&self) -> Watch
        ensures { result ≡ waiting.watch_at self.now.own.reg self.now.own.phase }
    {
        watch_row(self.own)
    }
}
