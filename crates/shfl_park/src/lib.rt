//! Parking for any waiter: one that isn't in a batch sleeps until it is made ready or grouped.
#![tactic(auto)]

ghost use Rattle.std.specs.Prelude.{◌≡◌};
ghost use Rattle.shfl_core.specs.declared.phase.Nap.TheVariants.{Awake};
ghost use Rattle.shfl_park.specs.Parking.{parked, Spins};

mod seen;

use crate::seen::cleared;
use shfl_core::asks::{is_moving, is_resting};
use shfl_core::plans::plan_row;
use shfl_core::rows::take_row;
use shfl_core::{Access, Ask, Nap, PassState, Phase, Registers, Rules, Waiter, Watch};
use shfl_line::{Form, Mode};
use std::marker::Model;

// Rules of a form that parks. Which form, and the limit, change no operation and no park state.
const PARKING: Rules = Rules {
    limit: 1,
    form: Form::Park,
};

/// The waiter `inner`, with the steps of parking.
#[derive(Drop)]
pub struct Parked<W: Waiter> {
    inner: W,
    nap: Nap,
}

impl<W: Waiter> Model for Parked<W> {
    ghost use Rattle.shfl_core.specs.Waiting.{Meaning};
    ghost use Rattle.shfl_park.specs.Parking.{parked, Spins};

    ghost Value = { Meaning };

    ghost view = { λ s. parked (W.meaning s.inner) s.nap };

    ghost invariant = { λ s. Spins (W.meaning s.inner) };
}

impl<W: Waiter> Parked<W> {
    /// The waiter `inner`, awake.
    pub fn new(inner: W) -> Parked<W>
        requires { Spins (W.meaning inner) }
        ensures { result ≡ parked (W.meaning inner) Awake }
    {
        Parked {
            inner,
            nap: Nap::Awake,
        }
    }

    // The phase and the registers of the waiter inside, with this one's park state.
    fn stands(&self) -> PassState
        ensures { result ≡ self.now.pass }
    {
        PassState {
            phase: self.inner.phase(),
            reg: self.inner.registers(),
            nap: self.nap,
        }
    }
}

impl<W: Waiter> Waiter for Parked<W> {
    ghost meaning = { λ a. a };

    fn acquire(&mut self, mode: Mode) -> bool {
        self.inner.acquire(mode)
    }

    fn release(&mut self) -> bool {
        is_resting(self.stands()) && self.inner.release()
    }

    fn moving(&self) -> bool {
        is_moving(self.stands())
    }

    fn ask(&self) -> Ask {
        match self.nap {
            Nap::Awake => self.inner.ask(),
            _ => Ask::Nothing,
        }
    }

    fn watch(&self) -> Watch {
        self.inner.watch()
    }

    fn nap(&self) -> Nap {
        self.nap
    }

    fn phase(&self) -> Phase {
        self.inner.phase()
    }

    fn registers(&self) -> Registers {
        self.inner.registers()
    }

    fn plan(&self) -> Access {
        plan_row(PARKING, self.inner.registers().me, self.stands())
    }

    fn take(&mut self, found: u64, choice: bool) {
        let pass = self.stands();
        if let Nap::Awake = self.nap {
            let seen = cleared(self.inner.plan(), found);
            self.inner.take(seen, choice);
        }
        self.nap = take_row(PARKING, pass.reg.me, pass, found, choice).nap;
    }
}
