//! The waiter of a lock that readers may share.
#![tactic(auto)]

ghost use Rattle.std.specs.Prelude.{◌≡◌, false};
ghost use Rattle.shfl_core.specs.Plan.{parks};
ghost use Rattle.shfl_core.specs.Waiting.{fresh};

use shfl_core::asks::{
    acquire_row_in_place, ask_row, idle_pass, is_moving, release_row_in_place, watch_row,
};
use shfl_core::plans::plan_row;
use shfl_core::rows::take_row_in_place;
use shfl_core::{Access, Ask, Nap, PassState, Phase, Registers, Rules, Waiter, Watch};
use shfl_line::{Attr, Form, Mode};
use std::marker::Model;

/// A waiter in form `Spin` or `Rw`: in the first it does what `Local` does, in the second it reads too.
#[derive(Debug, Drop)]
pub struct RwLocal {
    attr: Attr,
    rules: Rules,
    pass: PassState,
}

impl Model for RwLocal {
    ghost use Rattle.shfl_core.specs.Waiting.{Meaning};

    ghost Value = { Meaning };

    ghost view = { λ l. record { attr = l.attr; rules = l.rules; pass = l.pass } };

    ghost use Rattle.std.specs.Prelude.{◌≡◌, false};
    ghost use Rattle.shfl_core.specs.Plan.{parks};
    ghost use Rattle.shfl_core.specs.declared.phase.Nap.TheVariants.{Awake};

    ghost invariant = { λ l. (parks l.rules.form ≡ false) × (l.pass.nap ≡ Awake) };
}

impl RwLocal {
    /// The pass `me`, idle, in a form without parking.
    pub fn new(me: u32, attr: Attr, limit: u16, form: Form) -> RwLocal
        requires { parks form ≡ false }
        ensures { result ≡ fresh me attr (record { limit = limit; form = form }) }
    {
        RwLocal {
            attr,
            rules: Rules { limit, form },
            pass: idle_pass(me),
        }
    }
}

impl Waiter for RwLocal {
    ghost meaning = { λ l. l };

    fn acquire(&mut self, mode: Mode) -> bool {
        acquire_row_in_place(mode, &mut self.pass)
    }

    fn release(&mut self) -> bool {
        release_row_in_place(&mut self.pass)
    }

    fn moving(&self) -> bool {
        is_moving(self.pass)
    }

    fn ask(&self) -> Ask {
        ask_row(self.rules, self.pass)
    }

    fn watch(&self) -> Watch {
        watch_row(self.pass)
    }

    fn nap(&self) -> Nap {
        self.pass.nap
    }

    fn phase(&self) -> Phase {
        self.pass.phase
    }

    fn registers(&self) -> Registers {
        self.pass.reg
    }

    fn plan(&self) -> Access {
        plan_row(self.rules, self.pass.reg.me, self.pass)
    }

    fn take(&mut self, found: u64, choice: bool) {
        let me = self.pass.reg.me;
        take_row_in_place(self.rules, me, &mut self.pass, found, choice);
    }
}
