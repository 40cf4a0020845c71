//! A waiter of any form.
ghost use Rattle.std.specs.Prelude.{◌≡◌};
ghost use Rattle.shfl_core.specs.Waiting.{fresh};

use shfl_core::asks::{
    acquire_row_in_place, ask_row, idle_pass, is_moving, release_row_in_place, watch_row,
};
use shfl_core::plans::plan_row;
use shfl_core::rows::take_row_in_place;
use shfl_core::{Access, Ask, Nap, PassState, Phase, Registers, Rules, Waiter, Watch};
use shfl_line::{Attr, Mode};
use std::marker::Model;

/// A waiter that goes by any rules.
#[derive(Drop)]
pub struct AnyWaiter {
    attr: Attr,
    rules: Rules,
    pass: PassState,
}

impl Model for AnyWaiter {
    ghost use Rattle.shfl_core.specs.Waiting.{Meaning};

    ghost Value = { Meaning };

    ghost view = { λ l. record { attr = l.attr; rules = l.rules; pass = l.pass } };
}

impl AnyWaiter {
    /// The pass `me`, idle.
    pub fn new(me: u32, attr: Attr, rules: Rules) -> AnyWaiter
        ensures { result ≡ fresh me attr rules }
    {
        AnyWaiter {
            attr,
            rules,
            pass: idle_pass(me),
        }
    }
}

impl Waiter for AnyWaiter {
    ghost meaning = { λ l. l };

    fn acquire(&mut self, mode: Mode) -> bool {
        acquire_row_in_place(mode, &mut self.pass)
    }

    fn release(&mut self) -> bool {
        release_row_in_place(&mut self.pass)
    }

    fn moving(&self) -> bool {
        is_moving(self.pass)
    }

    fn ask(&self) -> Ask {
        ask_row(self.rules, self.pass)
    }

    fn watch(&self) -> Watch {
        watch_row(self.pass)
    }

    fn nap(&self) -> Nap {
        self.pass.nap
    }

    fn phase(&self) -> Phase {
        self.pass.phase
    }

    fn registers(&self) -> Registers {
        self.pass.reg
    }

    fn plan(&self) -> Access {
        plan_row(self.rules, self.pass.reg.me, self.pass)
    }

    fn take(&mut self, found: u64, choice: bool) {
        let me = self.pass.reg.me;
        take_row_in_place(self.rules, me, &mut self.pass, found, choice);
    }
}
