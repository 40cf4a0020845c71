//! The waiter of a lock that only writers use, and that nobody parks at.
ghost use Rattle.std.specs.Prelude.{◌≡◌, false};
ghost use Rattle.shfl_line.specs.declared.events.Form.TheVariants.{Spin};
ghost use Rattle.shfl_core.specs.Waiting.{Meaning, fresh};

use crate::asks::{
    acquire_row_in_place, ask_row, idle_pass, is_moving, release_row_in_place, watch_row,
};
use crate::phase::{Ask, Nap, PassState, Phase, Registers, Rules, Watch};
use crate::plans::plan_row;
use crate::rows::take_row_in_place;
use crate::waiter::Waiter;
use crate::words::Access;
use shfl_line::{Attr, Form, Mode};
use std::marker::Model;

/// A waiter in form `Spin`.
#[derive(Debug, Drop)]
pub struct Local {
    attr: Attr,
    limit: u16,
    pass: PassState,
}

impl Model for Local {
    ghost use Rattle.shfl_line.specs.declared.events.Form.TheVariants.{Spin};
    ghost use Rattle.shfl_core.specs.Waiting.{Meaning};

    ghost Value = { Meaning };

    ghost view = { λ l. record {
      attr = l.attr;
      rules = record { limit = l.limit; form = Spin };
      pass = l.pass;
    } };

    ghost use Rattle.std.specs.Prelude.{◌≡◌};
    ghost use Rattle.shfl_core.specs.declared.phase.Nap.TheVariants.{Awake};

    ghost invariant = { λ l. l.pass.nap ≡ Awake };
}

impl Local {
    /// The pass `me`, idle.
    pub fn new(me: u32, attr: Attr, limit: u16) -> Local
        ensures { result ≡ fresh me attr (record { limit = limit; form = Spin }) }
    {
        Local {
            attr,
            limit,
            pass: idle_pass(me),
        }
    }
}

fn spinning(limit: u16) -> Rules
    ensures { result ≡ record { limit = limit; form = Spin } }
{
    Rules {
        limit,
        form: Form::Spin,
    }
}

impl Waiter for Local {
    ghost meaning = { λ l. l };

    fn acquire(&mut self, mode: Mode) -> bool {
        acquire_row_in_place(mode, &mut self.pass)
    }

    fn release(&mut self) -> bool {
        release_row_in_place(&mut self.pass)
    }

    fn moving(&self) -> bool {
        is_moving(self.pass)
    }

    fn ask(&self) -> Ask {
        ask_row(spinning(self.limit), self.pass)
    }

    fn watch(&self) -> Watch {
        watch_row(self.pass)
    }

    fn nap(&self) -> Nap {
        self.pass.nap
    }

    fn phase(&self) -> Phase {
        self.pass.phase
    }

    fn registers(&self) -> Registers {
        self.pass.reg
    }

    fn plan(&self) -> Access {
        plan_row(spinning(self.limit), self.pass.reg.me, self.pass)
    }

    fn take(&mut self, found: u64, choice: bool) {
        let me = self.pass.reg.me;
        take_row_in_place(spinning(self.limit), me, &mut self.pass, found, choice);
    }
}
