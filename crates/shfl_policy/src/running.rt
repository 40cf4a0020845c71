//! A policy that answers the questions of a round.
ghost use Rattle.std.specs.Prelude.{◌≡◌};
ghost use Rattle.shfl_line.specs.Policies.{Adds, skip_answer, should_answer};
ghost use Rattle.shfl_policy.specs.Policies.{answer, should_of, skip_of, no_waiter};

use crate::asked::context;
use crate::policy::Policy;
use bpf_run::value;
use bpf_verifier::Program;
use shfl_line::{Attr, Chooser};
use std::marker::Model;
use std::sync::Wait;

/// Answers by the programs of a policy: yes where the value isn't 0, and no where there is no program.
#[derive(Drop)]
pub struct Running<'a> {
    policy: &'a Policy,
}

impl<'a> Model for Running<'a> {
    ghost use Rattle.shfl_policy.specs.Policies.{PolicyModel};

    ghost Value = { PolicyModel };

    ghost view = { λ r. r.policy.now };
}

fn answered(program: &Option<Program>, context: &[u8; 40]) -> bool
    ensures { result ≡ answer program.now context.now }
{
    match program {
        None => false,
        Some(program) => value(program, context) != 0,
    }
}

impl<'a> Running<'a> {
    pub(crate) fn of(policy: &'a Policy) -> Running<'a>
        ensures { result ≡ policy.now }
    {
        Running { policy }
    }
}

/// The attributes of no waiter.
const NOBODY: Attr = Attr {
    socket: 0,
    prio: 0,
    class: 0,
    kind: 0,
};

impl<'a> Chooser for Running<'a> {
    ghost use Rattle.std.specs.Prelude.{[], None, false, is_some};

    ghost home = { λ _. [] };

    ghost in_round = { λ _. false };

    ghost told = { λ _. None };

    ghost moves_waiters = { λ r. is_some r.should };

    fn may_move_waiters(&self) -> bool {
        self.policy.should_program().is_some()
    }

    fn begin<Rt: Wait>(&mut self, _rt: &Rt)
        ensures { self.new ≡ self.old }
    {}

    fn skip(&mut self, anchor: &Attr, batch: u16) -> bool
        ensures answer { result ≡ skip_of self.old anchor.now batch }
        ensures same { self.new ≡ self.old }
    {
        answered(self.policy.skip_program(), &context(anchor, &NOBODY, batch))
    }

    fn should(&mut self, anchor: &Attr, waiter: &Attr, batch: u16) -> bool
        ensures answer { result ≡ should_of self.old anchor.now waiter.now batch }
        ensures same { self.new ≡ self.old }
    {
        answered(
            self.policy.should_program(),
            &context(anchor, waiter, batch),
        )
    }

    fn end(&mut self)
        ensures { self.new ≡ self.old }
    {}
}
