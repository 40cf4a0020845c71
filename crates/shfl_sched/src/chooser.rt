//! The rule of a schedule as one that answers the questions of a round.
ghost use Rattle.std.specs.Prelude.{◌≡◌};
ghost use Rattle.shfl_line.specs.Policies.{Adds, skip_answer, should_answer};
ghost use Rattle.shfl_sched.specs.Choices.{skips, groups};

use crate::schedule::Rule;
use shfl_line::{Attr, Chooser};
use std::marker::Model;
use std::sync::Wait;

/// Answers as a rule says. It waits for nobody, and takes no memory.
#[derive(Drop)]
pub struct RuleChooser<'a> {
    rule: &'a Rule,
}

impl<'a> Model for RuleChooser<'a> {
    ghost use Rattle.shfl_sched.specs.declared.schedule.Rule.{Rule};

    ghost Value = { Rule };

    ghost view = { λ c. c.rule.now };
}

impl Rule {
    /// The rule as one that answers.
    pub fn chooser(&self) -> RuleChooser<'_>
        ensures { result ≡ self.now }
    {
        RuleChooser { rule: self }
    }
}

impl<'a> Chooser for RuleChooser<'a> {
    ghost use Rattle.std.specs.Prelude.{[], None, false};

    ghost home = { λ _. [] };

    ghost in_round = { λ _. false };

    ghost told = { λ _. None };

    fn may_move_waiters(&self) -> bool {
        true
    }

    fn begin<Rt: Wait>(&mut self, _rt: &Rt)
        ensures { self.new ≡ self.old }
    {}

    fn skip(&mut self, anchor: &Attr, batch: u16) -> bool
        ensures answer { result ≡ skips self.old anchor.now batch }
        ensures same { self.new ≡ self.old }
    {
        match self.rule {
            Rule::Never | Rule::Always | Rule::Socket => false,
            Rule::Program(policy) => {
                let mut running = policy.running();
                running.skip(anchor, batch)
            }
        }
    }

    fn should(&mut self, anchor: &Attr, waiter: &Attr, batch: u16) -> bool
        ensures answer { result ≡ groups self.old anchor.now waiter.now batch }
        ensures same { self.new ≡ self.old }
    {
        match self.rule {
            Rule::Never => false,
            Rule::Always => true,
            Rule::Socket => anchor.socket == waiter.socket,
            Rule::Program(policy) => {
                let mut running = policy.running();
                running.should(anchor, waiter, batch)
            }
        }
    }

    fn end(&mut self)
        ensures { self.new ≡ self.old }
    {}
}
