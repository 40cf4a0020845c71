//! The chooser of a taker: the one policy of the pool answers, and what it is told goes into a log.
ghost use Rattle.std.specs.Prelude.{◌≡◌, ◌⊎◌, [], ◌∷◌, None, Some};
ghost use Rattle.shfl_line.specs.Policies.{Adds, skip_answer, should_answer};
ghost use Rattle.shfl_line.specs.declared.choosers.Told.TheVariants.{Begun, Answered, Ended};
ghost use Rattle.shfl_policy.specs.Policies.{skip_of, should_of};
ghost use Rattle.round_log.specs.Logs.{told_in};
ghost use Rattle.policy_versions.specs.Noting.{IsAnswerOf};
ghost use Rattle.call_pool.specs.Rounds.{AreRoundsBy};

use round_log::{Note, RoundLog};
use shfl_line::{Answer, Attr, Chooser, Told};
use shfl_policy::Policy;
use std::marker::Model;
use std::sync::Wait;

/// Answers by one policy, which is version 0 and the first of its versions. What it is told goes into a log.
pub struct OnePolicy<'a, 'p> {
    policy: &'a Policy,
    log: &'p mut RoundLog,
}

impl<'a, 'p> Model for OnePolicy<'a, 'p> {
    ghost use Rattle.call_pool.specs.Rounds.{OnePolicyModel, AreRoundsBy};

    ghost Value = { OnePolicyModel };

    ghost view = { λ c. record {
      policy = c.policy.now;
      log_name = c.log.ghost_name;
      log = c.log.now;
    } };

    ghost invariant = { λ c. AreRoundsBy c.policy.now c.log.now };
}

impl<'a, 'p> OnePolicy<'a, 'p> {
    /// The log is of this policy's rounds.
    pub fn new(policy: &'a Policy, log: &'p mut RoundLog) -> OnePolicy<'a, 'p>
        requires { AreRoundsBy policy.now log.old }
        ensures policy { result.policy ≡ policy.now }
        ensures log { (result.log_name ≡ log.entry.ghost_name) × (result.log ≡ log.entry.now) }
    {
        OnePolicy { policy, log }
    }

    // The policy was told this.
    fn note(&mut self, told: Told)
        requires { IsAnswerOf (Some self.old.policy) told }
        ensures same { self.new ≡ record self.old { log = self.new.log } }
        ensures told { Adds (told_in self.old.log) (told_in self.new.log) (told ∷ []) }
    {
        self.log.add(Note {
            version: 0,
            which: 0,
            told,
        });
    }

    /// Gives the log back. Had the chooser another policy by now, the log would forget all: the clauses of the calls, which know any
    /// chooser, don't say that it has its own still.
    pub fn done(self, policy: &Policy) -> &'p mut RoundLog
        ensures log { result.ghost_name ≡ self.entry.log_name }
        ensures kept { (result.now ≡ self.entry.log) ⊎ (result.now ≡ None) }
        ensures answered { AreRoundsBy policy.now result.now }
    {
        let OnePolicy { policy: asked, log } = self;
        if !asked.same(policy) {
            log.forget();
        }
        log
    }
}

impl<'a, 'p> Chooser for OnePolicy<'a, 'p> {
    ghost use Rattle.std.specs.Prelude.{[], ◌∷◌, false, is_some};
    ghost use Rattle.round_log.specs.Logs.{told_in};

    ghost home = { λ c. c.log_name ∷ [] };

    ghost in_round = { λ _. false };

    ghost told = { λ c. told_in c.log };

    ghost moves_waiters = { λ c. is_some c.policy.should };

    fn may_move_waiters(&self) -> bool {
        self.policy.should_program().is_some()
    }

    fn begin<Rt: Wait>(&mut self, _rt: &Rt)
        ensures same { self.new ≡ record self.old { log = self.new.log } }
        ensures told { Adds (told_in self.old.log) (told_in self.new.log) (Begun ∷ []) }
    {
        self.note(Told::Begun);
    }

    fn skip(&mut self, anchor: &Attr, batch: u16) -> bool
        ensures answer { result ≡ skip_of self.old.policy anchor.now batch }
        ensures same { self.new ≡ record self.old { log = self.new.log } }
        ensures told { Adds (told_in self.old.log) (told_in self.new.log)
            (Answered (skip_answer anchor.now batch result) ∷ []) }
    {
        let answer = self.policy.running().skip(anchor, batch);
        self.note(Told::Answered(Answer {
            anchor: *anchor,
            waiter: None,
            batch,
            answer,
        }));
        answer
    }

    fn should(&mut self, anchor: &Attr, waiter: &Attr, batch: u16) -> bool
        ensures answer { result ≡ should_of self.old.policy anchor.now waiter.now batch }
        ensures same { self.new ≡ record self.old { log = self.new.log } }
        ensures told { Adds (told_in self.old.log) (told_in self.new.log)
            (Answered (should_answer anchor.now waiter.now batch result) ∷ []) }
    {
        let answer = self.policy.running().should(anchor, waiter, batch);
        self.note(Told::Answered(Answer {
            anchor: *anchor,
            waiter: Some(*waiter),
            batch,
            answer,
        }));
        answer
    }

    fn end(&mut self)
        ensures same { self.new ≡ record self.old { log = self.new.log } }
        ensures told { Adds (told_in self.old.log) (told_in self.new.log) (Ended ∷ []) }
    {
        self.note(Told::Ended);
    }
}
