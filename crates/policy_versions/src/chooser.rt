//! The chooser of a lock's user: each round is answered by one version of live policies.
ghost use Rattle.std.specs.Prelude.{◌≡◌, ◌⊎◌, [], ◌∷◌, None, IsSome, IsSomeAnd, IfSome};
ghost use Rattle.round_log.specs.Logs.{AddsNote, told_in};
ghost use Rattle.shfl_line.specs.Policies.{Adds, skip_answer, should_answer};
ghost use Rattle.shfl_line.specs.declared.choosers.Told.TheVariants.{Begun, Answered, Ended};
ghost use Rattle.policy_versions.specs.Choosing.{policy_of, skipped, moved_up, with_log};
ghost use Rattle.policy_versions.specs.Models.{IsClosed, IsNewest, LoadedLast};
ghost use Rattle.policy_versions.specs.Noting.{IsLogOf, note_of};
ghost use Rattle.policy_versions.specs.Rule.{word_of};

use crate::registry::{Registry, Using, VersionPass};
use round_log::Note;
use shfl_line::{Answer, Attr, Chooser, Told};
use std::marker::Model;
use std::sync::Wait;

/// Answers the questions of a round by the version that is current when the round begins. It enters once a round, and holds that
/// version until the round ends. A question outside a round is answered no. What it is told goes into the pass's log, with the version.
pub struct UsingChooser<'a, 'p> {
    registry: &'a Registry,
    pass: &'p mut VersionPass,
    held: Option<Using<'a>>,
    moves: bool,
}

impl<'a, 'p> Model for UsingChooser<'a, 'p> {
    ghost use Rattle.std.specs.Prelude.{◌≡◌};
    ghost use Rattle.policy_versions.specs.Choosing.{ChooserModel, IsHeldBy, is_open};
    ghost use Rattle.policy_versions.specs.Noting.{IsLogOf, IsNotedLast};

    ghost Value = { ChooserModel };

    ghost view = { λ c. record {
      registry = c.registry.now;
      name = c.pass.ghost_name;
      pass = c.pass.now;
      held = c.held;
      moves = c.moves;
    } };

    ghost invariant = { λ c. (c.pass.now.registry.table ≡ c.registry.now.table)
        × (c.pass.now.is_open ≡ is_open c.held)
        × IsHeldBy c.registry.now c.pass.now.user c.pass.now.seen c.held
        × IsLogOf c.registry.now.declared c.pass.now.seen c.pass.now.log
        × IsNotedLast c.held c.pass.now.log };
}

// What is told under a use.
fn noted(held: &Using<'_>, told: Told) -> Note
    ensures { result ≡ note_of held.now told }
{
    Note {
        version: held.version(),
        which: held.which(),
        told,
    }
}

impl<'a, 'p> UsingChooser<'a, 'p> {
    /// No round is open yet. `moves` says whether waiters are to be there for its policies: where not, a pass tries for the lock for a
    /// while before it queues. No answer rests on it.
    pub fn new(
        registry: &'a Registry,
        pass: &'p mut VersionPass,
        moves: bool,
    ) -> UsingChooser<'a, 'p>
        requires pass { IsClosed registry.now pass.old }
        requires log { IsLogOf registry.now.declared pass.old.seen pass.old.log }
        ensures registry { result.registry ≡ registry.now }
        ensures pass { (result.name ≡ pass.entry.ghost_name) × (result.pass ≡ pass.entry.now) }
        ensures closed { result.held ≡ None }
        ensures moves { result.moves ≡ moves }
    {
        UsingChooser {
            registry,
            pass,
            held: None,
            moves,
        }
    }

    /// Gives the pass back, and leaves the version of a round that is still open. Were the registry another one by now, whose policies
    /// aren't these, the log would be forgotten: the clauses of the calls, which know any chooser, don't say that it has its own still.
    pub fn done(self, registry: &Registry) -> &'p mut VersionPass
        ensures pass { result.ghost_name ≡ self.entry.name }
        ensures user { result.now.user ≡ self.entry.pass.user }
        ensures closed { IsClosed self.entry.registry result.now }
        ensures noted { self.entry.held ≡ None
            → (result.now.log ≡ self.entry.pass.log) ⊎ (result.now.log ≡ None) }
        ensures kept { IsLogOf registry.now.declared result.now.seen result.now.log }
    {
        let mut chooser = self;
        if chooser.held.is_some() {
            chooser.end();
        }
        let UsingChooser {
            registry: used,
            pass,
            held,
            moves: _,
        } = chooser;
        let None = held else { unreachable!() };
        if !used.declares_as(registry) {
            pass.forget();
        }
        pass
    }
}

impl<'a, 'p> Chooser for UsingChooser<'a, 'p> {
    ghost use Rattle.std.specs.Prelude.{None};
    ghost use Rattle.round_log.specs.Logs.{told_in};
    ghost use Rattle.policy_versions.specs.Choosing.{home_of, is_open};

    ghost home = { λ c. home_of c };

    ghost moves_waiters = { λ c. c.moves };

    ghost in_round = { λ c. is_open c.held };

    ghost told = { λ c. told_in c.pass.log };

    fn may_move_waiters(&self) -> bool {
        self.moves
    }

    fn begin<Rt: Wait>(&mut self, rt: &Rt)
        ensures registry { self.new.registry ≡ self.old.registry }
        ensures pass { (self.new.name ≡ self.old.name) × (self.new.pass.user ≡ self.old.pass.user) }
        ensures moves { self.new.moves ≡ self.old.moves }
        ensures open { IsSome self.new.held }

        // A round that is open goes on. Another one has the version that was current at the last load of this call, and none that is
        // older than one that the pass has loaded before.
        ensures goes_on { IsSome self.old.held
            → self.new ≡ with_log self.old self.new.pass.log }
        ensures current { self.old.held ≡ None → IsSomeAnd self.new.held
            (λ u. LoadedLast self.old.pass.seen self.new.pass.seen (word_of u.version u.which)) }
        ensures newest { self.old.held ≡ None → IsSomeAnd self.new.held
            (λ u. IsNewest self.old.pass.seen u.version) }

        // The log says that a round began, and by which version it is answered.
        ensures noted { IsSomeAnd self.new.held
            (λ u. AddsNote self.old.pass.log self.new.pass.log (note_of u Begun)) }
        ensures told { Adds (told_in self.old.pass.log) (told_in self.new.pass.log) (Begun ∷ []) }
    {
        if let Some(held) = &self.held {
            self.pass.note(noted(held, Told::Begun));
            return;
        }
        let held = self.pass.enter(rt, self.registry);
        self.pass.note(noted(&held, Told::Begun));
        let old = self.held.replace(held);
        let None = old else { unreachable!() };
    }

    fn skip(&mut self, anchor: &Attr, batch: u16) -> bool
        ensures answer { result ≡ skipped (policy_of self.old) anchor.now batch }
        ensures same { self.new ≡ with_log self.old self.new.pass.log }
        ensures noted { IfSome self.old.held (λ u. AddsNote self.old.pass.log self.new.pass.log
            (note_of u (Answered (skip_answer anchor.now batch result)))) }
        ensures told { Adds (told_in self.old.pass.log) (told_in self.new.pass.log)
            (Answered (skip_answer anchor.now batch result) ∷ []) }
    {
        let Some(held) = &self.held else {
            self.pass.forget();
            return false;
        };
        let answer = held.policy(self.registry).running().skip(anchor, batch);
        let told = Told::Answered(Answer {
            anchor: *anchor,
            waiter: None,
            batch,
            answer,
        });
        self.pass.note(noted(held, told));
        answer
    }

    fn should(&mut self, anchor: &Attr, waiter: &Attr, batch: u16) -> bool
        ensures answer { result ≡ moved_up (policy_of self.old) anchor.now waiter.now batch }
        ensures same { self.new ≡ with_log self.old self.new.pass.log }
        ensures noted { IfSome self.old.held (λ u. AddsNote self.old.pass.log self.new.pass.log
            (note_of u (Answered (should_answer anchor.now waiter.now batch result)))) }
        ensures told { Adds (told_in self.old.pass.log) (told_in self.new.pass.log)
            (Answered (should_answer anchor.now waiter.now batch result) ∷ []) }
    {
        let Some(held) = &self.held else {
            self.pass.forget();
            return false;
        };
        let answer = held
            .policy(self.registry)
            .running()
            .should(anchor, waiter, batch);
        let told = Told::Answered(Answer {
            anchor: *anchor,
            waiter: Some(*waiter),
            batch,
            answer,
        });
        self.pass.note(noted(held, told));
        answer
    }

    fn end(&mut self)
        ensures registry { self.new.registry ≡ self.old.registry }
        ensures pass { (self.new.name ≡ self.old.name) × (self.new.pass.user ≡ self.old.pass.user) }
        ensures closed { self.new.held ≡ None }
        ensures noted { IfSome self.old.held
            (λ u. AddsNote self.old.pass.log self.new.pass.log (note_of u Ended)) }
        ensures told { Adds (told_in self.old.pass.log) (told_in self.new.pass.log) (Ended ∷ []) }
    {
        let Some(held) = self.held.take() else {
            self.pass.forget();
            return;
        };
        self.pass.note(noted(&held, Told::Ended));
        self.pass.leave(self.registry, held);
    }
}
