//! Policies: whoever answers the questions of a round.
ghost use Rattle.std.specs.Prelude.{◌≡◌, ℕ, List, [], ◌∷◌, Option, None, Bool, true, false, ◌==◌};
ghost use Rattle.shfl_line.specs.Policies.{Adds, should_answer, skip_answer};
ghost use Rattle.shfl_line.specs.declared.choosers.Told.TheVariants.{Begun, Answered, Ended};

use crate::words::Attr;
use std::sync::Wait;

/// One answer of a policy. A question without a waiter asks whether to skip the round.
#[derive(Clone, Copy, Debug, PartialEq, Eq, Drop)]
pub struct Answer {
    pub anchor: Attr,
    pub waiter: Option<Attr>,
    pub batch: u16,
    pub answer: bool,
}

/// What a policy is told: that a round begins, a question with its answer, or that the round ended.
#[derive(Clone, Copy, Debug, PartialEq, Eq, Drop)]
pub enum Told {
    Begun,
    Answered(Answer),
    Ended,
}

/// Answers the questions of a round: whether to skip it, and whether a waiter should be moved up.
pub trait Chooser {
    ghost use Rattle.shfl_line.specs.declared.choosers.Told.{Told};

    /// Plain data that no call changes.
    ghost home: { Self → List ℕ };

    /// Whether a round is open.
    ghost in_round: { Self → Bool };

    /// What it was told so far, each call in its turn, where it keeps that.
    ghost told: { Self → Option (List Told) };

    /// Whether it may move a waiter up.
    ghost moves_waiters: { Self → Bool } = { λ _. true };

    /// Whether it may move a waiter up. Where none does, a pass may try for a while before it queues.
    fn may_move_waiters(&self) -> bool
        ensures { result ≡ moves_waiters self.now };

    /// Opens a round. It may wait for another thread.
    fn begin<Rt: Wait>(&mut self, rt: &Rt)
        ensures home { home self.new ≡ home self.old }
        ensures told { Adds (told self.old) (told self.new) (Begun ∷ []) };

    /// Whether the round ends before its first waiter. `anchor` is the pass that asks.
    fn skip(&mut self, anchor: &Attr, batch: u16) -> bool
        ensures home { home self.new ≡ home self.old }
        ensures in_round { in_round self.new ≡ in_round self.old }
        ensures told { Adds (told self.old) (told self.new)
            (Answered (skip_answer anchor.now batch result) ∷ []) };

    /// Whether the waiter should join the group of the asking pass.
    fn should(&mut self, anchor: &Attr, waiter: &Attr, batch: u16) -> bool
        ensures home { home self.new ≡ home self.old }
        ensures in_round { in_round self.new ≡ in_round self.old }
        ensures told { Adds (told self.old) (told self.new)
            (Answered (should_answer anchor.now waiter.now batch result) ∷ []) };

    /// Closes the round.
    fn end(&mut self)
        ensures home { home self.new ≡ home self.old }
        ensures in_round { in_round self.new ≡ false }
        ensures told { Adds (told self.old) (told self.new) (Ended ∷ []) };
}

/// Answers no to all.
#[derive(Clone, Copy, Debug, PartialEq, Eq, Drop)]
pub struct Never;

impl Chooser for Never {
    ghost home = { λ _. [] };

    ghost moves_waiters = { λ _. false };

    ghost in_round = { λ _. false };

    ghost told = { λ _. None };

    fn may_move_waiters(&self) -> bool {
        false
    }

    fn begin<Rt: Wait>(&mut self, _rt: &Rt) {}

    fn skip(&mut self, _anchor: &Attr, _batch: u16) -> bool
        ensures answer { result ≡ false }
    {
        false
    }

    fn should(&mut self, _anchor: &Attr, _waiter: &Attr, _batch: u16) -> bool
        ensures answer { result ≡ false }
    {
        false
    }

    fn end(&mut self) {}
}

/// Moves every waiter up, and never skips.
#[derive(Clone, Copy, Debug, PartialEq, Eq, Drop)]
pub struct Always;

impl Chooser for Always {
    ghost home = { λ _. [] };

    ghost in_round = { λ _. false };

    ghost told = { λ _. None };

    fn may_move_waiters(&self) -> bool {
        true
    }

    fn begin<Rt: Wait>(&mut self, _rt: &Rt) {}

    fn skip(&mut self, _anchor: &Attr, _batch: u16) -> bool
        ensures answer { result ≡ false }
    {
        false
    }

    fn should(&mut self, _anchor: &Attr, _waiter: &Attr, _batch: u16) -> bool
        ensures answer { result ≡ true }
    {
        true
    }

    fn end(&mut self) {}
}

/// Moves up the waiters of the asking pass's own socket, and never skips.
#[derive(Clone, Copy, Debug, PartialEq, Eq, Drop)]
pub struct BySocket;

impl Chooser for BySocket {
    ghost home = { λ _. [] };

    ghost in_round = { λ _. false };

    ghost told = { λ _. None };

    fn may_move_waiters(&self) -> bool {
        true
    }

    fn begin<Rt: Wait>(&mut self, _rt: &Rt) {}

    fn skip(&mut self, _anchor: &Attr, _batch: u16) -> bool
        ensures answer { result ≡ false }
    {
        false
    }

    fn should(&mut self, anchor: &Attr, waiter: &Attr, _batch: u16) -> bool
        ensures answer { result ≡ (anchor.now.socket == waiter.now.socket) }
    {
        anchor.socket == waiter.socket
    }

    fn end(&mut self) {}
}
