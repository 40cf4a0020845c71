//! What a seat at the journal's table knows, the table's rule, and the kinds of step.
use crate::journal::Journal;
use atomic_table::{Join, Play, Split, TableRule};
use std::collections::LinkedList;
use std::snapshot::Snapshot;

/// A pass's number with what goes with it: how many entries it may make, the journal's opening and limit, and the entries that it
/// made. No value of it is made.
pub struct Own<E> {
    pub number: u64,
    pub allowed: u64,
    pub opening: LinkedList<u64>,
    pub limit: u64,
    pub entries: LinkedList<E>,
}

/// What a seat knows. No value of it is made.
pub struct View<E> {
    /// A beginning of the journal; all of it while the journal is out with this seat.
    pub list: LinkedList<E>,
    /// The lists that were joined into it since it last had the journal out.
    pub joined: LinkedList<LinkedList<E>>,
    /// The numbers that are this seat's alone.
    pub own: LinkedList<Own<E>>,
    /// It has the journal out.
    pub out: bool,
}

/// What is fixed at the opening: how many entries each pass may make, and the empty journal.
#[derive(Drop)]
pub struct Terms<J> {
    pub allowed: Snapshot<Vec<u32>>,
    pub journal: Snapshot<J>,
}

/// The journal is at home or out with a seat that has a number, and each seat knows a beginning of it.
pub struct InTurn;

impl<J: Journal> TableRule<Option<J>, View<J::Entry>, Terms<J>> for InTurn {
    ghost use Rattle.shared_journal.specs.Rule.{IsInTurn, first_view};

    ghost holds = { λ k. IsInTurn J.entries J.limit J.opening J.legal J.worker k.allowed.value.items
        (J.opening k.journal.value) (J.limit k.journal.value) };

    ghost first = { λ k. first_view k.allowed.value.items (J.opening k.journal.value)
        (J.limit k.journal.value) };
}

/// Takes the journal out, where it is at home.
pub struct TakeOut;

impl<J: Journal> Play<Option<J>, View<J::Entry>> for TakeOut {
    ghost use Rattle.shared_journal.specs.Rule.{take_play};

    ghost then = { λ _ m n m'. take_play J.entries J.limit J.opening J.legal J.worker m n m' };
}

/// Puts the journal back.
pub struct PutBack;

impl<J: Journal> Play<Option<J>, View<J::Entry>> for PutBack {
    ghost use Rattle.shared_journal.specs.Rule.{put_play};

    ghost then = { λ _ m _ m'. put_play J.entries J.worker m m' };
}

/// Splits off the first number.
pub struct NextPass;

impl<E> Split<View<E>> for NextPass {
    ghost use Rattle.shared_journal.specs.Rule.{without_first, only_first};

    ghost left = { without_first };

    ghost right = { only_first };
}

/// Splits off a seat that has no number.
pub struct NextPrefix;

impl<E> Split<View<E>> for NextPrefix {
    ghost use Rattle.shared_journal.specs.Rule.{unnumbered};

    ghost left = { λ v. v };

    ghost right = { unnumbered };
}

/// Joins a seat to another, with its list and its numbers.
pub struct Together;

impl<E> Join<View<E>> for Together {
    ghost use Rattle.shared_journal.specs.Rule.{both, spent};

    ghost both = { both };

    ghost spent = { spent };
}
