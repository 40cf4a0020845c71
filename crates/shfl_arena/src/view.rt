//! What is known of the threads of an arena and of their seats, and the rule of the table.
use crate::shape::Shape;
use atomic_table::{Join, Split, TableRule};
use shfl_core::{Ask, PassState, Rules};
use shfl_line::Mode;
use std::collections::LinkedList;

/// Where a thread stands, as others may see it. No value of it is made: it stands in meanings alone.
pub struct ThreadView {
    /// The lock where it has a step to make.
    pub at: Option<u64>,
    /// Its pass there: at any phase but `Idle` and, awake, `Held`.
    pub pass: PassState,
    /// The locks that it holds and has no step to make at, each with its mode.
    pub holds: LinkedList<(u64, Mode)>,
}

/// A question that a step put to the policy, with the choice that it was given. No value of it is made.
pub struct Decision {
    pub ask: Ask,
    pub choice: bool,
}

/// What a seat knows. No value of it is made.
pub struct SeatView {
    /// Its place among the seats.
    pub number: u64,
    /// It is the last one, who may split off the next.
    pub last: bool,
    /// How many seats it stands for: itself, and those that it took back; none once it was given back itself.
    pub seats: u64,
    pub thread: ThreadView,
    pub steps_taken: u64,
    pub decisions: LinkedList<Decision>,
}

/// What the opening fixes.
#[derive(Drop)]
pub struct Opening {
    pub shape: Shape,
    pub rules: Rules,
    pub threads: u32,
}

/// Each lock is lawful, and has its value at home while nobody holds it as a writer.
pub struct LawfulArena;

impl<V> TableRule<Option<V>, SeatView, Opening> for LawfulArena {
    ghost use Rattle.shfl_arena.specs.ArenaTable.{LawfulTable};
    ghost use Rattle.shfl_arena.specs.SeatViews.{new_seat};

    ghost holds = { λ k. LawfulTable k.shape k.rules k.threads };

    ghost first = { λ k. new_seat 0 };
}

/// The last seat splits off the next one.
pub struct NextSeat;

impl Split<SeatView> for NextSeat {
    ghost use Rattle.shfl_arena.specs.SeatViews.{not_last, next_seat};

    ghost left = { not_last };

    ghost right = { next_seat };
}

/// A seat that holds nothing is given back to another.
pub struct ReturnSeat;

impl Join<SeatView> for ReturnSeat {
    ghost use Rattle.shfl_arena.specs.SeatViews.{spent_seat, with_seats_of};

    ghost both = { with_seats_of };

    ghost spent = { spent_seat };
}
